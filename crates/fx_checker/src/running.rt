//! The checker as a program, from its arguments to its exit status.
ghost use Rattle.std.specs.Prelude.{◌≡◌, ◌≢◌, ◌⊎◌, IfErr, length, string_bytes};
ghost use Rattle.fx_base.specs.Device.{IsWriteFault, KeepsGoing};
ghost use Rattle.fx_base.specs.Fault.{fault_at};
ghost use Rattle.fx_base.specs.Refusals.{failed_read};
ghost use Rattle.fx_base.specs.declared.fault.Place.TheVariants as places;
ghost use Rattle.fx_checker.specs.Arguments.{EndsWithSomeText, is_help_request, usage_status};
ghost use Rattle.fx_checker.specs.Ending.{IsExitStatus};
ghost use Rattle.fx_checker.specs.Outputs.{AnswersWith};
ghost use Rattle.fx_checker.specs.Running.{EndsAs, HasFailedToWrite, IsCheckOutput, IsCheckRefusal, IsRefusal};

use crate::answer::Answer;
use crate::arguments::{NO_CALL, all_arguments, asks_for_help, finish_unread};
use crate::check_command::check_bytes;
use crate::ending::{finish, put_and_end};
use fx_base::{Fault, LineReader, Outside, Sink, refusals};
use std::rt::{Env, Files};
use std::{fs, io};

/// How the program is called.
const USAGE: &[u8] = b"usage: once_check NETWORK TRAFFIC CERTIFICATE

Checks the certificate in the file CERTIFICATE, whoever made it, for the network and the traffic that the files NETWORK and
TRAFFIC declare. Writes `yes` if every packet of the traffic is counted exactly once by every complete run of the network;
`no N line L` if line L of the certificate is refused with the number N; and otherwise why there is no answer, as `once
check` does. It is proved over fewer crates than `once`: nothing that searches, meters or explains.

exit status:
  0  yes                        4  out of memory
  1  no                         5  a file can't be read, or the output can't be written
  2  an input is refused        6  these arguments name no check
";

/// Opens a file for reading from its beginning.
///
/// Fails with 901, at no place, if it can't be opened.
fn open<R: Files>(rt: &R, path: &str) -> Result<Outside<R::File>, Fault>
    ensures { IfErr result (λ e. e ≡ fault_at failed_read places.None) }
{
    match fs::open(rt, path) {
        Ok(file) => Ok(Outside::new(file)),
        Err(_) => Err(Fault::bare(refusals::FAILED_READ)),
    }
}

/// Checks the certificate in the given files.
///
/// Fails as [`check_bytes`] does, and with 901, at no place, if a file can't be opened.
fn check_files<R: AllocGlobal + Files, S: Sink>(
    rt: &R,
    network: &str,
    traffic: &str,
    certificate: &str,
    sink: &mut S,
) -> Result<Answer, Fault>
    ensures answers { AnswersWith S.taken S.failed IsCheckOutput sink.old sink.new result }
    ensures refused { IfErr result (λ e. IsWriteFault (S.failed sink.new) e
        ⊎ IsRefusal IsCheckRefusal e) }
{
    let mut network = open(rt, network)?;
    let mut traffic = open(rt, traffic)?;
    let certificate = open(rt, certificate)?;
    let mut lines = LineReader::new(rt.alloc(), certificate)?;
    check_bytes(rt.alloc(), &mut network, &mut traffic, &mut lines, sink)
}

/// Checks the certificate in the given files. Returns the exit status.
fn finish_check<R: AllocGlobal + Files, S: Sink>(
    rt: &R,
    network: &str,
    traffic: &str,
    certificate: &str,
    sink: &mut S,
) -> u8
    ensures ended { EndsAs IsCheckOutput (IsRefusal IsCheckRefusal) (S.taken sink.old)
        (S.taken sink.new)
        (KeepsGoing (S.failed sink.old) (S.failed sink.new))
        (HasFailedToWrite S.taken S.failed sink.new) result }
    ensures exit { IsExitStatus result }
{
    let answer = check_files(rt, network, traffic, certificate, sink);
    finish(&answer, sink)
}

/// Writes how the program is called. Returns the exit status: 0 if the arguments request that, otherwise 6, and 5 if
/// the text can't be written.
fn put_usage<S: Sink>(arguments: &[String], sink: &mut S) -> u8
    ensures ended { EndsWithSomeText S.taken S.failed
        (usage_status (is_help_request string_bytes arguments.now)) sink.old sink.new result }
    ensures exit { IsExitStatus result }
{
    if asks_for_help(arguments) {
        put_and_end(USAGE, 0, sink)
    } else {
        put_and_end(USAGE, NO_CALL, sink)
    }
}

/// Answers arguments, of which the first is the program's own name: checks the certificate if the others name three
/// files, and otherwise writes how the program is called. Returns the exit status.
///
/// The status is 0 for an answer of yes, or if help is requested, 1 for no, 2 for a refusal, 4 if out of memory, 5 if a
/// device failed, and 6 if the arguments are others.
pub fn answer_arguments<R: AllocGlobal + Files, S: Sink>(
    rt: &R,
    arguments: &[String],
    sink: &mut S,
) -> u8
    ensures check { length arguments.now ≡ 4
        → EndsAs IsCheckOutput (IsRefusal IsCheckRefusal) (S.taken sink.old) (S.taken sink.new)
        (KeepsGoing (S.failed sink.old) (S.failed sink.new))
        (HasFailedToWrite S.taken S.failed sink.new) result }
    ensures usage { length arguments.now ≢ 4
        → EndsWithSomeText S.taken S.failed
        (usage_status (is_help_request string_bytes arguments.now)) sink.old sink.new result }
    ensures exit { IsExitStatus result }
{
    match arguments {
        [_, network, traffic, certificate] => finish_check(
            rt,
            network.as_str(),
            traffic.as_str(),
            certificate.as_str(),
            sink,
        ),
        _ => put_usage(arguments, sink),
    }
}

/// Runs the program: reads its arguments, answers on standard output, and returns its exit status.
pub fn run<R: AllocGlobal + Env + Files + Print>(rt: &R) -> u8
    ensures { IsExitStatus result }
{
    let mut sink = Outside::new(io::writer(rt));
    match all_arguments(rt) {
        Ok(arguments) => answer_arguments(rt, arguments.as_slice(), &mut sink),
        Err(error) => finish_unread(error.kind(), &mut sink),
    }
}
