//! A command, from its arguments to its exit status.
ghost use Rattle.std.specs.Prelude.{◌≡◌, ◌⊎◌, ◌≤◌, ◌<◌, IfErr, IfOk, length, map, string_bytes, true, false};
ghost use Rattle.fx_checker.specs.Outputs.{AnswersWith};
ghost use Rattle.fx_checker.specs.Ending.{EndsWith, IsExitStatus};
ghost use Rattle.fx_cli.specs.Arguments.{EndsByOptions, EndsByGivenArguments, EndsAfterFlush};
ghost use Rattle.fx_cli.specs.OptionFlag.{AddsHelp, wants_help};
ghost use Rattle.fx_cli.specs.Running.{EndsExplained, HasFailedExplained, IsBundleRefusal, IsBundleOutput, IsCallRefusal, IsCallText};
ghost use Rattle.fx_command_line.specs.Words.{Names, NamesNoCall};
ghost use Rattle.fx_command_line.specs.declared.words.Call.{Call};
ghost use Rattle.fx_cli.specs.ArgumentErrors.{EndsWithoutCall};
ghost use Rattle.std.specs.IoError.{error_kind};
ghost use Rattle.fx_base.specs.Device.{IsWriteFault, KeepsGoing};
ghost use Rattle.fx_checker.specs.Running.{EndsAs, HasFailedToWrite, IsRefusal};
ghost use Rattle.fx_checker.specs.Arguments.{unread_status, unread_text};

use crate::argument_errors::finish_arguments;
use crate::commands::answer_call;
use crate::explained_answer::explanation_of;
use crate::file_names::{BUNDLE, names_of};
use crate::in_json::answer_in_json;
use crate::notes::Extras;
use crate::option_flag::{take_flag, take_format};
use crate::seeds::seed_at_random;
use crate::sentences::{Wanted, wanted_of};
use fx_audit::{Answer, bundle_explained};
use fx_base::{Fault, Outside, Sink, refusals};
use fx_checker::{WRITE_FAILED, all_arguments, finish, finish_unread, finish_with};
use fx_command_line::{Call, read_words};
use std::alloc::{AllocError, Global};
use std::io::{self, BufWriter};
use std::mem;
use std::random::RandomSource;
use std::rt::{Clock, Env, Files};

/// Answers the bundle on standard input.
pub(crate) fn answer_input<R: AllocGlobal + Input + RandomSource, S: Sink>(
    rt: &R,
    notes: &mut Extras<'_>,
    sink: &mut S,
) -> Result<Answer, Fault>
    ensures answers { AnswersWith S.taken S.failed IsBundleOutput sink.old sink.new result }
    ensures refused { IfErr result (λ e. IsWriteFault (S.failed sink.new) e
        ⊎ IsRefusal IsBundleRefusal e) }
{
    let seed = seed_at_random(rt)?;
    let mut input = Outside::new(rt.reader());
    let answer = bundle_explained(rt.alloc(), seed, &mut input, &mut notes.sentences, sink);
    notes.unread_bundle(&answer);
    answer
}

/// Answers the bundle on standard input. Returns the exit status.
fn finish_input<R: AllocGlobal + Input + RandomSource, S: Sink>(rt: &R, sink: &mut S) -> u8
    ensures ended { EndsAs IsBundleOutput (IsRefusal IsBundleRefusal) (S.taken sink.old)
        (S.taken sink.new)
        (KeepsGoing (S.failed sink.old) (S.failed sink.new))
        (HasFailedToWrite S.taken S.failed sink.new) result }
    ensures exit { IsExitStatus result }
{
    let mut notes = Extras::new(rt.alloc(), Wanted::Nothing, BUNDLE, false);
    let answer = answer_input(rt, &mut notes, sink);
    finish(&answer, sink)
}

/// Answers a call. Returns the exit status.
fn finish_call<R: AllocGlobal + Clock + Eprint + Files + RandomSource, S: Sink>(
    rt: &R,
    call: &Call,
    progress: bool,
    sink: &mut S,
) -> u8
    ensures ended { EndsAs (IsCallText call.now) (IsCallRefusal call.now) (S.taken sink.old)
        (S.taken sink.new)
        (KeepsGoing (S.failed sink.old) (S.failed sink.new))
        (HasFailedToWrite S.taken S.failed sink.new) result }
    ensures exit { IsExitStatus result }
{
    let mut notes = Extras::new(rt.alloc(), Wanted::Nothing, names_of(call), progress);
    let answer = answer_call(rt, call, &mut notes, sink);
    finish(&answer, sink)
}

/// Answers arguments, of which the first is the program's own name: the call that they name, or, where there is no
/// other, the bundle on standard input. Returns the exit status: with an answer's text that of the answer, with the
/// line of a refusal that of the refusal, and 5 where a write failed.
fn answer_arguments<R: AllocGlobal + Clock + Eprint + Files + Input + RandomSource, S: Sink>(
    rt: &R,
    arguments: &[String],
    progress: bool,
    sink: &mut S,
) -> u8
    ensures bundle { length arguments.now < 2
        → EndsAs IsBundleOutput (IsRefusal IsBundleRefusal) (S.taken sink.old) (S.taken sink.new)
        (KeepsGoing (S.failed sink.old) (S.failed sink.new))
        (HasFailedToWrite S.taken S.failed sink.new) result }
    ensures call { (call : Call) → Names (map string_bytes arguments.now) call
        → EndsAs (IsCallText call) (IsCallRefusal call) (S.taken sink.old) (S.taken sink.new)
        (KeepsGoing (S.failed sink.old) (S.failed sink.new))
        (HasFailedToWrite S.taken S.failed sink.new) result }
    ensures no_call { 2 ≤ length arguments.now → NamesNoCall (map string_bytes arguments.now)
        → EndsWithoutCall S.taken S.failed (map string_bytes arguments.now) sink.old sink.new
        result }
    ensures exit { IsExitStatus result }
{
    if arguments.len() < 2 {
        return finish_input(rt, sink);
    }
    match read_words(rt.alloc(), arguments) {
        Ok(call) => finish_call(rt, &call, progress, sink),
        Err(error) => finish_arguments(rt.alloc(), &error, sink),
    }
}

/// Answers the bundle on standard input, and explains the answer in sentences after it. Returns the exit status.
fn explain_input<R: AllocGlobal + Files + Input + RandomSource, S: Sink>(rt: &R, sink: &mut S) -> u8
    ensures ended { EndsExplained IsBundleOutput (IsRefusal IsBundleRefusal) (S.taken sink.old)
        (S.taken sink.new)
        (KeepsGoing (S.failed sink.old) (S.failed sink.new))
        (HasFailedExplained S.taken S.failed sink.new) result }
    ensures exit { IsExitStatus result }
{
    let mut notes = Extras::new(rt.alloc(), Wanted::Answer, BUNDLE, false);
    let answer = answer_input(rt, &mut notes, sink);
    let explanation = explanation_of(rt, None, &mut notes, &answer);
    finish_with(&answer, explanation.as_slice(), sink)
}

/// Answers a call, and explains the answer in sentences after it. Returns the exit status.
fn explain_call<R: AllocGlobal + Clock + Eprint + Files + RandomSource, S: Sink>(
    rt: &R,
    call: &Call,
    progress: bool,
    sink: &mut S,
) -> u8
    ensures ended { EndsExplained (IsCallText call.now) (IsCallRefusal call.now) (S.taken sink.old)
        (S.taken sink.new)
        (KeepsGoing (S.failed sink.old) (S.failed sink.new))
        (HasFailedExplained S.taken S.failed sink.new) result }
    ensures exit { IsExitStatus result }
{
    let mut notes = Extras::new(rt.alloc(), wanted_of(call), names_of(call), progress);
    let answer = answer_call(rt, call, &mut notes, sink);
    let explanation = explanation_of(rt, Some(call), &mut notes, &answer);
    finish_with(&answer, explanation.as_slice(), sink)
}

/// Answers arguments as [`answer_arguments`] does, and explains the answer in sentences after it, unless there is no
/// memory for them.
fn answer_explained<R: AllocGlobal + Clock + Eprint + Files + Input + RandomSource, S: Sink>(
    rt: &R,
    arguments: &[String],
    progress: bool,
    sink: &mut S,
) -> u8
    ensures bundle { length arguments.now < 2
        → EndsExplained IsBundleOutput (IsRefusal IsBundleRefusal) (S.taken sink.old)
        (S.taken sink.new)
        (KeepsGoing (S.failed sink.old) (S.failed sink.new))
        (HasFailedExplained S.taken S.failed sink.new) result }
    ensures call { (call : Call) → Names (map string_bytes arguments.now) call
        → EndsExplained (IsCallText call) (IsCallRefusal call) (S.taken sink.old) (S.taken sink.new)
        (KeepsGoing (S.failed sink.old) (S.failed sink.new))
        (HasFailedExplained S.taken S.failed sink.new) result }
    ensures no_call { 2 ≤ length arguments.now → NamesNoCall (map string_bytes arguments.now)
        → EndsWithoutCall S.taken S.failed (map string_bytes arguments.now) sink.old sink.new
        result }
    ensures exit { IsExitStatus result }
{
    if arguments.len() < 2 {
        return explain_input(rt, sink);
    }
    match read_words(rt.alloc(), arguments) {
        Ok(call) => explain_call(rt, &call, progress, sink),
        Err(error) => finish_arguments(rt.alloc(), &error, sink),
    }
}

/// Adds `--help` to the arguments of somebody at a terminal who gave none but the name of the program.
fn or_help(
    alloc: Global,
    mut arguments: Vec<String>,
    on_terminal: bool,
) -> Result<Vec<String>, AllocError>
    ensures { IfOk result (λ given. AddsHelp string_bytes arguments.items given.items
        (wants_help on_terminal arguments.items)) }
{
    if on_terminal && arguments.len() == 1 {
        arguments.push(String::from_str(alloc, "--help")?)?;
        return Ok(arguments);
    }
    Ok(arguments)
}

/// Answers arguments with their options: `--explain` adds sentences after the answer, `--format json` has the answer
/// and these sentences in a JSON object, and `--progress` reports how far the command has come.
fn answer_given<R: AllocGlobal + Clock + Eprint + Files + Input + RandomSource, S: Sink>(
    rt: &R,
    mut arguments: Vec<String>,
    sink: &mut S,
) -> u8
    ensures options { EndsByOptions string_bytes S.taken S.failed arguments.items sink.old sink.new
        result }
    ensures exit { IsExitStatus result }
{
    let progress = take_flag(&mut arguments, "--progress");
    let explained = take_flag(&mut arguments, "--explain");
    if take_format(&mut arguments) {
        answer_in_json(rt, arguments.as_slice(), progress, sink)
    } else if explained {
        answer_explained(rt, arguments.as_slice(), progress, sink)
    } else {
        answer_arguments(rt, arguments.as_slice(), progress, sink)
    }
}

/// Answers the arguments that the system gave, or reports why it gave none. Returns the exit status.
fn answer_system_arguments<R: AllocGlobal + Clock + Eprint + Files + Input + RandomSource, S: Sink>(
    rt: &R,
    arguments: io::Result<Vec<String>>,
    on_terminal: bool,
    sink: &mut S,
) -> u8
    ensures given { IfOk arguments (λ given. EndsByGivenArguments string_bytes S.taken S.failed
        on_terminal given.items sink.old sink.new result) }
    ensures unread { IfErr arguments (λ e. EndsWith S.taken S.failed (unread_text (error_kind e))
        (unread_status (error_kind e)) sink.old sink.new result) }
    ensures exit { IsExitStatus result }
{
    match arguments {
        Ok(arguments) => match or_help(rt.alloc(), arguments, on_terminal) {
            Ok(arguments) => answer_given(rt, arguments, sink),
            Err(_) => finish(&Err(Fault::bare(refusals::WANT_OF_MEMORY)), sink),
        },
        Err(error) => finish_unread(error.kind(), sink),
    }
}

/// Answers the arguments that the system gave, or reports why it gave none, and flushes what was written. Returns the
/// exit status.
fn answer<R: AllocGlobal + Clock + Eprint + Files + Input + RandomSource, S: Sink>(
    rt: &R,
    arguments: io::Result<Vec<String>>,
    on_terminal: bool,
    sink: &mut S,
) -> u8
    ensures given { IfOk arguments (λ given. EndsAfterFlush S.taken S.failed S.holds_back
        (λ then code. EndsByGivenArguments string_bytes S.taken S.failed on_terminal given.items
        sink.old then code) sink.new result) }
    ensures unread { IfErr arguments (λ e. EndsAfterFlush S.taken S.failed S.holds_back
        (λ then code. EndsWith S.taken S.failed (unread_text (error_kind e))
        (unread_status (error_kind e)) sink.old then code) sink.new result) }
    ensures exit { IsExitStatus result }
{
    let code = answer_system_arguments(rt, arguments, on_terminal, sink);
    flush(sink, code)
}

/// Flushes a sink. Returns this exit status, or 5 where that fails.
fn flush<S: Sink>(sink: &mut S, code: u8) -> u8
    ensures { ((result ≡ code) × (S.failed sink.new ≡ false)
        × (S.holds_back sink.new ≡ false) × (S.taken sink.new ≡ S.taken sink.old))
        ⊎ ((result ≡ 5) × (S.failed sink.new ≡ true)) }
{
    match sink.flush() {
        Ok(()) => code,
        Err(_) => WRITE_FAILED,
    }
}

/// Runs the program: reads its arguments, answers on standard output, and returns its exit status.
///
/// Without arguments it answers the bundle on standard input; if that is a terminal it writes its help. 0 is an answer
/// of yes, or help that was asked for, 1 no, 3 unknown; 2 a refusal, 4 out of memory, 5 a device that failed, 6
/// arguments that don't parse.
pub fn run<R: AllocGlobal + Clock + Env + Eprint + Files + Input + Print + RandomSource>(
    rt: &R,
    on_terminal: bool,
) -> u8
    ensures { IsExitStatus result }
{
    match BufWriter::new(rt.alloc(), io::writer(rt)) {
        Ok(writer) => {
            let mut sink = Outside::new(writer);
            let code = answer(rt, all_arguments(rt), on_terminal, &mut sink);
            // What couldn't be written isn't tried again, as it would be when the writer is dropped: no answer follows
            // a write that failed.
            mem::forget(sink);
            code
        }
        Err(_) => finish(
            &Err(Fault::bare(refusals::WANT_OF_MEMORY)),
            &mut Outside::new(io::writer(rt)),
        ),
    }
}
