//! The arguments of a program.
ghost use Rattle.std.specs.Prelude.{◌≡◌, string_bytes};
ghost use Rattle.fx_checker.specs.Arguments.{is_help_request, unread_status, unread_text};
ghost use Rattle.fx_checker.specs.Ending.{EndsWith, IsExitStatus};

use crate::ending::{finish, put_and_end};
use fx_base::{Fault, Sink, refusals};
use std::rt::Env;
use std::{env, io};

/// The exit status of arguments that don't parse.
pub const NO_CALL: u8 = 6;

/// Returns the arguments of the command line, of which the first is the program's own name.
///
/// Fails if the system doesn't hand them over, if one isn't UTF-8 text, or if out of memory.
pub fn all_arguments<R: AllocGlobal + Env>(rt: &R) -> io::Result<Vec<String>> {
    let mut arguments: Vec<String> = Vec::new(rt.alloc());
    for argument in env::args(rt)? {
        arguments.push(argument)?;
    }
    Ok(arguments)
}

/// Returns whether the only argument after the program's own name is `--help` or `-h`.
pub fn asks_for_help(arguments: &[String]) -> bool
    ensures { result ≡ is_help_request string_bytes arguments.now }
{
    match arguments {
        [_, word] => word.as_str() == "--help" || word.as_str() == "-h",
        _ => false,
    }
}

/// Ends a command whose arguments can't be read from the system: writes why, and returns the exit status.
///
/// The status is 4 if out of memory, 6 if an argument isn't UTF-8 text, and otherwise 5 (`device 901`); also 5 if the
/// text can't be written.
pub fn finish_unread<S: Sink>(kind: io::ErrorKind, sink: &mut S) -> u8
    ensures ended { EndsWith S.taken S.failed
        (unread_text kind) (unread_status kind) sink.old sink.new result }
    ensures exit { IsExitStatus result }
{
    match kind {
        io::ErrorKind::OutOfMemory => finish(&Err(Fault::bare(refusals::WANT_OF_MEMORY)), sink),
        io::ErrorKind::InvalidData => put_and_end(
            b"error: an argument is not UTF-8 text\n\nwhat to do: Name each file in UTF-8: rename it, or name a link to it.\n",
            NO_CALL,
            sink,
        ),
        _ => finish(&Err(Fault::bare(refusals::FAILED_READ)), sink),
    }
}
