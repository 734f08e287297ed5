//! Ends commands whose arguments name no call.
ghost use Rattle.std.specs.Prelude.{◌≡◌, ◌≢◌, ◌⊎◌, []};
ghost use Rattle.clap.specs.Words.{kind_of};
ghost use Rattle.fx_checker.specs.Ending.{EndsWith, IsExitStatus};
ghost use Rattle.fx_cli.specs.ArgumentErrors.{argument_error_status};
ghost use Rattle.fx_checker.specs.Arguments.{memory_line, EndsWithSomeText};

use crate::advice::with_advice;
use clap::Error;
use clap::error::ErrorKind;
use fx_base::{Fault, Sink, refusals};
use fx_checker::{NO_CALL, finish, put_and_end};
use std::alloc::{AllocError, Global};

/// Returns the exit status of arguments that name no call, given the kind of their error.
fn status_of_error(kind: ErrorKind) -> u8
    ensures status { result ≡ argument_error_status kind }
    ensures exit { IsExitStatus result }
{
    match kind {
        ErrorKind::OutOfMemory => 4,
        ErrorKind::DisplayHelp | ErrorKind::DisplayVersion => 0,
        _ => NO_CALL,
    }
}

/// Returns the error's text, followed by what to do.
///
/// Fails if out of memory.
fn error_text(alloc: Global, error: &Error) -> Result<String, AllocError> {
    match error.to_string(alloc) {
        Ok(text) => with_advice(alloc, error.kind(), text.as_str()),
        Err(_) => Err(AllocError),
    }
}

/// Returns the text of an error, or a default line if it is empty.
fn never_empty(text: &[u8]) -> &[u8]
    ensures { result.now ≢ [] }
{
    if text.is_empty() {
        b"error: the arguments name no command\n"
    } else {
        text
    }
}

/// Ends a command whose arguments name no call: writes what is wrong with them and what to do about it, or the help
/// that they ask for, and returns the exit status.
///
/// The status is 0 if they ask for help, and 6 if they don't parse; 4 if out of memory, also while making the text, in
/// which case it writes `memory 900`; and 5 if the text can't be written.
pub fn finish_arguments<S: Sink>(alloc: Global, error: &Error, sink: &mut S) -> u8
    ensures status { EndsWith S.taken S.failed memory_line 4 sink.old sink.new result
        ⊎ EndsWithSomeText S.taken S.failed (argument_error_status (kind_of error.now)) sink.old
        sink.new result }
    ensures memory { kind_of error.now ≡ ErrorKind.OutOfMemory
        → EndsWith S.taken S.failed memory_line 4 sink.old sink.new result }
    ensures exit { IsExitStatus result }
{
    let kind = error.kind();
    if matches!(kind, ErrorKind::OutOfMemory) {
        return finish(&Err(Fault::bare(refusals::WANT_OF_MEMORY)), sink);
    }
    match error_text(alloc, error) {
        Ok(text) => put_and_end(never_empty(text.as_bytes()), status_of_error(kind), sink),
        Err(_) => finish(&Err(Fault::bare(refusals::WANT_OF_MEMORY)), sink),
    }
}
