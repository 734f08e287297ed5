//! Answers as JSON objects.
ghost use Rattle.std.specs.Prelude.{◌≡◌, ◌⊎◌, ◌≤◌, ◌<◌, ◌++◌, Some, IfErr, IfOk, length, map, string_bytes, true};
ghost use Rattle.fx_cli.specs.ArgumentErrors.{EndsWithoutCall};
ghost use Rattle.fx_checker.specs.Ending.{EndsWith, IsExitStatus, refusal_line, refusal_status, status};
ghost use Rattle.fx_cli.specs.InJson.{EndsAnswered, EndsInJson, EndsRefused, memory_object};
ghost use Rattle.fx_cli.specs.Running.{IsBundleOutput, IsBundleRefusal, IsCallRefusal, IsCallText};
ghost use Rattle.fx_command_line.specs.Words.{Names, NamesNoCall};
ghost use Rattle.fx_command_line.specs.declared.words.Call.{Call};
ghost use Rattle.fx_checker.specs.Arguments.{memory_line};
ghost use Rattle.fx_checker.specs.Running.{IsRefusal};

use crate::answer_words::{answer_word, command_word, has_totals, roles_of};
use crate::argument_errors::finish_arguments;
use crate::commands::answer_call;
use crate::explained_answer::{asked_of, explanation_of};
use crate::file_names::{BUNDLE, names_of};
use crate::notes::Extras;
use crate::running::answer_input;
use crate::sentences::{Wanted, wanted_of};
use fx_audit::Answer;
use fx_base::{Fault, Place, Sink, put_text, refusals};
use fx_checker::{WRITE_FAILED, finish};
use fx_command_line::{Call, read_words};
use fx_json_answers::{Answered, Context, TextBuffer, put_answer};
use std::random::RandomSource;
use std::rt::{Clock, Files};

/// Writes that there is not enough memory for an answer. Returns the exit status.
fn put_memory<S: Sink>(sink: &mut S) -> u8
    ensures ended { EndsWith S.taken S.failed memory_object 4 sink.old sink.new result }
    ensures exit { IsExitStatus result }
{
    let object =
        b"{\"answer\":\"memory\",\"format\":\"once-answer/1\",\"number\":900,\"status\":4}\n";
    match put_text(sink, object) {
        Ok(()) => 4,
        Err(_) => WRITE_FAILED,
    }
}

/// Returns the number with which something is refused, and its place.
fn refusal_in<'a>(
    outcome: &'a Result<Answer, Fault>,
    number: Option<u16>,
    place: &'a Place,
) -> (Option<u16>, &'a Place)
    ensures { IfErr outcome.now (λ e. (result.0 ≡ Some e.number) × (result.1.now ≡ e.place)) }
{
    match outcome {
        Err(fault) => (Some(fault.number), &fault.place),
        Ok(Answer::Yes) => (None, place),
        Ok(Answer::No) => (number, place),
        Ok(Answer::Unknown) => (Some(refusals::SEARCH_TOO_LARGE), place),
    }
}

/// Writes an answer that ends with this status and prints this text as a JSON object. Returns the exit status.
fn put_object<R: AllocGlobal + Files, S: Sink>(
    rt: &R,
    call: Option<&Call>,
    notes: &mut Extras<'_>,
    outcome: &Result<Answer, Fault>,
    code: u8,
    text: &[u8],
    sink: &mut S,
) -> u8
    requires { IsExitStatus code }
    ensures answered { IfOk outcome.now (λ _. EndsAnswered S.taken S.failed code text.now
        sink.old sink.new result) }
    ensures refused { IfErr outcome.now (λ e. EndsRefused S.taken S.failed code e text.now
        sink.old sink.new result) }
    ensures exit { IsExitStatus result }
{
    let alloc = rt.alloc();
    let documents = notes.sentences.take_notes().into_octets(alloc);
    let explanation = explanation_of(rt, call, notes, outcome);
    let facts = notes.sentences.take_facts();
    let refused = notes.sentences.take_place();
    let sentences = &notes.sentences;
    let asked = asked_of(call, sentences.command);
    let (number, place) = refusal_in(outcome, sentences.refused, &refused);
    let answered = Answered {
        command: command_word(asked),
        answer: answer_word(asked, outcome),
        status: code,
        number,
        place,
        output: text,
    };
    let context = Context {
        files: &roles_of(asked, &sentences.names),
        totals_key: sentences
            .key
            .as_ref()
            .filter(|_| has_totals(asked, outcome)),
        facts,
        explanation: explanation.as_slice(),
        notes: documents.as_slice(),
    };
    match put_answer(alloc, &answered, context, sink) {
        Ok(()) => code,
        Err(fault) if fault.number == refusals::WANT_OF_MEMORY => put_memory(sink),
        Err(_) => WRITE_FAILED,
    }
}

/// Writes an answer, whose text is in a buffer, as a JSON object. The text of a refusal is its line. Returns the exit
/// status.
fn put_buffered<R: AllocGlobal + Files, S: Sink>(
    rt: &R,
    call: Option<&Call>,
    notes: &mut Extras<'_>,
    outcome: &Result<Answer, Fault>,
    text: &mut TextBuffer,
    sink: &mut S,
) -> u8
    ensures memory { text.old.failed ≡ true
        → EndsWith S.taken S.failed memory_object 4 sink.old sink.new result }
    ensures answered { IfOk outcome.now (λ _. EndsAnswered S.taken S.failed (status outcome.now)
        text.old.octets.items sink.old sink.new result) }
    ensures refused { IfErr outcome.now (λ e. EndsRefused S.taken S.failed (refusal_status e) e
        (text.old.octets.items ++ refusal_line e) sink.old sink.new result) }
    ensures exit { IsExitStatus result }
{
    if text.has_failed() {
        return put_memory(sink);
    }
    let code = finish(outcome, text);
    if text.has_failed() {
        return put_memory(sink);
    }
    put_object(rt, call, notes, outcome, code, text.octets(), sink)
}

/// Answers the bundle on standard input with a JSON object. Returns the exit status.
fn input_in_json<R: AllocGlobal + Files + Input + RandomSource, S: Sink>(rt: &R, sink: &mut S) -> u8
    ensures ended { EndsInJson IsBundleOutput (IsRefusal IsBundleRefusal) S.taken S.failed sink.old
        sink.new result }
    ensures exit { IsExitStatus result }
{
    let mut notes = Extras::new(rt.alloc(), Wanted::Answer, BUNDLE, false);
    notes.sentences.gather_facts();
    let mut text = TextBuffer::new(rt.alloc());
    let answer = answer_input(rt, &mut notes, &mut text);
    put_buffered(rt, None, &mut notes, &answer, &mut text, sink)
}

/// Answers a call with a JSON object. Returns the exit status.
fn call_in_json<R: AllocGlobal + Clock + Eprint + Files + RandomSource, S: Sink>(
    rt: &R,
    call: &Call,
    progress: bool,
    sink: &mut S,
) -> u8
    ensures ended { EndsInJson (IsCallText call.now) (IsCallRefusal call.now) S.taken S.failed
        sink.old sink.new result }
    ensures exit { IsExitStatus result }
{
    let mut notes = Extras::new(rt.alloc(), wanted_of(call), names_of(call), progress);
    notes.sentences.gather_facts();
    let mut text = TextBuffer::new(rt.alloc());
    let answer = answer_call(rt, call, &mut notes, &mut text);
    put_buffered(rt, Some(call), &mut notes, &answer, &mut text, sink)
}

/// Answers arguments with a JSON object: the call that they name, or, if there are none after the program's own name,
/// the bundle on standard input. Arguments that name no call are answered as text. Returns the exit status.
pub(crate) fn answer_in_json<
    R: AllocGlobal + Clock + Eprint + Files + Input + RandomSource,
    S: Sink,
>(rt: &R, arguments: &[String], progress: bool, sink: &mut S) -> u8
    ensures bundle { length arguments.now < 2
        → EndsInJson IsBundleOutput (IsRefusal IsBundleRefusal) S.taken S.failed sink.old sink.new
        result }
    ensures call { (call : Call) → Names (map string_bytes arguments.now) call
        → EndsInJson (IsCallText call) (IsCallRefusal call) S.taken S.failed sink.old sink.new
        result
        ⊎ EndsWith S.taken S.failed memory_line 4 sink.old sink.new result }
    ensures no_call { 2 ≤ length arguments.now → NamesNoCall (map string_bytes arguments.now)
        → EndsWithoutCall S.taken S.failed (map string_bytes arguments.now) sink.old sink.new
        result }
    ensures exit { IsExitStatus result }
{
    if arguments.len() < 2 {
        return input_in_json(rt, sink);
    }
    match read_words(rt.alloc(), arguments) {
        Ok(call) => call_in_json(rt, &call, progress, sink),
        Err(error) => finish_arguments(rt.alloc(), &error, sink),
    }
}
