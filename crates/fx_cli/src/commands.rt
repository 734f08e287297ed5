//! The commands: each opens its files, reads them and answers.
ghost use Rattle.std.specs.Prelude.{◌≡◌, ◌⊎◌, IfErr, IfOk, is_some, true, false};
ghost use Rattle.fx_base.specs.Fault.{fault_at, IsMemory};
ghost use Rattle.fx_base.specs.Refusals.{failed_read};
ghost use Rattle.fx_base.specs.declared.fault.Place.TheVariants as places;
ghost use Rattle.fx_checker.specs.Outputs.{AnswersWith, FailsQuietly, Prints};
ghost use Rattle.fx_base.specs.Device.{IsWriteFault};
ghost use Rattle.fx_checker.specs.Documents.{BothMayHaveLeft};
ghost use Rattle.fx_audit.specs.Metering.{IsMetered, IsRefusedMetering, IsStateOfSource};
ghost use Rattle.fx_checker.specs.declared.answer.Answer.TheVariants.{Yes};
ghost use Rattle.fx_cli.specs.Running.{IsDocumentsRefusal, IsCallRefusal, IsCallText, IsCollectRefusal, IsCollectOutput, IsConfirmRefusal, IsConfirmOutput, IsLintRefusal, IsLintOutput, IsRunOutput, IsReplayRefusal, IsReplayOutput, IsRunRefusal, IsSumRefusal, IsSumOutput, IsAuditOutput};
ghost use Rattle.fx_checker.specs.Running.{IsAtBeginning, IsCheckRefusal, IsCheckOutput, IsRefusal};

use crate::drawing::draw;
use crate::explaining::explain_bytes;
use crate::files::open;
use crate::joining::join;
use crate::kept::KeptSource;
use crate::link_files::LinkFiles;
use crate::notes::Extras;
use crate::progress::{ProgressSearch, ProgressSource};
use crate::seeds::seed_at_random;
use crate::sentences::Sentences;
use fx_audit::{
    Answer, audit_explained, check_explained, collect_explained, confirm_explained,
    lint_both_explained, lint_explained, replay_explained, run_explained, sum_explained,
};
use fx_base::{Fault, LineReader, Outside, Sink, Source};
use fx_command_line::Call;
use fx_explain_streams::StreamWatch;
use fx_layout::Seed;
use fx_link::{Links, Nowhere, OpenedSinks};
use std::alloc::Global;
use std::random::RandomSource;
use std::rt::{Clock, Files};

/// A network document, a traffic declaration, and the lines of a third text.
type Texts<F> = (Outside<F>, Outside<F>, LineReader<KeptSource<Outside<F>>>);

/// Opens the files of a network document, a traffic declaration and a third text, in this order.
fn open_texts<R: AllocGlobal + Files>(
    rt: &R,
    network: &str,
    traffic: &str,
    third: &str,
    notes: &mut Extras<'_>,
) -> Result<Texts<R::File>, Fault>
    ensures ok { IfOk result (λ texts. IsAtBeginning texts.2) }
    ensures err { IfErr result (λ e. (e ≡ fault_at failed_read places.None)
        ⊎ IsMemory e) }
{
    let network = open(rt, network, notes)?;
    let traffic = open(rt, traffic, notes)?;
    let third = open(rt, third, notes)?;
    let lines = LineReader::new(rt.alloc(), notes.kept(third))?;
    notes.opened();
    Ok((network, traffic, lines))
}

/// Replays the run in the given files.
fn replay<R: AllocGlobal + Files + RandomSource, S: Sink>(
    rt: &R,
    network: &str,
    traffic: &str,
    run: &str,
    notes: &mut Extras<'_>,
    sink: &mut S,
) -> Result<Answer, Fault>
    ensures answers { AnswersWith S.taken S.failed IsReplayOutput sink.old sink.new result }
    ensures refused { IfErr result (λ e. IsWriteFault (S.failed sink.new) e
        ⊎ IsRefusal IsReplayRefusal e) }
{
    let seed = seed_at_random(rt)?;
    let (mut network, mut traffic, mut lines) = open_texts(rt, network, traffic, run, notes)?;
    let answer = replay_explained(
        rt.alloc(),
        seed,
        &mut network,
        &mut traffic,
        &mut lines,
        &mut notes.sentences,
        sink,
    );
    notes
        .sentences
        .explain_line(lines.get_ref().copy().octets());
    answer
}

/// Collects the stream in the given files.
fn collect<R: AllocGlobal + Clock + Eprint + Files + RandomSource, S: Sink>(
    rt: &R,
    network: &str,
    stream: &str,
    notes: &mut Extras<'_>,
    sink: &mut S,
) -> Result<Answer, Fault>
    ensures answers { AnswersWith S.taken S.failed IsCollectOutput sink.old sink.new result }
    ensures refused { IfErr result (λ e. IsWriteFault (S.failed sink.new) e
        ⊎ IsRefusal IsCollectRefusal e) }
{
    let seed = seed_at_random(rt)?;
    let mut network = open(rt, network, notes)?;
    let file = open(rt, stream, notes)?;
    notes.opened();
    let mut stream = ProgressSource::new(file, stream, notes.progress(rt));
    let alloc = rt.alloc();
    let mut watch = StreamWatch::new(alloc, notes.sentences.are_wanted());
    let answer = collect_explained(
        alloc,
        seed,
        &mut network,
        &mut stream,
        &mut notes.sentences,
        &mut watch,
        sink,
    );
    notes.sentences.explain_stream(&watch, &answer);
    answer
}

/// Checks the certificate in the given files.
fn check<R: AllocGlobal + Files, S: Sink>(
    rt: &R,
    network: &str,
    traffic: &str,
    certificate: &str,
    notes: &mut Extras<'_>,
    sink: &mut S,
) -> Result<Answer, Fault>
    ensures answers { AnswersWith S.taken S.failed IsCheckOutput sink.old sink.new result }
    ensures refused { IfErr result (λ e. IsWriteFault (S.failed sink.new) e
        ⊎ IsRefusal IsCheckRefusal e) }
{
    let (mut network, mut traffic, mut lines) = open_texts(
        rt,
        network,
        traffic,
        certificate,
        notes,
    )?;
    check_explained(
        rt.alloc(),
        &mut network,
        &mut traffic,
        &mut lines,
        &mut notes.sentences,
        sink,
    )
}

/// Confirms the refutation in the given files.
fn confirm<R: AllocGlobal + Files, S: Sink>(
    rt: &R,
    network: &str,
    traffic: &str,
    refutation: &str,
    notes: &mut Extras<'_>,
    sink: &mut S,
) -> Result<Answer, Fault>
    ensures answers { AnswersWith S.taken S.failed IsConfirmOutput sink.old sink.new result }
    ensures refused { IfErr result (λ e. IsWriteFault (S.failed sink.new) e
        ⊎ IsRefusal IsConfirmRefusal e) }
{
    let (mut network, mut traffic, mut lines) = open_texts(
        rt, network, traffic, refutation, notes,
    )?;
    let answer = confirm_explained(
        rt.alloc(),
        &mut network,
        &mut traffic,
        &mut lines,
        &mut notes.sentences,
        sink,
    );
    notes
        .sentences
        .explain_line(lines.get_ref().copy().octets());
    answer
}

/// Audits the network and traffic in the given files, with at most `limit` split and leaf lines of a certificate.
fn audit<R: AllocGlobal + Clock + Eprint + Files, S: Sink>(
    rt: &R,
    network: &str,
    traffic: &str,
    limit: u64,
    notes: &mut Extras<'_>,
    sink: &mut S,
) -> Result<Answer, Fault>
    ensures answers { AnswersWith S.taken S.failed (IsAuditOutput limit) sink.old sink.new result }
    ensures refused { IfErr result (λ e. IsWriteFault (S.failed sink.new) e
        ⊎ IsRefusal IsDocumentsRefusal e) }
{
    let mut network = open(rt, network, notes)?;
    let mut traffic = open(rt, traffic, notes)?;
    notes.opened();
    let mut watch = ProgressSearch::new(limit, notes.progress(rt));
    audit_explained(
        rt.alloc(),
        &mut network,
        &mut traffic,
        limit,
        &mut watch,
        &mut notes.sentences,
        sink,
    )
}

/// Runs a network over a capture, as a schedule says, writes the octets of its links to `links`, and returns `links`.
fn run_on_links<N: Source, T: Source, C: Source, Q: Source, L: Links, S: Sink>(
    alloc: Global,
    seed: Seed,
    network: &mut N,
    traffic: &mut T,
    capture: &mut C,
    schedule: &mut LineReader<Q>,
    mut links: L,
    sentences: &mut Sentences<'_>,
    sink: &mut S,
) -> (Result<Answer, Fault>, L)
    ensures ok { IfOk result.0 (λ answer. (answer ≡ Yes)
        × BothMayHaveLeft (N.left network.old) (T.left traffic.old) (λ n t.
        Prints (IsMetered n t (C.left capture.old) (C.calls capture.old) schedule.old schedule.new
        (L.put_on links) (L.put_on result.1)) (S.taken sink.old) (S.taken sink.new))) }
    ensures err { IfErr result.0 (λ e. IsMemory e
        ⊎ ((e ≡ fault_at failed_read places.None)
        ⊎ (IsWriteFault (L.failed result.1) e
        ⊎ (IsWriteFault (S.failed sink.new) e
        ⊎ BothMayHaveLeft (N.left network.old) (T.left traffic.old) (λ n t. IsRefusedMetering n t
        (C.left capture.old) (C.calls capture.old) ⊥ (IsStateOfSource C.calls C.failed)
        schedule.old schedule.new (L.put_on links) e))))) }
    ensures quiet { FailsQuietly S.failed sink.old sink.new result.0 }
{
    let answer = run_explained(
        alloc, seed, network, traffic, capture, schedule, &mut links, sentences, sink,
    );
    (answer, links)
}

/// Runs a network over a capture, as a schedule says, and writes the octets of each link to a file of its own, whose
/// name begins with `prefix`. Writes no file that has the name of one of `inputs`.
fn run_onto_files<R: AllocGlobal + Files, N: Source, T: Source, C: Source, Q: Source, S: Sink>(
    rt: &R,
    seed: Seed,
    prefix: &str,
    inputs: &[&str],
    network: &mut N,
    traffic: &mut T,
    capture: &mut C,
    schedule: &mut LineReader<Q>,
    notes: &mut Extras<'_>,
    sink: &mut S,
) -> Result<Answer, Fault>
    requires { IsAtBeginning schedule.old }
    ensures answers { AnswersWith S.taken S.failed IsRunOutput sink.old sink.new result }
    ensures refused { IfErr result (λ e. IsWriteFault (S.failed sink.new) e
        ⊎ IsRefusal (IsRunRefusal true) e) }
{
    let alloc = rt.alloc();
    let maker = LinkFiles::new(alloc, rt, prefix, inputs, notes.failing_files());
    let files = OpenedSinks::new(alloc, maker);
    let (answer, files) = run_on_links(
        alloc,
        seed,
        network,
        traffic,
        capture,
        schedule,
        files,
        &mut notes.sentences,
        sink,
    );
    notes.failed_file = files.into_maker().into_failed_file();
    answer
}

/// Runs a network over a capture, as a schedule says, without writing the octets of its links.
fn run_onto_nowhere<N: Source, T: Source, C: Source, Q: Source, S: Sink>(
    alloc: Global,
    seed: Seed,
    network: &mut N,
    traffic: &mut T,
    capture: &mut C,
    schedule: &mut LineReader<Q>,
    sentences: &mut Sentences<'_>,
    sink: &mut S,
) -> Result<Answer, Fault>
    requires { IsAtBeginning schedule.old }
    ensures answers { AnswersWith S.taken S.failed IsRunOutput sink.old sink.new result }
    ensures refused { IfErr result (λ e. IsWriteFault (S.failed sink.new) e
        ⊎ IsRefusal (IsRunRefusal false) e) }
{
    let (answer, _nowhere) = run_on_links(
        alloc, seed, network, traffic, capture, schedule, Nowhere, sentences, sink,
    );
    answer
}

/// Runs the network over the capture in the given files, as the schedule says. Writes the octets of each link to a file
/// of its own if a prefix of the files' names is given.
fn run_capture<R: AllocGlobal + Clock + Eprint + Files + RandomSource, S: Sink>(
    rt: &R,
    network: &str,
    traffic: &str,
    capture: &str,
    schedule: &str,
    links: Option<&str>,
    notes: &mut Extras<'_>,
    sink: &mut S,
) -> Result<Answer, Fault>
    ensures answers { AnswersWith S.taken S.failed IsRunOutput sink.old sink.new result }
    ensures refused { IfErr result (λ e. IsWriteFault (S.failed sink.new) e
        ⊎ IsRefusal (IsRunRefusal (is_some links.entry)) e) }
{
    let seed = seed_at_random(rt)?;
    let inputs = [network, traffic, capture, schedule];
    let mut network = open(rt, network, notes)?;
    let mut traffic = open(rt, traffic, notes)?;
    let frames = open(rt, capture, notes)?;
    let schedule = open(rt, schedule, notes)?;
    notes.opened();
    let mut capture = ProgressSource::new(frames, capture, notes.progress(rt));
    let mut lines = LineReader::new(rt.alloc(), notes.kept(schedule))?;
    let alloc = rt.alloc();
    let answer = match links {
        Some(prefix) => run_onto_files(
            rt,
            seed,
            prefix,
            &inputs,
            &mut network,
            &mut traffic,
            &mut capture,
            &mut lines,
            notes,
            sink,
        ),
        None => run_onto_nowhere(
            alloc,
            seed,
            &mut network,
            &mut traffic,
            &mut capture,
            &mut lines,
            &mut notes.sentences,
            sink,
        ),
    };
    notes.sentences.explain_capture(capture.head(), &answer);
    notes
        .sentences
        .explain_line(lines.get_ref().copy().octets());
    answer
}

/// Lints the network in the first file, and the traffic in the second, if one is given.
fn lint<R: AllocGlobal + Files, S: Sink>(
    rt: &R,
    network: &str,
    traffic: Option<&str>,
    notes: &mut Extras<'_>,
    sink: &mut S,
) -> Result<Answer, Fault>
    ensures answers { AnswersWith S.taken S.failed (IsLintOutput (is_some traffic.entry)) sink.old
        sink.new result }
    ensures refused { IfErr result (λ e. IsWriteFault (S.failed sink.new) e
        ⊎ IsRefusal (IsLintRefusal (is_some traffic.entry)) e) }
{
    let mut network = open(rt, network, notes)?;
    let Some(traffic) = traffic else {
        notes.opened();
        return lint_explained(rt.alloc(), &mut network, &mut notes.sentences, sink);
    };
    let mut traffic = open(rt, traffic, notes)?;
    notes.opened();
    lint_both_explained(
        rt.alloc(),
        &mut network,
        &mut traffic,
        &mut notes.sentences,
        sink,
    )
}

/// Adds up the totals in the given file.
fn sum<R: AllocGlobal + Files + RandomSource, S: Sink>(
    rt: &R,
    network: &str,
    totals: &str,
    notes: &mut Extras<'_>,
    sink: &mut S,
) -> Result<Answer, Fault>
    ensures answers { AnswersWith S.taken S.failed IsSumOutput sink.old sink.new result }
    ensures refused { IfErr result (λ e. IsWriteFault (S.failed sink.new) e
        ⊎ IsRefusal IsSumRefusal e) }
{
    let seed = seed_at_random(rt)?;
    let alloc = rt.alloc();
    let mut network = open(rt, network, notes)?;
    let totals = open(rt, totals, notes)?;
    notes.opened();
    let mut lines = LineReader::new(alloc, notes.kept(totals))?;
    let answer = sum_explained(
        alloc,
        seed,
        &mut network,
        &mut lines,
        &mut notes.sentences,
        sink,
    );
    notes
        .sentences
        .explain_totals(lines.get_ref().copy().octets(), &answer);
    answer
}

/// Opens the files that a call names, in the order of its arguments, then reads them and answers. Notes what the
/// sentences after the answer need.
///
/// Fails with 901 if a file can't be opened, or if the system gives no random octets to a call that hashes keys; with
/// 900 if out of memory; otherwise like the command.
pub(crate) fn answer_call<R: AllocGlobal + Clock + Eprint + Files + RandomSource, S: Sink>(
    rt: &R,
    call: &Call,
    notes: &mut Extras<'_>,
    sink: &mut S,
) -> Result<Answer, Fault>
    ensures answers { AnswersWith S.taken S.failed (IsCallText call.now) sink.old sink.new result }
    ensures refused { IfErr result (λ e. IsWriteFault (S.failed sink.new) e
        ⊎ IsCallRefusal call.now e) }
{
    match call {
        Call::Replay {
            network,
            traffic,
            run,
        } => replay(
            rt,
            network.as_str(),
            traffic.as_str(),
            run.as_str(),
            notes,
            sink,
        ),
        Call::Collect { network, stream } => collect(
            rt,
            network.as_str(),
            stream.as_str(),
            notes,
            sink,
        ),
        Call::Check {
            network,
            traffic,
            certificate,
        } => check(
            rt,
            network.as_str(),
            traffic.as_str(),
            certificate.as_str(),
            notes,
            sink,
        ),
        Call::Confirm {
            network,
            traffic,
            refutation,
        } => confirm(
            rt,
            network.as_str(),
            traffic.as_str(),
            refutation.as_str(),
            notes,
            sink,
        ),
        Call::Audit {
            network,
            traffic,
            limit,
        } => audit(rt, network.as_str(), traffic.as_str(), *limit, notes, sink),
        Call::Run {
            network,
            traffic,
            capture,
            schedule,
            links,
        } => run_capture(
            rt,
            network.as_str(),
            traffic.as_str(),
            capture.as_str(),
            schedule.as_str(),
            links.as_deref(),
            notes,
            sink,
        ),
        Call::Lint { network, traffic } => {
            lint(rt, network.as_str(), traffic.as_deref(), notes, sink)
        }
        Call::Draw {
            network,
            traffic,
            answer,
            class,
        } => draw(
            rt,
            network.as_str(),
            traffic.as_deref(),
            answer.as_deref(),
            class.as_deref(),
            notes,
            sink,
        ),
        Call::Sum { network, totals } => sum(rt, network.as_str(), totals.as_str(), notes, sink),
        Call::Join {
            network,
            traffic,
            parts,
        } => join(
            rt,
            network.as_str(),
            traffic.as_str(),
            parts.as_str(),
            notes,
            sink,
        ),
        Call::Explain { number } => explain_bytes(number.as_str(), sink),
    }
}
