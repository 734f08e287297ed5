//! Tallying a stream's records as they arrive.
ghost use Rattle.std.specs.Prelude.{◌≡◌, ◌⊎◌, None, Err, OnOk, IfOk, IfErr};
ghost use Rattle.fx_base.specs.Device.{MayHaveLeft, IsWriteFault};
ghost use Rattle.fx_base.specs.Fault.{IsMemory};
ghost use Rattle.fx_collect.specs.Totals.{with_records};
ghost use Rattle.fx_session.specs.Streams as streams;
ghost use Rattle.fx_session.specs.Streams.{without_waiting};
ghost use Rattle.fx_checker.specs.Documents.{CannotRead};
ghost use Rattle.fx_checker.specs.Outputs.{AnswersWith, FailsQuietly, Prints};
ghost use Rattle.fx_audit.specs.Streams.{stream_read, IsRefusedStream, IsStreamText, IsTallied, IsTotalsText, EndsWithMessage};
ghost use Rattle.fx_audit.specs.Texts.{IsCollectText};
ghost use Rattle.fx_checker.specs.declared.answer.Answer.TheVariants.{Yes};

use fx_base::{Fault, PieceReader, Sink, Source, refusals};
use fx_checker::Answer;
use fx_collect::{Totals, put_number_line};
use fx_layout::Seed;
use fx_session::{Session, SessionWatch};
use fx_tables::Net;
use std::alloc::Global;

/// Tallies the pending records.
fn tally_waiting(session: &mut Session, totals: &mut Totals) -> Result<(), Fault>
    ensures totals { OnOk result (totals.new ≡ with_records totals.old session.old.known.waiting) }
    ensures session { OnOk result (session.new ≡ without_waiting session.old) }
    ensures err { IfErr result IsMemory }
{
    let (first, second) = session.records();
    totals.tally_all(first)?;
    totals.tally_all(second)?;
    session.clear_records();
    Ok(())
}

/// Feeds a piece of a stream to the session, and tallies the records that it completes.
fn take_piece<W: SessionWatch>(
    session: &mut Session,
    totals: &mut Totals,
    piece: &[u8],
    watch: &mut W,
) -> Result<(), Fault>
    requires { session.old.fault ≡ None }
    ensures session { OnOk result (session.new
        ≡ without_waiting (streams.after_piece session.old piece.now)) }
    ensures faultless { OnOk result (session.new.fault ≡ None) }
    ensures totals { OnOk result (totals.new
        ≡ with_records totals.old (streams.after_piece session.old piece.now).known.waiting) }
    ensures err { IfErr result (λ e. IsMemory e
        ⊎ (streams.answer_of (streams.after_piece session.old piece.now).place
        (streams.after_piece session.old piece.now).fault ≡ Err e)) }
{
    session.feed_watched(piece, watch)?;
    tally_waiting(session, totals)
}

/// Reads a stream to its end, piece by piece, and tallies its records.
fn tally_stream<R: Source, W: SessionWatch>(
    session: &mut Session,
    totals: &mut Totals,
    stream: &mut R,
    watch: &mut W,
) -> Result<(), Fault>
    requires { session.old ≡ streams.start }
    ensures ok { OnOk result (MayHaveLeft (R.left stream.old)
        (λ octets. IsTallied octets totals.old session.new totals.new)) }
    ensures err { IfErr result (λ e. IsMemory e
        ⊎ (CannotRead R.left R.calls R.failed stream.old stream.new e
        ⊎ MayHaveLeft (R.left stream.old) (λ octets. streams.answer_of (stream_read octets).place
        (stream_read octets).fault ≡ Err e))) }
{
    let mut pieces = PieceReader::new();
    'pieces: while pieces.advance(stream)? {
        take_piece(session, totals, pieces.piece(), watch)?;
    }
    Ok(())
}

/// Writes the text of totals, with their keys in ascending order, and the numbers of gaps and of skipped records.
/// Nothing is written before everything that allocates is done.
///
/// Fails at no place: with 900 if out of memory, and with 902 if a write fails.
fn put_collected<S: Sink>(session: &Session, totals: &mut Totals, sink: &mut S) -> Result<(), Fault>
    ensures ok { OnOk result (Prints
        (IsTotalsText totals.old session.now.known.gaps session.now.known.skipped)
        (S.taken sink.old) (S.taken sink.new)) }
    ensures err { IfErr result (λ e. IsMemory e
        ⊎ IsWriteFault (S.failed sink.new) e) }
    ensures quiet { FailsQuietly S.failed sink.old sink.new result }
{
    totals.sort()?;
    totals.put_report(sink)?;
    put_number_line(sink, b"gaps ", session.gaps())?;
    put_number_line(sink, b"skipped ", session.skipped())
}

/// Reads a stream to its end, tallies its records, and writes what was collected.
fn collect_by<R: Source, W: SessionWatch, S: Sink>(
    session: &mut Session,
    totals: &mut Totals,
    stream: &mut R,
    watch: &mut W,
    sink: &mut S,
) -> Result<Answer, Fault>
    requires { session.old ≡ streams.start }
    ensures ok { IfOk result (λ answer. (answer ≡ Yes)
        × MayHaveLeft (R.left stream.old) (λ octets. EndsWithMessage (stream_read octets)
        × Prints (IsTotalsText (with_records totals.old (stream_read octets).known.waiting)
        (stream_read octets).known.gaps (stream_read octets).known.skipped)
        (S.taken sink.old) (S.taken sink.new))) }
    ensures err { IfErr result (λ e. IsMemory e
        ⊎ (CannotRead R.left R.calls R.failed stream.old stream.new e
        ⊎ (IsWriteFault (S.failed sink.new) e
        ⊎ MayHaveLeft (R.left stream.old) (λ octets. IsRefusedStream (stream_read octets) e)))) }
    ensures answers { AnswersWith S.taken S.failed IsCollectText sink.old sink.new result }
{
    tally_stream(session, totals, stream, watch)?;
    if session.left() > 0 {
        watch.on_unfinished(session.place(), session.unfinished());
        return Err(Fault::at_octet(refusals::MESSAGE_LENGTH, session.place()));
    }
    put_collected(session, totals, sink)?;
    Ok(Answer::Yes)
}

/// Collects a stream into totals, and writes them.
fn collect_into<R: Source, W: SessionWatch, S: Sink>(
    alloc: Global,
    totals: &mut Totals,
    stream: &mut R,
    watch: &mut W,
    sink: &mut S,
) -> Result<Answer, Fault>
    ensures ok { IfOk result (λ answer. (answer ≡ Yes)
        × MayHaveLeft (R.left stream.old) (λ octets. EndsWithMessage (stream_read octets)
        × Prints (IsTotalsText (with_records totals.old (stream_read octets).known.waiting)
        (stream_read octets).known.gaps (stream_read octets).known.skipped)
        (S.taken sink.old) (S.taken sink.new))) }
    ensures err { IfErr result (λ e. IsMemory e
        ⊎ (CannotRead R.left R.calls R.failed stream.old stream.new e
        ⊎ (IsWriteFault (S.failed sink.new) e
        ⊎ MayHaveLeft (R.left stream.old) (λ octets. IsRefusedStream (stream_read octets) e)))) }
    ensures answers { AnswersWith S.taken S.failed IsCollectText sink.old sink.new result }
{
    let mut session = Session::new(alloc)?;
    collect_by(&mut session, totals, stream, watch, sink)
}

/// Tallies the flow records of an IPFIX stream under the keys of a network's report, and writes the totals and the
/// numbers of gaps and of skipped records. The stream is read in pieces; only its templates, the unfinished message and
/// the totals are kept. Totals hash keys by the seed. The content of its messages, and the layout under which they are
/// tallied, are reported to `watch`; what is returned and written is the same for every observer.
///
/// Fails at the first octet of a message with 611 to 620 if the message is refused (see [`Session::feed`]), and with
/// 612 if the stream ends inside it. Fails at no place with 901 if a read fails or the stream hasn't ended after
/// 4,294,967,296 calls, with 900 if out of memory, and with 902 if a write fails. Nothing is written before the stream
/// has ended and its totals are sorted.
pub fn collect<R: Source, W: SessionWatch, S: Sink>(
    alloc: Global,
    seed: Seed,
    net: &Net,
    stream: &mut R,
    watch: &mut W,
    sink: &mut S,
) -> Result<Answer, Fault>
    ensures ok { IfOk result (λ answer. (answer ≡ Yes)
        × MayHaveLeft (R.left stream.old) (λ octets. EndsWithMessage (stream_read octets)
        × Prints (IsStreamText net.now.report_layout (stream_read octets).known)
        (S.taken sink.old) (S.taken sink.new))) }
    ensures err { IfErr result (λ e. IsMemory e
        ⊎ (CannotRead R.left R.calls R.failed stream.old stream.new e
        ⊎ (IsWriteFault (S.failed sink.new) e
        ⊎ MayHaveLeft (R.left stream.old) (λ octets. IsRefusedStream (stream_read octets) e)))) }
    ensures answers { AnswersWith S.taken S.failed IsCollectText sink.old sink.new result }
{
    let mut totals = Totals::new(alloc, seed, net.report_layout().copy())?;
    watch.on_layout(net.report_layout());
    collect_into(alloc, &mut totals, stream, watch, sink)
}
