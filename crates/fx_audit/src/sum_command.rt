//! The command that adds up totals, from octets to octets.
ghost use Rattle.std.specs.Prelude.{◌≡◌, ◌⊎◌, Ok, Err, IfOk, IfErr, OnOk};
ghost use Rattle.fx_base.specs.Device.{IsWriteFault, MayHaveLeft};
ghost use Rattle.fx_base.specs.Fault.{IsMemory};
ghost use Rattle.fx_base.specs.Lines.{Fails};
ghost use Rattle.fx_sums.specs.SumReading.{MayReadTexts, RefusesTexts, sum_of_texts};
ghost use Rattle.fx_sums.specs.Sums.{no_sum};
ghost use Rattle.fx_checker.specs.Documents.{CannotRead, IfNetworkRefused};
ghost use Rattle.fx_checker.specs.Outputs.{AnswersWith, FailsQuietly, Prints};
ghost use Rattle.fx_audit.specs.Sums.{IsRefusedSum, IsRefusedTotals, IsSummed, IsSummedUnder, IsTextOfSum};
ghost use Rattle.fx_audit.specs.Texts.{IsSumText};
ghost use Rattle.fx_checker.specs.declared.answer.Answer.TheVariants.{Yes};

use crate::explainer::Explainer;
use fx_base::{Fault, LineReader, Sink, Source};
use fx_checker::{Answer, Unexplained, network_from};
use fx_layout::{Layout, Seed};
use fx_sums::Sum;
use std::alloc::Global;

/// Writes a sum with its keys in ascending order.
fn put_sum<S: Sink>(sum: &mut Sum, sink: &mut S) -> Result<Answer, Fault>
    ensures ok { IfOk result (λ answer. (answer ≡ Yes)
        × Prints (IsTextOfSum sum.old) (S.taken sink.old) (S.taken sink.new)) }
    ensures err { IfErr result (λ e. IsMemory e
        ⊎ IsWriteFault (S.failed sink.new) e) }
    ensures quiet { FailsQuietly S.failed sink.old sink.new result }
{
    sum.sort()?;
    sum.put_text(sink)?;
    Ok(Answer::Yes)
}

/// Adds the texts of totals in a reader's lines to a sum. If a line is refused, passes it to the explainer.
///
/// Fails as [`Sum::add_texts`] does.
fn add_lent<R: Source, E: Explainer>(
    sum: &mut Sum,
    key: &Layout,
    texts: &mut LineReader<R>,
    explainer: &mut E,
) -> Result<(), Fault>
    ensures ok { OnOk result (MayReadTexts (sum_of_texts sum.old) texts.old (Ok sum.new)) }
    ensures err { IfErr result (λ e. IsMemory e
        ⊎ RefusesTexts (sum_of_texts sum.old) texts.old texts.new e) }
{
    let added = sum.add_texts(texts);
    if let Err(fault) = &added {
        explainer.on_refused_totals(key, &texts.line(), fault);
    }
    added
}

/// Adds the texts of totals in a reader's lines to an empty sum, and writes the result.
fn sum_into<R: Source, E: Explainer, S: Sink>(
    sum: &mut Sum,
    key: &Layout,
    texts: &mut LineReader<R>,
    explainer: &mut E,
    sink: &mut S,
) -> Result<Answer, Fault>
    requires { sum.old ≡ no_sum sum.old.totals.layout }
    ensures ok { IfOk result (λ answer. (answer ≡ Yes)
        × Prints (IsSummedUnder sum.old.totals.layout texts.old)
        (S.taken sink.old) (S.taken sink.new)) }
    ensures err { IfErr result (λ e. IsMemory e
        ⊎ (Fails texts.old texts.new e
        ⊎ (IsWriteFault (S.failed sink.new) e
        ⊎ IsRefusedTotals sum.old.totals.layout texts.old e))) }
    ensures quiet { FailsQuietly S.failed sink.old sink.new result }
{
    add_lent(sum, key, texts, explainer)?;
    put_sum(sum, sink)
}

/// Adds up the texts of totals in a reader's lines, under a layout's keys, and writes the sum.
fn sum_lines<R: Source, E: Explainer, S: Sink>(
    alloc: Global,
    seed: Seed,
    layout: &Layout,
    texts: &mut LineReader<R>,
    explainer: &mut E,
    sink: &mut S,
) -> Result<Answer, Fault>
    ensures ok { IfOk result (λ answer. (answer ≡ Yes)
        × Prints (IsSummedUnder layout.now texts.old) (S.taken sink.old) (S.taken sink.new)) }
    ensures err { IfErr result (λ e. IsMemory e
        ⊎ (Fails texts.old texts.new e
        ⊎ (IsWriteFault (S.failed sink.new) e
        ⊎ IsRefusedTotals layout.now texts.old e))) }
    ensures quiet { FailsQuietly S.failed sink.old sink.new result }
{
    let mut sum = Sum::new(alloc, seed, layout.copy())?;
    sum_into(&mut sum, layout, texts, explainer, sink)
}

/// Reads a network document and adds up one or more texts of totals under the key of its report, each directly
/// following the one before, as written by the commands that collect, run and replay. Writes the sum as such a text.
/// Totals hash keys by the seed.
///
/// Fails with the first refusal: for the network, 101 and the errors of [`fx_plan::read_plan`], before any of the texts
/// is read; then the errors of [`Sum::add_texts`]: 861 at the first misplaced line, and 903 at a line of more than
/// 4,096 octets. Fails with 901 if a read fails or a reader hasn't ended after 4,294,967,296 calls, with 900 if out of
/// memory, and with 902 if a write fails. For faults other than 902 nothing is written, nor is anything before all
/// texts are read.
pub fn sum_bytes<N: Source, R: Source, S: Sink>(
    alloc: Global,
    seed: Seed,
    network: &mut N,
    texts: &mut LineReader<R>,
    sink: &mut S,
) -> Result<Answer, Fault>
    ensures ok { IfOk result (λ answer. (answer ≡ Yes)
        × MayHaveLeft (N.left network.old) (λ n.
        Prints (IsSummed n texts.old) (S.taken sink.old) (S.taken sink.new))) }
    ensures err { IfErr result (λ e. IsMemory e
        ⊎ (CannotRead N.left N.calls N.failed network.old network.new e
        ⊎ (Fails texts.old texts.new e
        ⊎ (IsWriteFault (S.failed sink.new) e
        ⊎ MayHaveLeft (N.left network.old) (λ n. IsRefusedSum n texts.old e))))) }
    ensures answers { AnswersWith S.taken S.failed IsSumText sink.old sink.new result }
    ensures untouched { IfNetworkRefused (N.left network.old) (texts.new ≡ texts.old) }
{
    sum_explained(alloc, seed, network, texts, &mut Unexplained, sink)
}

/// Does what [`sum_bytes`] does, and passes what it knows to the explainer.
pub fn sum_explained<N: Source, R: Source, E: Explainer, S: Sink>(
    alloc: Global,
    seed: Seed,
    network: &mut N,
    texts: &mut LineReader<R>,
    explainer: &mut E,
    sink: &mut S,
) -> Result<Answer, Fault>
    ensures ok { IfOk result (λ answer. (answer ≡ Yes)
        × MayHaveLeft (N.left network.old) (λ n.
        Prints (IsSummed n texts.old) (S.taken sink.old) (S.taken sink.new))) }
    ensures err { IfErr result (λ e. IsMemory e
        ⊎ (CannotRead N.left N.calls N.failed network.old network.new e
        ⊎ (Fails texts.old texts.new e
        ⊎ (IsWriteFault (S.failed sink.new) e
        ⊎ MayHaveLeft (N.left network.old) (λ n. IsRefusedSum n texts.old e))))) }
    ensures answers { AnswersWith S.taken S.failed IsSumText sink.old sink.new result }
    ensures untouched { IfNetworkRefused (N.left network.old) (texts.new ≡ texts.old) }
{
    let plan = network_from(alloc, network, explainer)?;
    sum_lines(
        alloc,
        seed,
        plan.net().report_layout(),
        texts,
        explainer,
        sink,
    )
}
