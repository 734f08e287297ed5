//! Reading bundles from octets, and running their commands.
ghost use Rattle.std.specs.Prelude.{◌≡◌, ◌⊎◌, ℕ, List, IfOk, IfErr, false};
ghost use Rattle.fx_base.specs.Device.{MayHaveLeft, IsWriteFault};
ghost use Rattle.fx_base.specs.Fault.{IsMemory};
ghost use Rattle.fx_base.specs.Lines.{Fails, lines_in};
ghost use Rattle.fx_audit.specs.Bundle.{IsBundle};
ghost use Rattle.fx_audit.specs.Commands.{IsDone, IsRefusedBundle, IsRefusedBy, IsRefusedThere};
ghost use Rattle.fx_checker.specs.Documents.{BothMayHaveLeft, CannotRead};
ghost use Rattle.fx_checker.specs.Outputs.{AnswersWith, FailsBy, FailsQuietly, Prints};
ghost use Rattle.fx_audit.specs.Texts.{IsBundleText};
ghost use Rattle.fx_audit.specs.declared.bundle.Command.{Command};

use crate::audit_command::{AUDIT_LIMIT, audit_explained};
use crate::bundle::{Bundle, Command, read_bundle};
use crate::confirm_command::confirm_explained;
use crate::explainer::Explainer;
use crate::replay_command::replay_explained;
use fx_base::{Fault, LineReader, Octets, Sink, Source, read_whole, refusals};
use fx_checker::{Answer, Unexplained, check_explained};
use fx_layout::Seed;
use fx_search::Unwatched;
use std::alloc::Global;

/// Proves that reading a text in memory doesn't fail.
fn never_fails(lines: &LineReader<Octets<'_>>)
    ensures { lines.now.failed ≡ false }
{
    // For the prover only: the invariant of the source's type.
    let _text = lines.get_ref();
}

/// Runs a command on a network document, a traffic declaration and a third text. An audit reads nothing of the third.
fn answer_texts<N: Source, T: Source, R: Source, E: Explainer, S: Sink>(
    alloc: Global,
    seed: Seed,
    command: Command,
    network: &mut N,
    traffic: &mut T,
    third: &mut LineReader<R>,
    explainer: &mut E,
    sink: &mut S,
) -> Result<Answer, Fault>
    ensures ok { IfOk result (λ answer.
        BothMayHaveLeft (N.left network.old) (T.left traffic.old) (λ n t.
        Prints (IsDone command n t third.old answer) (S.taken sink.old) (S.taken sink.new))) }
    ensures err { IfErr result (FailsBy (CannotRead N.left N.calls N.failed network.old network.new)
        (CannotRead T.left T.calls T.failed traffic.old traffic.new)
        (Fails third.old third.new) (S.failed sink.new)
        (λ e. BothMayHaveLeft (N.left network.old) (T.left traffic.old)
        (λ n t. IsRefusedBy command n t third.old e))) }
    ensures quiet { FailsQuietly S.failed sink.old sink.new result }
{
    match command {
        Command::Replay => {
            replay_explained(alloc, seed, network, traffic, third, explainer, sink)
        }
        Command::Check => check_explained(alloc, network, traffic, third, explainer, sink),
        Command::Confirm => confirm_explained(alloc, network, traffic, third, explainer, sink),
        Command::Audit => audit_explained(
            alloc,
            network,
            traffic,
            AUDIT_LIMIT,
            &mut Unwatched,
            explainer,
            sink,
        ),
    }
}

/// Runs a bundle's command on its texts.
fn answer_bundle<E: Explainer, S: Sink>(
    alloc: Global,
    seed: Seed,
    bundle: &Bundle<'_>,
    explainer: &mut E,
    sink: &mut S,
) -> Result<Answer, Fault>
    ensures answers { AnswersWith S.taken S.failed
        (IsDone bundle.now.command bundle.now.network.now bundle.now.traffic.now
        (lines_in bundle.now.third.now)) sink.old sink.new result }
    ensures err { IfErr result (λ e. IsMemory e
        ⊎ (IsWriteFault (S.failed sink.new) e
        ⊎ IsRefusedThere bundle.now.command bundle.now.network.now bundle.now.traffic.now
        bundle.now.third.now e)) }
{
    let mut network = Octets::new(bundle.network);
    let mut traffic = Octets::new(bundle.traffic);
    let mut third = LineReader::new(alloc, Octets::new(bundle.third))?;
    let command = bundle.command;
    explainer.on_bundle(command);
    let answer = answer_texts(
        alloc,
        seed,
        command,
        &mut network,
        &mut traffic,
        &mut third,
        explainer,
        sink,
    );
    explainer.on_answered_text(bundle.third);
    never_fails(&third);
    answer
}

/// Reads a bundle, which is a command with its texts, and runs the command on them. The limit of an audit is
/// [`AUDIT_LIMIT`]. Totals hash keys by the seed.
///
/// Fails with 801, at no place, if the octets are no bundle, and otherwise as the command does. Fails with 901 if a
/// read fails or the source hasn't ended after 4,294,967,296 calls, with 900 if out of memory, and with 902 if a write
/// fails. For faults other than 902 nothing is written.
pub fn bundle_bytes<B: Source, S: Sink>(
    alloc: Global,
    seed: Seed,
    bundle: &mut B,
    sink: &mut S,
) -> Result<Answer, Fault>
    ensures ok { IfOk result (λ answer. MayHaveLeft (B.left bundle.old) (λ octets.
        (command : Command) × (network : List ℕ) × (traffic : List ℕ) × (third : List ℕ)
        × IsBundle octets command network traffic third
        × Prints (IsDone command network traffic (lines_in third) answer)
        (S.taken sink.old) (S.taken sink.new))) }
    ensures err { IfErr result (λ e. IsMemory e
        ⊎ (CannotRead B.left B.calls B.failed bundle.old bundle.new e
        ⊎ (IsWriteFault (S.failed sink.new) e
        ⊎ MayHaveLeft (B.left bundle.old) (λ octets. IsRefusedBundle octets e)))) }
    ensures answers { AnswersWith S.taken S.failed IsBundleText sink.old sink.new result }
{
    bundle_explained(alloc, seed, bundle, &mut Unexplained, sink)
}

/// Does what [`bundle_bytes`] does, and passes what it knows to the explainer.
pub fn bundle_explained<B: Source, E: Explainer, S: Sink>(
    alloc: Global,
    seed: Seed,
    bundle: &mut B,
    explainer: &mut E,
    sink: &mut S,
) -> Result<Answer, Fault>
    ensures ok { IfOk result (λ answer. MayHaveLeft (B.left bundle.old) (λ octets.
        (command : Command) × (network : List ℕ) × (traffic : List ℕ) × (third : List ℕ)
        × IsBundle octets command network traffic third
        × Prints (IsDone command network traffic (lines_in third) answer)
        (S.taken sink.old) (S.taken sink.new))) }
    ensures err { IfErr result (λ e. IsMemory e
        ⊎ (CannotRead B.left B.calls B.failed bundle.old bundle.new e
        ⊎ (IsWriteFault (S.failed sink.new) e
        ⊎ MayHaveLeft (B.left bundle.old) (λ octets. IsRefusedBundle octets e)))) }
    ensures answers { AnswersWith S.taken S.failed IsBundleText sink.old sink.new result }
{
    let octets = read_whole(alloc, bundle)?;
    let Some(bundle) = read_bundle(octets.as_slice()) else {
        let fault = Fault::bare(refusals::SCHEDULE_OR_BUNDLE);
        explainer.on_refused_bundle(octets.as_slice(), &fault);
        return Err(fault);
    };
    answer_bundle(alloc, seed, &bundle, explainer, sink)
}
