//! Laws about the answers of commands.
ghost use Rattle.std.specs.Prelude.{◌≡◌, ℕ, List, None, Option, true};
ghost use Rattle.fx_base.specs.Lines.{Lines};
ghost use Rattle.fx_base.specs.Refusals.{is_refusal_number};
ghost use Rattle.fx_base.specs.declared.fault.Fault as faults;
ghost use Rattle.fx_link.specs.Links.{Put};
ghost use Rattle.fx_tables.specs.Classes.{Class};
ghost use Rattle.fx_topology.specs.declared.network.NetworkDocument as networks;
ghost use Rattle.fx_checker.specs.Checks.{IsNoAnswer, MeansNo, IsRefusedCheck};
ghost use Rattle.fx_audit.specs.Commands.{IsRefusedBundle, IsRefusedCollect, IsRefusedConfirm, IsRefusedReplay};
ghost use Rattle.fx_audit.specs.Confirms.{IsRefusedRefutation, RefutesNothing};
ghost use Rattle.fx_checker.specs.Documents.{IsRefusedByDocuments, IsRefusedNetwork};
ghost use Rattle.fx_audit.specs.Metering.{IsRefusedMetering};
ghost use Rattle.fx_audit.specs.Sums.{IsRefusedSum};

/// Proves that the numbers of the refusals are listed, so that each has an explanation in words: those of the first
/// fault of a network document and of a traffic declaration, those that make the answer to a certificate or a
/// refutation `no`, those with which a check ends otherwise, and those with which each command refuses what follows its
/// documents. The reader of a schedule is one that hadn't stopped before.
pub fn refusals_are_listed()
    ensures network { (octets : List ℕ) (e : faults.Fault)
        → IsRefusedNetwork octets e → is_refusal_number e.number ≡ true }
    ensures documents { (network : List ℕ) (traffic : List ℕ) (e : faults.Fault)
        → IsRefusedByDocuments network traffic e → is_refusal_number e.number ≡ true }
    ensures certificate { (number : ℕ) → MeansNo number → is_refusal_number number ≡ true }
    ensures refutation { (number : ℕ) → RefutesNothing number → is_refusal_number number ≡ true }
    ensures unanswered { (e : faults.Fault) → IsNoAnswer e → is_refusal_number e.number ≡ true }
    ensures check { (network : List ℕ) (traffic : List ℕ) (lines : Lines) (e : faults.Fault)
        → IsRefusedCheck network traffic lines e → is_refusal_number e.number ≡ true }
    ensures replay { (network : List ℕ) (traffic : List ℕ) (lines : Lines) (e : faults.Fault)
        → IsRefusedReplay network traffic lines e → is_refusal_number e.number ≡ true }
    ensures refuted { (network : networks.NetworkDocument) (classes : List Class) (lines : Lines)
        (e : faults.Fault)
        → IsRefusedRefutation network classes lines e → is_refusal_number e.number ≡ true }
    ensures confirm { (network : List ℕ) (traffic : List ℕ) (lines : Lines) (e : faults.Fault)
        → IsRefusedConfirm network traffic lines e → is_refusal_number e.number ≡ true }
    ensures collect { (network : List ℕ) (stream : List ℕ) (e : faults.Fault)
        → IsRefusedCollect network stream e → is_refusal_number e.number ≡ true }
    ensures metering { (network : List ℕ) (traffic : List ℕ) (left : Option (List ℕ)) (asked : ℕ)
        (from : Lines) (last : Lines) (before : Put) (e : faults.Fault)
        → from.stopped ≡ None
        → IsRefusedMetering network traffic left asked (Unit {0}) (λ _. Unit {0}) from last before e
        → is_refusal_number e.number ≡ true }
    ensures sum { (network : List ℕ) (lines : Lines) (e : faults.Fault)
        → IsRefusedSum network lines e → is_refusal_number e.number ≡ true }
    ensures bundle { (octets : List ℕ) (e : faults.Fault)
        → IsRefusedBundle octets e → is_refusal_number e.number ≡ true }
{}
