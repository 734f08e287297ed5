//! The laws: contracts over the definitions, without code.
ghost use Rattle.std.specs.Prelude.{◌≡◌, ◌^◌, ◌<◌, ℕ, List, Ok};
ghost use Rattle.fx_base.specs.Lines.{text_lines};
ghost use Rattle.fx_machine.specs.Claim.{ExactlyOnce};
ghost use Rattle.fx_tables.specs.Classes as traffic;
ghost use Rattle.fx_tables.specs.Network as network;
ghost use Rattle.fx_run_text.specs.RunText.{AreShort};
ghost use Rattle.fx_run_text.specs.declared.text_version.TextVersion.{TextVersion};
ghost use Rattle.fx_refute.specs.RefutationReading.{refutation_in};
ghost use Rattle.fx_refute.specs.RefutationText.{IsRefutation, refutation_lines, refutation_text};
ghost use Rattle.fx_refute.specs.Refutations.{Refutation, Refutes};

use fx_machine::choices_are_free;
use fx_run_text::run_lines_have_one_text;

/// Proves that if there is a refutation, not every complete run counts each packet exactly once.
pub fn refutations_refute()
    ensures { (net : network.Net) (classes : List traffic.Class) (r : Refutation)
        → r.packet.octets < 2 ^ 64 → Refutes net classes r → ExactlyOnce net classes → ⊥ }
{
    choices_are_free();
}

/// Proves that the text of a refutation, in either version, is read as that refutation if its lines have at most 4,096
/// octets, and that no other text is.
pub fn refutations_have_one_text()
    ensures read { (version : TextVersion) (r : Refutation) (n : ℕ)
        → IsRefutation version r → AreShort (refutation_lines version r)
        → refutation_in n (text_lines (refutation_text version r)) ≡ Ok r }
    ensures only { (text : List ℕ) (r : Refutation) (n : ℕ)
        → refutation_in n (text_lines text) ≡ Ok r
        → (version : TextVersion) × (text ≡ refutation_text version r)
        × IsRefutation version r × AreShort (refutation_lines version r) }
{
    run_lines_have_one_text();
}
