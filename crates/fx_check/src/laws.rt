//! Laws: no code, but contracts over the definitions.
ghost use Rattle.std.specs.Prelude.{◌≡◌, ℕ, List, None, Some};
ghost use Rattle.fx_boxes.specs.Boxes.{Bounds, IsRegion};
ghost use Rattle.fx_base.specs.Fault.{fault_at};
ghost use Rattle.fx_base.specs.declared.fault.Place.TheVariants as places;
ghost use Rattle.fx_leaf.specs.Leaves.{NeverIsUnsound};
ghost use Rattle.fx_leaf.specs.declared.leaf.Counted.{Counted};
ghost use Rattle.fx_machine.specs.Claim.{ExactlyOnce, OnceModulo};
ghost use Rattle.fx_tables.specs.Classes as traffic;
ghost use Rattle.fx_tables.specs.Network as network;
ghost use Rattle.fx_tables.specs.Ranks.{IsNetwork};
ghost use Rattle.fx_check.specs.Certificates.{IsCertificate};
ghost use Rattle.fx_check.specs.Declarations.{AllCertified, all_classes};
ghost use Rattle.fx_check.specs.Judging.{judge_of, IsWrong};
ghost use Rattle.fx_traffic.specs.Targets.{AreRegions, Target, targets_of};
ghost use Rattle.fx_check.specs.FirstRefusal.{Line, first_refusal, whole};

/// States that lines have no refusal exactly if they are those of a certificate: a sound tree for each path of each
/// class, within the limits.
pub fn certificates_are_accepted()
    ensures only { (net : network.Net) (classes : List traffic.Class) (before : ℕ)
        (lines : List Line) → IsNetwork net → AreRegions (targets_of classes)
        → first_refusal (judge_of net) before 0 (whole (targets_of classes)) lines ≡ None
        → IsCertificate net classes lines }
    ensures all { (net : network.Net) (classes : List traffic.Class) (before : ℕ)
        (lines : List Line) → IsNetwork net → AreRegions (targets_of classes)
        → IsCertificate net classes lines → first_refusal (judge_of net) before 0
        (whole (targets_of classes)) lines ≡ None }
{}

/// States that, if there is a certificate, each packet of the classes is counted exactly once by every complete run,
/// and those of exempt classes never.
pub fn certificates_count_once()
    ensures once { (net : network.Net) (classes : List traffic.Class) (lines : List Line)
        → IsNetwork net → IsCertificate net classes lines → ExactlyOnce net classes }
    // However large the sums are, the totals are the plain sums modulo 2 to the 64.
    ensures modulo { (net : network.Net) (classes : List traffic.Class) (lines : List Line)
        → IsNetwork net → IsCertificate net classes lines → OnceModulo net classes }
{}

/// States that, if each of several traffic declarations over one network has its own certificate, each packet of all
/// their classes together is counted exactly once by every complete run over them, and those of exempt classes never:
/// more traffic than one document can hold is checked one document at a time.
pub fn certificates_join()
    ensures once { (net : network.Net) (declarations : List (List traffic.Class)) → IsNetwork net
        → AllCertified net declarations → ExactlyOnce net (all_classes declarations) }
    // However large the sums are, the totals are the plain sums modulo 2 to the 64.
    ensures modulo { (net : network.Net) (declarations : List (List traffic.Class))
        → IsNetwork net → AllCertified net declarations
        → OnceModulo net (all_classes declarations) }
{}

/// States that, if something is wrong with a leaf for a region, its number gives why no leaf is sound there, or is 410
/// if another one is; for a leaf which says that nothing is counted it gives why packets are.
pub fn wrong_leaves_are_reported()
    ensures counted { (net : network.Net) (target : Target) (region : Bounds) (leaf : Counted)
        (number : ℕ)
        → IsNetwork net → IsRegion region → judge_of net target region (Some leaf) ≡ Some number
        → IsWrong net target.crossings region leaf number }
    ensures never { (net : network.Net) (target : Target) (region : Bounds) (number : ℕ)
        → IsNetwork net → IsRegion region → judge_of net target region None ≡ Some number
        → NeverIsUnsound net target.crossings region (fault_at number places.None) }
{}
