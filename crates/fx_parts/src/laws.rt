//! The laws: contracts over the definitions, without code.
ghost use Rattle.std.specs.Prelude.{◌≡◌, ℕ, Bool, true, List, Some, slice_get};
ghost use Rattle.fx_elements.specs.Axes.{Fields};
ghost use Rattle.fx_boxes.specs.Boxes.{Bounds, IsRegion, holds};
ghost use Rattle.fx_layout.specs.Keys.{Key};
ghost use Rattle.fx_leaf.specs.Certificates.{Tree, SoundTree};
ghost use Rattle.fx_leaf.specs.Verdicts.{path_verdict};
ghost use Rattle.fx_parts.specs.Trees.{SplitAlike};
ghost use Rattle.fx_leaf.specs.Fates.{fate, packet_fate};
ghost use Rattle.fx_machine.specs.Claim.{ExactlyOnce, OnceModulo};
ghost use Rattle.fx_tables.specs.declared.traffic.Crossing.{Crossing};
ghost use Rattle.fx_tables.specs.Classes as traffic;
ghost use Rattle.fx_tables.specs.Network as network;
ghost use Rattle.fx_tables.specs.Ranks.{IsNetwork};
ghost use Rattle.fx_parts.specs.Parts.{IsPart, MetersTheSame, TakesInTheSame, Part, AllCertifiedParts, AllCovered};

/// Proves that a record has the same fate in a part of a network as in the whole, and so does a packet on a path where
/// the same caches take it in.
pub fn fates_of_parts()
    ensures records { (part whole : network.Net) (places : List ℕ)
        → IsNetwork part → IsNetwork whole → IsPart part whole places
        → (process place : ℕ) (key : Key) → slice_get places process ≡ Some place
        → fate part process key ≡ fate whole place key }
    ensures packets { (part whole : network.Net) (places : List ℕ)
        → IsNetwork part → IsNetwork whole
        → IsPart part whole places → (region : Bounds) (inner outer : List Crossing)
        → TakesInTheSame part whole places region inner outer → (fields : Fields)
        → holds region fields ≡ true
        → packet_fate part fields inner ≡ packet_fate whole fields outer }
    // If a packet passes the same selection processes, the same caches take it in.
    ensures seen { (part whole : network.Net) (places : List ℕ) (region : Bounds)
        (inner outer : List Crossing)
        → MetersTheSame part whole places inner outer
        → TakesInTheSame part whole places region inner outer }
{}

/// Proves that a region has the same verdict in a part as in the whole, whether a leaf or a refusal. So if a tree is
/// sound over the part, one with the same splits is sound over the whole.
pub fn leaves_of_parts()
    ensures verdicts { (part whole : network.Net) (places : List ℕ)
        → IsNetwork part → IsNetwork whole
        → IsPart part whole places → (inner outer : List Crossing)
        → MetersTheSame part whole places inner outer
        → (region : Bounds) → path_verdict part region inner ≡ path_verdict whole region outer }
    ensures trees { (part whole : network.Net) (places : List ℕ) → IsNetwork part → IsNetwork whole
        → IsPart part whole places → (inner outer : List Crossing)
        → MetersTheSame part whole places inner outer
        → (exempt : Bool) (region : Bounds) (tree : Tree) → IsRegion region
        → SoundTree part inner exempt region tree
        → (other : Tree) × SplitAlike tree other × SoundTree whole outer exempt region other }
{}

/// Proves that if certified parts cover each path of each class, every complete run of the whole network counts each
/// packet of the classes exactly once, or never if its class is exempt. So a network larger than one document can hold
/// is checked one part at a time.
pub fn parts_count_once()
    ensures once { (whole : network.Net) (classes : List traffic.Class) (parts : List Part)
        → IsNetwork whole → AllCertifiedParts whole parts → AllCovered whole classes parts
        → ExactlyOnce whole classes }
    // The totals are the plain sums modulo 2 to the 64, however large the sums are.
    ensures modulo { (whole : network.Net) (classes : List traffic.Class) (parts : List Part)
        → IsNetwork whole → AllCertifiedParts whole parts → AllCovered whole classes parts
        → OnceModulo whole classes }
{}
