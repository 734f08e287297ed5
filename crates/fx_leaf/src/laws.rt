//! The laws: contracts over the definitions, without code.
ghost use Rattle.std.specs.Prelude.{◌≡◌, ℕ, List};
ghost use Rattle.fx_layout.specs.Keys as keys;
ghost use Rattle.fx_machine.specs.Acts as acts;
ghost use Rattle.fx_tables.specs.Classes as traffic;
ghost use Rattle.fx_tables.specs.Network as network;
ghost use Rattle.fx_tables.specs.Ranks as ranks;
ghost use Rattle.fx_machine.specs.States as states;
ghost use Rattle.fx_tables.specs.declared.packet.Packet as of_packet;
ghost use Rattle.fx_tables.specs.declared.holder_name.HolderName as of_holder;
ghost use Rattle.fx_run_text.specs.declared.step.Step.TheVariants as of_step;
ghost use Rattle.fx_leaf.specs.Answers as answers;
ghost use Rattle.fx_leaf.specs.Certificates as certificates;
ghost use Rattle.fx_leaf.specs.Fates as fates;
ghost use Rattle.fx_leaf.specs.Laws as the_laws;

/// If each link leads to a process of higher rank, the fates of keys at processes agree along the links, and no other
/// fates do.
pub fn fates_along_ranks()
    ensures agree { (net : network.Net) → ranks.IsRanked net → fates.AreFates net (fates.fate net) }
    ensures no_other { (net : network.Net) (at : fates.FateAt) → ranks.IsRanked net
        → fates.AreFates net at → (process : ℕ) (key : keys.Key)
        → at process key ≡ fates.fate net process key }
{}

/// The invariant of every step: the totals, plus each record on its way and each pending crossing weighed by its fate.
pub fn conservation()
    // At the opening, it is the plain sums.
    ensures opens { (net : network.Net) (classes : List traffic.Class) → ranks.IsNetwork net
        → certificates.AllAsWanted net classes → the_laws.Opens net classes }
    // So it is modulo 2 to the 64, however large the sums are.
    ensures opens_modulo { (net : network.Net) (classes : List traffic.Class) → ranks.IsNetwork net
        → certificates.AllAsWanted net classes → the_laws.OpensModulo net classes }
    // There the machine's tables have their sizes, which each step preserves too.
    ensures sized { (net : network.Net) (classes : List traffic.Class)
        (packets : List of_packet.Packet)
        → the_laws.IsSized net (states.opening net classes packets) }
    ensures cross { (net : network.Net) (classes : List traffic.Class) (packet : ℕ) (crossing : ℕ)
        (choices : acts.Choices) → ranks.IsNetwork net
        → the_laws.Keeps net classes (of_step.Cross packet crossing choices) }
    ensures expire { (net : network.Net) (classes : List traffic.Class)
        (holder : of_holder.HolderName) (number : ℕ) (choices : acts.Choices) → ranks.IsNetwork net
        → the_laws.Keeps net classes (of_step.Expire holder number choices) }
    ensures arrive { (net : network.Net) (classes : List traffic.Class) (link : ℕ) (number : ℕ)
        (choices : acts.Choices) → ranks.IsNetwork net
        → the_laws.Keeps net classes (of_step.Arrive link number choices) }
    // In a complete state, it is the totals.
    ensures ends { (net : network.Net) (classes : List traffic.Class) → the_laws.Ends net classes }
{}

/// If a certificate is sound, every complete run counts each packet exactly once, and those of exempt classes never.
pub fn exactly_once()
    ensures once { the_laws.Theorem }
    // However large the sums are, the totals are the plain sums modulo 2 to the 64.
    ensures modulo { the_laws.TheoremModulo }
{}

/// The verdict on a region, which is computed from layouts alone, determines whether something cuts the region, which
/// fate its packets have, and which leaf is sound.
pub fn verdicts_judge_regions()
    // If there is no verdict, something cuts the region.
    ensures none { answers.OnEveryRegion answers.NoneIsCut }
    // If there is one, nothing does, and it is the fate of each packet.
    ensures some { answers.OnEveryRegion answers.SomeIsFate }
    // If it is once, the selection process that counts makes a sound leaf, and no other does.
    ensures once { answers.OnEveryRegion answers.OnceIsSound }
    ensures no_other { answers.OnEveryRegion answers.NoOtherIsSound }
    // No packet is counted if, and only if, it is never.
    ensures never { answers.OnEveryRegion answers.NeverIsSound }
    ensures never_alone { answers.OnEveryRegion answers.SoundIsNever }
    // Verdicts at collecting processes may be computed in a table, starting at the processes of highest rank.
    ensures table { answers.TableIsVerdicts }
{}
