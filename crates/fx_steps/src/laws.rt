//! The laws: contracts over the definitions, without code.
ghost use Rattle.std.specs.Prelude.{◌^◌, ◌<◌, ℕ, List};
ghost use Rattle.fx_leaf.specs.declared.verdict.Fate.{Fate};
ghost use Rattle.fx_tables.specs.Classes as traffic;
ghost use Rattle.fx_tables.specs.Network as network;
ghost use Rattle.fx_tables.specs.Ranks.{IsNetwork};
ghost use Rattle.fx_tables.specs.declared.packet.Packet.{Packet};
ghost use Rattle.fx_steps.specs.Playing.{RunOf};
ghost use Rattle.fx_steps.specs.Ways.{PacketComes};

/// Proves that if a packet comes to a fate in a number of steps, this many steps lead from the opening of this one
/// packet to a complete state, and that unless the fate is once, that state does not count each packet once.
pub fn packets_have_runs()
    ensures { (net : network.Net) (classes : List traffic.Class) (p : Packet) (fate : Fate) (number
        : ℕ) → IsNetwork net → number < 2 ^ 64 → PacketComes net p.fields (traffic.path classes p)
        fate number → RunOf net classes p fate number }
{}
