//! Writing of the messages for records that wait on links.
ghost use Rattle.std.specs.Prelude.{◌≡◌, ◌⊎◌, map, OnOk, IfErr};
ghost use Rattle.fx_base.specs.Fault.{IsMemory};
ghost use Rattle.fx_link.specs.Ongoing as ongoing;
ghost use Rattle.fx_net.specs.Finishing as finishing;
ghost use Rattle.fx_base.specs.Device.{IsWriteFault, KeepsGoing};

use crate::contents::Contents;
use fx_base::Fault;
use fx_link::{Link, Links};

/// Writes the messages of all records that wait on these links, and puts them on the links, one link after another.
fn finish_all<L: Links>(lines: &mut Vec<Link>, time: u32, links: &mut L) -> Result<(), Fault>
    ensures ok { OnOk result (lines.new.items ≡ map (ongoing.after_finish time) lines.old.items) }
    ensures put { OnOk result (finishing.PutsAll (L.put_on links.old) (L.put_on links.new) time
        lines.old.items) }
    ensures going { OnOk result (KeepsGoing (L.failed links.old) (L.failed links.new)) }
    ensures err { IfErr result (λ e. IsMemory e
        ⊎ IsWriteFault (L.failed links.new) e) }
{
    for index in 0..lines.len() {
        let line = &mut lines[index];
        line.finish(time, index as u64 + 1, links)?;
    }
    Ok(())
}

impl Contents {
    /// Writes the messages of all records that wait on links, and puts them on the links, one link after another.
    ///
    /// Fails with 900, at no place, if out of memory, and with the fault of putting octets on a link.
    pub(crate) fn finish<L: Links>(&mut self, links: &mut L) -> Result<(), Fault>
        ensures ok { OnOk result (self.new ≡ finishing.after_finishing self.old) }
        ensures put { OnOk result (finishing.PutsAll (L.put_on links.old) (L.put_on links.new)
            self.old.second self.old.links) }
        ensures going { OnOk result (KeepsGoing (L.failed links.old) (L.failed links.new)) }
        ensures err { IfErr result (λ e. IsMemory e
            ⊎ IsWriteFault (L.failed links.new) e) }
    {
        finish_all(&mut self.links, self.second, links)
    }
}
