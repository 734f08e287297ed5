//! The number of records that wait at each holder and on each link.
ghost use Rattle.std.specs.Prelude.{◌≡◌, ◌+◌, ◌<◌, ◌^◌, ◌∷◌, [], List, length, IfOk, replicate};
ghost use Rattle.std.specs.List.{AllByRecursion};
ghost use Rattle.fx_steps.specs.Waiting as waits;

use crate::pending::Pending;
use fx_tables::Net;
use std::alloc::{AllocError, Global};

/// The numbers of records that wait at the holders and on the links, by place.
#[derive(Drop)]
pub(crate) struct Waiting {
    held: Vec<u64>,
    carried: Vec<u64>,
}

/// Returns the given number of zeros.
fn zeros(alloc: Global, count: usize) -> Result<Vec<u64>, AllocError>
    ensures { IfOk result (λ zeros. zeros.items ≡ replicate count 0) }
{
    vec![in alloc; 0; count]
}

/// Adds one to the number at this place.
fn raise(counts: &mut [u64], index: usize)
    requires there { index < length counts.old }
    requires room { waits.total counts.old < 2 ^ 63 }
    ensures { counts.new ≡ waits.one_more_at counts.old index }
{
    counts[index] += 1;
}

/// Takes one from the number at this place, and returns the number as it was before.
fn lower(counts: &mut [u64], index: usize) -> u64
    requires there { index < length counts.old }
    requires some { waits.HasOneMore counts.old index }
    ensures { waits.LastLeaves counts.old counts.new index result }
{
    let count = counts[index];
    counts[index] = count - 1;
    count
}

impl Waiting {
    /// Returns the numbers for a network in which no record waits.
    pub(crate) fn new(alloc: Global, net: &Net) -> Result<Waiting, AllocError>
        ensures { IfOk result (waits.Wait net.now []) }
    {
        Ok(Waiting {
            held: zeros(alloc, net.holders().len())?,
            carried: zeros(alloc, net.links().len())?,
        })
    }

    /// Counts one more record.
    fn add(&mut self, pending: Pending)
        requires there { waits.HasPlace (length self.old.held.items) (length
            self.old.carried.items) pending }
        requires held { waits.total self.old.held.items < 2 ^ 63 }
        requires carried { waits.total self.old.carried.items < 2 ^ 63 }
        ensures held { self.new.held.items ≡ waits.holder_counts self.old.held.items (pending
            ∷ []) }
        ensures carried { self.new.carried.items ≡ waits.link_counts self.old.carried.items (pending
            ∷ []) }
    {
        match pending {
            Pending::AtHolder { holder, .. } => raise(self.held.as_mut_slice(), holder),
            Pending::OnLink { link, .. } => raise(self.carried.as_mut_slice(), link),
        }
    }

    /// Counts all of these records too.
    pub(crate) fn add_all(&mut self, pending: &[Pending])
        requires there { AllByRecursion (waits.HasPlace (length self.old.held.items) (length
            self.old.carried.items)) pending.now }
        requires held { waits.total self.old.held.items + length pending.now < 2 ^ 63 }
        requires carried { waits.total self.old.carried.items + length pending.now < 2 ^ 63 }
        ensures held { self.new.held.items ≡ waits.holder_counts self.old.held.items pending.now }
        ensures carried { self.new.carried.items ≡ waits.link_counts self.old.carried.items
            pending.now }
    {
        for one in pending {
            self.add(*one);
        }
    }

    /// Takes one record from this holder, and returns how many waited there before.
    pub(crate) fn leave_holder(&mut self, holder: usize) -> u64
        requires there { holder < length self.old.held.items }
        requires some { waits.HasOneMore self.old.held.items holder }
        ensures leaves { waits.LastLeaves self.old.held.items self.new.held.items holder result }
        ensures carried { self.new.carried.items ≡ self.old.carried.items }
    {
        lower(self.held.as_mut_slice(), holder)
    }

    /// Takes one record from this link, and returns how many waited there before.
    pub(crate) fn leave_link(&mut self, link: usize) -> u64
        requires there { link < length self.old.carried.items }
        requires some { waits.HasOneMore self.old.carried.items link }
        ensures leaves { waits.LastLeaves self.old.carried.items self.new.carried.items link
            result }
        ensures held { self.new.held.items ≡ self.old.held.items }
    {
        lower(self.carried.as_mut_slice(), link)
    }
}
