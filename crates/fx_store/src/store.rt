//! The interface of a store of flows.
ghost use Rattle.std.specs.Prelude.{◌≡◌, IfOk, IfErr, IsOk, IsSome};
ghost use Rattle.std.specs.FinMap as map;
ghost use Rattle.fx_base.specs.Fault.{IsMemory};
ghost use Rattle.fx_layout.specs.Keys.{key_of};
ghost use Rattle.fx_store.specs.Flows.{Flows, Adds, least, without};

use fx_base::{Counts, Fault};
use fx_boxes::Fields;
use fx_layout::{Key, Layout};

/// A finite map from flow keys to counts.
///
/// Two keys are the same if their layouts and their values are. Keys are ordered by the first value that differs, in
/// axis order, and keys of equal values by their layouts; so among keys of one layout the values decide.
pub trait FlowStore: Drop {
    /// The flows that it holds.
    ghost flows: { Self → Flows };

    /// Adds the counts at the key, each modulo 2 to the 64, and returns the entry that left to make room for a new key,
    /// if one did.
    ///
    /// Fails with 900, at no place, if out of memory, which happens only if the key is new; the flows that it holds are
    /// unchanged then.
    fn add(&mut self, key: Key, counts: Counts) -> Result<Option<(Key, Counts)>, Fault>
        ensures ok { IfOk result (λ left. Adds (flows self.old) (flows self.new) key counts left) }
        ensures err { IfErr result (λ e. IsMemory e
            × (flows self.new ≡ flows self.old)) }
        ensures held { IsSome (map.get (flows self.old) key) → IsOk result };

    /// Adds the counts at the key that a packet with these fields has under the layout, like [`FlowStore::add`]. The
    /// key is not copied if it is in the store already.
    ///
    /// Fails as [`FlowStore::add`].
    fn add_packet(
        &mut self,
        layout: &Layout,
        fields: &Fields,
        counts: Counts,
    ) -> Result<Option<(Key, Counts)>, Fault>
        ensures ok { IfOk result (λ left. Adds (flows self.old) (flows self.new)
            (key_of layout.now fields.now) counts left) }
        ensures err { IfErr result (λ e. IsMemory e
            × (flows self.new ≡ flows self.old)) }
        ensures held { IsSome (map.get (flows self.old) (key_of layout.now fields.now))
            → IsOk result };

    /// Removes the key's entry, and returns its counts, if it is there.
    fn take(&mut self, key: &Key) -> Option<Counts>
        ensures value { result ≡ map.get (flows self.old) key.now }
        ensures rest { flows self.new ≡ map.remove (flows self.old) key.now };

    /// Removes and returns the entry of the least key, if there is one.
    fn take_least(&mut self) -> Option<(Key, Counts)>
        ensures value { result ≡ least (flows self.old) }
        ensures rest { flows self.new ≡ without (flows self.old) result };

    /// Returns how many keys it holds.
    fn len(&self) -> usize
        ensures { result ≡ map.len (flows self.now) };
}
