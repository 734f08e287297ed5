//! The stores of holders, by place.
ghost use Rattle.std.specs.Prelude.{◌≡◌};
ghost use Rattle.fx_base.specs.Entries.{now_of};
ghost use Rattle.fx_net.specs.Contents as contents;
ghost use Rattle.fx_net.specs.Leaving as leaving;

use crate::store::HolderStore;
use fx_store::FlowStore;

/// Returns the store of the holder at this place, `None` if it is an immediate cache.
fn store_at(stores: &[Option<HolderStore>], index: usize) -> Option<&HolderStore>
    ensures { now_of result ≡ contents.stored_at stores.now index }
{
    match stores.get(index) {
        None => None,
        Some(store) => store.as_ref(),
    }
}

/// Returns whether the holder at this place is an immediate cache, which holds nothing.
pub(crate) fn is_immediate(stores: &[Option<HolderStore>], index: usize) -> bool
    ensures { result ≡ contents.is_immediate (contents.stored_at stores.now index) }
{
    store_at(stores, index).is_none()
}

/// Returns how many records the holder at this place has.
pub(crate) fn count_at(stores: &[Option<HolderStore>], index: usize) -> usize
    ensures { result ≡ leaving.count_of (contents.stored_at stores.now index) }
{
    match store_at(stores, index) {
        None => 0,
        Some(store) => store.len(),
    }
}
