//! Addition of counts to caches and aggregations.
ghost use Rattle.std.specs.Prelude.{◌≡◌, ◌++◌, [], ◌∷◌, OnOk, IfErr};
ghost use Rattle.fx_base.specs.Fault.{IsMemory};
ghost use Rattle.fx_layout.specs.Keys.{key_of};
ghost use Rattle.fx_tables.specs.Holdings.{holding_of, met_holdings};
ghost use Rattle.fx_net.specs.Leaving as leaving;
ghost use Rattle.fx_net.specs.Taking as taking;

use crate::contents::Contents;
use crate::holding::is_immediate;
use crate::leaving::Leaver;
use crate::store::HolderStore;
use fx_base::{Counts, Fault};
use fx_boxes::Fields;
use fx_layout::{Key, Layout};
use fx_store::FlowStore;
use fx_tables::{Holding, Net, Occurrence, Record};
use std::alloc::Global;

/// Appends a record that leaves a holder. Fails with 900, at no place, if out of memory.
fn push_leaver(
    leavers: &mut Vec<Leaver>,
    holder: usize,
    key: Key,
    counts: Counts,
) -> Result<(), Fault>
    ensures ok { OnOk result (leavers.new.items
        ≡ leavers.old.items ++ leaving.leaver holder (key, counts) ∷ []) }
    ensures err { IfErr result IsMemory }
{
    leavers.push(Leaver {
        holder,
        flow: Record { key, counts },
    })?;
    Ok(())
}

/// Adds the counts at a key of a holder, and appends what leaves to make room. Fails with 900, at no place, if out of
/// memory.
fn add(
    stores: &mut Vec<Option<HolderStore>>,
    left: &mut Vec<Leaver>,
    holding: Holding,
    counts: Counts,
) -> Result<(), Fault>
    ensures ok { OnOk result (record { stores = stores.new.items; left = left.new.items }
        ≡ taking.with_holding counts holding
        (record { stores = stores.old.items; left = left.old.items })) }
    ensures err { IfErr result IsMemory }
{
    let Some(store) = stores.get_mut(holding.holder) else {
        return Ok(());
    };
    let Some(store) = store else {
        return Ok(());
    };
    match store.add(holding.key, counts) {
        Err(fault) => Err(fault),
        Ok(None) => Ok(()),
        Ok(Some((key, counts))) => push_leaver(left, holding.holder, key, counts),
    }
}

/// Appends the record of a holding if its holder is an immediate cache. Fails with 900, at no place, if out of memory.
fn push_passing(
    passing: &mut Vec<Leaver>,
    stores: &[Option<HolderStore>],
    holding: &Holding,
    counts: Counts,
) -> Result<(), Fault>
    ensures ok { OnOk result (passing.new.items
        ≡ passing.old.items ++ taking.leaves_at_once stores.now counts holding.now) }
    ensures err { IfErr result IsMemory }
{
    if is_immediate(stores, holding.holder) {
        push_leaver(passing, holding.holder, holding.key.copy(), counts)?;
    }
    Ok(())
}

/// The records that leave while holders take something in: those that make room, and those of immediate caches, which
/// leave after them.
#[derive(Drop)]
struct Leavers {
    left: Vec<Leaver>,
    passing: Vec<Leaver>,
}

impl Leavers {
    fn new(alloc: Global) -> Leavers
        ensures { (result.left.items ≡ []) × (result.passing.items ≡ []) }
    {
        Leavers {
            left: Vec::new(alloc),
            passing: Vec::new(alloc),
        }
    }
}

/// Makes a holder take the counts in at a key, and appends what leaves. Fails with 900, at no place, if out of memory.
fn take(
    stores: &mut Vec<Option<HolderStore>>,
    leavers: &mut Leavers,
    holding: Holding,
    counts: Counts,
) -> Result<(), Fault>
    ensures ok { OnOk result (record { stores = stores.new.items; left = leavers.new.left.items }
        ≡ taking.with_holding counts holding
        (record { stores = stores.old.items; left = leavers.old.left.items })) }
    ensures passing { OnOk result (leavers.new.passing.items
        ≡ leavers.old.passing.items ++ taking.leaves_at_once stores.old.items counts holding) }
    ensures err { IfErr result IsMemory }
{
    push_passing(&mut leavers.passing, stores.as_slice(), &holding, counts)?;
    add(stores, &mut leavers.left, holding, counts)
}

/// Makes holders take the counts in, one after another, each at its key. Fails with 900, at no place, if out of memory.
fn take_all(
    stores: &mut Vec<Option<HolderStore>>,
    leavers: &mut Leavers,
    holdings: Vec<Holding>,
    counts: Counts,
) -> Result<(), Fault>
    ensures ok { OnOk result (record { stores = stores.new.items; left = leavers.new.left.items }
        ≡ taking.with_holdings counts holdings.items
        (record { stores = stores.old.items; left = leavers.old.left.items })) }
    ensures passing { OnOk result (leavers.new.passing.items
        ≡ leavers.old.passing.items ++ taking.all_leave_at_once stores.old.items counts
        holdings.items) }
    ensures err { IfErr result IsMemory }
{
    for holding in holdings {
        take(stores, leavers, holding, counts)?;
    }
    Ok(())
}

/// Adds the counts at the key that a packet has under the layout of a holder, and appends what leaves to make room.
/// Fails with 900, at no place, if out of memory.
fn add_packet(
    stores: &mut Vec<Option<HolderStore>>,
    left: &mut Vec<Leaver>,
    index: usize,
    layout: &Layout,
    fields: &Fields,
    counts: Counts,
) -> Result<(), Fault>
    ensures ok { OnOk result (record { stores = stores.new.items; left = left.new.items }
        ≡ taking.with_holding counts
        (record { holder = index; key = key_of layout.now fields.now })
        (record { stores = stores.old.items; left = left.old.items })) }
    ensures err { IfErr result IsMemory }
{
    let Some(store) = stores.get_mut(index) else {
        return Ok(());
    };
    let Some(store) = store else {
        return Ok(());
    };
    match store.add_packet(layout, fields, counts) {
        Err(fault) => Err(fault),
        Ok(None) => Ok(()),
        Ok(Some((key, counts))) => push_leaver(left, index, key, counts),
    }
}

/// Makes the cache of an occurrence take the counts in at the packet's key there, and appends what leaves. The key is
/// made only if its record leaves at once. Fails with 900, at no place, if out of memory.
fn take_packet(
    stores: &mut Vec<Option<HolderStore>>,
    leavers: &mut Leavers,
    net: &Net,
    occurrence: &Occurrence,
    fields: &Fields,
    counts: Counts,
) -> Result<(), Fault>
    ensures ok { OnOk result (record { stores = stores.new.items; left = leavers.new.left.items }
        ≡ taking.with_holding counts (holding_of net.now.holders fields.now occurrence.now)
        (record { stores = stores.old.items; left = leavers.old.left.items })) }
    ensures passing { OnOk result (leavers.new.passing.items ≡ leavers.old.passing.items
        ++ taking.leaves_at_once stores.old.items counts
        (holding_of net.now.holders fields.now occurrence.now)) }
    ensures err { IfErr result IsMemory }
{
    let index = occurrence.holder;
    if is_immediate(stores.as_slice(), index) {
        return take(stores, leavers, net.holding(occurrence, fields), counts);
    }
    match net.holders().get(index) {
        Some(holder) => add_packet(
            stores,
            &mut leavers.left,
            index,
            holder.layout(),
            fields,
            counts,
        ),
        None => take(stores, leavers, net.holding(occurrence, fields), counts),
    }
}

/// Makes the caches of these occurrences take the counts in, one after another, each at the packet's key there. Fails
/// with 900, at no place, if out of memory.
fn meet_all(
    stores: &mut Vec<Option<HolderStore>>,
    leavers: &mut Leavers,
    net: &Net,
    met: &[Occurrence],
    fields: &Fields,
    counts: Counts,
) -> Result<(), Fault>
    ensures ok { OnOk result (record { stores = stores.new.items; left = leavers.new.left.items }
        ≡ taking.with_holdings counts (met_holdings net.now.holders fields.now met.now)
        (record { stores = stores.old.items; left = leavers.old.left.items })) }
    ensures passing { OnOk result (leavers.new.passing.items ≡ leavers.old.passing.items
        ++ taking.all_leave_at_once stores.old.items counts
        (met_holdings net.now.holders fields.now met.now)) }
    ensures err { IfErr result IsMemory }
{
    for occurrence in met {
        take_packet(stores, leavers, net, occurrence, fields, counts)?;
    }
    Ok(())
}

impl Contents {
    /// Sends the records that leave to make room, and then those of immediate caches. Fails with 900, at no place, if
    /// out of memory.
    fn leave_both(&mut self, net: &Net, leavers: &Leavers) -> Result<(), Fault>
        ensures ok { OnOk result (self.new ≡ leaving.after_leaves net.now leavers.now.passing.items
            (leaving.after_leaves net.now leavers.now.left.items self.old)) }
        ensures err { IfErr result IsMemory }
    {
        self.leave_all(net, leavers.left.as_slice())?;
        self.leave_all(net, leavers.passing.as_slice())
    }

    /// Makes holders take the counts in, each at its key: what makes room leaves first, then the records of immediate
    /// caches.
    ///
    /// Fails with 900, at no place, if out of memory.
    pub(crate) fn take_in(
        &mut self,
        alloc: Global,
        net: &Net,
        holdings: Vec<Holding>,
        counts: Counts,
    ) -> Result<(), Fault>
        ensures ok { OnOk result (self.new ≡ taking.after_taking net.now counts holdings.items
            self.old) }
        ensures err { IfErr result IsMemory }
    {
        let mut leavers = Leavers::new(alloc);
        take_all(&mut self.stores, &mut leavers, holdings, counts)?;
        self.leave_both(net, &leavers)
    }

    /// Makes the caches of these occurrences take the counts in, each at the packet's key there; records leave as in
    /// [`Contents::take_in`].
    ///
    /// Fails with 900, at no place, if out of memory.
    pub(crate) fn meet(
        &mut self,
        alloc: Global,
        net: &Net,
        met: &[Occurrence],
        fields: &Fields,
        counts: Counts,
    ) -> Result<(), Fault>
        ensures ok { OnOk result (self.new
            ≡ taking.after_taking net.now counts (met_holdings net.now.holders fields.now met.now)
            self.old) }
        ensures err { IfErr result IsMemory }
    {
        let mut leavers = Leavers::new(alloc);
        meet_all(&mut self.stores, &mut leavers, net, met, fields, counts)?;
        self.leave_both(net, &leavers)
    }
}
