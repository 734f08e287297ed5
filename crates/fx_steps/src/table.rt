//! The table of the least numbers of steps of records that arrive at the collecting processes.
ghost use Rattle.std.specs.Prelude.{◌≡◌, ◌<◌, ◌++◌, [], ◌∷◌, length, slice_get, IfOk};
ghost use Rattle.fx_leaf.specs.Tables as by_table;
ghost use Rattle.fx_steps.specs.CostTables as tabled;

use crate::costs::Costs;
use arrayvec::ArrayVec;
use fx_base::Fault;
use fx_boxes::Fields;
use fx_layout::Layout;
use fx_leaf::Tables;
use fx_tables::{LAYOUTS, Net, Packet};
use std::alloc::{AllocError, Global};
use std::marker::Model;

/// The costs of records that arrive at a collecting process, by the number of their layout.
#[derive(Drop)]
pub(crate) struct CostRow {
    entries: ArrayVec<Costs, LAYOUTS>,
}

impl Model for CostRow {
    ghost use Rattle.std.specs.Prelude.{List};
    ghost use Rattle.fx_steps.specs.declared.costs.Costs as of_costs;

    ghost Value = { List of_costs.Costs };

    ghost view = { λ r. r.entries.items };
}

impl CostRow {
    /// Returns a row without entries.
    pub(crate) fn new() -> CostRow
        ensures { result ≡ [] }
    {
        CostRow {
            entries: ArrayVec::new(),
        }
    }

    /// Appends an entry.
    pub(crate) fn push(&mut self, costs: Costs)
        requires { length self.old < LAYOUTS }
        ensures { self.new ≡ self.old ++ costs ∷ [] }
    {
        self.entries.push(costs);
    }

    /// Returns the entry for the layout of this 0-based number.
    pub(crate) fn at(&self, layout: usize) -> Costs
        ensures { result ≡ tabled.or_never (slice_get self.now layout) }
    {
        match self.entries.as_slice().get(layout) {
            None => Costs::of_never(),
            Some(costs) => *costs,
        }
    }
}

/// The least numbers of steps of a packet and its records, by table: the tables lent by a plan, and a row for each
/// collecting process.
#[derive(Drop)]
pub(crate) struct PacketCosts<'a, 't> {
    pub(crate) tables: &'a Tables<'t>,
    pub(crate) packet: &'a Packet,
    pub(crate) rows: &'a [CostRow],
}

impl<'a, 't> Model for PacketCosts<'a, 't> {
    ghost use Rattle.fx_steps.specs.CostTables.{PacketCosts};

    ghost Value = { PacketCosts };

    ghost view = { λ c. record {
      tables = c.tables.now;
      packet = c.packet.now;
      table = c.rows.now;
    } };
}

impl<'a, 't> PacketCosts<'a, 't> {
    /// Returns the network.
    pub(crate) fn net(&self) -> &'t Net
        ensures { result.now ≡ self.now.tables.net }
    {
        self.tables.net()
    }

    /// Returns the layouts of the network.
    pub(crate) fn layouts(&self) -> &'t [Layout]
        ensures { result.now ≡ self.now.tables.numbering.layouts }
    {
        self.tables.layouts()
    }

    /// Returns the number of the layout of the holder at this place, both 0-based.
    pub(crate) fn number_of_layout(&self, holder: usize) -> usize
        ensures { result ≡ by_table.number_of_layout self.now.tables.numbering holder }
    {
        self.tables.number_of_layout(holder)
    }

    /// Returns the packet's fields.
    pub(crate) fn fields(&self) -> &'a Fields
        ensures { result.now ≡ self.now.packet.fields }
    {
        &self.packet.fields
    }

    /// Returns the entry for a collecting process and the layout of this number, both 0-based.
    pub(crate) fn entry(&self, process: usize, layout: usize) -> Costs
        ensures { result ≡ tabled.cost_entry self.now.table process layout }
    {
        match self.rows.get(process) {
            None => Costs::of_never(),
            Some(row) => row.at(layout),
        }
    }
}

/// Returns the given number of rows without entries. Fails if out of memory.
pub(crate) fn empty_rows(alloc: Global, count: usize) -> Result<Vec<CostRow>, AllocError>
    ensures { IfOk result (λ rows. length rows.items ≡ count) }
{
    let mut rows: Vec<CostRow> = Vec::with_capacity(alloc, count)?;
    for _process in 0..count {
        rows.push(CostRow::new())?;
    }
    Ok(rows)
}
