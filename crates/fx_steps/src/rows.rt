//! Filling the rows, starting from the collecting processes of highest rank.
ghost use Rattle.std.specs.Prelude.{◌≡◌, ◌<◌, length, slice_set};
ghost use Rattle.fx_leaf.specs.Tables as by_table;
ghost use Rattle.fx_steps.specs.CostTables as tabled;

use crate::table::{CostRow, PacketCosts};
use fx_leaf::Tables;
use fx_tables::Packet;

impl PacketCosts<'_, '_> {
    /// Returns the row for the collecting process at this place, from the rows of the processes that it feeds.
    fn row_from(&self, process: usize) -> CostRow
        requires { by_table.AreTables self.now.tables }
        ensures { let c = self.now in
            result ≡ tabled.cost_row c.table c.tables.net c.tables.numbering c.packet.fields process
            0 c.tables.numbering.layouts }
    {
        let layouts = self.layouts();
        let mut row = CostRow::new();
        for number in 0..layouts.len() {
            let layout = &layouts[number];
            row.push(self.entry_from(process, number, layout));
        }
        row
    }
}

/// Replaces the row for the collecting process at this place.
fn set_row(rows: &mut [CostRow], process: usize, row: CostRow)
    requires { process < length rows.old }
    ensures { rows.new ≡ slice_set rows.old process row }
{
    rows[process] = row;
}

/// Fills each row after those of the processes that its own process feeds.
pub(crate) fn fill(rows: &mut [CostRow], tables: &Tables<'_>, packet: &Packet)
    requires tables { by_table.AreTables tables.now }
    requires room { length rows.old ≡ length tables.now.net.processes }
    ensures { rows.new ≡ tabled.cost_fill tables.now.net tables.now.numbering packet.now.fields
        tables.now.order rows.old }
{
    for process in tables.order() {
        let costs = PacketCosts {
            tables: &*tables,
            packet: &*packet,
            rows: &*rows,
        };
        let row = costs.row_from(*process);
        set_row(rows, *process, row);
    }
}
