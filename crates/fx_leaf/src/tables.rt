//! The tables of a plan by which leaves are decided.
ghost use Rattle.std.specs.Prelude.{◌≡◌};
ghost use Rattle.fx_leaf.specs.Tables as by_table;

use fx_layout::Layout;
use fx_tables::Net;
use std::marker::Model;

/// A network, the order in which the rows of its collecting processes are filled, and its layouts by number.
#[derive(Drop)]
pub struct Tables<'a> {
    net: &'a Net,
    order: &'a [usize],
    layouts: &'a [Layout],
    numbers: &'a [usize],
}

impl<'a> Model for Tables<'a> {
    ghost use Rattle.fx_leaf.specs.Tables.{Tables};

    ghost Value = { Tables };

    ghost view = { λ t. record {
      net = t.net.now;
      order = t.order.now;
      numbering = record { layouts = t.layouts.now; numbers = t.numbers.now };
    } };
}

impl<'a> Tables<'a> {
    /// Returns the tables of a network: the 0-based indices of its collecting processes, each after all of higher rank;
    /// its different layouts; and for each holder the 0-based index of its layout among them.
    pub fn new(
        net: &'a Net,
        order: &'a [usize],
        layouts: &'a [Layout],
        numbers: &'a [usize],
    ) -> Tables<'a>
        ensures { result ≡ record {
          net = net.now;
          order = order.now;
          numbering = record { layouts = layouts.now; numbers = numbers.now };
        } }
    {
        Tables {
            net,
            order,
            layouts,
            numbers,
        }
    }

    /// Returns the network.
    pub fn net(&self) -> &'a Net
        ensures { result.now ≡ self.now.net }
    {
        self.net
    }

    /// Returns its collecting processes, each after all of higher rank.
    pub fn order(&self) -> &'a [usize]
        ensures { result.now ≡ self.now.order }
    {
        self.order
    }

    /// Returns its layouts.
    pub fn layouts(&self) -> &'a [Layout]
        ensures { result.now ≡ self.now.numbering.layouts }
    {
        self.layouts
    }

    /// Returns the number of the layout of the holder at this index, each 0-based.
    pub fn number_of_layout(&self, holder: usize) -> usize
        ensures { result ≡ by_table.number_of_layout self.now.numbering holder }
    {
        match self.numbers.get(holder) {
            None => 0,
            Some(number) => *number,
        }
    }
}
