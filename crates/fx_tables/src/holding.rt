//! A key to be held, and its holder.

use fx_layout::Key;

/// The 0-based index of a holder in the network's table, and the key of a record that it is to take in.
#[derive(Debug, Drop)]
pub struct Holding {
    pub holder: usize,
    pub key: Key,
}
