//! The first octets of a file.

/// The number of octets that are kept: the length of a capture's file header.
const ROOM: usize = 24;

/// The first octets of a file, at most 24.
#[derive(Drop)]
pub(crate) struct Head {
    octets: [u8; ROOM],
    count: usize,
}

impl Head {
    /// Returns the first octets of a file of which nothing has been read.
    pub(crate) fn new() -> Head {
        Head {
            octets: [0; ROOM],
            count: 0,
        }
    }

    /// Appends octets, up to 24 in all.
    pub(crate) fn keep(&mut self, octets: &[u8]) {
        for octet in octets {
            if self.count >= ROOM {
                return;
            }
            self.octets[self.count] = *octet;
            self.count += 1;
        }
    }

    /// Returns the octets.
    pub(crate) fn octets(&self) -> &[u8] {
        &self.octets[..self.count.min(ROOM)]
    }
}
