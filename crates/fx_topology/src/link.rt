//! Links.
use fx_base::Name;

/// A link, which carries what an exporting process sends to a destination to a collecting process.
#[derive(Debug)]
pub struct NamedLink {
    /// The sending device.
    pub device: Name,
    /// The exporting process on that device.
    pub exporting_process: Name,
    /// The destination of that process.
    pub destination: Name,
    /// The receiving device.
    pub to_device: Name,
    /// The collecting process on that device.
    pub to_process: Name,
}

impl Drop for NamedLink {
    /// Drops its parts here, so that each drop elsewhere is one call.
    fn drop(self) {
        let Self {
            device: _,
            exporting_process: _,
            destination: _,
            to_device: _,
            to_process: _,
        } = self;
    }
}
