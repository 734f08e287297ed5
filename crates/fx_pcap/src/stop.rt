/// The reason why a reader stops.
#[derive(Clone, Copy)]
pub(crate) enum CaptureStop {
    Device,
    Cut,
    TooLong,
}
