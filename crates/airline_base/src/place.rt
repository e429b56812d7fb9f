//! A place: a run of legs of one dated flight.
/// The legs `from` to `to` of a dated flight, both counted from 0 and included.
#[derive(Clone, Copy, PartialEq, Eq)]
pub struct Place {
    pub flight: u32,
    pub from: u8,
    pub to: u8,
}
