//! What a segment line says.
use airline_base::{Airline, Class, Code, Day, Station};

/// A request for seats from one city or airport to another on a dated flight (AIRIMP segment line).
#[derive(Clone, Copy)]
pub struct Segment {
    pub airline: Airline,
    /// The flight number, 1 to 9999.
    pub number: u16,
    /// The operational suffix, a letter A to Z.
    pub suffix: Option<u8>,
    pub class: Class,
    /// The day on which the flight leaves `board`, local there.
    pub day: Day,
    pub board: Station,
    pub off: Station,
    pub code: Code,
    /// How many seats, 1 to 999.
    pub seats: u16,
}

/// A segment as the line spells it: its day has no year.
#[derive(Clone, Copy)]
pub struct Undated {
    pub airline: Airline,
    pub number: u16,
    pub suffix: Option<u8>,
    pub class: Class,
    pub day: u8,
    pub month: u8,
    pub board: Station,
    pub off: Station,
    pub code: Code,
    pub seats: u16,
}
