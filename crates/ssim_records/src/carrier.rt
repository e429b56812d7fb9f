//! What a data set says: the carrier, and the legs of its flights.
use airline_base::{Airline, Day, Station};

/// Whose flights these are, and when they are valid (SSIM chapter 7, carrier record).
#[derive(Clone, Copy)]
pub struct Carrier {
    pub airline: Airline,
    /// Whether the times are local rather than UTC.
    pub local: bool,
    pub from: Day,
    /// The last day, or none where the end is open.
    pub to: Option<Day>,
}

/// One leg of an itinerary (SSIM chapter 7, flight leg record).
#[derive(Clone, Copy)]
pub struct Leg {
    /// The record's serial number.
    pub serial: u32,
    /// The flight number, 1 to 9999.
    pub number: u16,
    /// The operational suffix, A to Z.
    pub suffix: Option<u8>,
    /// The itinerary variation, 0 to 99.
    pub variation: u8,
    /// The overflow of the itinerary variation: any printable byte.
    pub overflow: u8,
    /// The leg sequence, 1 to 99.
    pub sequence: u8,
    pub from: Day,
    /// The last day of the period, or none where the end is open.
    pub to: Option<Day>,
    /// Monday to Sunday.
    pub days: [bool; 7],
    /// Whether it operates every second week rather than every week.
    pub second_week: bool,
    pub board: Station,
    /// The aircraft's scheduled time of departure, in minutes of the day, 0 to 1440.
    pub std: u16,
    /// Local time less UTC at the board point, in minutes, -1439 to 1439.
    pub offset: i16,
    pub off: Station,
    /// The departure date variation in days, -1 to 7.
    pub shift: i8,
}
