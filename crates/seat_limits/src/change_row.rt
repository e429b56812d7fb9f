//! Change rows: what the manager sets on the leg of a flight between two cities on one day, or on each leg of that day.
use airline_base::{Airline, Class, Day, Items, Station};

/// The two cities of a leg.
#[derive(Clone, Copy)]
pub struct Cities {
    pub board: Station,
    pub off: Station,
}

/// What a row sets.
#[derive(Clone, Copy)]
pub enum RowSetting {
    /// The limit and the wait of a class.
    SetLimit(Class, u16, u16),
    /// Whether a class, or each where none is named, is closed.
    SetSale(Option<Class>, bool),
}

/// What is set on the leg of a flight between two cities on a local day.
#[derive(Clone, Copy)]
pub struct ChangeRow {
    /// The line of the text, counted from 1.
    pub line: u32,
    pub airline: Airline,
    /// 1 to 9999.
    pub number: u16,
    /// The operational suffix, A to Z.
    pub suffix: Option<u8>,
    pub day: Day,
    /// None: on each leg of the flight that departs on that day.
    pub cities: Option<Cities>,
    pub setting: RowSetting,
}

/// Change rows in the order of their text.
pub type ChangeRows = Items<ChangeRow>;
