//! What is asked of a carry.
use airline_base::{Day, Locator};
use carry_parts::Part;
use seat_tables::Form;

/// How live bookings are carried to a new season.
#[derive(Clone, Copy)]
pub struct CarryAsked<'a> {
    /// A booking whose first leg departs before this day, by the local day there, has departed and is not carried.
    pub today: Day,
    /// The text of rows that say where bookings go, of less than 4 GiB: to which flight and day those of another go.
    pub protections: &'a [u8],
    /// Those who hold under these locators are asked for first, in this order, and then all others by their numbers.
    pub order: &'a [Locator],
    /// Where a leg has fewer seats than are held, those who are asked for last lose theirs; else nothing is carried.
    pub displaces: bool,
    /// The limits are those of the new season's file, whatever the journal's changes and closings set.
    pub fresh_limits: bool,
    /// How many lines each of several journals has, whose lines the older inventory has one behind the other; none where it is one journal's.
    pub counts: &'a [u32],
    /// The report is a table in this form, a row for each live booking; else it is a line for each, and one of sums.
    pub form: Option<Form>,
    /// Of which of several hosts the new journal is; `None` where one host has all flights.
    pub part: Option<Part>,
}
