//! The dated flights by the local days on which their legs depart, so that who looks at a day goes over its flights alone.
//! It knows flights and days, and nothing of seats, looks or desks.
#![tactic(auto)]

mod day_flights;

pub use day_flights::DayFlights;
