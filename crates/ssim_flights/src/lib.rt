//! The dated flights of a carrier's legs (SSIM chapter 7), and the places that a passenger asks for.
//! It knows legs and days, and nothing of seats, bookings or sessions.
#![tactic(auto)]

mod adding;
mod chain;
mod days;
mod expansion;
mod fault;
mod flight;
mod flights;
mod flown;
mod hashing;
mod itinerary;
mod laws;
mod leg_list;
mod local_days;
mod on_flight;
mod plan;
mod rounds;
mod rows;
mod schedule;
mod served;
mod slots;
mod timetable;

pub use expansion::expand;
pub use fault::{FlightFault, FlightKind};
pub use flight::{DatedLeg, DatedLegs, Flight, Wanted};
pub use flights::Flights;
pub use laws::operating_days_are_exact;
pub use served::Served;
