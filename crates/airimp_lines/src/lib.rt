//! Booking messages (AIRIMP): segment lines, scripts of messages, and the line that answers one.
//! It knows the text of requests for seats, and nothing of schedules, limits or bookings.
#![tactic(auto)]

mod date;
mod fault;
mod fields;
pub mod laws;
mod line;
mod look;
mod messages;
mod reading;
mod reply;
mod requests;
mod script;
mod segment;

pub use fault::{LineFault, ScriptFault, ScriptKind};
pub use line::{LineRead, read_line};
pub use look::{FlightClass, Look, read_look};
pub use reading::read_segment;
pub use reply::reply_text;
pub use requests::{Request, Requests, requests_behind};
pub use script::read_script;
pub use segment::Segment;
