//! A live booking with the session that asks for it.
ghost use Rattle.std.specs.Prelude.{◌≡◌};
ghost use Rattle.seat_carrying.specs.Carrying.{code_for, command_for};

use airline_base::Code;
use seat_journal::Command;
use seat_rules::{Booking, Status};

/// A live booking, and the session that asks for it anew, 1 to 8.
#[derive(Clone, Copy)]
pub struct Owned {
    pub session: u8,
    pub booking: Booking,
}

impl Owned {
    /// What asks for it anew: its seats on its place under its locator, as SS where they are held and as LL where they wait (AIRIMP).
    pub fn command(&self) -> Command
        ensures { result ≡ command_for self.now.booking }
    {
        let booking = &self.booking;
        Command {
            locator: booking.locator,
            place: Some(booking.place),
            class: booking.class,
            code: code_for(booking.status),
            seats: booking.seats,
        }
    }
}

fn code_for(status: Status) -> Code
    ensures { result ≡ code_for status }
{
    match status {
        Status::Held => Code::of(*b"SS"),
        Status::Waiting => Code::of(*b"LL"),
    }
}
