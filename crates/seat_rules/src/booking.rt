//! A booking of seats on a place.
ghost use Rattle.std.specs.Prelude.{◌≡◌, if◌then◌else◌};
ghost use Rattle.seat_rules.specs.Bookings.{is_for, is_held, is_waiting};

use airline_base::{Class, Locator, Place};
use seat_journal::Command;

/// Whether a booking's seats are held or waited for.
#[derive(Clone, Copy)]
pub enum Status {
    Held,
    Waiting,
}

/// A live booking, under the number of the line that made it. In this order its fields leave the least room between them.
#[derive(Clone, Copy)]
pub struct Booking {
    pub number: u32,
    pub place: Place,
    pub locator: Locator,
    pub seats: u16,
    pub class: Class,
    pub status: Status,
}

impl Booking {
    /// Whether it has this locator, place and class. The locator is compared last: six letters take longer, and most differ ahead of it.
    #[tactic(auto, using(crate::proofs::Filters::turned))]
    pub fn is_for(&self, locator: Locator, place: Place, class: Class) -> bool
        ensures { result ≡ is_for locator place class self.now }
    {
        if self.class != class {
            return false;
        }
        if self.place != place {
            return false;
        }
        self.locator == locator
    }

    /// The seats that a cancellation of so many releases.
    pub fn released(&self, seats: u16) -> u16
        ensures { result ≡ (if is_held self.now.status then seats else 0) }
    {
        match self.status {
            Status::Held => seats,
            Status::Waiting => 0,
        }
    }

    pub fn is_waiting(&self) -> bool
        ensures { result ≡ is_waiting self.now.status }
    {
        matches!(self.status, Status::Waiting)
    }
}
