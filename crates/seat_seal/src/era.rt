//! The era of a journal: which one it is of those that follow each other under a host, the day on which that host reads lines, and the journal to which
//! its bookings were carried.
//! It knows the day as a date and another journal by its imprint, and nothing of hosts or of bookings.
ghost use Rattle.std.specs.Prelude.{◌≡◌, IfSome};
ghost use Rattle.airline_base.specs.Days.{IsCenturyDay};
ghost use Rattle.seat_seal.specs.Dates.{day_in};
ghost use Rattle.seat_seal.specs.Eras.{IsEraOn, carried_to, day_of_era, first_era, is_carried, is_first};
ghost use Rattle.seat_seal.specs.Known.{era_known};

use crate::date::Date;
use crate::imprint::Imprint;
use crate::seal::Sealed;
use airline_base::Day;

/// The epoch of a journal, 1 unless another is said, the day of the host that had it last, where one had it, and the journal to which its bookings were
/// carried, where they were: from that one alone seats are sold then.
#[derive(Clone, Copy)]
pub struct Era {
    pub epoch: u32,
    pub today: Option<Date>,
    pub carried: Option<Imprint>,
}

impl Era {
    /// That of a journal that no host has had.
    pub fn first() -> Self
        ensures { result ≡ first_era }
    {
        Era {
            epoch: 1,
            today: None,
            carried: None,
        }
    }

    /// Whether it is that of a journal that no host has had.
    pub fn is_first(&self) -> bool
        ensures { result ≡ is_first self.now }
    {
        self.epoch == 1 && self.today.is_none() && self.carried.is_none()
    }

    /// Whether the journal's bookings were carried to another.
    pub fn is_carried(&self) -> bool
        ensures { result ≡ is_carried self.now }
    {
        self.carried.is_some()
    }

    /// The same epoch and day, of a journal whose bookings are carried to the one with this imprint.
    pub fn carried_to(&self, journal: Imprint) -> Self
        ensures { result ≡ carried_to self.now journal }
    {
        Era {
            epoch: self.epoch,
            today: self.today,
            carried: Some(journal),
        }
    }

    /// The same epoch, on this day.
    pub fn on(&self, day: Day) -> Self
        ensures { IsEraOn self.now day result }
    {
        Era {
            epoch: self.epoch,
            today: Some(Date::of(day)),
            carried: self.carried,
        }
    }

    /// The day of the host, where one had the journal and the calendar has it.
    pub fn day(&self) -> Option<Day>
        ensures value { result ≡ day_of_era self.now }
        ensures century { IfSome result IsCenturyDay }
    {
        match self.today {
            Some(date) => day_of(date),
            None => None,
        }
    }
}

#[tactic(auto, using(crate::proofs::Calendar::some_century))]
fn day_of(date: Date) -> Option<Day>
    ensures value { result ≡ day_in date }
    ensures century { IfSome result IsCenturyDay }
{
    date.day()
}

/// The era that is known of a journal; the first where nothing is known.
pub fn era_known(known: &Option<Sealed>) -> Era
    ensures { result ≡ era_known known.now }
{
    match known {
        Some(entry) => entry.era,
        None => Era::first(),
    }
}
