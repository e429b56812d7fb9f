//! The seats that are held in each rank of each leg of each flight, as one run of numbers.
//! It knows where a leg's numbers and its limits stand, and not what the limits are.
ghost use Rattle.std.specs.Prelude.{◌≡◌, ◌≤◌, ◌<◌, ◌+◌, ◌-◌, [], length, unwrap_or, slice_get, IfSome, IfNone};
ghost use Rattle.seat_nesting.specs.OwnLadders.{counted_at, held_at, no_counted, put, with_held, with_limits};
ghost use Rattle.seat_nesting.specs.FlatCounts.{AreLaidOut, flights_by, held_in, leg_index};

use crate::limits::Limits;
use std::marker::Model;

/// Where the numbers of a leg begin, where its limits stand, and how many ranks it has.
#[derive(Clone, Copy)]
pub struct LegPart {
    pub start: u32,
    pub limits: Limits,
    pub ranks: u8,
}

/// Which of all legs is the first of a flight, and how many it has.
#[derive(Clone, Copy)]
pub struct FlightPart {
    pub first: u32,
    pub legs: u32,
}

/// The legs of all flights.
#[derive(Drop)]
pub struct CountedFlights {
    run: Vec<u16>,
    legs: Vec<LegPart>,
    flights: Vec<FlightPart>,
}

impl Model for CountedFlights {
    ghost use Rattle.std.specs.Prelude.{List};
    ghost use Rattle.seat_nesting.specs.OwnLadders.{CountedLeg};
    ghost use Rattle.seat_nesting.specs.FlatCounts.{flights_by, AreLaidOut};

    ghost Value = { List (List CountedLeg) };

    ghost view = { λ c. flights_by c.run.items c.legs.items c.flights.items };

    ghost invariant = { λ c. AreLaidOut c.run.items c.legs.items c.flights.items };
}

impl CountedFlights {
    /// Flights whose legs have these parts of a run.
    pub fn of(run: Vec<u16>, legs: Vec<LegPart>, flights: Vec<FlightPart>) -> CountedFlights
        requires { AreLaidOut run.items legs.items flights.items }
        ensures { result ≡ flights_by run.items legs.items flights.items }
    {
        CountedFlights { run, legs, flights }
    }

    /// How many legs a flight has; none where it is not there.
    pub fn legs_on(&self, flight: u32) -> u32
        ensures { result ≡ length (unwrap_or (slice_get self.now flight) []) }
    {
        match self.flights.get(flight as usize) {
            Some(part) => part.legs,
            None => 0,
        }
    }

    /// Where the limits of a leg stand, and how many seats are held in each of its ranks.
    pub fn leg(&self, flight: u32, leg: u8) -> Option<(Limits, &[u16])>
        ensures found { IfSome result (λ l. record { limits = l.0; held = l.1.now } ≡ counted_at self.now flight leg) }
        ensures none { IfNone result (counted_at self.now flight leg ≡ no_counted) }
    {
        let Some(i) = leg_index(&self.flights, flight, leg) else {
            return None;
        };
        let part = &self.legs[i];
        Some((part.limits, held_in(&self.run, part)))
    }

    /// Takes so many seats at a rank of a leg.
    pub fn take(&mut self, flight: u32, leg: u8, rank: usize, seats: u16)
        requires rank { rank < length (counted_at self.old flight leg).held }
        requires fits { held_at (counted_at self.old flight leg) rank + seats ≤ 999 }
        ensures { self.new ≡ put self.old flight leg (with_held (counted_at self.old flight leg) rank
            (held_at (counted_at self.old flight leg) rank + seats)) }
    {
        let Some(i) = leg_index(&self.flights, flight, leg) else {
            return;
        };
        let start = self.legs[i].start as usize;
        self.run[start + rank] += seats;
    }

    /// Gives back so many seats at a rank of a leg.
    pub fn give(&mut self, flight: u32, leg: u8, rank: usize, seats: u16)
        requires rank { rank < length (counted_at self.old flight leg).held }
        requires held { seats ≤ held_at (counted_at self.old flight leg) rank }
        ensures { self.new ≡ put self.old flight leg (with_held (counted_at self.old flight leg) rank
            (held_at (counted_at self.old flight leg) rank - seats)) }
    {
        let Some(i) = leg_index(&self.flights, flight, leg) else {
            return;
        };
        let start = self.legs[i].start as usize;
        self.run[start + rank] -= seats;
    }

    /// Says where the limits of a leg stand from now on.
    pub fn move_limits(&mut self, flight: u32, leg: u8, limits: Limits)
        requires { leg < length (unwrap_or (slice_get self.old flight) []) }
        ensures { self.new ≡ put self.old flight leg (with_limits (counted_at self.old flight leg) limits) }
    {
        let Some(i) = leg_index(&self.flights, flight, leg) else {
            return;
        };
        self.legs[i].limits = limits;
    }
}

/// Which of all legs this one of a flight is, where it is there.
pub(crate) fn leg_index(flights: &[FlightPart], flight: u32, leg: u8) -> Option<usize>
    ensures { result ≡ leg_index flights.now flight leg }
{
    let Some(part) = flights.get(flight as usize) else {
        return None;
    };
    let leg = u32::from(leg);
    if leg < part.legs {
        Some(part.first as usize + leg as usize)
    } else {
        None
    }
}

/// The numbers of a leg.
fn held_in<'a>(run: &'a [u16], part: &LegPart) -> &'a [u16]
    requires { part.now.start + part.now.ranks ≤ length run.now }
    ensures { result.now ≡ held_in run.now part.now }
{
    let start = part.start as usize;
    let end = start + usize::from(part.ranks);
    &run[start..end]
}
