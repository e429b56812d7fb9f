//! The seats that are held on each leg of a grid, by rank: all that a step and a look need to know of the bookings.
ghost use Rattle.std.specs.Prelude.{◌≡◌, ◌<◌, ◌≤◌, ◌↔◌, ℕ, [], drop, false, length, replicate, IfOk, IfSome, IfNone, IsTrue};
ghost use Rattle.seat_nesting.specs.Nesting.{Fits, free, free_on, held_from, ladder_at, has_class, room, room_on};
ghost use Rattle.seat_nesting.specs.Counting.{limits_of, table_of, holds, leg_holds, Takes, Gives, OneLegChanges, plus, less, IsRank, IsWithinLimits, leg_at, no_leg};
ghost use Rattle.seat_nesting.specs.Changing.{can_set, has_sale, may_have, step_of, MaySet, Sets, SetsMarks, SetsOn, SetsSale};

use crate::counted_flights::CountedFlights;
use crate::grid::Grid;
use crate::ladder::{Ladder, Step};
use crate::laid_out::number;
use crate::leg_counts::LegCounts;
use crate::setting::Setting;
use crate::shared::SharedLayout;
use airline_base::{Class, Memory, Place};
use std::alloc::Global;
use std::marker::Model;

/// How many seats are held on each leg in each rank, with the limits of the grid that it was made for.
#[derive(Drop)]
pub struct Counts {
    flights: CountedFlights,
    /// How the grid is laid out, with the ladders that several legs may have.
    layout: SharedLayout,
    /// The ladders of the legs whose limits were changed. There is memory for one for each leg,
    /// which is not touched before it is needed.
    own: Vec<Ladder>,
}

impl Model for Counts {
    ghost use Rattle.std.specs.Prelude.{List, vec_capacity};
    ghost use Rattle.seat_nesting.specs.Counting.{LegSeats};
    ghost use Rattle.seat_nesting.specs.OwnLadders.{all_seen, pool_of, AreCounters};

    ghost Value = { List (List LegSeats) };

    ghost view = { λ c. all_seen (pool_of c.layout.shared.items c.own.items) c.flights };

    ghost invariant = { λ c. AreCounters (pool_of c.layout.shared.items c.own.items) (vec_capacity c.own) c.flights };
}

impl Counts {
    /// The counters of a grid on which no seat is held.
    pub fn new(alloc: Global, grid: &Grid) -> Result<Counts, Memory>
        ensures limits { IfOk result (λ counts. limits_of counts ≡ grid.now) }
        ensures seats { IfOk result (λ counts. (flight leg class : ℕ) → table_of counts flight leg class ≡ 0) }
    {
        let Ok(layout) = grid.layout().again() else {
            return Err(Memory);
        };
        let Ok(legs) = Vec::from_slice(alloc, &layout.get().legs) else {
            return Err(Memory);
        };
        let Ok(flights) = Vec::from_slice(alloc, &layout.get().flights) else {
            return Err(Memory);
        };
        let Ok(places) = number(legs.len()) else {
            return Err(Memory);
        };
        let Ok(seats) = no_seats(alloc, layout.get().numbers) else {
            return Err(Memory);
        };
        let Ok(own) = Vec::with_capacity(alloc, places as usize) else {
            return Err(Memory);
        };
        let flights = CountedFlights::of(seats, legs, flights);
        Ok(Counts {
            flights,
            layout,
            own,
        })
    }

    /// Whether the flight and both legs are there, the second not before the first.
    pub fn fits(&self, place: Place) -> bool
        ensures { IsTrue result ↔ Fits (limits_of self.now) place }
    {
        place.from <= place.to && u32::from(place.to) < self.flights.legs_on(place.flight)
    }

    /// The seats that are left on a place in a class; 0 where the place does not fit, or the class is closed on a leg or missing.
    pub fn room(&self, place: Place, class: Class) -> u16
        ensures { result ≡ room (limits_of self.now) (table_of self.now) place class }
    {
        if place.from > place.to {
            return 0;
        }
        let mut room = self.room_on(place.flight, place.from, class);
        for leg in place.from..place.to {
            room = room.min(self.room_on(place.flight, leg + 1, class));
        }
        room
    }

    /// Whether at least so many seats are held in the class on each leg of the place, which fits and
    /// whose legs have the class.
    pub fn holds(&self, place: Place, class: Class, seats: u16) -> bool
        ensures { result ≡ holds (limits_of self.now) (table_of self.now) place class seats }
    {
        if place.from > place.to {
            return false;
        }
        let mut held = self.holds_on(place.flight, place.from, class, seats);
        for leg in place.from..place.to {
            let here = self.holds_on(place.flight, leg + 1, class, seats);
            held = held && here;
        }
        held
    }

    /// Takes so many seats of the class on each leg of the place, which the limits leave, whether the class is open or closed.
    pub fn take(&mut self, place: Place, class: Class, seats: u16)
        requires { seats ≤ free (limits_of self.old) (table_of self.old) place class }
        ensures { Takes self.old self.new place class seats }
    {
        if seats == 0 {
            return;
        }
        self.take_on(place.flight, place.from, class, seats);
        for leg in place.from..place.to {
            self.take_on(place.flight, leg + 1, class, seats);
        }
    }

    /// Gives back so many seats of the class on each leg of the place. For none it looks at no leg.
    pub fn give(&mut self, place: Place, class: Class, seats: u16)
        requires { IsTrue (holds (limits_of self.old) (table_of self.old) place class seats) }
        ensures { Gives self.old self.new place class seats }
    {
        if seats == 0 {
            return;
        }
        self.give_on(place.flight, place.from, class, seats);
        for leg in place.from..place.to {
            self.give_on(place.flight, leg + 1, class, seats);
        }
    }

    /// The limits of a leg now, where it has any.
    pub fn ladder(&self, flight: u32, leg: u8) -> Option<&Ladder>
        ensures found { IfSome result (λ l. l.now ≡ ladder_at (limits_of self.now) flight leg) }
        ensures none { IfNone result (ladder_at (limits_of self.now) flight leg ≡ []) }
    {
        let Some((limits, _seats)) = self.flights.leg(flight, leg) else {
            return None;
        };
        limits.ladder(self.layout.ladders(), &self.own)
    }

    /// The limit and the wait of a class on a leg now, where the leg has the class.
    pub fn step(&self, flight: u32, leg: u8, class: Class) -> Option<Step>
        ensures { result ≡ step_of (ladder_at (limits_of self.now) flight leg) class }
    {
        self.leg(flight, leg)?.step(class)
    }

    /// The seats held on a leg in a rank of its limits and below, by rank from 0; 0 where it has no such rank.
    pub fn held_from(&self, flight: u32, leg: u8, rank: usize) -> u16
        ensures { result ≡ held_from (table_of self.now flight leg)
            (drop rank (ladder_at (limits_of self.now) flight leg)) }
    {
        match self.leg(flight, leg) {
            Some(counts) => counts.held_from(rank),
            None => 0,
        }
    }

    /// Whether a class of a leg may have this limit and wait: each is at most 999, the leg has the
    /// class, the limits stay in order, and no more seats are held in the class and below.
    pub fn can_set(&self, flight: u32, leg: u8, class: Class, limit: u16, wait: u16) -> bool
        ensures { result ≡ can_set (limits_of self.now) (table_of self.now) flight leg class limit wait }
    {
        wait <= 999 && self.may_have(flight, leg, class, limit)
    }

    /// Sets the limit and the wait of a class on a leg.
    pub fn set(&mut self, flight: u32, leg: u8, class: Class, limit: u16, wait: u16)
        requires { IsTrue (can_set (limits_of self.old) (table_of self.old) flight leg class limit wait) }
        ensures { Sets self.old self.new flight leg class limit wait }
    {
        self.limits_are_kept();
        let setting = Setting::ToLimit(class, limit, wait);
        self.set_on(flight, leg, &setting);
    }

    /// Whether a leg has the class, or any where none is named.
    pub fn has_sale(&self, flight: u32, leg: u8, class: Option<Class>) -> bool
        ensures { result ≡ has_sale (limits_of self.now) flight leg class }
    {
        match self.leg(flight, leg) {
            Some(counts) => counts.has_named(class),
            None => false,
        }
    }

    /// Closes a class of a leg, or each where none is named, or opens it.
    pub fn set_sale(&mut self, flight: u32, leg: u8, class: Option<Class>, closed: bool)
        requires { IsTrue (has_sale (limits_of self.old) flight leg class) }
        ensures { SetsSale self.old self.new flight leg class closed }
    {
        self.limits_are_kept();
        let setting = Setting::ToSale(class, closed);
        self.set_on(flight, leg, &setting);
    }

    /// Closes and opens at each rank of a leg what is closed and open in a ladder.
    pub fn set_marks(&mut self, flight: u32, leg: u8, marks: Ladder)
        requires { 0 < length (ladder_at (limits_of self.old) flight leg) }
        ensures { SetsMarks self.old self.new flight leg marks }
    {
        self.limits_are_kept();
        let setting = Setting::ToMarks(marks);
        self.set_on(flight, leg, &setting);
    }

    /// No leg holds more than a limit.
    pub fn limits_are_kept(&self)
        ensures { IsWithinLimits self.now }
    {
        let _ = &self.flights;
    }

    /// Sets what a setting says on a leg.
    fn set_on(&mut self, flight: u32, leg: u8, setting: &Setting)
        requires { MaySet (leg_at self.old flight leg) setting.now }
        ensures { SetsOn self.old self.new flight leg setting.now }
    {
        let Some((limits, _held)) = self.flights.leg(flight, leg) else {
            return;
        };
        let limits = limits.set(self.layout.ladders(), &mut self.own, setting);
        self.flights.move_limits(flight, leg, limits);
    }

    /// The leg as it stands.
    fn leg(&self, flight: u32, leg: u8) -> Option<LegCounts<'_>>
        ensures found { IfSome result (λ l. l ≡ leg_at self.now flight leg) }
        ensures none { IfNone result (leg_at self.now flight leg ≡ no_leg) }
    {
        let Some((limits, held)) = self.flights.leg(flight, leg) else {
            return None;
        };
        Some(LegCounts::of(limits.steps(self.layout.ladders(), &self.own), held))
    }

    /// The rank of a class on a leg, counted from 0.
    fn rank_on(&self, flight: u32, leg: u8, class: Class) -> Option<usize>
        ensures found { IfSome result (IsRank (leg_at self.now flight leg).steps class) }
        ensures none { IfNone result (has_class (leg_at self.now flight leg).steps class ≡ false) }
    {
        self.leg(flight, leg)?.rank_of(class)
    }

    fn room_on(&self, flight: u32, leg: u8, class: Class) -> u16
        ensures { result ≡ room_on (ladder_at (limits_of self.now) flight leg) (table_of self.now flight leg) class }
    {
        match self.leg(flight, leg) {
            Some(counts) => counts.room(class),
            None => 0,
        }
    }

    fn holds_on(&self, flight: u32, leg: u8, class: Class, seats: u16) -> bool
        ensures { result ≡ leg_holds (ladder_at (limits_of self.now) flight leg) (table_of self.now flight leg) class
            seats }
    {
        match self.leg(flight, leg) {
            Some(counts) => counts.holds(class, seats),
            None => false,
        }
    }

    fn may_have(&self, flight: u32, leg: u8, class: Class, limit: u16) -> bool
        ensures { result ≡ may_have (ladder_at (limits_of self.now) flight leg) (table_of self.now flight leg) class
            limit }
    {
        match self.leg(flight, leg) {
            Some(counts) => counts.may_have(class, limit),
            None => false,
        }
    }

    fn take_on(&mut self, flight: u32, leg: u8, class: Class, seats: u16)
        requires { seats ≤ free_on (ladder_at (limits_of self.old) flight leg) (table_of self.old flight leg) class }
        ensures { OneLegChanges plus self.old self.new flight leg class seats }
    {
        let Some(rank) = self.rank_on(flight, leg, class) else {
            return;
        };
        self.flights.take(flight, leg, rank, seats);
    }

    fn give_on(&mut self, flight: u32, leg: u8, class: Class, seats: u16)
        requires { seats ≤ table_of self.old flight leg class }
        ensures { OneLegChanges less self.old self.new flight leg class seats }
    {
        let Some(rank) = self.rank_on(flight, leg, class) else {
            return;
        };
        self.flights.give(flight, leg, rank, seats);
    }
}

/// A run of so many numbers, no seat being held.
fn no_seats(alloc: Global, numbers: u32) -> Result<Vec<u16>, Memory>
    ensures { IfOk result (λ run. run.items ≡ replicate numbers 0) }
{
    let run = vec![in alloc; 0u16; numbers as usize]?;
    Ok(run)
}
