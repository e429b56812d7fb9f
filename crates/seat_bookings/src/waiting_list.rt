//! The waiting list of a flight.
ghost use Rattle.std.specs.Prelude.{◌≡◌, ◌==◌, ◌<◌, ◌≤◌, ◌++◌, ◌∷◌, [], length, position, remove, true, vec_len, vec_capacity, OnOk, Some};
ghost use Rattle.seat_nesting.specs.Counting.{limits_of, table_of};
ghost use Rattle.seat_nesting.specs.Nesting.{may_wait};
ghost use Rattle.seat_rules.specs.Applying.{IsOrdered};
ghost use Rattle.seat_rules.specs.Bookings.{is_for, waiting};
ghost use Rattle.seat_bookings.specs.Demands.{has_spare, IsIndexed};
ghost use Rattle.seat_bookings.specs.Queues.{next_fit, without};
ghost use Rattle.seat_rules.specs.Sequential.{booking_of, reduced};
ghost use Rattle.seat_rules.specs.declared.booking.Status.TheVariants.{Waiting};

use crate::bookings::{add, find_number, take_off};
use crate::demands::{Demand, join, leave, lessen};
use crate::fitting::next_fit;
use crate::rooms::may_wait_at;
use crate::row::Row;
use airline_base::{Class, Memory, Place};
use seat_journal::Command;
use seat_nesting::Counts;
use seat_rules::{Booking, Status};
use std::alloc::Global;
use std::marker::Model;

// As many bookings as there are numbers.
const MOST: usize = 1 << 32;

/// The bookings of a flight that wait, in order of number, and what waits for each place and class.
#[derive(Drop)]
pub struct WaitingList {
    bookings: Row,
    demands: Vec<Demand>,
}

impl Model for WaitingList {
    ghost use Rattle.std.specs.Prelude.{length, vec_len, vec_capacity};
    ghost use Rattle.seat_bookings.specs.Queues.{Waitlist};
    ghost use Rattle.seat_bookings.specs.Demands.{has_spare, IsIndexed};

    ghost Value = { Waitlist };

    ghost view = { λ l. record { bookings = l.bookings.items; spare = has_spare (length l.bookings.items) l.bookings.spare (vec_len l.demands) (vec_capacity l.demands) } };

    ghost invariant = { λ l. IsIndexed l.bookings.items l.demands.items };
}

impl WaitingList {
    pub fn new(alloc: Global) -> WaitingList
        ensures { result.bookings ≡ [] }
    {
        WaitingList {
            bookings: Row::new(alloc),
            demands: Vec::new(alloc),
        }
    }

    pub fn as_slice(&self) -> &[Booking]
        ensures { result.now ≡ self.now.bookings }
    {
        self.bookings.as_slice()
    }

    /// Reserves memory for one more booking.
    pub fn reserve(&mut self) -> Result<(), Memory>
        ensures same { self.new.bookings ≡ self.old.bookings }
        ensures ok { OnOk result (self.new.spare ≡ true) }
    {
        if self.bookings.as_slice().len() >= MOST {
            return Err(Memory);
        }
        let Ok(()) = self.bookings.reserve() else {
            return Err(Memory);
        };
        match self.demands.reserve(1) {
            Ok(()) => Ok(()),
            Err(_) => Err(Memory),
        }
    }

    /// Adds the booking of a command, whose number is above theirs.
    pub fn add(&mut self, number: u32, command: &Command, place: Place)
        requires spare { self.old.spare ≡ true }
        requires ordered { IsOrdered (self.old.bookings ++ booking_of number command.now place Waiting ∷ []) }
        ensures { self.new.bookings ≡ self.old.bookings ++ booking_of number command.now place Waiting ∷ [] }
    {
        add_to(
            &mut self.bookings,
            &mut self.demands,
            number,
            command,
            place,
        );
    }

    /// Takes the seats of a command off its booking, which has this number, where there is one.
    pub fn reduce(&mut self, number: u32, command: &Command, place: Place)
        requires { position (λ b. b.number == number) self.old.bookings
            ≡ position (is_for command.now.locator place command.now.class) self.old.bookings }
        ensures { self.new.bookings ≡ reduced (is_for command.now.locator place command.now.class) command.now.seats
            self.old.bookings }
    {
        match find_number(self.bookings.as_slice(), number) {
            Some(at) => reduce_at(&mut self.bookings, &mut self.demands, at, command, place),
            None => {}
        }
    }

    /// Takes out the booking of this number, where there is one.
    pub fn take_out(&mut self, number: u32)
        ensures { self.new.bookings ≡ without self.old.bookings number }
    {
        match find_number(self.bookings.as_slice(), number) {
            Some(at) => take_at(&mut self.bookings, &mut self.demands, at),
            None => {}
        }
    }

    /// Whether so many more seats may wait on a place.
    #[tactic(auto, using(crate::proofs::Waitlists::Room::may_wait_told))]
    pub fn may_wait(&self, counts: &Counts, place: Place, class: Class, seats: u16) -> bool
        requires { length self.now.bookings ≤ 999999 }
        ensures { result ≡ may_wait (limits_of counts.now) (waiting self.now.bookings) place class seats }
    {
        may_wait_at(counts, &self.demands, place, class, seats)
    }

    /// How far behind an index the first booking stands that has at most the seats that the counters leave room for.
    pub fn next_fit(&self, counts: &Counts, from: usize) -> Option<usize>
        requires { from ≤ length self.now.bookings }
        ensures { result ≡ next_fit (limits_of counts.now) (table_of counts.now) self.now.bookings from }
    {
        next_fit(counts, self.bookings.as_slice(), &self.demands, from)
    }
}

// Adds the booking of a command, for which there is room, to its demand.
fn add_to(
    bookings: &mut Row,
    demands: &mut Vec<Demand>,
    number: u32,
    command: &Command,
    place: Place,
)
    requires spare { has_spare (length bookings.old.items) bookings.old.spare (vec_len demands.old)
        (vec_capacity demands.old) ≡ true }
    requires ordered { IsOrdered (bookings.old.items ++ booking_of number command.now place Waiting ∷ []) }
    requires indexed { IsIndexed bookings.old.items demands.old.items }
    ensures added { bookings.new.items ≡ bookings.old.items ++ booking_of number command.now place Waiting ∷ [] }
    ensures indexed { IsIndexed bookings.new.items demands.new.items }
{
    join(demands, number, place, command.class, command.seats);
    add(bookings, number, command, place, Status::Waiting);
}

// Takes the seats of a command off its booking, which stands at this index.
fn reduce_at(
    bookings: &mut Row,
    demands: &mut Vec<Demand>,
    at: usize,
    command: &Command,
    place: Place,
)
    requires found { position (is_for command.now.locator place command.now.class) bookings.old.items ≡ Some at }
    requires indexed { IsIndexed bookings.old.items demands.old.items }
    ensures reduced { bookings.new.items
        ≡ reduced (is_for command.now.locator place command.now.class) command.now.seats bookings.old.items }
    ensures indexed { IsIndexed bookings.new.items demands.new.items }
{
    let booking = *bookings.nth(at);
    let seats = booking.seats;
    if seats <= command.seats {
        take_at(bookings, demands, at);
        return;
    }
    lessen(
        demands,
        booking.number,
        place,
        command.class,
        command.seats,
        seats - command.seats,
    );
    take_off(bookings, at, command, place);
}

// Takes out the booking at an index, and from its demand.
fn take_at(bookings: &mut Row, demands: &mut Vec<Demand>, at: usize)
    requires within { at < length bookings.old.items }
    requires indexed { IsIndexed bookings.old.items demands.old.items }
    ensures gone { bookings.new.items ≡ remove bookings.old.items at }
    ensures indexed { IsIndexed bookings.new.items demands.new.items }
{
    let gone = bookings.remove(at);
    leave(demands, bookings.as_slice(), at, gone);
}
