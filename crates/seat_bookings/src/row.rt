//! Bookings in a row: one is taken out by moving those on its shorter side.
ghost use Rattle.std.specs.Prelude.{◌≡◌, ◌≤◌, ◌<◌, ◌+◌, ◌++◌, ◌∷◌, [], drop, get_or, length, remove, set, true, vec_len, vec_capacity, OnOk};
ghost use Rattle.std.specs.List.{copy_within};

use airline_base::{Class, Locator, Memory, Place};
use seat_rules::{Booking, Status};
use std::alloc::Global;
use std::marker::Model;

/// Bookings in order. Room that the first of them left stays before them, until it is more than they need.
#[derive(Drop)]
pub struct Row {
    all: Vec<Booking>,
    start: usize,
}

impl Model for Row {
    ghost use Rattle.std.specs.Prelude.{◌≤◌, drop, nat_lt, vec_len, vec_capacity};
    ghost use Rattle.seat_bookings.specs.Live.{Listed};

    ghost Value = { Listed };

    ghost view = { λ r. record { items = drop r.start r.all.items; spare = nat_lt (vec_len r.all) (vec_capacity r.all) } };

    ghost invariant = { λ r. r.start ≤ vec_len r.all };
}

impl Row {
    pub fn new(alloc: Global) -> Row
        ensures { result.items ≡ [] }
    {
        Row {
            all: Vec::new(alloc),
            start: 0,
        }
    }

    pub fn as_slice(&self) -> &[Booking]
        ensures { result.now ≡ self.now.items }
    {
        from_start(&self.all, self.start)
    }

    /// The booking at an index.
    pub fn nth(&self, at: usize) -> &Booking
        requires { at < length self.now.items }
        ensures { result.now ≡ get_or self.now.items at result.now }
    {
        &self.as_slice()[at]
    }

    /// Makes the memory for one more.
    pub fn reserve(&mut self) -> Result<(), Memory>
        ensures same { self.new.items ≡ self.old.items }
        ensures ok { OnOk result (self.new.spare ≡ true) }
    {
        self.close_up();
        match self.all.reserve(1) {
            Ok(()) => Ok(()),
            Err(_) => Err(Memory),
        }
    }

    // Gives the room before the first away, where it is more than the bookings have.
    fn close_up(&mut self)
        ensures { self.new.items ≡ self.old.items }
    {
        if self.start <= self.all.len() / 2 {
            return;
        }
        close_up(&mut self.all, self.start);
        self.start = 0;
    }

    /// Adds a booking, for which there is memory.
    pub fn push(&mut self, booking: Booking)
        requires { self.old.spare ≡ true }
        ensures { self.new.items ≡ self.old.items ++ booking ∷ [] }
    {
        push_behind(&mut self.all, booking);
    }

    /// Puts a booking in the place of another.
    pub fn set(&mut self, at: usize, booking: Booking)
        requires { at < length self.old.items }
        ensures { self.new.items ≡ set self.old.items at booking }
    {
        set_at(&mut self.all, self.start, at, booking);
    }

    /// Takes a booking out.
    pub fn remove(&mut self, at: usize) -> Booking
        requires { at < length self.old.items }
        ensures value { result ≡ get_or self.old.items at result }
        ensures items { self.new.items ≡ remove self.old.items at }
    {
        let gone = *self.nth(at);
        self.start = take_at(&mut self.all, self.start, at);
        gone
    }
}

fn from_start(all: &[Booking], start: usize) -> &[Booking]
    requires { start ≤ length all.now }
    ensures { result.now ≡ drop start all.now }
{
    &all[start..]
}

// Adds a booking, for which there is memory.
fn push_behind(all: &mut Vec<Booking>, booking: Booking)
    requires { vec_len all.old < vec_capacity all.old }
    ensures items { all.new.items ≡ all.old.items ++ booking ∷ [] }
    ensures len { vec_len all.new ≡ vec_len all.old + 1 }
{
    let pushed = all.push(booking);
    prove!(pushed.is_ok());
    let _ = pushed;
}

// Puts a booking in the place of another, by its index from the start on.
#[tactic(auto, using(crate::proofs::Live::Rows::inside, crate::proofs::Live::Rows::set_behind))]
fn set_at(all: &mut Vec<Booking>, start: usize, at: usize, booking: Booking)
    requires { at < length (drop start all.old.items) }
    ensures items { drop start all.new.items ≡ set (drop start all.old.items) at booking }
    ensures len { vec_len all.new ≡ vec_len all.old }
    ensures capacity { vec_capacity all.new ≡ vec_capacity all.old }
{
    all[start + at] = booking;
}

// Takes a booking out, by its index from the start on. Where they start then.
#[tactic(auto, using(crate::proofs::Live::Rows::inside, crate::proofs::Live::Rows::moved_up, crate::proofs::Live::Rows::taken_out))]
fn take_at(all: &mut Vec<Booking>, start: usize, at: usize) -> usize
    requires { at < length (drop start all.old.items) }
    ensures items { drop result all.new.items ≡ remove (drop start all.old.items) at }
    ensures within { result ≤ vec_len all.new }
{
    let place = start + at;
    if at < all.len() - place {
        move_up(all, start, place);
        return start + 1;
    }
    all.remove(place);
    start
}

// Moves the bookings between two places up by one, over the last of them.
fn move_up(all: &mut Vec<Booking>, start: usize, place: usize)
    requires order { start ≤ place }
    requires within { place < vec_len all.old }
    ensures items { all.new.items ≡ copy_within all.old.items start place (start + 1) }
    ensures len { vec_len all.new ≡ vec_len all.old }
{
    all.copy_within(start..place, start + 1);
}

// Takes out what stands before the start.
#[tactic(auto, using(crate::proofs::Live::Rows::closed_up))]
fn close_up(all: &mut Vec<Booking>, start: usize)
    requires { start ≤ vec_len all.old }
    ensures { all.new.items ≡ drop start all.old.items }
{
    let len = all.len();
    move_down(all, start, len);
    all.truncate(len - start);
}

// Moves the bookings from the start on to the front.
fn move_down(all: &mut Vec<Booking>, start: usize, len: usize)
    requires order { start ≤ len }
    requires within { len ≡ vec_len all.old }
    ensures items { all.new.items ≡ copy_within all.old.items start len 0 }
    ensures len { vec_len all.new ≡ vec_len all.old }
{
    all.copy_within(start..len, 0);
}
