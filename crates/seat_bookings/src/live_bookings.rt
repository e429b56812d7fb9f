//! The live bookings of a flight, with an index where there are many.
ghost use Rattle.std.specs.Prelude.{◌≡◌, ◌==◌, ◌≤◌, ◌<◌, ◌++◌, ◌∷◌, [], position, true, OnOk, IfOk, Some, None};
ghost use Rattle.std.specs.HashMap.{spare};
ghost use Rattle.std.specs.Hash as fed;
ghost use Rattle.std.specs.Cmp.Rules.{hashing};
ghost use Rattle.std.proofs.Common.{rules};
ghost use Rattle.seat_rules.specs.Applying.{confirmed_at, IsOrdered};
ghost use Rattle.seat_rules.specs.Bookings.{is_for};
ghost use Rattle.seat_bookings.specs.Hashing.{key_number};
ghost use Rattle.seat_bookings.specs.Live.{key_for, key_of, has_place, AreLive, IsListed, IsNumbersOf, PutsNumber, PutsWhere};
ghost use Rattle.seat_bookings.specs.Numbers.{SameIndex, SameNumbers};
ghost use Rattle.seat_bookings.specs.Queues.{first_waits};
ghost use Rattle.seat_rules.specs.Sequential.{booking_of, reduced};

use crate::bookings::{add, find_booking, find_number, hold, number_waits, take_off};
use crate::row::Row;
use airline_base::{Class, Locator, Memory, Place};
use seat_journal::Command;
use seat_rules::{Booking, Status};
use std::alloc::Global;
use std::collections::HashMap;
use std::hash::{Hash, Hasher};
use std::marker::Model;

// So many bookings are looked through as fast as an index answers.
const FEW: usize = 16;

/// What no two live bookings have in common: the locator, place and class.
#[derive(Clone, Copy, PartialEq, Eq)]
pub struct Key {
    pub locator: [u8; 6],
    pub flight: u32,
    pub from: u8,
    pub to: u8,
    pub class: u8,
}

impl Key {
    fn as_number(&self) -> u128
        ensures { result ≡ key_number self.now }
    {
        let l = &self.locator;
        let low = u64::from_le_bytes([l[0], l[1], l[2], l[3], l[4], l[5], self.from, self.to]);
        let high = u128::from(self.flight) + 4_294_967_296 * u128::from(self.class);
        u128::from(low) + 18_446_744_073_709_551_616 * high
    }
}

/// The fields are hashed as one number, since each write to a hasher costs.
impl Hash for Key {
    ghost hash_input = { λ k. fed.u128 (key_number k) };

    ghost respects_eq = { Prim.search (hashing, rules) };

    fn hash<H: Hasher>(&self, state: &mut H) {
        state.write_u128(self.as_number());
    }
}

type Numbers = HashMap<Key, u32>;

/// The live bookings of a flight, in order of number. Once there were many, their numbers stand in an index too; a flight
/// that never had many takes no memory for one.
#[derive(Drop)]
pub struct LiveBookings {
    bookings: Row,
    index: Option<Box<Numbers>>,
}

impl Model for LiveBookings {
    ghost use Rattle.seat_bookings.specs.Live.{has_room, IsListed, Listed};

    ghost Value = { Listed };

    ghost view = { λ l. record { items = l.bookings.items; spare = has_room l.bookings.spare l.index } };

    ghost invariant = { λ l. IsListed l.bookings.items l.index };
}

impl LiveBookings {
    pub fn new(alloc: Global) -> LiveBookings
        ensures { result.items ≡ [] }
    {
        LiveBookings {
            bookings: Row::new(alloc),
            index: None,
        }
    }

    pub fn as_slice(&self) -> &[Booking]
        ensures value { result.now ≡ self.now.items }
    {
        self.bookings.as_slice()
    }

    /// Where the booking of a command's locator, a place and the command's class stands.
    pub fn find(&self, command: &Command, place: Place) -> Option<usize>
        ensures value { result ≡ position (is_for command.now.locator place command.now.class) self.now.items }
        ensures ordered { IsOrdered self.now.items }
    {
        let Some(numbers) = &self.index else {
            return find_booking(self.bookings.as_slice(), command, place);
        };
        match numbers.get(&key_for(command, place)) {
            Some(number) => find_number(self.bookings.as_slice(), *number),
            None => None,
        }
    }

    /// Whether the booking of this number waits.
    pub fn number_waits(&self, number: u32) -> bool
        ensures value { result ≡ first_waits (λ b. b.number == number) self.now.items }
        ensures ordered { IsOrdered self.now.items }
    {
        number_waits(self.bookings.as_slice(), number)
    }

    /// Reserves memory for one more booking.
    pub fn reserve(&mut self, alloc: Global) -> Result<(), Memory>
        ensures same { self.new.items ≡ self.old.items }
        ensures ok { OnOk result (self.new.spare ≡ true) }
    {
        let Ok(()) = self.bookings.reserve() else {
            return Err(Memory);
        };
        if self.index.is_none() && self.bookings.as_slice().len() >= FEW {
            let Ok(index) = index_of(alloc, self.bookings.as_slice()) else {
                return Err(Memory);
            };
            self.index = Some(index);
        }
        make_room(&mut self.index)
    }

    /// Adds the booking of a command.
    pub fn add(&mut self, number: u32, command: &Command, place: Place, status: Status)
        requires spare { self.old.spare ≡ true }
        requires live { AreLive (self.old.items ++ booking_of number command.now place status ∷ []) }
        ensures { self.new.items ≡ self.old.items ++ booking_of number command.now place status ∷ [] }
    {
        note(&mut self.index, key_for(command, place), number);
        add(&mut self.bookings, number, command, place, status);
    }

    /// Takes the seats of a command off its booking, which goes where none are left.
    pub fn take_off(&mut self, at: usize, command: &Command, place: Place)
        requires found { position (is_for command.now.locator place command.now.class) self.old.items ≡ Some at }
        ensures { self.new.items ≡ reduced (is_for command.now.locator place command.now.class) command.now.seats
            self.old.items }
    {
        lessen(&mut self.bookings, &mut self.index, at, command, place);
    }

    /// Makes the booking of this number, where there is one, a held one.
    pub fn hold(&mut self, number: u32)
        ensures { self.new.items ≡ confirmed_at self.old.items number }
    {
        hold(&mut self.bookings, number);
    }
}

// Takes the seats of a command off the booking at an index, and its key out of the index where none are left.
fn lessen(
    bookings: &mut Row,
    index: &mut Option<Box<Numbers>>,
    at: usize,
    command: &Command,
    place: Place,
)
    requires found { position (is_for command.now.locator place command.now.class) bookings.old.items ≡ Some at }
    requires listed { IsListed bookings.old.items index.old }
    ensures reduced { bookings.new.items
        ≡ reduced (is_for command.now.locator place command.now.class) command.now.seats bookings.old.items }
    ensures listed { IsListed bookings.new.items index.new }
{
    if bookings.nth(at).seats > command.seats {
        take_off(bookings, at, command, place);
        return;
    }
    forget(index, key_for(command, place));
    take_off(bookings, at, command, place);
}

fn key_for(command: &Command, place: Place) -> Key
    ensures { result ≡ key_for command.now.locator place command.now.class }
{
    Key {
        locator: command.locator.characters(),
        flight: place.flight,
        from: place.from,
        to: place.to,
        class: command.class.letter(),
    }
}

fn key_of(booking: &Booking) -> Key
    ensures { result ≡ key_of booking.now }
{
    Key {
        locator: booking.locator.characters(),
        flight: booking.place.flight,
        from: booking.place.from,
        to: booking.place.to,
        class: booking.class.letter(),
    }
}

// The index of these bookings.
fn index_of(alloc: Global, bookings: &[Booking]) -> Result<Box<Numbers>, Memory>
    ensures { IfOk result (λ numbers. IsNumbersOf numbers.value bookings.now) }
{
    let Ok(numbers) = numbers_of(alloc, bookings) else {
        return Err(Memory);
    };
    match Box::new(alloc, numbers) {
        Ok(index) => Ok(index),
        Err(_) => Err(Memory),
    }
}

// The numbers of these bookings by their keys. The last come first: the first of a key stays.
fn numbers_of(alloc: Global, bookings: &[Booking]) -> Result<Numbers, Memory>
    ensures { IfOk result (λ numbers. IsNumbersOf numbers bookings.now) }
{
    let mut numbers = HashMap::new(alloc);
    let mut at = bookings.len();
    while at > 0 {
        at -= 1;
        let booking = &bookings[at];
        let Ok(()) = put(&mut numbers, key_of(booking), booking.number) else {
            return Err(Memory);
        };
    }
    Ok(numbers)
}

fn put(numbers: &mut Numbers, key: Key, number: u32) -> Result<(), Memory>
    ensures { OnOk result (PutsNumber numbers.old numbers.new key (Some number)) }
{
    match numbers.insert(key, number) {
        Ok(_) => Ok(()),
        Err(_) => Err(Memory),
    }
}

// Makes the memory for one more number, where there is an index.
#[tactic(auto, using(crate::proofs::Live::Lists::same_in))]
fn make_room(index: &mut Option<Box<Numbers>>) -> Result<(), Memory>
    ensures same { SameIndex index.old index.new }
    ensures place { OnOk result (has_place index.new ≡ true) }
{
    match index {
        Some(numbers) => reserve(numbers),
        None => Ok(()),
    }
}

fn reserve(numbers: &mut Numbers) -> Result<(), Memory>
    ensures same { SameNumbers numbers.old numbers.new }
    ensures spare { OnOk result (0 < spare numbers.new) }
{
    match numbers.reserve(1) {
        Ok(()) => Ok(()),
        Err(_) => Err(Memory),
    }
}

// Puts a number into the index, where there is one: it has room.
#[tactic(auto, using(crate::proofs::Live::Lists::puts_in))]
fn note(index: &mut Option<Box<Numbers>>, key: Key, number: u32)
    requires { has_place index.old ≡ true }
    ensures { PutsWhere index.old index.new key (Some number) }
{
    match index {
        Some(numbers) => put_reserved(numbers, key, number),
        None => {}
    }
}

fn put_reserved(numbers: &mut Numbers, key: Key, number: u32)
    requires { 0 < spare numbers.old }
    ensures { PutsNumber numbers.old numbers.new key (Some number) }
{
    let noted = numbers.insert(key, number);
    prove!(noted.is_ok());
    let _ = noted;
}

// Takes a key out of the index, where there is one.
#[tactic(auto, using(crate::proofs::Live::Lists::puts_in))]
fn forget(index: &mut Option<Box<Numbers>>, key: Key)
    ensures { PutsWhere index.old index.new key None }
{
    match index {
        Some(numbers) => strike(numbers, key),
        None => {}
    }
}

fn strike(numbers: &mut Numbers, key: Key)
    ensures { PutsNumber numbers.old numbers.new key None }
{
    let _ = numbers.remove(&key);
}
