//! The live bookings, flight by flight.
ghost use Rattle.std.specs.Prelude.{◌≡◌, ◌<◌, ◌+◌, [], position, true, None, Some, IfNone, IfSome, OnOk, slice_get, vec_len};
ghost use Rattle.seat_journal.specs.declared.entry.Work.TheVariants.{Seats};
ghost use Rattle.seat_rules.specs.Flights.{flight_of, place_of};
ghost use Rattle.seat_rules.specs.Applying.{effect_of, suffices};
ghost use Rattle.seat_rules.specs.Bookings.{is_for};
ghost use Rattle.seat_bookings.specs.Books.{book_at, has_spare, has_spare_in, queue_at, spare_of, IsEntered, IsQueued, LeavesLive, SameBooks};

use crate::applying::{apply, confirm_all};
use crate::live_bookings::LiveBookings;
use crate::waiting_list::WaitingList;
use airline_base::{Memory, Place};
use seat_journal::{Command, Entry, Work};
use seat_rules::{Booking, Effect};
use std::alloc::Global;

/// The bookings of one flight, and those of them that wait, each in order of number.
#[derive(Drop)]
pub struct FlightBook {
    bookings: LiveBookings,
    queue: WaitingList,
}

impl FlightBook {
    #[tactic(auto, using(crate::proofs::Waitlists::Queue::spare_both))]
    // Makes the memory for what a reply does.
    fn reserve(&mut self, alloc: Global, effect: Effect) -> Result<(), Memory>
        ensures bookings { self.new.bookings.items ≡ self.old.bookings.items }
        ensures queue { self.new.queue.bookings ≡ self.old.queue.bookings }
        ensures ok { OnOk result (suffices effect (spare_of self.new) ≡ true) }
    {
        match effect {
            Effect::Holds => self.bookings.reserve(alloc),
            Effect::Waits => {
                let Ok(()) = self.bookings.reserve(alloc) else {
                    return Err(Memory);
                };
                self.queue.reserve()
            }
            Effect::Reduces => Ok(()),
            Effect::Nothing => Ok(()),
        }
    }
}

/// The bookings of a flight.
pub fn book_at(books: &[FlightBook], flight: u32) -> &[Booking]
    ensures { result.now ≡ book_at books.now flight }
{
    match books.get(flight as usize) {
        Some(book) => book.bookings.as_slice(),
        None => &[],
    }
}

/// Where the booking of a command's locator, a place and the command's class stands among those of its flight.
pub fn find_in(books: &[FlightBook], command: &Command, place: Place) -> Option<usize>
    ensures { result ≡ position (is_for command.now.locator place command.now.class) (book_at books.now place.flight) }
{
    match books.get(place.flight as usize) {
        Some(book) => book.bookings.find(command, place),
        None => None,
    }
}

/// The waiting list of a flight; none where it has no book yet.
pub fn queue_at(books: &[FlightBook], flight: u32) -> Option<&WaitingList>
    ensures some { IfSome result (λ queue. queue.now.bookings ≡ queue_at books.now flight) }
    ensures none { IfNone result (queue_at books.now flight ≡ []) }
{
    match books.get(flight as usize) {
        Some(book) => Some(&book.queue),
        None => None,
    }
}

/// Reserves memory for what a reply does on the flight of a place.
pub fn reserve_place(
    alloc: Global,
    books: &mut Vec<FlightBook>,
    place: Option<Place>,
    effect: Effect,
) -> Result<(), Memory>
    ensures same { SameBooks books.old.items books.new.items }
    ensures ok { OnOk result (has_spare books.new.items place effect ≡ true) }
{
    match place {
        Some(place) => reserve_effect(alloc, books, place.flight, effect),
        None => Ok(()),
    }
}

// Makes the memory for what a reply does on a flight.
fn reserve_effect(
    alloc: Global,
    books: &mut Vec<FlightBook>,
    flight: u32,
    effect: Effect,
) -> Result<(), Memory>
    ensures same { SameBooks books.old.items books.new.items }
    ensures ok { OnOk result (has_spare_in effect (slice_get books.new.items flight) ≡ true) }
{
    let Ok(()) = open_books(alloc, books, flight) else {
        return Err(Memory);
    };
    books[flight as usize].reserve(alloc, effect)
}

/// Applies an entry to the book of its flight, which has room for what its reply does there.
#[tactic(auto, using(crate::proofs::Kept::Entering::limit_on, crate::proofs::Kept::Entering::limit_nowhere, crate::proofs::Kept::Entering::sale_on, crate::proofs::Kept::Entering::sale_nowhere))]
pub fn enter(books: &mut Vec<FlightBook>, entry: &Entry)
    requires spare { has_spare books.old.items (place_of entry.now.work) (effect_of entry.now.reply) ≡ true }
    requires queued { IsQueued books.old.items }
    requires live { LeavesLive books.old.items entry.now }
    ensures entered { IsEntered books.old.items books.new.items entry.now }
    ensures queued { IsQueued books.new.items }
{
    match entry.work {
        Work::Seats(command) => enter_command(books, entry, &command),
        Work::Limit(change) => enter_setting(books, entry, change.flight),
        Work::Sale(change) => enter_setting(books, entry, change.flight),
    }
}

// Does what the entry of a command tells.
fn enter_command(books: &mut Vec<FlightBook>, entry: &Entry, command: &Command)
    requires command { entry.now.work ≡ Seats command.now }
    requires spare { has_spare books.old.items command.now.place (effect_of entry.now.reply) ≡ true }
    requires queued { IsQueued books.old.items }
    requires live { LeavesLive books.old.items entry.now }
    ensures entered { IsEntered books.old.items books.new.items entry.now }
    ensures queued { IsQueued books.new.items }
{
    let Some(place) = command.place else {
        return;
    };
    let book = &mut books[place.flight as usize];
    apply(&mut book.bookings, &mut book.queue, entry, command);
}

// Does what the entry of a line tells that sets something on a flight: its advices alone, where the flight has a book.
fn enter_setting(books: &mut Vec<FlightBook>, entry: &Entry, flight: u32)
    requires flight { flight_of entry.now.work ≡ Some flight }
    requires nowhere { place_of entry.now.work ≡ None }
    requires queued { IsQueued books.old.items }
    requires live { LeavesLive books.old.items entry.now }
    ensures entered { IsEntered books.old.items books.new.items entry.now }
    ensures queued { IsQueued books.new.items }
{
    let flight = flight as usize;
    if flight >= books.len() {
        return;
    }
    let book = &mut books[flight];
    confirm_all(
        &mut book.bookings,
        &mut book.queue,
        entry.advices.as_slice(),
    );
}

// Sees to it that a flight has a book.
fn open_books(alloc: Global, books: &mut Vec<FlightBook>, flight: u32) -> Result<(), Memory>
    ensures same { SameBooks books.old.items books.new.items }
    ensures ok { OnOk result (flight < vec_len books.new) }
{
    'opening: while books.len() <= flight as usize {
        let Ok(()) = open_book(alloc, books) else {
            return Err(Memory);
        };
    }
    Ok(())
}

// One book more, without bookings.
fn open_book(alloc: Global, books: &mut Vec<FlightBook>) -> Result<(), Memory>
    ensures same { SameBooks books.old.items books.new.items }
    ensures ok { OnOk result (vec_len books.new ≡ vec_len books.old + 1) }
{
    books.push(FlightBook {
        bookings: LiveBookings::new(alloc),
        queue: WaitingList::new(alloc),
    })?;
    Ok(())
}
