//! What lines have left, for those who need each line once, when it is made: the lines themselves are not kept.
ghost use Rattle.std.specs.Prelude.{◌≡◌, ◌<◌, List, [], true, IfOk};
ghost use Rattle.seat_bookings.specs.Books.{has_spare};
ghost use Rattle.seat_core.specs.Balances.{count_of, grid_of, Follows, IsLeft, IsNextOf, Leave, MayFollow, StaysLeft, TakesIn};
ghost use Rattle.seat_journal.specs.declared.entry.Entry.{Entry};
ghost use Rattle.seat_rules.specs.Applying.{effect_of};
ghost use Rattle.seat_rules.specs.Flights.{place_of};
ghost use Rattle.seat_rules.specs.Journal.{replay, FitsWork, MayAsk};
ghost use Rattle.seat_rules.specs.Sequential.{room_left};

use crate::inventory::place_of;
use crate::reply::{answer_work, entry_of};
use airline_base::{Class, Memory, Place};
use seat_bookings::{FlightBook, enter, reserve_place};
use seat_journal::{Entry, Work};
use seat_nesting::{Counts, Grid};
use seat_rules::{effect_of, show};
use std::alloc::Global;

/// What the lines so far have left: the live bookings, the calls of each session and the seats that are held.
#[derive(Drop)]
pub struct Balance {
    opening: Grid,
    lines: u32,
    books: Vec<FlightBook>,
    calls: [u32; 9],
    counts: Counts,
}

impl Balance {
    /// What no line leaves.
    pub fn new(alloc: Global, grid: Grid) -> Result<Balance, Memory>
        ensures grid { IfOk result (λ balance. grid_of balance ≡ grid) }
        ensures left { IfOk result (λ balance. Leave [] balance) }
    {
        grid.ladders_are_distinct();
        let Ok(counts) = Counts::new(alloc, &grid) else {
            return Err(Memory);
        };
        Ok(Balance {
            opening: grid,
            lines: 0,
            books: Vec::new(alloc),
            calls: [0; 9],
            counts,
        })
    }

    /// The limits over which it was opened.
    pub fn grid(&self) -> &Grid
        ensures { result.now ≡ grid_of self.now }
    {
        &self.opening
    }

    /// The seats that are left on a place in a class.
    pub fn room(&self, place: Place, class: Class) -> u16
        ensures { (past : List Entry) → Leave past self.now
            → result ≡ room_left (replay (grid_of self.now) past) place class }
    {
        self.counts.room(place, class)
    }

    /// Answers what a session asks for as its next call, on the next line. The line is the caller's.
    pub fn answer_next(&mut self, alloc: Global, session: u8, work: Work) -> Result<Entry, Memory>
        requires left { IsLeft self.old }
        requires below { count_of self.old < 999999 }
        requires session { MayAsk session work }
        requires fits { FitsWork (grid_of self.old) work }
        ensures line { IfOk result (λ entry. IsNextOf self.old session work entry) }
        ensures taken { IfOk result (λ entry. TakesIn self.old self.new entry) }
    {
        let entry = self.next(alloc, session, work)?;
        let (place, effect) = (place_of(&work), effect_of(entry.reply));
        let Ok(()) = reserve_place(alloc, &mut self.books, place, effect) else {
            return Err(Memory);
        };
        self.take_in(&entry);
        Ok(entry)
    }

    // The next line, which asks for this.
    fn next(&mut self, alloc: Global, session: u8, work: Work) -> Result<Entry, Memory>
        requires left { IsLeft self.old }
        requires below { count_of self.old < 999999 }
        requires session { MayAsk session work }
        requires fits { FitsWork (grid_of self.old) work }
        ensures line { IfOk result (λ entry. IsNextOf self.old session work entry) }
        ensures same { StaysLeft self.old self.new }
    {
        let number = self.lines + 1;
        let call = self.calls[session as usize] + 1;
        let told = answer_work(alloc, &mut self.counts, &self.books, number, &work);
        entry_of(alloc, told, number, session, call, work)
    }

    // Does what the next line tells, for which there is memory.
    fn take_in(&mut self, entry: &Entry)
        requires next { MayFollow self.old entry.now }
        requires below { count_of self.old < 999999 }
        requires spare { has_spare self.old.books.items (place_of entry.now.work) (effect_of entry.now.reply) ≡ true }
        ensures { Follows self.old self.new entry.now }
    {
        let session = entry.session as usize;
        enter(&mut self.books, entry);
        show(entry, &mut self.counts);
        self.calls[session] += 1;
        self.lines += 1;
    }
}
