//! Readers that take no lock.
ghost use Rattle.std.specs.Prelude.{◌≡◌, ◌≤◌, ◌⊎◌, length, IfSome, IfNone, true, []};
ghost use Rattle.left_right.specs.Sides.{view};
ghost use Rattle.seat_rules.specs.Prefixes.{Begins};
ghost use Rattle.seat_rules.specs.Sequential.{room_left};
ghost use Rattle.seat_rules.specs.Journal.{IsLegal, replay};
ghost use Rattle.std.specs.Fn.{FnOnceReturnsAt};
ghost use Rattle.seat_display.specs.Faces.{opened, viewed};

use crate::book::Trace;
use crate::publisher::Told;
use crate::rule::{Looks, TableReader, TableReading};
use airline_base::{Class, Place};
use core::mem::replace_with;
use std::marker::Model;

/// A reader, and what it has seen. Contracts see that as a list of entries; the code keeps its length.
#[derive(Drop)]
pub struct Viewer {
    reader: TableReader,
    seen: Trace,
    lines: u32,
}

impl Model for Viewer {
    ghost use Rattle.std.specs.Prelude.{◌≡◌, length, true};
    ghost use Rattle.left_right.specs.Sides.{view as known};
    ghost use Rattle.seat_rules.specs.Journal.{IsLegal};
    ghost use Rattle.seat_display.specs.Faces.{Viewed};

    ghost Value = { Viewed };

    ghost view = { λ s. record { book = s.seen.book; grid = (known s.reader.place).grid; front = s.seen.log } };

    ghost invariant = { λ s. ((known s.reader.place).knows ≡ true) × ((known s.reader.place).seen.book ≡ s.seen.book) × (s.lines ≡ length s.seen.log) × IsLegal (known s.reader.place).grid s.seen.log };
}

/// What a viewer sees while it is let in, where rooms are shown: the limits and the seats at one point of the history.
pub struct Sight {
    reading: TableReading,
}

impl Model for Sight {
    ghost use Rattle.std.specs.Prelude.{◌≡◌, true, IsSome};
    ghost use Rattle.left_right.specs.Sides.{view as known};
    ghost use Rattle.seat_display.specs.Faces.{Viewed};
    ghost use Rattle.seat_display.specs.Shown.{Leaves};

    ghost Value = { Viewed };

    ghost view = { λ s. record { book = s.reading.part.value.seen.book; grid = (known s.reading.place).grid; front = s.reading.part.value.seen.log } };

    ghost invariant = { λ s. ((known s.reading.place).knows ≡ true) × ((known s.reading.place).seen.book ≡ s.reading.part.value.seen.book) × Leaves (known s.reading.place).grid s.reading.part.value × IsSome s.reading.part.value.counts };
}

impl Sight {
    /// The seats that are left on a place in a class after all that is seen, under the limits at that point.
    pub fn room(&self, place: Place, class: Class) -> u16
        ensures { result ≡ room_left (replay self.now.grid self.now.front) place class }
    {
        match &self.reading.get().counts {
            Some(counts) => counts.room(place, class),
            None => unreachable!(),
        }
    }

    fn leave(self) -> (TableReader, Trace, u32)
        ensures reader { ((view result.0.place).knows ≡ true) × ((view result.0.place).grid ≡ self.grid)
            × ((view result.0.place).seen.book ≡ self.book) }
        ensures seen { (result.1.book ≡ self.book) × (result.1.log ≡ self.front) × IsLegal self.grid self.front }
        ensures lines { result.2 ≡ length self.front }
    {
        let Sight { reading } = self;
        let table = reading.get();
        let seen = table.seen.again();
        let lines = table.lines;
        (reading.leave(), seen, lines)
    }
}

// What a reader found.
#[derive(Drop)]
struct Glance<T> {
    found: T,
    seen: Trace,
    lines: u32,
}

impl Viewer {
    /// Goes in, has `at` look at what is then seen, and leaves. It waits for nobody. None where no rooms are shown, where no
    /// reader is let in, which is where the publisher has ended, or where the table has fewer lines than this viewer has learnt
    /// of. The last never happens, since lines are told of only once they are published, but no clause says so. What is looked
    /// at has no part in it: that is known to `at` alone.
    pub fn look<T: Drop, F: FnOnce(&Sight) -> T>(&mut self, at: F) -> Option<T>
        requires { F.IsAlwaysCallable at }
        ensures found { IfSome result (λ t. FnOnceReturnsAt F.FnOnce at self.new t) }
        ensures front { Begins self.old.front self.new.front }
        ensures legal { IsLegal self.new.grid self.new.front }
        ensures none { IfNone result (self.new ≡ self.old) }
        ensures same { (self.new.book ≡ self.old.book) × (self.new.grid ≡ self.old.grid) }
    {
        let Some(glance) = enter(&mut self.reader, at) else {
            return None;
        };
        let Glance { found, seen, lines } = glance;
        if lines < self.lines {
            return None;
        }
        compare(&self.seen, &seen);
        self.seen = seen;
        self.lines = lines;
        Some(found)
    }

    /// Takes in a note of the same display: the front becomes the longer of the two.
    pub fn learn(&mut self, told: Told)
        requires book { told.book ≡ self.old.book }
        requires legal { IsLegal self.old.grid told.lines }
        ensures longer { (self.new.front ≡ self.old.front) ⊎ (self.new.front ≡ told.lines) }
        ensures front { Begins self.old.front self.new.front }
        ensures note { Begins told.lines self.new.front }
        ensures legal { IsLegal self.new.grid self.new.front }
        ensures same { (self.new.book ≡ self.old.book) × (self.new.grid ≡ self.old.grid) }
    {
        let (seen, lines) = told.parts();
        compare(&self.seen, &seen);
        if self.lines < lines {
            self.seen = seen;
            self.lines = lines;
        }
    }

    /// How many lines it has seen.
    pub fn seen(&self) -> u32
        ensures { result ≡ length self.now.front }
    {
        self.lines
    }

    pub(crate) fn trace(&self) -> Trace
        ensures { (result.book ≡ self.now.book) × (result.log ≡ self.now.front) }
    {
        self.seen.again()
    }

    /// A viewer that has seen nothing.
    #[tactic(auto, using(seat_rules::proofs::History::Legal::legal_nil))]
    pub(crate) fn over(reader: TableReader, seen: &Trace) -> Viewer
        requires knows { ((view reader.place).knows ≡ true) × ((view reader.place).seen.book ≡ seen.now.book) }
        requires empty { seen.now.log ≡ [] }
        ensures { result ≡ opened seen.now.book (view reader.place).grid }
    {
        Viewer {
            reader,
            seen: seen.again(),
            lines: 0,
        }
    }
}

// Of two beginnings of one history the shorter begins the longer. It does nothing when it runs.
fn compare(one: &Trace, other: &Trace)
    requires { other.now.book ≡ one.now.book }
    ensures first { length one.now.log ≤ length other.now.log → Begins one.now.log other.now.log }
    ensures second { length other.now.log ≤ length one.now.log → Begins other.now.log one.now.log }
{
    let mut both = one.again();
    both.learn(other);
}

// Enters, and leaves once `at` has looked, or at once where no rooms are shown.
fn enter<T, F: FnOnce(&Sight) -> T>(reader: &mut TableReader, at: F) -> Option<Glance<T>>
    requires knows { (view reader.old.place).knows ≡ true }
    requires at { F.IsAlwaysCallable at }
    ensures same { ((view reader.new.place).knows ≡ true)
        × ((view reader.new.place).grid ≡ (view reader.old.place).grid)
        × ((view reader.new.place).seen.book ≡ (view reader.old.place).seen.book) }
    ensures some { IfSome result (λ g. (g.seen.book ≡ (view reader.old.place).seen.book)
        × IsLegal (view reader.old.place).grid g.seen.log × (g.lines ≡ length g.seen.log)
        × FnOnceReturnsAt F.FnOnce at (viewed g.seen.book (view reader.old.place).grid g.seen.log) g.found) }
{
    replace_with(
        reader,
        at,
        |reader: TableReader, at: F| -> (TableReader, Option<Glance<T>>)
            requires { ((view reader.place).knows ≡ true) × F.IsAlwaysCallable at }
            ensures same { ((view result.0.place).knows ≡ true)
                × ((view result.0.place).grid ≡ (view reader.place).grid)
                × ((view result.0.place).seen.book ≡ (view reader.place).seen.book) }
            ensures some { IfSome result.1 (λ g. (g.seen.book ≡ (view reader.place).seen.book)
                × IsLegal (view reader.place).grid g.seen.log × (g.lines ≡ length g.seen.log)
                × FnOnceReturnsAt F.FnOnce at (viewed g.seen.book (view reader.place).grid g.seen.log) g.found) }
        { find(reader, at) },
    )
}

fn find<T, F: FnOnce(&Sight) -> T>(reader: TableReader, at: F) -> (TableReader, Option<Glance<T>>)
    requires knows { (view reader.place).knows ≡ true }
    requires at { F.IsAlwaysCallable at }
    ensures same { ((view result.0.place).knows ≡ true) × ((view result.0.place).grid ≡ (view reader.place).grid)
        × ((view result.0.place).seen.book ≡ (view reader.place).seen.book) }
    ensures some { IfSome result.1 (λ g. (g.seen.book ≡ (view reader.place).seen.book)
        × IsLegal (view reader.place).grid g.seen.log × (g.lines ≡ length g.seen.log)
        × FnOnceReturnsAt F.FnOnce at (viewed g.seen.book (view reader.place).grid g.seen.log) g.found) }
{
    match reader.enter_as::<Looks>() {
        Ok(reading) => {
            if reading.get().counts.is_none() {
                return (reading.leave(), None);
            }
            let sight = Sight { reading };
            let found = at(&sight);
            let (reader, seen, lines) = sight.leave();
            (reader, Some(Glance { found, seen, lines }))
        }
        Err(reader) => (reader, None),
    }
}
