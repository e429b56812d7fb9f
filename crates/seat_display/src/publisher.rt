//! The one publisher.
ghost use Rattle.std.specs.Prelude.{◌≡◌, ◌+◌, ◌<◌, ◌≤◌, ◌^◌, ◌++◌, [], ◌∷◌, length, drop, fold, IfOk, MatchResult, true};
ghost use Rattle.left_right.specs.Sides.{view};
ghost use Rattle.seat_rules.specs.Prefixes.{Begins};
ghost use Rattle.seat_rules.specs.Journal.{IsLegal};
ghost use Rattle.seat_display.specs.Shown.{Follows, IsEmptyTable, Sees, apply, entries_of, tidied};
ghost use Rattle.seat_display.specs.History.{head_of};
ghost use Rattle.seat_display.specs.declared.table.Op.TheVariants.{Mark};

use crate::book::{Head, Pending, Trace, grow, is_whole};
use crate::rule::{Looks, TableWriter};
use crate::table::{Op, Table};
use crate::viewer::Viewer;
use airline_base::Memory;
use core::mem::replace_with;
use seat_journal::Entry;
use std::marker::{Brand, Model};
use std::sync::Wait;

/// The one that changes the table. It is never dropped: `end` uses it up.
pub struct Publisher {
    writer: TableWriter,
    head: Head,
    seen: Trace,
    lines: u32,
    more: u32,
}

impl Model for Publisher {
    ghost use Rattle.std.specs.Prelude.{◌≡◌, drop, true};
    ghost use Rattle.left_right.specs.Sides.{view as known};
    ghost use Rattle.seat_display.specs.Faces.{Published};
    ghost use Rattle.seat_display.specs.History.{head_of};
    ghost use Rattle.seat_display.specs.Shown.{Ready, entries_of};

    ghost Value = { Published };

    ghost view = { λ s. record { book = s.seen.book; grid = (known s.writer.desk.place).grid; visible = s.seen.log; pending = entries_of (drop s.writer.behind s.writer.log.items) } };

    ghost invariant = { λ s. (s.head ≡ head_of s.seen.book) × (s.writer.desk.shown.value.seen.book ≡ s.seen.book) × ((known s.writer.desk.place).knows ≡ true) × Ready (known s.writer.desk.place).grid s.writer.desk.shown.value s.seen.log (drop s.writer.behind s.writer.log.items) s.lines s.more };
}

/// What was visible at some moment. It holds no table.
#[derive(Drop)]
pub struct Told {
    seen: Trace,
    lines: u32,
}

impl Model for Told {
    ghost use Rattle.std.specs.Prelude.{◌≡◌, length};
    ghost use Rattle.seat_display.specs.Faces.{Note};

    ghost Value = { Note };

    ghost view = { λ s. record { book = s.seen.book; lines = s.seen.log } };

    ghost invariant = { λ s. s.lines ≡ length s.seen.log };
}

impl Told {
    /// How many lines were visible.
    pub fn len(&self) -> u32
        ensures { result ≡ length self.now.lines }
    {
        self.lines
    }

    pub(crate) fn parts(self) -> (Trace, u32)
        ensures { (result.0.book ≡ self.book) × (result.0.log ≡ self.lines) × (result.1 ≡ length self.lines) }
    {
        let Told { seen, lines } = self;
        (seen, lines)
    }
}

impl Publisher {
    /// Adds the entry of a command or a change to what is pending. It is not visible yet.
    pub fn append(&mut self, entry: Entry) -> Result<(), (Entry, Memory)>
        requires legal { IsLegal self.old.grid ((self.old.visible ++ self.old.pending) ++ entry ∷ []) }
        requires short { length self.old.visible + length self.old.pending < 1000000 }
        ensures pending { MatchResult result (λ _. self.new.pending ≡ self.old.pending ++ entry ∷ [])
            (λ x. (x.0 ≡ entry) × (self.new.pending ≡ self.old.pending)) }
        ensures same { (self.new.book ≡ self.old.book) × (self.new.grid ≡ self.old.grid)
            × (self.new.visible ≡ self.old.visible) }
    {
        match self.writer.append(Op::Line(entry)) {
            Ok(()) => {
                self.more += 1;
                Ok(())
            }
            Err(Op::Line(entry)) => Err((entry, Memory)),
            Err(Op::Mark(_)) => unreachable!(),
        }
    }

    /// Makes all that was appended visible, in one step.
    pub fn publish<R: Wait>(&mut self, rt: &R)
        ensures visible { (self.new.visible ≡ self.old.visible ++ self.old.pending) × (self.new.pending ≡ []) }
        ensures same { (self.new.book ≡ self.old.book) × (self.new.grid ≡ self.old.grid) }
    {
        let Publisher {
            writer,
            head,
            seen,
            lines,
            more,
        } = self;
        let next = grown::<Brand, R>(rt, writer, head, seen, *lines, *more);
        marked(rt, writer, &next);
        turn(rt, writer);
        *seen = next;
        *lines += *more;
        *more = 0;
    }

    /// Tells what is visible.
    pub fn tell(&self) -> Told
        ensures told { (result.book ≡ self.now.book) × (result.lines ≡ self.now.visible) }
        ensures legal { IsLegal self.now.grid self.now.visible }
    {
        Told {
            seen: self.seen.again(),
            lines: self.lines,
        }
    }

    /// No viewer has seen more than what is visible. It changes nothing. The loop ends at its first lap; it stays since only the
    /// lines that are counted in memory, and no proof, say that the history has not grown behind the publisher.
    #[tactic(auto, using(crate::proofs::Fronts::begins_of))]
    pub fn covers<R: Wait>(&self, rt: &R, viewer: &Viewer)
        requires { viewer.now.book ≡ self.now.book }
        ensures { Begins viewer.now.front self.now.visible }
    {
        let seen = viewer.trace();
        for _ in rt.forever() {
            if is_whole(&self.head, &self.seen, self.lines, &seen) {
                return;
            }
        }
        unreachable!()
    }

    /// Uses the publisher up. What was visible stays with those who saw it.
    pub fn end<R: Wait>(self, rt: &R) {
        let Publisher {
            writer,
            head: _,
            seen: _,
            lines: _,
            more: _,
        } = self;
        writer.take(rt);
    }

    /// A publisher with nothing visible.
    pub(crate) fn over(writer: TableWriter, head: Head, seen: Trace) -> Publisher
        requires head { head ≡ head_of seen.book }
        requires knows { (view writer.desk.place).knows ≡ true }
        requires shown { IsEmptyTable writer.desk.shown.value (view writer.desk.place).grid seen.book }
        requires empty { (drop writer.behind writer.log.items ≡ []) × (seen.log ≡ []) }
        ensures { (result.book ≡ seen.book) × (result.grid ≡ (view writer.desk.place).grid) × (result.visible ≡ [])
            × (result.pending ≡ []) }
    {
        Publisher {
            writer,
            head,
            seen,
            lines: 0,
            more: 0,
        }
    }
}

// Tries until the history has the pending entries.
fn grown<J: Pending, R: Wait>(
    rt: &R,
    writer: &TableWriter,
    head: &Head,
    seen: &Trace,
    lines: u32,
    more: u32,
) -> Trace
    requires head { head.now ≡ head_of seen.now.book }
    requires lines { lines ≡ length seen.now.log }
    requires more { more ≡ length J.pending }
    requires pending { J.pending ≡ entries_of (drop writer.now.behind writer.now.log.items) }
    ensures { (result.book ≡ seen.now.book)
        × (result.log ≡ seen.now.log ++ entries_of (drop writer.now.behind writer.now.log.items)) }
{
    for _ in rt.forever() {
        if let Some(next) = grow::<J>(head, seen, lines, more) {
            return next;
        }
    }
    unreachable!()
}

// Tries until the mark of the history is pending too.
fn marked<R: Wait>(rt: &R, writer: &mut TableWriter, next: &Trace)
    ensures desk { writer.new.desk ≡ writer.old.desk }
    ensures pending { drop writer.new.behind writer.new.log.items ≡ drop writer.old.behind writer.old.log.items
        ++ Mark next.now ∷ [] }
{
    for _ in rt.forever() {
        if writer.append(Op::Mark(next.again())).is_ok() {
            return;
        }
    }
    unreachable!()
}

// Shows all that is pending.
pub(crate) fn turn<R: Wait>(rt: &R, writer: &mut TableWriter)
    requires { Follows (view writer.old.desk.place) writer.old.desk.shown.value
        (fold apply (tidied writer.old.desk.shown.value) (drop writer.old.behind writer.old.log.items)) }
    ensures values { (tidied writer.new.desk.shown.value
        ≡ fold apply (tidied writer.old.desk.shown.value) (drop writer.old.behind writer.old.log.items))
        × (drop writer.new.behind writer.new.log.items ≡ []) }
    ensures sees { Sees (view writer.old.desk.place) writer.old.desk.shown.value writer.new.desk.shown.value
        (view writer.new.desk.place) }
{
    replace_with(
        writer,
        rt,
        |writer: TableWriter, rt: &R| -> (TableWriter, ())
            requires { Follows (view writer.desk.place) writer.desk.shown.value
                (fold apply (tidied writer.desk.shown.value) (drop writer.behind writer.log.items)) }
            ensures values { (tidied result.0.desk.shown.value
                ≡ fold apply (tidied writer.desk.shown.value) (drop writer.behind writer.log.items))
                × (drop result.0.behind result.0.log.items ≡ []) }
            ensures sees { Sees (view writer.desk.place) writer.desk.shown.value result.0.desk.shown.value
                (view result.0.desk.place) }
        { (turned(rt, writer), ()) },
    )
}

fn turned<R: Wait>(rt: &R, writer: TableWriter) -> TableWriter
    requires { Follows (view writer.desk.place) writer.desk.shown.value
        (fold apply (tidied writer.desk.shown.value) (drop writer.behind writer.log.items)) }
    ensures values { (tidied result.desk.shown.value
        ≡ fold apply (tidied writer.desk.shown.value) (drop writer.behind writer.log.items))
        × (drop result.behind result.log.items ≡ []) }
    ensures sees { Sees (view writer.desk.place) writer.desk.shown.value result.desk.shown.value
        (view result.desk.place) }
{
    match writer.publish_as::<Looks, R>(rt) {
        (writer, Ok(())) => writer,
        (_writer, Err(_)) => unreachable!(),
    }
}
