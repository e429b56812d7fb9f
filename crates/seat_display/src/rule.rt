//! The rule of what is shown.
ghost use Rattle.std.specs.Prelude.{◌≡◌};
ghost use Rattle.seat_display.specs.Shown.{ShowsEntry, apply, one_more, tidied};

use crate::table::{Op, Table, View};
use atomic_table::{Join, Split};
use crossbeam_utils::rule::{Outcome, Protocol};
use left_right::Absorb;
use left_right::reader::{Reader, Reading};
use left_right::writer::Writer;
use seat_journal::Entry;
use seat_rules::show;
use std::alloc::AllocError;

impl Table {
    fn show(&mut self, entry: &Entry)
        ensures { ShowsEntry self.old self.new entry.now }
    {
        if let Some(counts) = &mut self.counts {
            show(entry, counts);
        }
        self.lines = one_more(self.lines);
    }
}

fn one_more(lines: u32) -> u32
    ensures { result ≡ one_more lines }
{
    if lines < u32::MAX { lines + 1 } else { lines }
}

impl Absorb<Op> for Table {
    type State = Table;

    ghost state = { tidied };

    ghost applied = { apply };

    ghost never_fails = { Unit {0} };

    #[tactic(auto, using(crate::proofs::Tidy::absorbed))]
    fn absorb_first(&mut self, operation: &Op, _other: &Table) -> Result<(), AllocError> {
        match operation {
            Op::Line(entry) => self.show(entry),
            Op::Mark(seen) => self.seen = seen.again(),
        }
        Ok(())
    }
}

pub struct Front;

impl Protocol<Table, View> for Front {
    ghost use Rattle.seat_display.specs.Shown.{Kept, nobody};

    ghost holds = { Kept };

    ghost first = { nobody };
}

/// A look at what is shown, or a change of it.
pub struct Looks;

impl Outcome<Table, View> for Looks {
    ghost use Rattle.seat_display.specs.Shown.{Sees};

    ghost then = { Sees };
}

/// What the publisher knows, for a new reader.
pub struct Notes;

impl Split<View> for Notes {
    ghost left = { λ v. v };

    ghost right = { λ v. v };
}

impl Join<View> for Notes {
    ghost use Rattle.seat_display.specs.Shown.{informed, nobody};

    ghost both = { informed };

    ghost spent = { nobody };
}

pub type TableWriter = Writer<Table, Op, View, Front>;

pub type TableReader = Reader<Table, View, Front>;

pub type TableReading = Reading<Table, View, Front>;
