//! Limit rows: the ladder of a flight's city pair over a period.
ghost use Rattle.std.specs.Prelude.{◌≡◌, IfOk};
ghost use Rattle.std.specs.Bool.{OnTrue};

use airline_base::{Airline, Day, Items, Station};
use seat_nesting::{Ladder, Step};
use std::alloc::{AllocError, Global};
use std::marker::Model;

/// The limits of the legs of a flight between two cities, on the local days from `from` to `to`.
#[derive(Drop)]
pub struct LimitRow {
    pub airline: Airline,
    /// 1 to 9999.
    pub number: u16,
    /// The operational suffix, A to Z.
    pub suffix: Option<u8>,
    pub from: Day,
    pub to: Day,
    pub board: Station,
    pub off: Station,
    pub ladder: RowLadder,
}

/// Limit rows in the order of their text.
pub type LimitRows = Items<LimitRow>;

/// A ladder in as much memory as its steps need.
#[derive(Drop)]
pub struct RowLadder {
    steps: Vec<Step>,
}

impl Model for RowLadder {
    ghost use Rattle.std.specs.Prelude.{List};
    ghost use Rattle.seat_nesting.specs.Nesting.{IsLadder};
    ghost use Rattle.seat_nesting.specs.declared.ladder.Step.{Step};

    ghost Value = { List Step };

    ghost view = { λ l. l.steps.items };

    ghost invariant = { λ l. IsLadder l.steps.items };
}

impl RowLadder {
    pub(crate) fn of(alloc: Global, ladder: &Ladder) -> Result<RowLadder, AllocError>
        ensures { IfOk result (λ row. row ≡ ladder.now) }
    {
        match Vec::from_slice(alloc, ladder.steps()) {
            Ok(steps) => Ok(RowLadder { steps }),
            Err(_) => Err(AllocError),
        }
    }

    /// Whether the other has the same steps.
    pub(crate) fn is_same(&self, other: &RowLadder) -> bool
        ensures { OnTrue result (self.now ≡ other.now) }
    {
        are_same(self.steps.as_slice(), other.steps.as_slice())
    }

    /// The ladder, in the memory of the longest.
    pub(crate) fn ladder(&self) -> Ladder
        ensures { result ≡ self.now }
    {
        let ladder = Ladder::new(self.steps.as_slice());
        ladder.unwrap()
    }
}

/// Whether the steps are the same.
fn are_same(left: &[Step], right: &[Step]) -> bool
    ensures { OnTrue result (left.now ≡ right.now) }
{
    left == right
}
