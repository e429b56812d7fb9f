//! Reading limit rows: `AU XX123 01JUN24 30JUN24 LHRJFK F112/004 Y100/010`.
ghost use Rattle.std.specs.Prelude.{◌≡◌, IfOk};
ghost use Rattle.std.specs.Result.{result_map_both};
ghost use Rattle.seat_limits.specs.LimitRows.{packed, row_at, row_behind_flight, row_behind_period};

use crate::ladder_text::ladder_of;
use crate::limit_fault::LimitKind;
use crate::limit_row::{LimitRow, RowLadder};
use crate::row_fields::{date_of, suffix_of};
use airline_base::fields::{airline_of, byte_of, numeral_of, station_of, word_of};
use airline_base::{Airline, Day, Station};
use seat_nesting::Ladder;
use std::alloc::{AllocError, Global};

/// A row that is read, its ladder in the memory of the longest.
#[derive(Drop)]
pub struct ReadRow {
    pub airline: Airline,
    pub number: u16,
    pub suffix: Option<u8>,
    pub from: Day,
    pub to: Day,
    pub board: Station,
    pub off: Station,
    pub ladder: Ladder,
}

impl ReadRow {
    /// The row, its ladder in as much memory as it needs.
    pub(crate) fn packed(&self, alloc: Global) -> Result<LimitRow, AllocError>
        ensures { IfOk result (λ row. row ≡ packed self.now) }
    {
        let Ok(ladder) = RowLadder::of(alloc, &self.ladder) else {
            return Err(AllocError);
        };
        Ok(LimitRow {
            airline: self.airline,
            number: self.number,
            suffix: self.suffix,
            from: self.from,
            to: self.to,
            board: self.board,
            off: self.off,
            ladder,
        })
    }
}

/// The row that a line spells, or its first fault from left to right.
#[tactic(auto, unfolding(crate::specs::LimitRows::row_at))]
pub(crate) fn row_of(line: &[u8]) -> Result<ReadRow, LimitKind>
    ensures { result_map_both packed (λ kind. kind) result ≡ row_at line.now }
{
    let Some(rest) = word_of(b"AU ", line) else {
        return Err(LimitKind::Head);
    };
    let Some((airline, rest)) = airline_of(rest) else {
        return Err(LimitKind::Flight);
    };
    let Some((number, rest)) = numeral_of(rest, 4) else {
        return Err(LimitKind::Flight);
    };
    let (suffix, rest) = suffix_of(rest);
    let Some(rest) = byte_of(b' ', rest) else {
        return Err(LimitKind::Flight);
    };
    row_behind_flight(airline, number, suffix, rest)
}

/// The same, of what stands behind the flight and a blank.
fn row_behind_flight(
    airline: Airline,
    number: u16,
    suffix: Option<u8>,
    bytes: &[u8],
) -> Result<ReadRow, LimitKind>
    ensures { result_map_both packed (λ kind. kind) result ≡ row_behind_flight airline number suffix bytes.now }
{
    let Some((from, rest)) = date_of(bytes) else {
        return Err(LimitKind::Period);
    };
    let Some(rest) = byte_of(b' ', rest) else {
        return Err(LimitKind::Period);
    };
    let Some((to, rest)) = date_of(rest) else {
        return Err(LimitKind::Period);
    };
    let Some(rest) = byte_of(b' ', rest) else {
        return Err(LimitKind::Period);
    };
    if from.number() > to.number() {
        return Err(LimitKind::Period);
    }
    row_behind_period(airline, number, suffix, from, to, rest)
}

/// The same, of what stands behind the period and a blank.
fn row_behind_period(
    airline: Airline,
    number: u16,
    suffix: Option<u8>,
    from: Day,
    to: Day,
    bytes: &[u8],
) -> Result<ReadRow, LimitKind>
    ensures { result_map_both packed (λ kind. kind) result ≡ row_behind_period airline number suffix from to bytes.now }
{
    let Some((board, rest)) = station_of(bytes) else {
        return Err(LimitKind::Pair);
    };
    let Some((off, rest)) = station_of(rest) else {
        return Err(LimitKind::Pair);
    };
    let Some(entries) = byte_of(b' ', rest) else {
        return Err(LimitKind::Entry);
    };
    match ladder_of(entries) {
        Ok(ladder) => Ok(ReadRow {
            airline,
            number,
            suffix,
            from,
            to,
            board,
            off,
            ladder,
        }),
        Err(kind) => Err(kind),
    }
}
