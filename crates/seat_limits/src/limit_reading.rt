//! Reading the limit rows of a text, line by line.
ghost use Rattle.std.specs.Prelude.{◌≡◌, ◌≢◌, ◌<◌, ◌^◌, List, length, IfOk, IfErr, Err};
ghost use Rattle.std.specs.Result.{MatchResult};
ghost use Rattle.std.specs.Str.Lines.{lines};
ghost use Rattle.seat_limits.specs.RowTexts.{TakesLine, IsStop};
ghost use Rattle.seat_limits.specs.LimitRows.{IsLimitText, WantsRoom, row_at, rows_in};
ghost use Rattle.seat_limits.specs.declared.limit_row.LimitRow.{LimitRow as Row};
ghost use Rattle.seat_limits.specs.declared.limit_fault.LimitKind.TheVariants.{Memory};

use crate::limit_fault::{LimitFault, LimitKind};
use crate::limit_row::LimitRows;
use crate::row_reading::row_of;
use airline_base::lines::cut_line;
use std::alloc::Global;

/// The limit rows of a text. Lines end with LF, with CR LF or where the bytes end; empty ones are passed over.
pub fn read_limits(alloc: Global, bytes: &[u8]) -> Result<LimitRows, LimitFault>
    requires { length bytes.now < 2 ^ 32 }
    // What is read is spelled so.
    ensures found { IfOk result (IsLimitText bytes.now) }
    // The rows that are spelled so are read, unless memory is wanting.
    ensures only { (rows : List Row) → IsLimitText bytes.now rows
        → MatchResult result (λ r. r ≡ rows) (λ f. f.kind ≡ Memory) }
    // Which line is refused: the first with a fault, and its first fault.
    ensures fault { IfErr result (λ f. f.kind ≢ Memory → rows_in 1 (lines bytes.now) ≡ Err f) }
    // Want of memory is met at a row, counted from line 1, where no line up to it has a fault.
    ensures memory { IfErr result (λ f. f.kind ≡ Memory → WantsRoom bytes.now f.line) }
{
    let mut rows = LimitRows::new(alloc);
    let mut rest = bytes;
    let mut line = 0;
    while !rest.is_empty() {
        let (text, after) = cut_line(rest);
        line += 1;
        if let Err(kind) = take_line(alloc, &mut rows, text) {
            return Err(LimitFault { line, kind });
        }
        rest = after;
    }
    Ok(rows)
}

/// Adds the row of a line, if it is not empty.
#[tactic(auto, using(crate::proofs::LimitTexts::kept_adds, crate::proofs::LimitTexts::kept_stops))]
fn take_line(alloc: Global, rows: &mut LimitRows, text: &[u8]) -> Result<(), LimitKind>
    ensures taken { IfOk result (λ _. TakesLine row_at text.now rows.old rows.new) }
    ensures fault { IfErr result (IsStop row_at text.now) }
{
    if text.is_empty() {
        return Ok(());
    }
    let read = match row_of(text) {
        Ok(read) => read,
        Err(kind) => return Err(kind),
    };
    let Ok(row) = read.packed(alloc) else {
        return Err(LimitKind::Memory);
    };
    match rows.push(row) {
        Ok(()) => Ok(()),
        Err(_) => Err(LimitKind::Memory),
    }
}
