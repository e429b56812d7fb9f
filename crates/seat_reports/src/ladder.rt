//! `ladder`: one leg from the input, and each command on it and each change of its limits answered.
ghost use Rattle.std.specs.Prelude.{◌≡◌, ◌≢◌, ◌++◌, ◌∷◌, ◌<◌, ◌≤◌, ◌⊎◌, List, [], IfErr, IfOk, IfSome, OnOk, codes, decimal, length};
ghost use Rattle.std.specs.List.{All, flat_map};
ghost use Rattle.seat_nesting.specs.Nesting.{Fits, ladder_at};
ghost use Rattle.seat_core.specs.Balances.{count_of, grid_of, IsLeft, Leave};
ghost use Rattle.seat_journal.specs.declared.entry.Entry.{Entry};
ghost use Rattle.seat_rules.specs.Journal.{replay};
ghost use Rattle.seat_desk.specs.Desk.{HasFailed, InputFailed, IsOfInput, IsWritten, OfInput, OutputFailed};
ghost use Rattle.seat_reports.specs.LadderDesk.{IsLadderText, IsRefusedLadder, entry_text, first_line, ladder_text, later_lines, line_for, lines_after, most_ladder_bytes, room_text};
ghost use Rattle.seat_reports.specs.Lines.{lines_of};
ghost use Rattle.seat_reports.specs.Orders.{IsOrder, only_leg};

use crate::lines::cut_at_feed;
use crate::orders::{ONLY_LEG, read_orders};
use crate::text::put_entry;
use airline_base::{Class, NotedRead, NotedWrite, put_all};
use seat_core::Balance;
use seat_desk::{DeskFault, put, put_number, read_input};
use seat_journal::Work;
use seat_limits::{LimitFault, read_ladder};
use seat_nesting::{Grid, Ladder, Step};
use seat_rules::asker;
use std::alloc::{AllocError, Global};

/// 16 MiB.
const MOST_LADDER_BYTES: u64 = 16_777_216;

/// Reads a ladder, commands on its leg and changes of its limits, and writes the reply to each and the room that is left.
/// Nothing is written until all has been read and is right. An input has at most 16 MiB.
pub fn desk_ladder<R: NotedRead, W: NotedWrite>(
    alloc: Global,
    input: &mut R,
    out: &mut W,
) -> Result<(), DeskFault>
    ensures ok { OnOk result (IsWritten (OfInput IsLadderText (R.remaining input.old)) (W.contents out.old)
        (W.contents out.new)) }
    ensures fault { IfErr result (λ f. IsOfInput f → IfSome (R.remaining input.old) (IsRefusedLadder f)) }
    ensures large { IfErr result (λ f. f ≡ DeskFault.TooLarge
        → IfSome (R.remaining input.old) (λ xs. most_ladder_bytes < length xs)) }
    ensures device { IfErr result (λ f. f ≡ DeskFault.Device →
        InputFailed (HasFailed R.failure_count input.old input.new) out.old out.new
        ⊎ OutputFailed W.failure_count W.contents out.old out.new (OfInput IsLadderText (R.remaining input.old))) }
    ensures untouched { IfErr result (λ f. f ≢ DeskFault.Device → out.new ≡ out.old) }
{
    let bytes = read_input(alloc, input, MOST_LADDER_BYTES)?;
    let text = answer(alloc, bytes)?;
    match put_all(out, &text) {
        Ok(()) => Ok(()),
        Err(_) => Err(DeskFault::Device),
    }
}

/// The text that an input is answered with. The input is let go once its orders are read.
fn answer(alloc: Global, bytes: Vec<u8>) -> Result<Vec<u8>, DeskFault>
    requires size { length bytes.items ≤ most_ladder_bytes }
    ensures ok { IfOk result (λ text. IsLadderText bytes.items text.items) }
    ensures fault { IfErr result (λ f. f ≢ DeskFault.Memory → IsRefusedLadder f bytes.items) }
    ensures kind { IfErr result (λ f. (f ≢ DeskFault.Device) × (f ≢ DeskFault.TooLarge)) }
{
    let (first, rest) = cut_first(&bytes);
    let ladder = match read_ladder(first) {
        Ok(ladder) => ladder,
        Err(kind) => return Err(DeskFault::Limit(LimitFault { line: 1, kind })),
    };
    let orders = read_orders(alloc, rest)?;
    drop(bytes);
    answer_orders(alloc, ladder, orders.as_slice())
}

/// The first line, empty where there is none, and the bytes behind it.
fn cut_first(bytes: &[u8]) -> (&[u8], &[u8])
    ensures first { result.0.now ≡ first_line (lines_of bytes.now) }
    ensures later { lines_of result.1.now ≡ later_lines (lines_of bytes.now) }
{
    if bytes.is_empty() {
        return (bytes, bytes);
    }
    cut_at_feed(bytes)
}

/// The replies to the orders, and the room that they leave.
fn answer_orders(alloc: Global, ladder: Ladder, orders: &[Work]) -> Result<Vec<u8>, DeskFault>
    requires orders { All IsOrder orders.now }
    requires few { length orders.now ≤ 999999 }
    ensures ok { IfOk result (λ text. text.items ≡ ladder_text ladder orders.now) }
    ensures memory { IfErr result (λ f. f ≡ DeskFault.Memory) }
{
    let grid = match Grid::single(alloc, ladder) {
        Ok(grid) => grid,
        Err(_) => return Err(DeskFault::Memory),
    };
    let mut balance = match Balance::new(alloc, grid) {
        Ok(balance) => balance,
        Err(_) => return Err(DeskFault::Memory),
    };
    let mut text = Vec::new(alloc);
    put_replies(alloc, &mut text, &mut balance, orders)?;
    match put_end(&mut text, &balance) {
        Ok(()) => Ok(text),
        Err(_) => Err(DeskFault::Memory),
    }
}

/// Answers each order as the next line, and adds what it is answered.
fn put_replies(
    alloc: Global,
    text: &mut Vec<u8>,
    balance: &mut Balance,
    orders: &[Work],
) -> Result<(), DeskFault>
    requires fits { Fits (grid_of balance.old) only_leg }
    requires orders { All IsOrder orders.now }
    requires new { Leave [] balance.old }
    requires few { length orders.now ≤ 999999 }
    ensures text { OnOk result (text.new.items
        ≡ text.old.items ++ flat_map entry_text (lines_after (grid_of balance.old) [] orders.now)) }
    ensures left { OnOk result (Leave (lines_after (grid_of balance.old) [] orders.now) balance.new) }
    ensures grid { OnOk result (grid_of balance.new ≡ grid_of balance.old) }
    ensures memory { IfErr result (λ f. f ≡ DeskFault.Memory) }
{
    for order in orders {
        put_reply(alloc, text, balance, *order)?;
    }
    Ok(())
}

/// Answers seats as session 1's next call, and a change of a limit as the manager's, and adds what that is.
fn put_reply(
    alloc: Global,
    text: &mut Vec<u8>,
    balance: &mut Balance,
    order: Work,
) -> Result<(), DeskFault>
    requires fits { Fits (grid_of balance.old) only_leg }
    requires order { IsOrder order }
    requires left { IsLeft balance.old }
    requires below { count_of balance.old < 999999 }
    ensures text { OnOk result ((past : List Entry) → Leave past balance.old
        → text.new.items ≡ text.old.items ++ entry_text (line_for (grid_of balance.old) past order)) }
    ensures left { OnOk result ((past : List Entry) → Leave past balance.old
        → Leave (past ++ line_for (grid_of balance.old) past order ∷ []) balance.new) }
    ensures grid { OnOk result (grid_of balance.new ≡ grid_of balance.old) }
    ensures memory { IfErr result (λ f. f ≡ DeskFault.Memory) }
{
    let entry = match balance.answer_next(alloc, asker(&order), order) {
        Ok(entry) => entry,
        Err(_) => return Err(DeskFault::Memory),
    };
    match put_entry(text, &entry) {
        Ok(()) => Ok(()),
        Err(_) => Err(DeskFault::Memory),
    }
}

/// Adds the room that is left in each class.
fn put_end(text: &mut Vec<u8>, balance: &Balance) -> Result<(), AllocError>
    ensures { OnOk result ((past : List Entry) → Leave past balance.now → text.new.items
        ≡ text.old.items ++ codes "ROOM" ++ flat_map (room_text (replay (grid_of balance.now) past))
        (ladder_at (grid_of balance.now) 0 0) ++ 10 ∷ []) }
{
    put(text, b"ROOM")?;
    put_rooms(text, balance, balance.grid().steps(0, 0))?;
    put(text, b"\n")
}

/// Adds the room of each class of the leg.
fn put_rooms(text: &mut Vec<u8>, balance: &Balance, steps: &[Step]) -> Result<(), AllocError>
    ensures { OnOk result ((past : List Entry) → Leave past balance.now → text.new.items
        ≡ text.old.items ++ flat_map (room_text (replay (grid_of balance.now) past)) steps.now) }
{
    for step in steps {
        put_room(text, step.class, balance.room(ONLY_LEG, step.class))?;
    }
    Ok(())
}

fn put_room(text: &mut Vec<u8>, class: Class, room: u16) -> Result<(), AllocError>
    ensures { OnOk result (text.new.items ≡ text.old.items ++ (codes " " ++ (class ∷ []) ++ decimal room)) }
{
    put(text, b" ")?;
    put(text, &[class.letter()])?;
    put_number(text, u64::from(room))
}
