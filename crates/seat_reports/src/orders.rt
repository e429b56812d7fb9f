//! The lines of a ladder's input that follow the ladder: commands, and changes of its limits.
ghost use Rattle.std.specs.Prelude.{◌≡◌, ◌≢◌, ◌+◌, ◌<◌, ◌≤◌, [], IfSome, IfOk, IfErr, OnOk, Ok, Err, length};
ghost use Rattle.std.specs.List.{All};
ghost use Rattle.seat_reports.specs.LadderDesk.{orders_after, orders_behind};
ghost use Rattle.seat_reports.specs.Lines.{lines_of};
ghost use Rattle.seat_reports.specs.Orders.{IsChangeHere, IsOrder, change_in, change_to, command_in, order_in, parts_in, seats_in};

use crate::lines::cut_at_feed;
use airline_base::fields::{are_digits, value_of, word_of};
use airline_base::{Class, Code, Locator, Place};
use seat_desk::{DeskFault, MOST_LINES};
use seat_journal::{Change, Command, SaleChange, Work};
use seat_limits::read_ladder;
use seat_nesting::Step;
use std::alloc::Global;

/// The only leg of the only flight.
pub const ONLY_LEG: Place = Place {
    flight: 0,
    from: 0,
    to: 0,
};

/// The most lines of a ladder's input: its ladder, and as many more as a journal has lines.
const MOST_INPUT_LINES: u32 = MOST_LINES + 1;

/// What the lines that follow the ladder ask for.
pub fn read_orders(alloc: Global, bytes: &[u8]) -> Result<Vec<Work>, DeskFault>
    ensures ok { IfOk result (λ orders. orders_after 2 [] (lines_of bytes.now) ≡ Ok orders.items) }
    ensures fault { IfErr result (λ f. f ≢ DeskFault.Memory → orders_after 2 [] (lines_of bytes.now) ≡ Err f) }
    ensures kind { IfErr result (λ f. (f ≢ DeskFault.Device) × (f ≢ DeskFault.TooLarge)) }
    ensures orders { IfOk result (λ orders. All IsOrder orders.items) }
    ensures few { IfOk result (λ orders. length orders.items ≤ 999999) }
{
    let mut orders = Vec::new(alloc);
    let mut rest = bytes;
    while !rest.is_empty() {
        rest = take_order(&mut orders, rest)?;
    }
    Ok(orders)
}

/// Reads the next line, and answers the bytes behind it.
fn take_order<'a>(orders: &mut Vec<Work>, bytes: &'a [u8]) -> Result<&'a [u8], DeskFault>
    requires some { 0 < length bytes.now }
    requires few { length orders.old.items ≤ 999999 }
    requires orders { All IsOrder orders.old.items }
    ensures ok { IfOk result (λ rest. orders_behind orders.old.items (lines_of bytes.now)
        ≡ orders_behind orders.new.items (lines_of rest.now)) }
    ensures fault { IfErr result (λ f. f ≢ DeskFault.Memory → orders_behind orders.old.items (lines_of bytes.now)
        ≡ Err f) }
    ensures kind { IfErr result (λ f. (f ≢ DeskFault.Device) × (f ≢ DeskFault.TooLarge)) }
    ensures shorter { IfOk result (λ rest. length rest.now < length bytes.now) }
    ensures orders { OnOk result (All IsOrder orders.new.items) }
    ensures few { OnOk result (length orders.new.items ≤ 999999) }
{
    let _class: Option<Class> = None;
    let _sale: Option<SaleChange> = None;
    let (text, rest) = cut_at_feed(bytes);
    let line = orders.len() as u32 + 2;
    let Some(order) = order_of(text) else {
        return Err(DeskFault::Command { line });
    };
    if line > MOST_INPUT_LINES {
        return Err(DeskFault::Full { line });
    }
    if orders.push(order).is_err() {
        return Err(DeskFault::Memory);
    }
    Ok(rest)
}

/// What a line asks for: `AU ENTRY` for another limit, `LOCATOR CLASS CODE SEATS` for seats, on the only leg there is.
pub fn order_of(line: &[u8]) -> Option<Work>
    ensures value { result ≡ order_in line.now }
    ensures order { IfSome result IsOrder }
{
    match word_of(b"AU ", line) {
        Some(entry) => change_of(entry),
        None => command_of(line),
    }
}

/// The change that a ladder entry writes.
fn change_of(entry: &[u8]) -> Option<Work>
    ensures value { result ≡ change_in entry.now }
    ensures order { IfSome result IsOrder }
{
    let Ok(ladder) = read_ladder(entry) else {
        return None;
    };
    match ladder.steps() {
        [step] if !step.listed => Some(Work::Limit(change_to(step))),
        _ => None,
    }
}

fn change_to(step: &Step) -> Change
    requires limit { step.now.limit ≤ 999 }
    requires wait { step.now.wait ≤ 999 }
    ensures value { result ≡ change_to step.now }
    ensures here { IsChangeHere result }
{
    Change {
        flight: ONLY_LEG.flight,
        leg: ONLY_LEG.from,
        class: step.class,
        limit: step.limit,
        wait: step.wait,
    }
}

/// The command that a line `LOCATOR CLASS CODE SEATS` spells.
#[tactic(auto, unfolding(crate::specs::Orders::command_in))]
fn command_of(line: &[u8]) -> Option<Work>
    ensures value { result ≡ command_in line.now }
    ensures order { IfSome result IsOrder }
{
    if line.len() < 13 || line[6] != b' ' || line[8] != b' ' || line[11] != b' ' {
        return None;
    }
    parts_of(line)
}

#[tactic(auto, unfolding(crate::specs::Orders::parts_in))]
fn parts_of(line: &[u8]) -> Option<Work>
    requires { 13 ≤ length line.now }
    ensures value { result ≡ parts_in line.now }
    ensures order { IfSome result IsOrder }
{
    let locator = Locator::new(&line[..6])?;
    let class = Class::new(line[7])?;
    let code = Code::new(&line[9..11])?;
    let seats = read_seats(&line[12..])?;
    Some(Work::Seats(Command {
        locator,
        place: Some(ONLY_LEG),
        class,
        code,
        seats,
    }))
}

#[tactic(auto, unfolding(crate::specs::Orders::seats_in))]
fn read_seats(digits: &[u8]) -> Option<u16>
    ensures value { result ≡ seats_in digits.now }
    ensures small { IfSome result (λ n. (1 ≤ n) × (n ≤ 999)) }
{
    if digits.is_empty() || digits.len() > 3 || !are_digits(digits) {
        return None;
    }
    let value = value_of(digits);
    if value == 0 {
        return None;
    }
    Some(value as u16)
}
