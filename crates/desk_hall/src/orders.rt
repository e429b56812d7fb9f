//! What a line of the manager asks for: another limit, a class that is closed or opened, a later day, or the end of it all.
ghost use Rattle.std.specs.Prelude.{◌≡◌, ◌+◌, ◌≤◌, ◌<◌, ◌^◌, List, length, nat_lt, option_map, true, IfOk, IfSome};
ghost use Rattle.seat_limits.specs.ChangeRows.{IsChangeText};
ghost use Rattle.airline_base.specs.Days.{IsCenturyDay, civil_in};
ghost use Rattle.flight_days.specs.Leaving.{AreDaysOf};
ghost use Rattle.desk_lines.specs.Calls.{call_at};
ghost use Rattle.desk_lines.specs.Lines.{is_numbered, is_word, next_number};
ghost use Rattle.desk_lines.specs.Words.{count_at};
ghost use Rattle.desk_hall.specs.Orders.{day_at, in_century, is_for_desk, iso_day_at, numbered_meaning, order_by_epoch, order_in, own_order, stop_at, IsCallBy, IsNumbered, IsOfCentury, IsOrder, IsRightOrder, IsRow, IsUnnamed};
ghost use Rattle.ssim_flights.specs.declared.flight.Flight.{Flight as Flown};

use crate::one_leg::control_of;
use airline_base::fields::{byte_of, digits_of, two_are, two_value, value_of, word_of};
use airline_base::lines::cut_line;
use airline_base::{Day, Memory};
use desk_lines::{Desk, Meaning, Standing, Wrong, by_epoch};
use flight_days::DayFlights;
use seat_journal::Control;
use seat_limits::{ChangeRow, LimitKind, read_changes};
use ssim_flights::{Flights, Served};
use std::alloc::Global;
use std::fmt;

/// The days of the years 2000 to 2099, by their numbers.
const FIRST_DAY: u32 = 10_957;

const LAST_DAY: u32 = 47_481;

/// The most bytes of a line.
const MOST_BYTES: usize = 256;

/// The most digits of the number of a call.
const MOST_DIGITS: usize = 6;

/// Why a row of the manager is refused.
#[derive(Clone, Copy)]
pub enum RowFault {
    /// It is no row.
    Malformed(LimitKind),
    /// No leg, or more than one, serves it.
    NoLeg,
}

impl fmt::Display for RowFault {
    ghost use Rattle.std.specs.Prelude.{Some};
    ghost use Rattle.desk_hall.specs.Orders.{row_text};

    ghost output = { λ fault. Some (row_text fault) };

    /// The code, as a run has it.
    fn fmt<W: fmt::Write>(&self, f: &mut fmt::Formatter<W>) -> fmt::Result {
        match self {
            RowFault::Malformed(kind) => kind.fmt(f),
            RowFault::NoLeg => f.write_str("U1"),
        }
    }
}

/// What a line of the manager asks for.
#[derive(Clone, Copy)]
pub enum Order {
    /// What it asks of any desk, which books nothing.
    Said(Meaning),
    /// What a row sets.
    Row(Control),
    /// The same, as the call of this number.
    RowCall(u32, Control),
    /// A row that is refused.
    Refused(RowFault),
    /// A row that is refused and has the number of this call.
    RefusedCall(u32, RowFault),
    /// Lines are read on this day from then on, where it is later.
    Day(Day),
    /// The end.
    Stop,
}

/// What a line of the manager, with its end, asks for. Ahead of a `?HELLO` and of a word to the host the manager is a desk as any other.
/// What was said ahead of the host's start ends nothing.
#[tactic(auto, using(crate::proofs::Rows::row_read))]
pub fn order_of(
    alloc: Global,
    flights: &Flights,
    served: &Served<'_>,
    days: &DayFlights,
    manager: &mut Desk,
    line: &[u8],
    is_earlier: bool,
) -> Result<Order, Memory>
    requires served { served.now ≡ flights.now }
    requires days { AreDaysOf days.now flights.now }
    requires today { IsCenturyDay manager.old.today }
    ensures means { IfOk result (IsOrder is_earlier served.now manager.old manager.new line.now) }
    ensures counted { manager.new.lines ≡ next_number manager.old.lines }
    ensures right { IfOk result (IsRightOrder served.now) }
    ensures century { IfOk result IsOfCentury }
{
    if is_for_desk(manager.standing, line) {
        let meaning = manager.hear(line);
        let (text, _) = cut_line(line);
        return Ok(order_in(is_earlier, text, meaning));
    }
    manager.lines = manager.lines.saturating_add(1);
    let (text, _) = cut_line(line);
    let order = unnamed_order(alloc, flights, served, days, text)?;
    Ok(order_by_epoch(manager.is_stranger, order))
}

// What it asks for, of a client for this journal or for another.
fn order_by_epoch(is_stranger: bool, order: Order) -> Order
    ensures value { result ≡ order_by_epoch is_stranger order }
    ensures right { (flights : List Flown) → IsRightOrder flights order → IsRightOrder flights result }
    ensures century { IsOfCentury order → IsOfCentury result }
{
    if is_stranger {
        return strange(order);
    }
    order
}

// What has the number of a call is refused.
fn strange(order: Order) -> Order
    ensures value { result ≡ order_by_epoch true order }
    ensures right { (flights : List Flown) → IsRightOrder flights order → IsRightOrder flights result }
    ensures century { IsOfCentury order → IsOfCentury result }
{
    match order {
        Order::Said(meaning) => Order::Said(by_epoch(true, meaning)),
        Order::RowCall(call, _) => Order::Said(Meaning::WrongCall(call, Wrong::Epoch)),
        Order::RefusedCall(call, _) => Order::Said(Meaning::WrongCall(call, Wrong::Epoch)),
        _ => order,
    }
}

fn is_for_desk(standing: Standing, line: &[u8]) -> bool
    ensures { result ≡ is_for_desk standing line.now }
{
    matches!(standing, Standing::Silent) || is_word(line)
}

fn is_word(line: &[u8]) -> bool
    ensures { result ≡ is_word line.now }
{
    match line {
        [] => false,
        [first, ..] => *first == b'?',
    }
}

// What is no word of a desk may be one of the manager.
fn order_in(is_earlier: bool, text: &[u8], meaning: Meaning) -> Order
    ensures value { result ≡ order_in is_earlier text.now meaning }
    ensures right { (flights : List Flown) → IsRightOrder flights result }
    ensures century { IsOfCentury result }
{
    match meaning {
        Meaning::Wrong(Wrong::Word) => own_order(is_earlier, text),
        _ => Order::Said(meaning),
    }
}

// A word that only the manager has.
fn own_order(is_earlier: bool, text: &[u8]) -> Order
    ensures value { result ≡ own_order is_earlier text.now }
    ensures right { (flights : List Flown) → IsRightOrder flights result }
    ensures century { IsOfCentury result }
{
    match stop(is_earlier, text) {
        Some(order) => order,
        None => match day_named(text) {
            Some(day) => Order::Day(day),
            None => Order::Said(Meaning::Wrong(Wrong::Word)),
        },
    }
}

// `?STOP`
#[tactic(auto, unfolding(crate::specs::Orders::stop_at))]
fn stop(is_earlier: bool, text: &[u8]) -> Option<Order>
    ensures value { result ≡ stop_at is_earlier text.now }
    ensures right { (flights : List Flown) → IfSome result (IsRightOrder flights) }
    ensures century { IfSome result IsOfCentury }
{
    let Some(rest) = word_of(b"?STOP", text) else {
        return None;
    };
    if !rest.is_empty() {
        return None;
    }
    if is_earlier {
        return Some(Order::Said(Meaning::Wrong(Wrong::NoHello)));
    }
    Some(Order::Stop)
}

/// The day of `?DAY 2024-06-22`, of the years 2000 to 2099.
#[tactic(auto, unfolding(crate::specs::Orders::day_at))]
pub fn day_named(text: &[u8]) -> Option<Day>
    ensures value { result ≡ day_at text.now }
    ensures century { IfSome result IsCenturyDay }
{
    let Some(rest) = word_of(b"?DAY ", text) else {
        return None;
    };
    iso_day(rest)
}

#[tactic(auto, unfolding(crate::specs::Orders::iso_day_at))]
fn iso_day(text: &[u8]) -> Option<Day>
    ensures value { result ≡ iso_day_at text.now }
    ensures century { IfSome result IsCenturyDay }
{
    match text {
        [b'2', b'0', y, z, b'-', m, n, b'-', t, u]
            if two_are(*y, *z) && two_are(*m, *n) && two_are(*t, *u) => {
            in_century(day_of(two_value(*y, *z), two_value(*m, *n), two_value(*t, *u)))
        }
        _ => None,
    }
}

fn in_century(day: Option<Day>) -> Option<Day>
    ensures value { result ≡ in_century day }
    ensures century { IfSome result IsCenturyDay }
{
    match day {
        Some(day) if FIRST_DAY <= day.number() && day.number() <= LAST_DAY => Some(day),
        _ => None,
    }
}

#[tactic(auto, using(airline_base::proofs::DateLaws::civil_is))]
fn day_of(year: u8, month: u8, day: u8) -> Option<Day>
    requires { year ≤ 99 }
    ensures { result ≡ civil_in (2000 + year) month day }
{
    Day::of(2000 + u16::from(year), month, day)
}

// What a line that is no word asks for: a row does, with the number of a call or without one.
fn unnamed_order(
    alloc: Global,
    flights: &Flights,
    served: &Served<'_>,
    days: &DayFlights,
    text: &[u8],
) -> Result<Order, Memory>
    requires served { served.now ≡ flights.now }
    requires days { AreDaysOf days.now flights.now }
    ensures means { IfOk result (IsUnnamed (is_numbered text.now) served.now text.now) }
    ensures right { IfOk result (IsRightOrder served.now) }
    ensures century { IfOk result IsOfCentury }
{
    if is_numbered(text) {
        return call_order(alloc, flights, served, days, text);
    }
    row_order(alloc, flights, served, days, text)
}

fn is_numbered(text: &[u8]) -> bool
    ensures { result ≡ is_numbered text.now }
{
    match text {
        [] => false,
        [first, ..] => *first == b'@',
    }
}

// The row behind the number of a call.
#[tactic(auto, using(crate::proofs::Rows::called, crate::proofs::Rows::uncalled, crate::proofs::Rows::too_long))]
fn call_order(
    alloc: Global,
    flights: &Flights,
    served: &Served<'_>,
    days: &DayFlights,
    text: &[u8],
) -> Result<Order, Memory>
    requires served { served.now ≡ flights.now }
    requires days { AreDaysOf days.now flights.now }
    ensures means { IfOk result (IsCallBy (nat_lt 256 (length text.now)) served.now text.now) }
    ensures right { IfOk result (IsRightOrder served.now) }
    ensures century { IfOk result IsOfCentury }
{
    if text.len() > MOST_BYTES {
        return Ok(Order::Said(Meaning::Wrong(Wrong::TooLong)));
    }
    let Some((call, row)) = call_of(text) else {
        return Ok(Order::Said(Meaning::Wrong(Wrong::Word)));
    };
    numbered_row(alloc, flights, served, days, call, row)
}

// What the row asks for, as the call of this number.
#[tactic(auto, using(crate::proofs::Rows::numbered))]
fn numbered_row(
    alloc: Global,
    flights: &Flights,
    served: &Served<'_>,
    days: &DayFlights,
    call: u32,
    row: &[u8],
) -> Result<Order, Memory>
    requires served { served.now ≡ flights.now }
    requires days { AreDaysOf days.now flights.now }
    ensures means { IfOk result (IsNumbered served.now call row.now) }
    ensures right { IfOk result (IsRightOrder served.now) }
    ensures century { IfOk result IsOfCentury }
{
    let plain = row_order(alloc, flights, served, days, row)?;
    match plain {
        Order::Said(meaning) => Ok(Order::Said(numbered_meaning(call, meaning))),
        Order::Row(control) => Ok(Order::RowCall(call, control)),
        Order::Refused(fault) => Ok(Order::RefusedCall(call, fault)),
        _ => Ok(plain),
    }
}

// `@17 `, and the row behind it.
#[tactic(auto, unfolding(desk_lines::specs::Calls::call_at))]
fn call_of(text: &[u8]) -> Option<(u32, &[u8])>
    ensures { option_map (λ x. (x.0, x.1.now)) result ≡ call_at text.now }
{
    let Some(rest) = byte_of(b'@', text) else {
        return None;
    };
    let Some((call, rest)) = count_of(rest) else {
        return None;
    };
    let Some(row) = byte_of(b' ', rest) else {
        return None;
    };
    Some((call, row))
}

/// A number of one to six digits, and what stands behind all the digits.
#[tactic(auto, unfolding(desk_lines::specs::Words::count_at))]
pub fn count_of(bytes: &[u8]) -> Option<(u32, &[u8])>
    ensures { option_map (λ x. (x.0, x.1.now)) result ≡ count_at bytes.now }
{
    let (digits, rest) = digits_of(bytes);
    if digits.is_empty() || digits.len() > MOST_DIGITS {
        return None;
    }
    Some((value_of(digits), rest))
}

// Only a row has a number.
fn numbered_meaning(call: u32, meaning: Meaning) -> Meaning
    ensures { result ≡ numbered_meaning call meaning }
{
    match meaning {
        Meaning::Nothing => Meaning::WrongCall(call, Wrong::Word),
        _ => meaning,
    }
}

// The row of a line, on the one leg that it is for.
fn row_order(
    alloc: Global,
    flights: &Flights,
    served: &Served<'_>,
    days: &DayFlights,
    text: &[u8],
) -> Result<Order, Memory>
    requires served { served.now ≡ flights.now }
    requires days { AreDaysOf days.now flights.now }
    ensures means { IfOk result (IsRow served.now text.now) }
    ensures right { IfOk result (IsRightOrder served.now) }
    ensures century { IfOk result IsOfCentury }
{
    if text.len() > MOST_BYTES {
        return Ok(Order::Said(Meaning::Wrong(Wrong::TooLong)));
    }
    match read_changes(alloc, text) {
        Ok(rows) => rows_order(alloc, flights, served, days, text, rows.as_slice()),
        Err(fault) => match fault.kind {
            LimitKind::Memory => Err(Memory),
            kind => Ok(Order::Refused(RowFault::Malformed(kind))),
        },
    }
}

// What the only row sets. Where there is none the line was empty.
#[tactic(auto, using(crate::proofs::Rows::row_made, crate::proofs::Rows::row_right, crate::proofs::Rows::row_legless, crate::proofs::Rows::rows_legless))]
fn rows_order(
    alloc: Global,
    flights: &Flights,
    served: &Served<'_>,
    days: &DayFlights,
    text: &[u8],
    rows: &[ChangeRow],
) -> Result<Order, Memory>
    requires served { served.now ≡ flights.now }
    requires days { AreDaysOf days.now flights.now }
    requires rows { IsChangeText text.now rows.now }
    requires short { length text.now ≤ 256 }
    ensures means { IfOk result (IsRow served.now text.now) }
    ensures right { IfOk result (IsRightOrder served.now) }
    ensures century { IfOk result IsOfCentury }
{
    match rows {
        [] => Ok(Order::Said(Meaning::Nothing)),
        [row] => match control_of(alloc, flights, served, days, row)? {
            Some(control) => Ok(Order::Row(control)),
            None => Ok(Order::Refused(RowFault::NoLeg)),
        },
        _ => Ok(Order::Refused(RowFault::NoLeg)),
    }
}
