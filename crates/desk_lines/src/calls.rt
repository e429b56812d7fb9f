//! Numbered lines: a segment line behind the number of its call.
ghost use Rattle.std.specs.Prelude.{◌≡◌, IfSome, Some, option_map};
ghost use Rattle.airline_base.specs.Days.{IsCenturyDay};
ghost use Rattle.airimp_lines.specs.Grammar.{IsRightSegment};
ghost use Rattle.desk_lines.specs.Calls.{call_at, called, outside, MeansCall, MeansNumbered};
ghost use Rattle.desk_lines.specs.Lines.{IsRightMeaning};

use crate::desk::{Meaning, Standing, Wrong};
use crate::words::count_of;
use airimp_lines::{Request, ScriptKind, read_line};
use airline_base::fields::byte_of;
use airline_base::{Day, Locator};

/// What a numbered line means to a desk that stands so: only in a message is there a segment line.
pub(crate) fn numbered(standing: &Standing, text: &[u8], number: u32, today: Day) -> Meaning
    requires today { IsCenturyDay today }
    ensures means { MeansNumbered today standing.now number text.now result }
    ensures right { IsRightMeaning result }
{
    match standing {
        Standing::Silent => Meaning::Wrong(Wrong::NoHello),
        Standing::Between => outside(text),
        Standing::Refused => outside(text),
        Standing::Within(locator) => within(*locator, text, number, today),
    }
}

// Outside a message, or in one that is passed over, it has the fault of a wrong first line.
fn outside(text: &[u8]) -> Meaning
    ensures value { result ≡ outside (call_at text.now) }
    ensures right { IsRightMeaning result }
{
    match call_of(text) {
        Some((call, _)) => Meaning::WrongCall(call, Wrong::Line(ScriptKind::Locator)),
        None => Meaning::Wrong(Wrong::Word),
    }
}

fn within(locator: Locator, text: &[u8], number: u32, today: Day) -> Meaning
    requires today { IsCenturyDay today }
    ensures means { MeansCall today locator number (call_at text.now) result }
    ensures right { IsRightMeaning result }
{
    match call_of(text) {
        Some((call, line)) => segment(locator, call, line, number, today),
        None => Meaning::Wrong(Wrong::Word),
    }
}

// What a line behind a call's number means in the message of this locator.
#[tactic(auto, using(crate::proofs::Hearing::right_call, crate::proofs::Hearing::wrong_call))]
fn segment(locator: Locator, call: u32, line: &[u8], number: u32, today: Day) -> Meaning
    requires today { IsCenturyDay today }
    ensures means { MeansCall today locator number (Some (call, line.now)) result }
    ensures right { IsRightMeaning result }
{
    match read_line(Some(locator), line, number, today) {
        Ok(read) => called(call, read.request),
        Err(kind) => Meaning::WrongCall(call, Wrong::Line(kind)),
    }
}

// Only a segment line has a number.
fn called(call: u32, own: Option<Request>) -> Meaning
    requires { IfSome own (λ request. IsRightSegment request.segment) }
    ensures value { result ≡ called call own }
    ensures right { IsRightMeaning result }
{
    match own {
        Some(request) => Meaning::Call(call, request),
        None => Meaning::WrongCall(call, Wrong::Word),
    }
}

// `@17 `, and the line behind it.
#[tactic(auto, unfolding(crate::specs::Calls::call_at))]
fn call_of(text: &[u8]) -> Option<(u32, &[u8])>
    ensures { option_map (λ x. (x.0, x.1.now)) result ≡ call_at text.now }
{
    let Some(rest) = byte_of(b'@', text) else {
        return None;
    };
    let Some((call, rest)) = count_of(rest) else {
        return None;
    };
    let Some(line) = byte_of(b' ', rest) else {
        return None;
    };
    Some((call, line))
}
