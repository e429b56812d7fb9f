//! Which replies and advices a desk is told of: those of its own session alone, whatever other desks and the manager do.
//! It knows lines of a journal and whose they are, and nothing of how a line comes about.
ghost use Rattle.std.specs.Prelude.{◌≡◌, ◌++◌, IfNone, IfSome, None, OnErr, OnOk, Some, drop};
ghost use Rattle.desk_telling.specs.Telling.{AreToldBehind, IsLonger, advice_told, advices_told, command_in, line_numbered, made_by, reply_told, told_behind, told_of, told_of_each};

use crate::lines::{Line, reply_line, seats_line};
use airline_base::{Code, Memory};
use seat_journal::{Advice, Command, Entry, Work};
use ssim_flights::Flights;
use std::alloc::{AllocError, Global};

/// Adds the lines that tell a desk of a line of the journal: the reply, where the line is of the desk's session, and each advice whose
/// booking a line of its session made. Where a growth is refused, nothing is added.
#[tactic(auto, using(crate::proofs::Tellings::cut))]
pub fn put_told(
    text: &mut Vec<u8>,
    flights: &Flights,
    journal: &[Entry],
    desk: u8,
    entry: &Entry,
) -> Result<(), Memory>
    ensures told { OnOk result (AreToldBehind flights.now desk (told_of journal.now desk entry.now) text.old.items text.new.items) }
    ensures refused { OnErr result (text.new.items ≡ text.old.items) }
{
    let length = text.len();
    if put_line(text, flights, journal, desk, entry).is_ok() {
        return Ok(());
    }
    text.truncate(length);
    Err(Memory)
}

/// Adds the lines that tell a desk of a journal behind so many of its lines. Where a growth is refused, nothing is added.
#[tactic(auto, using(crate::proofs::Tellings::cut))]
pub fn put_told_behind(
    text: &mut Vec<u8>,
    flights: &Flights,
    journal: &[Entry],
    desk: u8,
    behind: usize,
) -> Result<(), Memory>
    ensures told { OnOk result (AreToldBehind flights.now desk (told_behind journal.now desk behind) text.old.items text.new.items) }
    ensures refused { OnErr result (text.new.items ≡ text.old.items) }
{
    let length = text.len();
    if put_lines(text, flights, journal, desk, lines_behind(journal, behind)).is_ok() {
        return Ok(());
    }
    text.truncate(length);
    Err(Memory)
}

/// The lines of a journal behind so many.
#[tactic(auto, using(std::proofs::lemmas::List::drop_min))]
fn lines_behind(journal: &[Entry], behind: usize) -> &[Entry]
    ensures { result.now ≡ drop behind journal.now }
{
    let count = behind.min(journal.len());
    &journal[count..]
}

/// Adds what a desk is told of these lines.
#[tactic(auto, using(crate::proofs::Tellings::behind_none, crate::proofs::Tellings::lines_more, crate::proofs::Tellings::lines_whole))]
fn put_lines(
    text: &mut Vec<u8>,
    flights: &Flights,
    journal: &[Entry],
    desk: u8,
    lines: &[Entry],
) -> Result<(), AllocError>
    ensures told { OnOk result (AreToldBehind flights.now desk (told_of_each journal.now desk lines.now) text.old.items text.new.items) }
    ensures refused { OnErr result (IsLonger text.old.items text.new.items) }
{
    for line in lines {
        put_line(text, flights, journal, desk, line)?;
    }
    Ok(())
}

/// Adds what a desk is told of a line.
#[tactic(auto, using(crate::proofs::Tellings::behind_both, crate::proofs::Tellings::longer_told, crate::proofs::Tellings::longer_both, crate::proofs::Tellings::longer_same))]
fn put_line(
    text: &mut Vec<u8>,
    flights: &Flights,
    journal: &[Entry],
    desk: u8,
    line: &Entry,
) -> Result<(), AllocError>
    ensures told { OnOk result (AreToldBehind flights.now desk (told_of journal.now desk line.now) text.old.items text.new.items) }
    ensures refused { OnErr result (IsLonger text.old.items text.new.items) }
{
    put_reply(text, flights, desk, line)?;
    put_advices(text, flights, journal, desk, line)?;
    Ok(())
}

/// Adds the reply to a line, if the desk asked for it.
#[tactic(auto, using(crate::proofs::Tellings::reply_none, crate::proofs::Tellings::reply_put))]
fn put_reply(
    text: &mut Vec<u8>,
    flights: &Flights,
    desk: u8,
    line: &Entry,
) -> Result<(), AllocError>
    ensures told { OnOk result (AreToldBehind flights.now desk (reply_told desk line.now) text.old.items text.new.items) }
    ensures refused { OnErr result (text.new.items ≡ text.old.items) }
{
    if line.session != desk {
        return Ok(());
    }
    add(text, &reply_line(flights, desk, line))
}

/// Adds the advices of a line that are to bookings of the desk.
#[tactic(auto, using(crate::proofs::Tellings::behind_none, crate::proofs::Tellings::advices_more, crate::proofs::Tellings::advices_whole, crate::proofs::Tellings::longer_after))]
fn put_advices(
    text: &mut Vec<u8>,
    flights: &Flights,
    journal: &[Entry],
    desk: u8,
    line: &Entry,
) -> Result<(), AllocError>
    ensures told { OnOk result (AreToldBehind flights.now desk (advices_told journal.now desk line.now line.now.advices) text.old.items text.new.items) }
    ensures refused { OnErr result (IsLonger text.old.items text.new.items) }
{
    for advice in line.advices.as_slice() {
        put_advice(text, flights, journal, desk, line, advice)?;
    }
    Ok(())
}

/// Adds an advice, if it is to a booking of the desk.
#[tactic(auto, using(crate::proofs::Tellings::advice_none, crate::proofs::Tellings::advice_put))]
fn put_advice(
    text: &mut Vec<u8>,
    flights: &Flights,
    journal: &[Entry],
    desk: u8,
    line: &Entry,
    advice: &Advice,
) -> Result<(), AllocError>
    ensures told { OnOk result (AreToldBehind flights.now desk (advice_told journal.now desk line.now advice.now) text.old.items text.new.items) }
    ensures refused { OnErr result (text.new.items ≡ text.old.items) }
{
    let Some(command) = made_by(journal, desk, advice.number) else {
        return Ok(());
    };
    let seats = advice.seats;
    let told = seats_line(flights, desk, line, &command, Code::of(*b"KL"), seats);
    add(text, &told)
}

/// Adds a line.
fn add(text: &mut Vec<u8>, line: &Line) -> Result<(), AllocError>
    ensures told { OnOk result (text.new.items ≡ text.old.items ++ line.now.items) }
    ensures refused { OnErr result (text.new.items ≡ text.old.items) }
{
    text.extend_from_slice(line.as_slice())
}

/// What made the booking of a number, if a line of the desk did.
fn made_by(journal: &[Entry], desk: u8, number: u32) -> Option<Command>
    ensures { result ≡ made_by journal.now desk number }
{
    let made = line_numbered(journal, number)?;
    if made.session != desk {
        return None;
    }
    command_in(&made.work)
}

/// The line of a number, counted from 1.
pub fn line_numbered(journal: &[Entry], number: u32) -> Option<&Entry>
    ensures found { IfSome result (λ line. line_numbered journal.now number ≡ Some line.now) }
    ensures none { IfNone result (line_numbered journal.now number ≡ None) }
{
    if number == 0 {
        return None;
    }
    journal.get(number as usize - 1)
}

fn command_in(work: &Work) -> Option<Command>
    ensures { result ≡ command_in work.now }
{
    match work {
        Work::Seats(command) => Some(*command),
        Work::Limit(_) => None,
        Work::Sale(_) => None,
    }
}
