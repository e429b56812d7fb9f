//! The last line of a journal that touched a booking, by its name.
//! It knows what a line does, and nothing of what the bookings come to.
ghost use Rattle.std.specs.Prelude.{◌≡◌, IfOk, OnOk};
ghost use Rattle.std.specs.List.{flat_map};
ghost use Rattle.partner_lists.specs.Names.{Finds};
ghost use Rattle.partner_questions.specs.Touches.{advice_touched, made_in, name_asked, name_on, own_touched, paired, touched, touched_in, touches};
ghost use Rattle.partner_questions.specs.Noted.{Notes};
ghost use Rattle.desk_telling.specs.Telling.{line_numbered};

use airline_base::Memory;
use desk_telling::{line_numbered, segment_of};
use partner_lists::{Name, Names, name_of, put};
use seat_journal::{Advice, Command, Entry, Work};
use seat_rules::{Effect, effect_of};
use ssim_flights::Flights;
use std::alloc::Global;
use std::collections::HashMap;

/// The name of the booking that a command speaks of, where a flight has its segment.
pub fn name_on(flights: &Flights, command: &Command) -> Option<Name>
    ensures { result ≡ name_on flights.now command.now }
{
    match segment_of(flights, command) {
        Some(segment) => Some(name_of(command.locator, &segment)),
        None => None,
    }
}

fn name_asked(flights: &Flights, work: &Work) -> Option<Name>
    ensures { result ≡ name_asked flights.now work.now }
{
    match work {
        Work::Seats(command) => name_on(flights, command),
        Work::Limit(_) => None,
        Work::Sale(_) => None,
    }
}

fn touches(effect: Effect) -> bool
    ensures { result ≡ touches effect }
{
    match effect {
        Effect::Holds => true,
        Effect::Waits => true,
        Effect::Reduces => true,
        Effect::Nothing => false,
    }
}

/// The booking that a line speaks of, if it touches it.
fn own_touched(flights: &Flights, line: &Entry) -> Option<Name>
    ensures { result ≡ own_touched flights.now line.now }
{
    if touches(effect_of(line.reply)) {
        name_asked(flights, &line.work)
    } else {
        None
    }
}

/// The booking that the line of a number made.
fn made_in(flights: &Flights, journal: &[Entry], number: u32) -> Option<Name>
    ensures { result ≡ made_in flights.now (line_numbered journal.now number) }
{
    match line_numbered(journal, number) {
        Some(line) => name_asked(flights, &line.work),
        None => None,
    }
}

/// The last line of a journal that touched each booking: made it, took seats off it or confirmed it.
#[tactic(auto, using(crate::proofs::Noting::lines_found))]
pub fn last_lines(alloc: Global, flights: &Flights, journal: &[Entry]) -> Result<Names, Memory>
    ensures { IfOk result (λ lines. Finds lines (touched flights.now journal.now)) }
{
    let mut lines = HashMap::new(alloc);
    put_lines(&mut lines, flights, journal)?;
    Ok(lines)
}

#[tactic(auto, using(crate::proofs::Noting::notes_nothing, crate::proofs::Noting::lines_more, crate::proofs::Noting::lines_whole))]
fn put_lines(lines: &mut Names, flights: &Flights, journal: &[Entry]) -> Result<(), Memory>
    ensures { OnOk result (Notes (touched flights.now journal.now) lines.old lines.new) }
{
    for line in journal {
        put_line(lines, flights, journal, line)?;
    }
    Ok(())
}

/// Notes a line for what it touched: its own booking, and those of its advices.
#[tactic(auto, using(crate::proofs::Noting::line_noted))]
fn put_line(
    lines: &mut Names,
    flights: &Flights,
    journal: &[Entry],
    line: &Entry,
) -> Result<(), Memory>
    ensures { OnOk result (Notes (touched_in flights.now journal.now line.now) lines.old lines.new) }
{
    let own = own_touched(flights, line);
    note(lines, own, line.number)?;
    put_advices(lines, flights, journal, line)?;
    Ok(())
}

#[tactic(auto, using(crate::proofs::Noting::notes_nothing, crate::proofs::Noting::advices_more, crate::proofs::Noting::advices_whole))]
fn put_advices(
    lines: &mut Names,
    flights: &Flights,
    journal: &[Entry],
    line: &Entry,
) -> Result<(), Memory>
    ensures { OnOk result (Notes (flat_map (advice_touched flights.now journal.now line.now) line.now.advices) lines.old lines.new) }
{
    for advice in line.advices.as_slice() {
        put_advice(lines, flights, journal, line, advice)?;
    }
    Ok(())
}

#[tactic(auto, using(crate::proofs::Noting::advice_noted))]
fn put_advice(
    lines: &mut Names,
    flights: &Flights,
    journal: &[Entry],
    line: &Entry,
    advice: &Advice,
) -> Result<(), Memory>
    ensures { OnOk result (Notes (advice_touched flights.now journal.now line.now advice.now) lines.old lines.new) }
{
    let made = made_in(flights, journal, advice.number);
    note(lines, made, line.number)?;
    Ok(())
}

/// Notes a line under a name, if there is one.
#[tactic(auto, using(crate::proofs::Noting::notes_none, crate::proofs::Noting::notes_one))]
fn note(lines: &mut Names, name: Option<Name>, line: u32) -> Result<(), Memory>
    ensures { OnOk result (Notes (paired name line) lines.old lines.new) }
{
    match name {
        Some(name) => put(lines, name, line),
        None => Ok(()),
    }
}
