//! What is told of a feed's lines: each line of it led by whom it is for.
ghost use Rattle.std.specs.Prelude.{◌≡◌, ◌≤◌, ◌∷◌, ◌++◌, [], codes, length, IfOk, OnOk};
ghost use Rattle.flight_days.specs.Leaving.{AreDaysOf};
ghost use Rattle.seat_desk.specs.FlightsDesk.{IsText};
ghost use Rattle.seat_desk.specs.Loading.{IsGridOf};
ghost use Rattle.seat_replies.specs.RunDesk.{at_any};
ghost use Rattle.desk_stream.specs.Telling.{foreign_line, led, led_from, unled_line, FewSessions, IsFeedTurn, IsLedTo, IsLedTurn};

use airline_base::Memory;
use desk_calls::CallIndex;
use desk_hall::{Turn, turn_text};
use flight_days::DayFlights;
use seat_disk::Tape;
use seat_serving::Serving;
use ssim_flights::{Flights, Served};
use std::alloc::Global;

/// The manager and the eight sessions.
const SESSIONS: [u8; 9] = [0, 1, 2, 3, 4, 5, 6, 7, 8];

/// How a line of a feed is answered.
#[derive(Clone, Copy)]
pub enum FeedTurn {
    /// As a line of a desk is.
    Desk(Turn),
    /// By the fault of the feed's line of this number: it is neither led by a session nor a word of the feed.
    Unknown(u32),
    /// By the fault of one that came ahead of the first day.
    Dayless(u32),
    /// By the fault of a session's call of this number, which is for another journal.
    Foreign(u8, u32),
}

/// What is told of these, in their order.
#[tactic(auto, using(crate::proofs::Told::turns_none, crate::proofs::Told::turn_more, crate::proofs::Told::turns_whole))]
pub(crate) fn told_of<D: Tape>(
    alloc: Global,
    flights: &Flights,
    served: &Served<'_>,
    days: &DayFlights,
    serving: &Serving<D>,
    calls: &mut Vec<CallIndex>,
    turns: &[FeedTurn],
) -> Result<Vec<u8>, Memory>
    requires served { served.now ≡ flights.now }
    requires days { AreDaysOf days.now flights.now }
    requires grid { IsGridOf flights.now serving.now.grid }
    requires calls { length calls.old.items ≡ 9 }
    ensures told { IfOk result (λ text. IsText (at_any (IsFeedTurn flights.now serving.now.grid serving.now.journal)) 0 turns.now
        text.items) }
    ensures calls { length calls.new.items ≡ 9 }
{
    let mut text = Vec::new(alloc);
    for turn in turns {
        let part = turn_told(alloc, flights, served, days, serving, calls, turn)?;
        add_part(&mut text, &part)?;
    }
    Ok(text)
}

// What is told of one.
fn turn_told<D: Tape>(
    alloc: Global,
    flights: &Flights,
    served: &Served<'_>,
    days: &DayFlights,
    serving: &Serving<D>,
    calls: &mut Vec<CallIndex>,
    turn: &FeedTurn,
) -> Result<Vec<u8>, Memory>
    requires served { served.now ≡ flights.now }
    requires days { AreDaysOf days.now flights.now }
    requires grid { IsGridOf flights.now serving.now.grid }
    requires calls { length calls.old.items ≡ 9 }
    ensures told { IfOk result (λ text. IsFeedTurn flights.now serving.now.grid serving.now.journal turn.now text.items) }
    ensures calls { length calls.new.items ≡ 9 }
{
    match turn {
        FeedTurn::Desk(turn) => told_to_all(alloc, flights, served, days, serving, calls, turn),
        FeedTurn::Unknown(number) => unknown_text(alloc, *number),
        FeedTurn::Dayless(number) => dayless_text(alloc, *number),
        FeedTurn::Foreign(session, number) => foreign_text(alloc, *session, *number),
    }
}

// What the manager and each session is told of one.
#[tactic(auto, using(crate::proofs::Told::all_few))]
fn told_to_all<D: Tape>(
    alloc: Global,
    flights: &Flights,
    served: &Served<'_>,
    days: &DayFlights,
    serving: &Serving<D>,
    calls: &mut Vec<CallIndex>,
    turn: &Turn,
) -> Result<Vec<u8>, Memory>
    requires served { served.now ≡ flights.now }
    requires days { AreDaysOf days.now flights.now }
    requires grid { IsGridOf flights.now serving.now.grid }
    requires calls { length calls.old.items ≡ 9 }
    ensures told { IfOk result (λ text. IsLedTurn flights.now serving.now.grid serving.now.journal turn.now text.items) }
    ensures calls { length calls.new.items ≡ 9 }
{
    match told_to_each(
        alloc, flights, served, days, serving, calls, &SESSIONS, turn,
    ) {
        Ok(text) => Ok(text),
        Err(fault) => Err(fault),
    }
}

// The same of these.
#[tactic(auto, using(crate::proofs::Told::led_none_yet, crate::proofs::Told::session_more, crate::proofs::Told::session_few, crate::proofs::Told::sessions_whole))]
fn told_to_each<D: Tape>(
    alloc: Global,
    flights: &Flights,
    served: &Served<'_>,
    days: &DayFlights,
    serving: &Serving<D>,
    calls: &mut Vec<CallIndex>,
    sessions: &[u8],
    turn: &Turn,
) -> Result<Vec<u8>, Memory>
    requires served { served.now ≡ flights.now }
    requires days { AreDaysOf days.now flights.now }
    requires grid { IsGridOf flights.now serving.now.grid }
    requires calls { length calls.old.items ≡ 9 }
    requires few { FewSessions sessions.now }
    ensures told { IfOk result (λ text. IsText (at_any (IsLedTo flights.now serving.now.grid serving.now.journal turn.now)) 0
        sessions.now text.items) }
    ensures calls { length calls.new.items ≡ 9 }
{
    let mut text = Vec::new(alloc);
    for session in sessions {
        let part = told_to(alloc, flights, served, days, serving, calls, *session, turn)?;
        add_part(&mut text, &part)?;
    }
    Ok(text)
}

// What one of them is.
fn told_to<D: Tape>(
    alloc: Global,
    flights: &Flights,
    served: &Served<'_>,
    days: &DayFlights,
    serving: &Serving<D>,
    calls: &mut Vec<CallIndex>,
    session: u8,
    turn: &Turn,
) -> Result<Vec<u8>, Memory>
    requires served { served.now ≡ flights.now }
    requires days { AreDaysOf days.now flights.now }
    requires grid { IsGridOf flights.now serving.now.grid }
    requires calls { length calls.old.items ≡ 9 }
    requires session { session ≤ 8 }
    ensures told { IfOk result (λ text. IsLedTo flights.now serving.now.grid serving.now.journal turn.now session text.items) }
    ensures calls { length calls.new.items ≡ 9 }
{
    let index = &mut calls[usize::from(session)];
    let plain = turn_text(alloc, flights, served, days, serving, index, session, turn)?;
    match led(alloc, session, plain.as_slice()) {
        Ok(text) => Ok(text),
        Err(fault) => Err(fault),
    }
}

fn add_part(text: &mut Vec<u8>, part: &Vec<u8>) -> Result<(), Memory>
    ensures { OnOk result (text.new.items ≡ text.old.items ++ part.now.items) }
{
    text.extend_from_slice(part.as_slice())?;
    Ok(())
}

// The lines of a text, each behind the number of whom they are for and a blank.
#[tactic(auto, using(crate::proofs::Leading::led_none, crate::proofs::Leading::led_more, crate::proofs::Leading::led_whole))]
fn led(alloc: Global, session: u8, lines: &[u8]) -> Result<Vec<u8>, Memory>
    requires session { session ≤ 8 }
    ensures { IfOk result (λ text. text.items ≡ led session lines.now) }
{
    let mut text = Vec::new(alloc);
    let mut begins = true;
    for byte in lines {
        put_led(&mut text, session, begins, *byte)?;
        begins = *byte == b'\n';
    }
    Ok(text)
}

// A byte, behind a lead where it begins a line.
#[tactic(auto, using(crate::proofs::Leading::led_byte, crate::proofs::Leading::plain_byte))]
fn put_led(text: &mut Vec<u8>, session: u8, begins: bool, byte: u8) -> Result<(), Memory>
    requires session { session ≤ 8 }
    ensures { OnOk result (text.new.items ≡ text.old.items ++ led_from session begins (byte ∷ [])) }
{
    if begins {
        text.extend_from_slice(&[b'0' + session, b' '])?;
    }
    text.push(byte)?;
    Ok(())
}

fn unknown_text(alloc: Global, number: u32) -> Result<Vec<u8>, Memory>
    ensures { IfOk result (λ text. text.items ≡ unled_line (codes "H2") number) }
{
    let line = format!(in alloc; "- FAULT H2 - {number}\n")?;
    Ok(line.into_bytes())
}

fn dayless_text(alloc: Global, number: u32) -> Result<Vec<u8>, Memory>
    ensures { IfOk result (λ text. text.items ≡ unled_line (codes "H7") number) }
{
    let line = format!(in alloc; "- FAULT H7 - {number}\n")?;
    Ok(line.into_bytes())
}

fn foreign_text(alloc: Global, session: u8, number: u32) -> Result<Vec<u8>, Memory>
    ensures { IfOk result (λ text. text.items ≡ foreign_line session number) }
{
    let line = format!(in alloc; "{session} FAULT H6 {session} @{number}\n")?;
    Ok(line.into_bytes())
}
