//! The reply to a line of a run, whose requests are answered by segment lines, and its advices.
ghost use Rattle.std.specs.Prelude.{◌≡◌, ◌<◌, ◌++◌, OnOk, length};
ghost use Rattle.airimp_lines.specs.Grammar.{IsPlainLine, reply_of};
ghost use Rattle.seat_journal.specs.Text.{scope_letter};
ghost use Rattle.seat_desk.specs.FlightsDesk.{IsPut};
ghost use Rattle.seat_replies.specs.Answering.{AreBooked, IsAnswerable, IsRequested, IsBehind, IsBooked};
ghost use Rattle.seat_replies.specs.RunDesk.{IsAdviceLine, IsAnswer, IsLineReply, IsReply, IsSeatsReply, at_any, booked_by, change_head, change_reply, leg_text, limit_text, line_head, of_command, of_request, of_work, reply_head, sale_reply, sale_text, sale_word};

use airimp_lines::{Request, Segment, reply_text};
use airline_base::{Class, Code, Locator};
use desk_telling::segment_of;
use seat_desk::{put, put_number};
use seat_journal::{Advice, Change, Command, Entry, SaleChange, Work};
use ssim_flights::Flights;
use std::alloc::{AllocError, Global};

/// Whose seats a reply is for, and which.
#[derive(Clone, Copy)]
pub struct Answered {
    pub locator: Locator,
    pub segment: Segment,
}

/// Adds the reply to what a line asks for, which is the request at this place where it asks for seats, and its advices.
#[tactic(auto, using(crate::proofs::Parts::answer_put))]
pub fn put_answer(
    text: &mut Vec<u8>,
    flights: &Flights,
    requests: &[Request],
    journal: &[Entry],
    place: usize,
    entry: &Entry,
) -> Result<(), AllocError>
    requires { IsAnswerable flights.now requests.now journal.now place entry.now }
    ensures { OnOk result (IsBehind (IsAnswer flights.now requests.now journal.now place entry.now) text.old.items
        text.new.items) }
{
    put_line_reply(text, requests, place, entry, entry.work)?;
    put_advices(text, flights, journal, entry)?;
    Ok(())
}

/// Adds the reply to what a line asks for.
#[tactic(auto, using(crate::proofs::Parts::change_put, crate::proofs::Parts::sale_put))]
fn put_line_reply(
    text: &mut Vec<u8>,
    requests: &[Request],
    place: usize,
    entry: &Entry,
    work: Work,
) -> Result<(), AllocError>
    requires { IsRequested requests.now place work }
    ensures { OnOk result (IsBehind (IsLineReply requests.now place entry.now work) text.old.items text.new.items) }
{
    match work {
        Work::Seats(_) => put_seats_reply(text, requests, place, entry),
        Work::Limit(change) => put_change_reply(text, entry, &change),
        Work::Sale(change) => put_sale_reply(text, entry, &change),
    }
}

/// Adds the reply to the request at this place.
#[tactic(auto, using(crate::proofs::Parts::seats_put))]
fn put_seats_reply(
    text: &mut Vec<u8>,
    requests: &[Request],
    place: usize,
    entry: &Entry,
) -> Result<(), AllocError>
    requires { place < length requests.now }
    ensures { OnOk result (IsBehind (IsSeatsReply requests.now place entry.now) text.old.items text.new.items) }
{
    let request = &requests[place];
    let seats = request.segment.seats;
    put_reply(text, entry, &of_request(request), entry.reply, seats)?;
    Ok(())
}

/// Adds the reply to a change.
fn put_change_reply(text: &mut Vec<u8>, entry: &Entry, change: &Change) -> Result<(), AllocError>
    ensures { OnOk result (text.new.items ≡ text.old.items ++ change_reply entry.now change.now) }
{
    put_change_head(text, entry, change)?;
    put(text, b" ")?;
    put(text, &entry.reply.letters())?;
    put(text, b"\n")
}

fn put_change_head(text: &mut Vec<u8>, entry: &Entry, change: &Change) -> Result<(), AllocError>
    ensures { OnOk result (text.new.items ≡ text.old.items ++ change_head entry.now change.now) }
{
    put_line_head(text, entry)?;
    put_leg(text, change)?;
    put(text, b" ")?;
    put_limit(text, change)
}

fn put_leg(text: &mut Vec<u8>, change: &Change) -> Result<(), AllocError>
    ensures { OnOk result (text.new.items ≡ text.old.items ++ leg_text change.now) }
{
    put_number(text, u64::from(change.flight))?;
    put(text, b".")?;
    put_number(text, u64::from(change.leg))
}

fn put_limit(text: &mut Vec<u8>, change: &Change) -> Result<(), AllocError>
    ensures { OnOk result (text.new.items ≡ text.old.items ++ limit_text change.now) }
{
    put(text, &[change.class.letter()])?;
    put_number(text, u64::from(change.limit))?;
    put(text, b"/")?;
    put_number(text, u64::from(change.wait))
}

/// Adds the reply to a line that closes or opens a class.
fn put_sale_reply(text: &mut Vec<u8>, entry: &Entry, change: &SaleChange) -> Result<(), AllocError>
    ensures { OnOk result (text.new.items ≡ text.old.items ++ sale_reply entry.now change.now) }
{
    put_line_head(text, entry)?;
    put_number(text, u64::from(change.flight))?;
    put(text, b".")?;
    put_number(text, u64::from(change.leg))?;
    put(text, b" ")?;
    put_sale(text, change)?;
    put(text, b" ")?;
    put(text, &entry.reply.letters())?;
    put(text, b"\n")
}

fn put_sale(text: &mut Vec<u8>, change: &SaleChange) -> Result<(), AllocError>
    ensures { OnOk result (text.new.items ≡ text.old.items ++ sale_text change.now) }
{
    put(text, &[scope_letter(change.class)])?;
    put(text, b" ")?;
    put(text, sale_word(change.closed))
}

/// The class, or `*` for all.
fn scope_letter(class: Option<Class>) -> u8
    ensures { result ≡ scope_letter class }
{
    match class {
        Some(class) => class.letter(),
        None => b'*',
    }
}

fn sale_word(closed: bool) -> &'static [u8]
    ensures { result.now ≡ sale_word closed }
{
    if closed { b"CLOSE" } else { b"OPEN" }
}

/// Adds a line's advices.
#[tactic(auto, using(seat_desk::proofs::Texts::put_none, crate::proofs::Parts::advices_more, crate::proofs::Parts::advice_booked))]
fn put_advices(
    text: &mut Vec<u8>,
    flights: &Flights,
    journal: &[Entry],
    entry: &Entry,
) -> Result<(), AllocError>
    requires { AreBooked flights.now journal.now entry.now.advices }
    ensures { OnOk result (IsPut (at_any (IsAdviceLine flights.now journal.now entry.now)) 0 entry.now.advices
        text.old.items text.new.items) }
{
    for advice in entry.advices.as_slice() {
        put_advice(text, flights, journal, entry, advice)?;
    }
    Ok(())
}

/// Adds an advice, with the locator and the segment of its booking.
#[tactic(auto, using(crate::proofs::Parts::advice_put, crate::proofs::Parts::booked_there))]
fn put_advice(
    text: &mut Vec<u8>,
    flights: &Flights,
    journal: &[Entry],
    entry: &Entry,
    advice: &Advice,
) -> Result<(), AllocError>
    requires { IsBooked flights.now journal.now advice.now.number }
    ensures { OnOk result (IsBehind (IsAdviceLine flights.now journal.now entry.now advice.now) text.old.items
        text.new.items) }
{
    let Some(answered) = booked_by(flights, journal, advice.number) else {
        unreachable!()
    };
    put_reply(text, entry, &answered, Code::of(*b"KL"), advice.seats)?;
    Ok(())
}

/// Adds the line's session and number, and the segment with this code and these seats.
#[tactic(auto, using(crate::proofs::Parts::reply_put))]
fn put_reply(
    text: &mut Vec<u8>,
    entry: &Entry,
    answered: &Answered,
    code: Code,
    seats: u16,
) -> Result<(), AllocError>
    ensures { OnOk result (IsBehind (IsReply entry.now answered.now code seats) text.old.items text.new.items) }
{
    put_head(text, entry, answered)?;
    put_segment(text, &answered.segment, code, seats)?;
    put(text, b"\n")?;
    Ok(())
}

fn put_head(text: &mut Vec<u8>, entry: &Entry, answered: &Answered) -> Result<(), AllocError>
    ensures { OnOk result (text.new.items ≡ text.old.items ++ reply_head entry.now answered.now) }
{
    put_line_head(text, entry)?;
    put(text, &answered.locator.characters())?;
    put(text, b" ")
}

fn put_line_head(text: &mut Vec<u8>, entry: &Entry) -> Result<(), AllocError>
    ensures { OnOk result (text.new.items ≡ text.old.items ++ line_head entry.now) }
{
    put_number(text, u64::from(entry.session))?;
    put(text, b" ")?;
    put_number(text, u64::from(entry.number))?;
    put(text, b" ")
}

#[tactic(auto, using(crate::proofs::Parts::line_behind))]
fn put_segment(
    text: &mut Vec<u8>,
    segment: &Segment,
    code: Code,
    seats: u16,
) -> Result<(), AllocError>
    ensures { OnOk result (IsBehind (IsPlainLine (reply_of segment.now code seats)) text.old.items text.new.items) }
{
    put(text, reply_text(segment, code, seats).as_slice())?;
    Ok(())
}

fn of_request(request: &Request) -> Answered
    ensures { result ≡ of_request request.now }
{
    Answered {
        locator: request.locator,
        segment: request.segment,
    }
}

/// The locator and the segment of the booking of this number: those of the line that made it.
#[tactic(auto, using(crate::proofs::Parts::booked_line))]
fn booked_by(flights: &Flights, journal: &[Entry], number: u32) -> Option<Answered>
    requires { IsBooked flights.now journal.now number }
    ensures { result ≡ booked_by flights.now journal.now number }
{
    let line = &journal[number as usize - 1];
    of_work(flights, line.work)
}

fn of_work(flights: &Flights, work: Work) -> Option<Answered>
    ensures { result ≡ of_work flights.now work }
{
    match work {
        Work::Seats(command) => of_command(flights, &command),
        Work::Limit(_) => None,
        Work::Sale(_) => None,
    }
}

/// The locator of a command, and the segment on the flight of its place.
fn of_command(flights: &Flights, command: &Command) -> Option<Answered>
    ensures { result ≡ of_command flights.now command.now }
{
    let segment = segment_of(flights, command)?;
    Some(Answered {
        locator: command.locator,
        segment,
    })
}
