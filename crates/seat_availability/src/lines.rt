//! How a message reads.
//! It knows no other message.
ghost use Rattle.std.specs.Prelude.{◌≡◌, ◌++◌, ◌∷◌, [], OnOk};
ghost use Rattle.airline_base.specs.Fields.{suffix_text};
ghost use Rattle.seat_desk.specs.FlightsDesk.{IsPut};
ghost use Rattle.seat_availability.specs.Lines.{IsDayPut, IsMessageLine, front_text, seats_text, status_code, tail_text};

use crate::segments::{Message, Segment};
use crate::statuses::Status;
use airline_base::{Code, Day};
use seat_desk::{put, put_number};
use std::alloc::AllocError;

/// Adds a line for each message.
pub fn put_messages(text: &mut Vec<u8>, messages: &[Message]) -> Result<(), AllocError>
    ensures { OnOk result (IsPut (λ n. IsMessageLine) 0 messages.now text.old.items text.new.items) }
{
    for i in 0..messages.len() {
        put_message(text, &messages[i])?;
    }
    Ok(())
}

/// Adds the line of a message: the segment as a segment line (AIRIMP) spells it, the status, and the seats where they are told.
#[tactic(auto, using(crate::proofs::Written::message_put))]
fn put_message(text: &mut Vec<u8>, message: &Message) -> Result<(), AllocError>
    ensures { OnOk result (IsPut (λ n. IsMessageLine) 0 (message.now ∷ []) text.old.items text.new.items) }
{
    put_front(text, &message.segment)?;
    put_day(text, message.segment.run.day)?;
    put_tail(text, message)
}

/// Adds airline, number, suffix and class.
fn put_front(text: &mut Vec<u8>, segment: &Segment) -> Result<(), AllocError>
    ensures { OnOk result (text.new.items ≡ text.old.items ++ front_text segment.now) }
{
    put(text, &segment.name.airline.characters())?;
    put_number(text, u64::from(segment.name.number))?;
    put_suffix(text, segment.name.suffix)?;
    put(text, &[segment.class.letter()])
}

fn put_suffix(text: &mut Vec<u8>, suffix: Option<u8>) -> Result<(), AllocError>
    ensures { OnOk result (text.new.items ≡ text.old.items ++ suffix_text suffix) }
{
    match suffix {
        Some(letter) => put(text, &[letter]),
        None => put(text, &[]),
    }
}

/// Adds the day and the month.
#[tactic(auto, using(crate::proofs::Written::day_put))]
fn put_day(text: &mut Vec<u8>, day: Day) -> Result<(), AllocError>
    ensures { OnOk result (IsDayPut day text.old.items text.new.items) }
{
    put(text, &day.bytes()[..5])
}

/// Adds the stations, the status, the seats and the end of the line.
fn put_tail(text: &mut Vec<u8>, message: &Message) -> Result<(), AllocError>
    ensures { OnOk result (text.new.items ≡ text.old.items ++ tail_text message.now) }
{
    put(text, b" ")?;
    put(text, &message.segment.run.board.letters())?;
    put(text, &message.segment.run.off.letters())?;
    put(text, b" ")?;
    put(text, &status_code(message.status).letters())?;
    put_seats(text, message.seats)?;
    put(text, b"\n")
}

/// The code of a status, after the availability status messages of AIRIMP.
fn status_code(status: Status) -> Code
    ensures { result ≡ status_code status }
{
    match status {
        Status::Open => Code::of(*b"AS"),
        Status::ListOpen => Code::of(*b"CL"),
        Status::Closed => Code::of(*b"CC"),
        Status::NotOperated => Code::of(*b"CX"),
    }
}

/// Adds the seats where they are told.
fn put_seats(text: &mut Vec<u8>, seats: u16) -> Result<(), AllocError>
    ensures { OnOk result (text.new.items ≡ text.old.items ++ seats_text seats) }
{
    if seats == 0 {
        return put(text, &[]);
    }
    put_number(text, u64::from(seats))
}
