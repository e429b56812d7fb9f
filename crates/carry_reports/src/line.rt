//! The line of a live booking: what it was, and what it is.
//! It knows no other booking.
ghost use Rattle.std.specs.Prelude.{◌≡◌, ◌++◌, ◌∷◌, [], OnOk};
ghost use Rattle.seat_desk.specs.FlightsDesk.{IsPut};
ghost use Rattle.carry_reports.specs.Codes.{word_text};
ghost use Rattle.carry_reports.specs.Lines.{IsAskedPut, IsFatedLine, IsNewPut, IsOldPut, IsSegmentPut, front_text, in_class, segment_of};

use crate::codes::{asked_code, code_of};
use crate::fating::{Asked, Fate, Fated};
use crate::numbers::put_own;
use airimp_lines::{Segment, reply_text};
use airline_base::{Class, Code, Place};
use seat_desk::{put, put_number};
use seat_lists::status_code;
use seat_moving::name_of;
use seat_rules::Booking;
use ssim_flights::{Flights, Wanted};
use std::alloc::AllocError;

/// Adds a line for each of these live bookings, which were on the flights of the old season, in journals that have so many lines.
pub(crate) fn put_lines(
    text: &mut Vec<u8>,
    counts: &[u32],
    olds: &Flights,
    news: &Flights,
    all: &[Fated],
) -> Result<(), AllocError>
    ensures { OnOk result (IsPut (λ n. IsFatedLine counts.now olds.now news.now) 0 all.now text.old.items text.new.items) }
{
    for i in 0..all.len() {
        put_line(text, counts, olds, news, &all[i])?;
    }
    Ok(())
}

/// Adds the line of a live booking: its old number, its locator and its old segment, an arrow, and its new number and segment or why it has none.
fn put_line(
    text: &mut Vec<u8>,
    counts: &[u32],
    olds: &Flights,
    news: &Flights,
    fated: &Fated,
) -> Result<(), AllocError>
    ensures { OnOk result (IsPut (λ n. IsFatedLine counts.now olds.now news.now) 0 (fated.now ∷ []) text.old.items text.new.items) }
{
    put_old(text, counts, olds, &fated.booking)?;
    put(text, b" -> ")?;
    put_new(text, news, fated)?;
    put(text, b"\n")?;
    Ok(())
}

#[tactic(auto, using(crate::proofs::Lining::old_put))]
fn put_old(
    text: &mut Vec<u8>,
    counts: &[u32],
    olds: &Flights,
    booking: &Booking,
) -> Result<(), AllocError>
    ensures { OnOk result (IsOldPut counts.now olds.now booking.now text.old.items text.new.items) }
{
    put_own(text, counts, booking.number)?;
    put(text, b" ")?;
    put(text, &booking.locator.characters())?;
    put(text, b" ")?;
    let code = status_code(booking.status);
    put_segment(text, name_of(olds, booking.place), booking, code)
}

#[tactic(auto, using(crate::proofs::Lining::departed_put, crate::proofs::Lining::unserved_put, crate::proofs::Lining::unsold_put, crate::proofs::Lining::new_put))]
fn put_new(text: &mut Vec<u8>, news: &Flights, fated: &Fated) -> Result<(), AllocError>
    ensures { OnOk result (IsNewPut news.now fated.now text.old.items text.new.items) }
{
    match &fated.fate {
        Fate::Asked(asked) => put_asked(text, news, &fated.booking, asked),
        Fate::Departed | Fate::Unserved | Fate::Unsold => put_word(text, code_of(fated)),
    }
}

#[tactic(auto, using(crate::proofs::Lining::asked_put))]
fn put_asked(
    text: &mut Vec<u8>,
    news: &Flights,
    booking: &Booking,
    asked: &Asked,
) -> Result<(), AllocError>
    ensures { OnOk result (IsAskedPut news.now booking.now asked.now text.old.items text.new.items) }
{
    put_front(text, asked.elsewhere)?;
    put_number(text, u64::from(asked.line))?;
    put(text, b" ")?;
    let code = asked_code(booking.status, asked);
    let there = in_class(booking, asked.class);
    put_segment(text, name_of(news, asked.place), &there, code)
}

/// Adds what becomes of the old segment of a booking that goes elsewhere: UN.
fn put_front(text: &mut Vec<u8>, elsewhere: bool) -> Result<(), AllocError>
    ensures { OnOk result (text.new.items ≡ text.old.items ++ front_text elsewhere) }
{
    if elsewhere { put(text, b"UN ") } else { Ok(()) }
}

fn in_class(booking: &Booking, class: Class) -> Booking
    ensures { result ≡ in_class class booking.now }
{
    Booking { class, ..*booking }
}

/// Adds a code, or DEPARTED where there is none.
pub(crate) fn put_word(text: &mut Vec<u8>, code: Option<Code>) -> Result<(), AllocError>
    ensures { OnOk result (text.new.items ≡ text.old.items ++ word_text code) }
{
    match code {
        Some(code) => put(text, &code.letters()),
        None => put(text, b"DEPARTED"),
    }
}

/// Adds the segment of a booking on the place of this name with this code; a dash where the flights have no such place.
#[tactic(auto, using(crate::proofs::Lining::no_segment, crate::proofs::Lining::segment_put))]
fn put_segment(
    text: &mut Vec<u8>,
    name: Option<Wanted>,
    booking: &Booking,
    code: Code,
) -> Result<(), AllocError>
    ensures { OnOk result (IsSegmentPut name booking.now code text.old.items text.new.items) }
{
    let Some(name) = name else {
        return put(text, b"-");
    };
    let segment = segment_of(&name, booking, code);
    put(
        text,
        reply_text(&segment, segment.code, segment.seats).as_slice(),
    )
}

/// Its segment on the place of this name.
fn segment_of(name: &Wanted, booking: &Booking, code: Code) -> Segment
    ensures { result ≡ segment_of name.now booking.now code }
{
    Segment {
        airline: name.airline,
        number: name.number,
        suffix: name.suffix,
        class: booking.class,
        day: name.day,
        board: name.board,
        off: name.off,
        code,
        seats: booking.seats,
    }
}
