//! The lines in which a desk is told of replies and advices. Each has a bound, so it is spelled without memory.
//! It knows how a line is spelled, and nothing of which lines a desk is told.
ghost use Rattle.std.specs.Prelude.{◌≡◌, ◌+◌, ◌≤◌, ◌++◌, codes, decimal, length, slice_get};
ghost use Rattle.airline_base.specs.Fields.{suffix_text};
ghost use Rattle.seat_journal.specs.Text.{scope_letter};
ghost use Rattle.desk_telling.specs.Segments.{segment_of};
ghost use Rattle.desk_telling.specs.Telling.{IsBehind, IsLegName, IsLegOf, IsLegOn, IsLimitLine, IsReplyLine, IsSaleLine, IsSeatsLine, IsSegmentText, limit_text, sale_text, sale_word, told_head};

use crate::segment::segment_of;
use airimp_lines::reply_text;
use airline_base::spelling::{put, put_number};
use airline_base::{Class, Code};
use arrayvec::ArrayVec;
use seat_journal::{Change, Command, Entry, SaleChange, Work};
use ssim_flights::{DatedLeg, Flight, Flights};

/// A line: two numbers, a locator, a segment of at most 48 bytes, blanks and LF.
pub(crate) type Line = ArrayVec<u8, 96>;

/// The line that tells a desk of the reply to a line.
pub(crate) fn reply_line(flights: &Flights, desk: u8, entry: &Entry) -> Line
    ensures { IsReplyLine flights.now desk entry.now entry.now.work result.items }
{
    match entry.work {
        Work::Seats(command) => {
            let seats = command.seats;
            seats_line(flights, desk, entry, &command, entry.reply, seats)
        }
        Work::Limit(change) => limit_line(flights, desk, entry, &change),
        Work::Sale(change) => sale_line(flights, desk, entry, &change),
    }
}

/// The line with the locator and the segment of a command, and this code and these seats.
#[tactic(auto, using(crate::proofs::Spelling::seats_line))]
pub(crate) fn seats_line(
    flights: &Flights,
    desk: u8,
    entry: &Entry,
    command: &Command,
    code: Code,
    seats: u16,
) -> Line
    ensures { IsSeatsLine flights.now desk entry.now command.now code seats result.items }
{
    let mut line = ArrayVec::new();
    put_head(&mut line, desk, entry);
    put(&mut line, &command.locator.characters());
    put(&mut line, b" ");
    put(
        &mut line,
        segment_text(flights, command, code, seats).as_slice(),
    );
    put(&mut line, b"\n");
    line
}

/// The line with the leg of a change, its new limits, and the reply.
#[tactic(auto, using(crate::proofs::Spelling::limit_line))]
fn limit_line(flights: &Flights, desk: u8, entry: &Entry, change: &Change) -> Line
    ensures { IsLimitLine flights.now desk entry.now change.now result.items }
{
    let mut line = ArrayVec::new();
    put_head(&mut line, desk, entry);
    put_leg(&mut line, flights, change.flight, change.leg);
    put(&mut line, b" ");
    put_limit(&mut line, entry, change);
    put(&mut line, b"\n");
    line
}

/// The line with the leg on which a class is closed or opened, the class, and the reply.
#[tactic(auto, using(crate::proofs::Spelling::sale_line))]
fn sale_line(flights: &Flights, desk: u8, entry: &Entry, change: &SaleChange) -> Line
    ensures { IsSaleLine flights.now desk entry.now change.now result.items }
{
    let mut line = ArrayVec::new();
    put_head(&mut line, desk, entry);
    put_leg(&mut line, flights, change.flight, change.leg);
    put(&mut line, b" ");
    put_sale(&mut line, entry, change);
    put(&mut line, b"\n");
    line
}

/// Two numbers and two blanks.
fn put_head(line: &mut Line, desk: u8, entry: &Entry)
    requires room { length line.old.items + 22 ≤ 96 }
    ensures text { line.new.items ≡ line.old.items ++ told_head desk entry.now }
    ensures len { length line.new.items ≤ length line.old.items + 22 }
{
    put_number(line, desk as u32);
    put(line, b" ");
    put_number(line, entry.number);
    put(line, b" ");
}

/// The segment of a command with this code and these seats; `-` stands for one that is not there.
pub fn segment_text(
    flights: &Flights,
    command: &Command,
    code: Code,
    seats: u16,
) -> ArrayVec<u8, 48>
    ensures { IsSegmentText (segment_of flights.now command.now) code seats result.items }
{
    match segment_of(flights, command) {
        Some(segment) => reply_text(&segment, code, seats),
        None => no_segment_text(code, seats),
    }
}

/// `- `, two letters and a number.
#[tactic(auto, using(crate::proofs::Spelling::no_segment))]
fn no_segment_text(code: Code, seats: u16) -> ArrayVec<u8, 48>
    ensures { result.items ≡ codes "- " ++ code ++ decimal seats }
{
    let mut text = ArrayVec::new();
    put(&mut text, b"- ");
    put(&mut text, &code.letters());
    put_number(&mut text, seats as u32);
    text
}

/// A leg, by the names of its flight.
fn put_leg(line: &mut Line, flights: &Flights, flight: u32, leg: u8)
    requires room { length line.old.items + 32 ≤ 96 }
    ensures text { IsBehind (IsLegOn (slice_get flights.now flight) leg) line.old.items line.new.items }
    ensures len { length line.new.items ≤ length line.old.items + 32 }
{
    if flight < flights.len() {
        put_leg_of(line, &flights.flight(flight), leg);
    } else {
        put_no_leg(line);
    }
}

fn put_leg_of(line: &mut Line, flight: &Flight, leg: u8)
    requires room { length line.old.items + 32 ≤ 96 }
    ensures text { IsBehind (IsLegOf flight.now (slice_get flight.now.legs leg)) line.old.items line.new.items }
    ensures len { length line.new.items ≤ length line.old.items + 32 }
{
    match flight.legs.as_slice().get(usize::from(leg)) {
        Some(leg) => put_leg_name(line, flight, leg),
        None => put_no_leg(line),
    }
}

fn put_no_leg(line: &mut Line)
    requires room { length line.old.items + 32 ≤ 96 }
    ensures text { IsBehind (λ text. text ≡ codes "-") line.old.items line.new.items }
    ensures len { length line.new.items ≤ length line.old.items + 32 }
{
    put(line, b"-");
}

/// An airline, a number of at most five digits, a suffix, a day, two stations and two blanks.
fn put_leg_name(line: &mut Line, flight: &Flight, leg: &DatedLeg)
    requires room { length line.old.items + 32 ≤ 96 }
    ensures text { IsBehind (IsLegName flight.now leg.now) line.old.items line.new.items }
    ensures len { length line.new.items ≤ length line.old.items + 32 }
{
    put(line, &flight.airline.characters());
    put_number(line, flight.number as u32);
    put_suffix(line, flight.suffix);
    put(line, b" ");
    put(line, &leg.day.bytes());
    put(line, b" ");
    put(line, &leg.board.letters());
    put(line, &leg.off.letters());
}

fn put_suffix(line: &mut Line, suffix: Option<u8>)
    requires room { length line.old.items + 1 ≤ 96 }
    ensures text { line.new.items ≡ line.old.items ++ suffix_text suffix }
    ensures len { length line.new.items ≤ length line.old.items + 1 }
{
    if let Some(letter) = suffix {
        put(line, &[letter]);
    }
}

/// A class, two numbers, a code, a slash and a blank.
fn put_limit(line: &mut Line, entry: &Entry, change: &Change)
    requires room { length line.old.items + 26 ≤ 96 }
    ensures text { line.new.items ≡ line.old.items ++ limit_text entry.now change.now }
    ensures len { length line.new.items ≤ length line.old.items + 26 }
{
    put(line, &[change.class.letter()]);
    put_number(line, change.limit as u32);
    put(line, b"/");
    put_number(line, change.wait as u32);
    put(line, b" ");
    put(line, &entry.reply.letters());
}

/// A class or a star, a word, a code and two blanks.
fn put_sale(line: &mut Line, entry: &Entry, change: &SaleChange)
    requires room { length line.old.items + 10 ≤ 96 }
    ensures text { line.new.items ≡ line.old.items ++ sale_text entry.now change.now }
    ensures len { length line.new.items ≤ length line.old.items + 10 }
{
    put(line, &[scope_letter(change.class)]);
    put(line, b" ");
    put(line, sale_word(change.closed));
    put(line, b" ");
    put(line, &entry.reply.letters());
}

/// The class, or `*` for all.
fn scope_letter(class: Option<Class>) -> u8
    ensures { result ≡ scope_letter class }
{
    match class {
        Some(class) => class.letter(),
        None => b'*',
    }
}

fn sale_word(closed: bool) -> &'static [u8]
    ensures value { result.now ≡ sale_word closed }
    ensures short { length result.now ≤ 5 }
{
    if closed { b"CLOSE" } else { b"OPEN" }
}
