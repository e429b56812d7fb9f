//! Short parts of the line that answers a look. They take no memory.
ghost use Rattle.std.specs.Prelude.{◌≡◌, ◌≤◌, ◌+◌, ◌++◌, IfSome, codes, decimal, length};
ghost use Rattle.airline_base.specs.Fields.{suffix_text};
ghost use Rattle.seat_nesting.specs.Nesting.{Fits};
ghost use Rattle.desk_answers.specs.Looks.{flight_text, left_text};

use crate::seats::Seats;
use airimp_lines::{FlightClass, Look};
use airline_base::spelling::{put, put_number};
use airline_base::{Class, Place};
use arrayvec::ArrayVec;

type Part = ArrayVec<u8, 20>;

/// LOOK, and how many lines the journal has.
pub(crate) fn lines_part(lines: u32) -> ArrayVec<u8, 20>
    ensures { result.items ≡ codes "LOOK " ++ decimal lines ++ codes " " }
{
    let mut text = ArrayVec::new();
    put(&mut text, b"LOOK ");
    put_number(&mut text, lines);
    put(&mut text, b" ");
    text
}

/// The day, as it is written, and the stations.
pub(crate) fn asked_part(day: [u8; 7], look: &Look) -> ArrayVec<u8, 20>
    ensures { result.items ≡ codes " " ++ day ++ codes " " ++ look.now.board ++ look.now.off }
{
    let mut text = ArrayVec::new();
    put(&mut text, b" ");
    put(&mut text, &day);
    put(&mut text, b" ");
    put(&mut text, &look.board.letters());
    put(&mut text, &look.off.letters());
    text
}

/// Airline, number and suffix.
pub(crate) fn flight_part(flight: &FlightClass) -> ArrayVec<u8, 20>
    ensures { result.items ≡ flight_text flight.now }
{
    let mut text = ArrayVec::new();
    put(&mut text, &flight.airline.characters());
    put_number(&mut text, u32::from(flight.number));
    put_suffix(&mut text, flight.suffix);
    text
}

fn put_suffix(text: &mut Part, suffix: Option<u8>)
    requires room { length text.old.items + 1 ≤ 20 }
    ensures { text.new.items ≡ text.old.items ++ suffix_text suffix }
{
    match suffix {
        Some(letter) => put(text, &[letter]),
        None => {}
    }
}

/// The class and the seats that are left, or a stroke where there is no place, and the end of the line.
pub(crate) fn left_part<S: Seats>(seats: &S, place: Option<Place>, class: Class) -> ArrayVec<u8, 20>
    requires { IfSome place (Fits (S.ladders seats.now)) }
    ensures { result.items ≡ codes " " ++ left_text (S.state seats.now) place class ++ codes "\n" }
{
    let mut text = ArrayVec::new();
    put(&mut text, b" ");
    put_left(&mut text, seats, place, class);
    put(&mut text, b"\n");
    text
}

fn put_left<S: Seats>(text: &mut Part, seats: &S, place: Option<Place>, class: Class)
    requires fits { IfSome place (Fits (S.ladders seats.now)) }
    requires room { length text.old.items + 11 ≤ 20 }
    ensures text { text.new.items ≡ text.old.items ++ left_text (S.state seats.now) place class }
    ensures len { length text.new.items ≤ length text.old.items + 11 }
{
    match place {
        Some(place) => {
            put(text, &[class.letter()]);
            put_number(text, u32::from(seats.left_on(place, class)));
        }
        None => put(text, b"-"),
    }
}
