//! The code for what became of a live booking (AIRIMP).
//! It knows no line.
ghost use Rattle.std.specs.Prelude.{◌≡◌, codes, if◌then◌else◌};
ghost use Rattle.carry_reports.specs.Codes.{asked_code, code_of, held_code, kept_code, listed_code, word_text};

use crate::fating::{Asked, Fate, Fated, Outcome};
use airline_base::Code;
use seat_rules::Status;

/// The code for what became of a live booking: HK held as it was, TK held with other legs, HL listed, TL listed with other legs, KL listed before and
/// held now, HX neither held nor listed though its flight operates, UN no flight serves what it serves, UC its flight doesn't sell its class. Who
/// departed before today has none.
pub fn code_of(fated: &Fated) -> Option<Code>
    ensures { result ≡ code_of fated.now }
{
    match &fated.fate {
        Fate::Departed => None,
        Fate::Unserved => Some(Code::of(*b"UN")),
        Fate::Unsold => Some(Code::of(*b"UC")),
        Fate::Asked(asked) => Some(asked_code(fated.booking.status, asked)),
    }
}

/// The code for one that was asked for.
pub(crate) fn asked_code(status: Status, asked: &Asked) -> Code
    ensures { result ≡ asked_code status asked.now }
{
    match asked.outcome {
        Outcome::Held => held_code(status, asked.changed),
        Outcome::Waiting => listed_code(asked.changed),
        Outcome::Refused => Code::of(*b"HX"),
    }
}

fn held_code(status: Status, changed: bool) -> Code
    ensures { result ≡ held_code status changed }
{
    match status {
        Status::Held => kept_code(changed),
        Status::Waiting => Code::of(*b"KL"),
    }
}

fn kept_code(changed: bool) -> Code
    ensures { result ≡ kept_code changed }
{
    if changed {
        Code::of(*b"TK")
    } else {
        Code::of(*b"HK")
    }
}

fn listed_code(changed: bool) -> Code
    ensures { result ≡ listed_code changed }
{
    if changed {
        Code::of(*b"TL")
    } else {
        Code::of(*b"HL")
    }
}
