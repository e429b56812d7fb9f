//! What a partner counts as closed: classes, each with the most seats of room at which it does.
//! It knows no segment.
ghost use Rattle.std.specs.Prelude.{◌≡◌, ◌≢◌, ◌<◌, ◌^◌, Err, IfErr, IfOk, Ok, OnOk, length, option_map};
ghost use Rattle.seat_availability.specs.Partners.{has_row, is_count, seats_in, threshold_of, thresholds_in, with_line, with_row};
ghost use Rattle.seat_availability.specs.declared.partner_fault.PartnerKind.TheVariants.{Memory};

use crate::partner_fault::{PartnerFault, PartnerKind};
use airline_base::fields::{are_digits, value_of};
use airline_base::lines::cut_line;
use airline_base::{Class, Items};
use std::alloc::Global;

/// A class that counts as closed where its room is so many seats or fewer: 0 to 999.
#[derive(Clone, Copy)]
pub struct Threshold {
    pub class: Class,
    pub seats: u16,
}

/// The thresholds of a partner, in the order of its lines.
pub type Thresholds = Items<Threshold>;

/// The thresholds of a text: for each line a class, a blank and the seats. Lines end with LF, with CR LF or where the bytes end; empty ones are
/// passed over. Else the first line with a fault, and its first fault.
pub fn read_thresholds(alloc: Global, bytes: &[u8]) -> Result<Thresholds, PartnerFault>
    requires { length bytes.now < 2 ^ 32 }
    ensures ok { IfOk result (λ rows. thresholds_in bytes.now ≡ Ok rows) }
    ensures fault { IfErr result (λ f. f.kind ≢ Memory → thresholds_in bytes.now ≡ Err f) }
{
    let mut rows = Thresholds::new(alloc);
    let mut rest = bytes;
    let mut line = 0u32;
    while !rest.is_empty() {
        let (text, after) = cut_line(rest);
        line += 1;
        if let Err(kind) = take_line(&mut rows, text) {
            return Err(PartnerFault { line, kind });
        }
        rest = after;
    }
    Ok(rows)
}

/// Adds the row of a line, if it is not empty.
fn take_line(rows: &mut Thresholds, text: &[u8]) -> Result<(), PartnerKind>
    ensures taken { OnOk result (with_line rows.old text.now ≡ Ok rows.new) }
    ensures fault { IfErr result (λ kind. kind ≢ Memory → with_line rows.old text.now ≡ Err kind) }
{
    match text {
        [] => Ok(()),
        [letter, rest @ ..] => take_row(rows, *letter, rest),
    }
}

/// Adds the row of a class.
fn take_row(rows: &mut Thresholds, letter: u8, rest: &[u8]) -> Result<(), PartnerKind>
    ensures taken { OnOk result (with_row rows.old letter rest.now ≡ Ok rows.new) }
    ensures fault { IfErr result (λ kind. kind ≢ Memory → with_row rows.old letter rest.now ≡ Err kind) }
{
    let Some(class) = Class::new(letter) else {
        return Err(PartnerKind::Class);
    };
    if has_row(rows.as_slice(), class) {
        return Err(PartnerKind::Twice);
    }
    let Some(seats) = seats_in(rest) else {
        return Err(PartnerKind::Seats);
    };
    rows.push(Threshold { class, seats })?;
    Ok(())
}

/// Whether a class has a row.
fn has_row(rows: &[Threshold], class: Class) -> bool
    ensures { result ≡ has_row rows.now class }
{
    for row in rows {
        if row.class == class {
            return true;
        }
    }
    false
}

/// The seats behind a class: a blank and one to three digits.
fn seats_in(text: &[u8]) -> Option<u16>
    ensures { result ≡ seats_in text.now }
{
    match text {
        [b' ', digits @ ..] if is_count(digits) => Some(value_of(digits) as u16),
        _ => None,
    }
}

/// Whether these are one to three digits.
fn is_count(text: &[u8]) -> bool
    ensures { result ≡ is_count text.now }
{
    !text.is_empty() && text.len() <= 3 && are_digits(text)
}

/// The most room at which a class counts as closed; 0 where the partner has no row of it.
pub fn threshold_of(rows: &[Threshold], class: Class) -> u16
    ensures { result ≡ threshold_of rows.now class }
{
    for row in rows {
        if row.class == class {
            return row.seats;
        }
    }
    0
}
