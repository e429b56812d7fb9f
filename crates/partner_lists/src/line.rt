//! A line of a partner's list. It knows no other line.
ghost use Rattle.std.specs.Prelude.{◌≡◌, IfErr, IfOk, option_map};
ghost use Rattle.airline_base.specs.Days.{IsCenturyDay};
ghost use Rattle.partner_lists.specs.Listed.{IsListed, IsLineFault, heading_at, is_status, locator_at, numbered_at};

use crate::fault::PartnerKind;
use airimp_lines::{Request, read_segment};
use airline_base::fields::{byte_of, digits_of, locator_of};
use airline_base::{Code, Day, Locator};

/// The booking of a line without its end: a number and a blank, which may be left out and say nothing, the locator, a blank, and the segment with the code HK
/// where its seats are held, or HL where they wait. Its day is the earliest such date on or after `first`, a day of the years 2000 to 2099. It takes no memory.
#[tactic(auto, using(crate::proofs::Lines::listed, crate::proofs::Lines::no_heading, crate::proofs::Lines::no_segment, crate::proofs::Lines::no_status))]
pub fn read_listed(text: &[u8], line: u32, first: Day) -> Result<Request, PartnerKind>
    requires { IsCenturyDay first }
    ensures listed { IfOk result (IsListed first line text.now) }
    ensures fault { IfErr result (IsLineFault first text.now) }
{
    let Some((locator, rest)) = heading_of(text) else {
        return Err(PartnerKind::Locator);
    };
    match read_segment(rest, first) {
        Ok(segment) => {
            if !is_status(segment.code) {
                return Err(PartnerKind::Status);
            }
            Ok(Request {
                locator,
                segment,
                line,
            })
        }
        Err(fault) => Err(PartnerKind::Line(fault)),
    }
}

/// The locator, and what stands behind it and a blank: behind a number too.
fn heading_of(bytes: &[u8]) -> Option<(Locator, &[u8])>
    ensures { option_map (λ x. (x.0, x.1.now)) result ≡ heading_at bytes.now }
{
    match numbered_of(bytes) {
        Some(heading) => Some(heading),
        None => named_of(bytes),
    }
}

/// The same behind a number and a blank.
#[tactic(auto, unfolding(crate::specs::Listed::numbered_at))]
fn numbered_of(bytes: &[u8]) -> Option<(Locator, &[u8])>
    ensures { option_map (λ x. (x.0, x.1.now)) result ≡ numbered_at bytes.now }
{
    let (digits, rest) = digits_of(bytes);
    if digits.is_empty() {
        return None;
    }
    let Some(rest) = byte_of(b' ', rest) else {
        return None;
    };
    named_of(rest)
}

/// A locator and a blank.
#[tactic(auto, unfolding(crate::specs::Listed::locator_at))]
fn named_of(bytes: &[u8]) -> Option<(Locator, &[u8])>
    ensures { option_map (λ x. (x.0, x.1.now)) result ≡ locator_at bytes.now }
{
    let Some((locator, rest)) = locator_of(bytes) else {
        return None;
    };
    let Some(rest) = byte_of(b' ', rest) else {
        return None;
    };
    Some((locator, rest))
}

fn is_status(code: Code) -> bool
    ensures { result ≡ is_status code }
{
    code == Code::of(*b"HK") || code == Code::of(*b"HL")
}
