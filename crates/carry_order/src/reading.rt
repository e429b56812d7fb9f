//! The list of the locators that keep their seats first.
//! It knows its lines one by one, and no booking.
ghost use Rattle.std.specs.Prelude.{◌≡◌, ◌<◌, ◌^◌, ◌++◌, ◌∷◌, [], IfErr, IfOk, Ok, OnOk, Some, length};
ghost use Rattle.carry_order.specs.Reading.{IsFaultOf, IsLineFault, is_blank, locator_in, order_in, with_line};

use airline_base::fields::locator_of;
use airline_base::lines::cut_line;
use airline_base::{Locator, Memory};
use std::alloc::Global;

/// Why a list of locators is refused.
#[derive(Clone, Copy)]
pub enum OrderFault {
    /// The line of this number, counted from 1, is no locator.
    Line(u32),
    Memory,
}

/// The locators of a list of less than 4 GiB, a line each, in their order. Lines end with LF, with CR LF or where the bytes end; those that have
/// nothing but blanks are passed over. A refusal names the first line that is neither.
#[tactic(auto, using(crate::proofs::Listing::goes_end, crate::proofs::Listing::goes_first, crate::proofs::Listing::done_is))]
pub fn read_order(alloc: Global, bytes: &[u8]) -> Result<Vec<Locator>, OrderFault>
    requires size { length bytes.now < 2 ^ 32 }
    ensures found { IfOk result (λ all. order_in bytes.now ≡ Ok all.items) }
    ensures fault { IfErr result (IsFaultOf bytes.now) }
{
    let mut all = Vec::new(alloc);
    let mut rest = bytes;
    let mut line = 0;
    while !rest.is_empty() {
        let (text, after) = cut_line(rest);
        line += 1;
        if let Err(fault) = take_line(&mut all, text, line) {
            return Err(fault);
        }
        rest = after;
    }
    Ok(all)
}

/// Adds the locator of a line, where it has one.
#[tactic(auto, using(crate::proofs::Listing::blank_line, crate::proofs::Listing::right_line, crate::proofs::Listing::wrong_line))]
fn take_line(all: &mut Vec<Locator>, text: &[u8], line: u32) -> Result<(), OrderFault>
    ensures taken { OnOk result (with_line text.now all.old.items ≡ Some all.new.items) }
    ensures fault { IfErr result (IsLineFault text.now line) }
{
    if is_blank(text) {
        return Ok(());
    }
    let Some(locator) = locator_in(text) else {
        return Err(OrderFault::Line(line));
    };
    match push(all, locator) {
        Ok(()) => Ok(()),
        Err(_) => Err(OrderFault::Memory),
    }
}

fn is_blank(text: &[u8]) -> bool
    ensures { result ≡ is_blank text.now }
{
    text.iter().all(|c| *c == b' ')
}

fn locator_in(text: &[u8]) -> Option<Locator>
    ensures { result ≡ locator_in text.now }
{
    match locator_of(text) {
        Some((locator, [])) => Some(locator),
        _ => None,
    }
}

fn push(all: &mut Vec<Locator>, locator: Locator) -> Result<(), Memory>
    ensures { OnOk result (all.new.items ≡ all.old.items ++ locator ∷ []) }
{
    match all.push(locator) {
        Ok(()) => Ok(()),
        Err(_) => Err(Memory),
    }
}
