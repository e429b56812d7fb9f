//! A row that says where bookings go: `LZ601 27JUL24 LHRKEF LZ603 28JUL24 Q=M`.
//! It knows its own text, and no flight.
ghost use Rattle.std.specs.Prelude.{◌≡◌, ◌<◌, ◌++◌, ◌∷◌, ℕ, [], IfErr, IfOk, List, OnOk, Option, Some, length, option_map};
ghost use Rattle.carry_protections.specs.Rows.{IsClassesFault, date_at, first_pair, heading_at, is_named, named_day_at, suffix_at, wanted_on, classes_from};

use crate::course::CourseKind;
use airline_base::fields::{airline_of, byte_of, numeral_of, station_of};
use airline_base::{Airline, Class, Day, Items, Memory, Station};
use ssim_flights::Wanted;
use std::alloc::Global;

/// A class, and the one onto which its bookings go.
#[derive(Clone, Copy)]
pub struct ClassPair {
    pub old: Class,
    pub new: Class,
}

/// A flight's name and a day.
#[derive(Clone, Copy)]
pub(crate) struct NamedDay {
    pub airline: Airline,
    pub number: u16,
    pub suffix: Option<u8>,
    pub day: Day,
}

/// The two flights of a row, between its stations.
#[derive(Clone, Copy)]
pub(crate) struct Heading {
    pub from: Wanted,
    pub to: Wanted,
}

/// The two flights of a row, and what stands behind them.
#[tactic(auto, unfolding(crate::specs::Rows::heading_at))]
pub(crate) fn heading_of(text: &[u8]) -> Option<(Heading, &[u8])>
    ensures { option_map (λ x. (x.0, x.1.now)) result ≡ heading_at text.now }
{
    let Some((from, rest)) = named_day_of(text) else {
        return None;
    };
    let Some(rest) = byte_of(b' ', rest) else {
        return None;
    };
    let Some((board, rest)) = station_of(rest) else {
        return None;
    };
    let Some((off, rest)) = station_of(rest) else {
        return None;
    };
    let Some(rest) = byte_of(b' ', rest) else {
        return None;
    };
    let Some((to, rest)) = named_day_of(rest) else {
        return None;
    };
    let heading = Heading {
        from: wanted_on(&from, board, off),
        to: wanted_on(&to, board, off),
    };
    Some((heading, rest))
}

/// A flight's name, a blank and a day, and what stands behind them.
#[tactic(auto, unfolding(crate::specs::Rows::named_day_at))]
fn named_day_of(text: &[u8]) -> Option<(NamedDay, &[u8])>
    ensures { option_map (λ x. (x.0, x.1.now)) result ≡ named_day_at text.now }
{
    let Some((airline, rest)) = airline_of(text) else {
        return None;
    };
    let Some((number, rest)) = numeral_of(rest, 4) else {
        return None;
    };
    let (suffix, rest) = suffix_of(rest);
    let Some(rest) = byte_of(b' ', rest) else {
        return None;
    };
    let Some((day, rest)) = date_of(rest) else {
        return None;
    };
    let named = NamedDay {
        airline,
        number,
        suffix,
        day,
    };
    Some((named, rest))
}

/// The letter at the front, if there is one, and what follows it.
fn suffix_of(bytes: &[u8]) -> (Option<u8>, &[u8])
    ensures { ◌≡◌ {A = Option ℕ × List ℕ} (result.0, result.1.now) (suffix_at bytes.now) }
{
    match bytes {
        [letter, rest @ ..] if letter.is_ascii_uppercase() => (Some(*letter), rest),
        _ => (None, bytes),
    }
}

/// The day that DDMMMYY names, and what follows it.
#[tactic(auto, unfolding(crate::specs::Rows::date_at))]
fn date_of(bytes: &[u8]) -> Option<(Day, &[u8])>
    ensures { option_map (λ x. (x.0, x.1.now)) result ≡ date_at bytes.now }
{
    let (front, rest) = bytes.split_at_checked(7)?;
    Some((Day::read(front)?, rest))
}

fn wanted_on(named: &NamedDay, board: Station, off: Station) -> Wanted
    ensures { result ≡ wanted_on named.now board off }
{
    Wanted {
        airline: named.airline,
        number: named.number,
        suffix: named.suffix,
        day: named.day,
        board,
        off,
    }
}

/// The classes of a row, behind its flights: none, or a blank, a class, `=` and another one for each class that goes onto another, each named once.
#[tactic(auto, using(crate::proofs::Pairs::pairs_first, crate::proofs::Pairs::pairs_next, crate::proofs::Pairs::pairs_end, crate::proofs::Pairs::pair_shorter, crate::proofs::Pairs::none_left, crate::proofs::Pairs::named_again))]
pub(crate) fn classes_of(alloc: Global, text: &[u8]) -> Result<Items<ClassPair>, CourseKind>
    ensures ok { IfOk result (λ all. classes_from [] text.now ≡ Some all) }
    ensures fault { IfErr result (IsClassesFault text.now) }
{
    let mut all = Items::new(alloc);
    let mut rest = text;
    while !rest.is_empty() {
        let Some((pair, behind)) = pair_of(rest) else {
            return Err(CourseKind::Form);
        };
        if is_named(pair.old, all.as_slice()) {
            return Err(CourseKind::Form);
        }
        if push(&mut all, pair).is_err() {
            return Err(CourseKind::Memory);
        }
        rest = behind;
    }
    Ok(all)
}

/// A blank, a class, `=` and another class, and what follows them.
fn pair_of(bytes: &[u8]) -> Option<(ClassPair, &[u8])>
    ensures value { option_map (λ x. (x.0, x.1.now)) result ≡ first_pair bytes.now }
{
    match bytes {
        [blank, old, sign, new, rest @ ..] => {
            if *blank != b' ' || *sign != b'=' {
                return None;
            }
            let Some(old) = Class::new(*old) else {
                return None;
            };
            let Some(new) = Class::new(*new) else {
                return None;
            };
            Some((ClassPair { old, new }, rest))
        }
        _ => None,
    }
}

/// Whether one of these pairs is of a class.
fn is_named(class: Class, pairs: &[ClassPair]) -> bool
    ensures { result ≡ is_named class pairs.now }
{
    for pair in pairs {
        if pair.old == class {
            return true;
        }
    }
    false
}

fn push(all: &mut Items<ClassPair>, pair: ClassPair) -> Result<(), Memory>
    ensures { OnOk result (all.new ≡ all.old ++ pair ∷ []) }
{
    let _class: Class = pair.old;
    match all.push(pair) {
        Ok(()) => Ok(()),
        Err(_) => Err(Memory),
    }
}
