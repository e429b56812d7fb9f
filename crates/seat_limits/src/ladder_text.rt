//! Ladders as text: entries as `F010/000`, or `F010/000N` with the mark, with single blanks between them.
ghost use Rattle.std.specs.Prelude.{◌≡◌, ◌≤◌, ◌+◌, ◌*◌, ◌<◌, ℕ, Bool, List, IfErr, IfOk, is_some, length, option_map, Ok, Err};
ghost use Rattle.seat_nesting.specs.Nesting.{Steps, IsLadder};
ghost use Rattle.seat_limits.specs.LadderText.{SpellsSteps, IsLadderRefusal, three_in, mark_at, entry_at, step_in, steps_in, ladder_in};

use crate::limit_fault::LimitKind;
use airline_base::Class;
use airline_base::fields::byte_of;
use arrayvec::ArrayVec;
use seat_nesting::{Ladder, LadderFault, Step};

/// 26 entries of nine bytes, and the 25 blanks between them.
const LONGEST: usize = 259;

/// The ladder that a text spells, as `F112/004 Y100/010N`: [`LimitKind::Entry`] where it is no
/// list of entries, and else [`LimitKind::Ladder`] with the first fault of its steps.
pub fn read_ladder(text: &[u8]) -> Result<Ladder, LimitKind>
    // What is read is spelled so.
    ensures found { IfOk result (SpellsSteps text.now) }
    // The ladder that is spelled so is read.
    ensures only { (l : Steps) → SpellsSteps text.now l → IsLadder l → result ≡ Ok l }
    ensures fault { IfErr result (IsLadderRefusal text.now) }
    ensures value { result ≡ ladder_in text.now }
{
    ladder_of(text)
}

/// The ladder of a text, or the first fault from left to right.
#[tactic(auto, unfolding(crate::specs::LadderText::ladder_in))]
pub(crate) fn ladder_of(text: &[u8]) -> Result<Ladder, LimitKind>
    ensures { result ≡ ladder_in text.now }
{
    if text.len() > LONGEST {
        return Err(fault_of_long(text));
    }
    let Some(steps) = steps_of(text) else {
        return Err(LimitKind::Entry);
    };
    match Ladder::new(steps.as_slice()) {
        Ok(ladder) => Ok(ladder),
        Err(fault) => Err(LimitKind::Ladder(fault)),
    }
}

/// Why a text that is longer than a ladder's is none: more than 26 entries repeat a class.
#[tactic(auto, using(crate::proofs::LadderLaws::long_text))]
fn fault_of_long(text: &[u8]) -> LimitKind
    requires { 259 < length text.now }
    ensures { ladder_in text.now ≡ Err result }
{
    if are_entries(text) {
        LimitKind::Ladder(LadderFault::RepeatedClass)
    } else {
        LimitKind::Entry
    }
}

/// Whether the text is one entry or more.
#[tactic(auto, using(crate::proofs::LadderTexts::one_entry, crate::proofs::LadderTexts::last_entry, crate::proofs::LadderTexts::bad_entry, crate::proofs::LadderTexts::no_entry, crate::proofs::LadderTexts::entry_length, crate::proofs::LadderTexts::blank_length))]
fn are_entries(text: &[u8]) -> bool
    ensures { result ≡ is_some (steps_in text.now) }
{
    let mut rest = text;
    while let Some((_, after)) = entry_of(rest) {
        if after.is_empty() {
            return true;
        }
        let Some(next) = byte_of(b' ', after) else {
            return false;
        };
        rest = next;
    }
    false
}

/// The steps of a text that is no longer than 26 entries with the mark: at most 28.
#[tactic(auto, using(crate::proofs::LadderTexts::one_entry, crate::proofs::LadderTexts::last_entry, crate::proofs::LadderTexts::bad_entry, crate::proofs::LadderTexts::no_entry, crate::proofs::LadderTexts::entry_length, crate::proofs::LadderTexts::blank_length))]
fn steps_of(text: &[u8]) -> Option<ArrayVec<Step, 28>>
    requires { length text.now ≤ 259 }
    ensures { option_map (λ v. v.items) result ≡ steps_in text.now }
{
    let mut steps = ArrayVec::new();
    let mut rest = text;
    while let Some((step, after)) = entry_of(rest) {
        steps.push(step);
        if after.is_empty() {
            return Some(steps);
        }
        let Some(next) = byte_of(b' ', after) else {
            return None;
        };
        rest = next;
    }
    None
}

/// The step that the first eight bytes write, or nine with the mark, and what follows them.
pub(crate) fn entry_of(bytes: &[u8]) -> Option<(Step, &[u8])>
    ensures { option_map (λ x. (x.0, x.1.now)) result ≡ entry_at bytes.now }
{
    let [class, a, b, c, b'/', d, e, f, rest @ ..] = bytes else {
        return None;
    };
    let (listed, rest) = mark_of(rest);
    match step_of(*class, three_of(*a, *b, *c), three_of(*d, *e, *f), listed) {
        Some(step) => Some((step, rest)),
        None => None,
    }
}

/// The step of a class letter and two numbers, where all are some.
fn step_of(class: u8, limit: Option<u16>, wait: Option<u16>, listed: bool) -> Option<Step>
    ensures { result ≡ step_in class limit wait listed }
{
    let Some(limit) = limit else {
        return None;
    };
    let Some(wait) = wait else {
        return None;
    };
    match Class::new(class) {
        Some(class) => Some(Step {
            class,
            limit,
            wait,
            listed,
            closed: false,
        }),
        None => None,
    }
}

/// Whether the mark stands at the front, and what follows it.
fn mark_of(bytes: &[u8]) -> (bool, &[u8])
    ensures { ◌≡◌ {A = Bool × List ℕ} (result.0, result.1.now) (mark_at bytes.now) }
{
    match bytes {
        [b'N', rest @ ..] => (true, rest),
        _ => (false, bytes),
    }
}

/// The number that three digits write.
fn three_of(a: u8, b: u8, c: u8) -> Option<u16>
    ensures { result ≡ three_in a b c }
{
    if a.is_ascii_digit() && b.is_ascii_digit() && c.is_ascii_digit() {
        Some(u16::from(a - b'0') * 100 + u16::from(b - b'0') * 10 + u16::from(c - b'0'))
    } else {
        None
    }
}
