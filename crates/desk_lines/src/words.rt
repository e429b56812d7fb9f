//! The words to the host.
ghost use Rattle.std.specs.Prelude.{◌≡◌, IfSome, Some, codes, option_map};
ghost use Rattle.airline_base.specs.Days.{IsCenturyDay};
ghost use Rattle.airline_base.specs.Fields.{word_at};
ghost use Rattle.desk_lines.specs.Lines.{IsRightMeaning, MeansLook, MeansWord};
ghost use Rattle.desk_lines.specs.Words.{again_at, count_at, epoch_at, epoch_of, first_of, hello_at, hello_of, leave_at, plain_word};

use crate::desk::{Meaning, Wrong};
use airimp_lines::read_look;
use airline_base::fields::{byte_of, digits_of, locator_of, value_of, word_of};
use airline_base::{Day, Locator};

/// The most digits of a number of lines, of a call or of an epoch.
const MOST_DIGITS: usize = 6;

/// What a word to the host means.
pub(crate) fn word(text: &[u8], today: Day) -> Meaning
    requires today { IsCenturyDay today }
    ensures means { MeansWord today text.now result }
    ensures right { IsRightMeaning result }
{
    match plain_word(text) {
        Some(plain) => plain,
        None => looking(text, today),
    }
}

/// A word that is no look.
pub(crate) fn plain_word(text: &[u8]) -> Option<Meaning>
    ensures value { result ≡ plain_word text.now }
    ensures right { IfSome result IsRightMeaning }
{
    match leave(text) {
        Some(plain) => Some(plain),
        None => asking(text),
    }
}

fn asking(text: &[u8]) -> Option<Meaning>
    ensures value { result ≡ first_of (again_at text.now) (hello_at text.now) }
    ensures right { IfSome result IsRightMeaning }
{
    match again(text) {
        Some(plain) => Some(plain),
        None => hello(text),
    }
}

// `?BYE`
#[tactic(auto, unfolding(crate::specs::Words::leave_at))]
fn leave(text: &[u8]) -> Option<Meaning>
    ensures value { result ≡ leave_at text.now }
    ensures right { IfSome result IsRightMeaning }
{
    let Some(rest) = word_of(b"?BYE", text) else {
        return None;
    };
    if !rest.is_empty() {
        return None;
    }
    Some(Meaning::Leave)
}

// `?AGAIN 25`
#[tactic(auto, unfolding(crate::specs::Words::again_at))]
fn again(text: &[u8]) -> Option<Meaning>
    ensures value { result ≡ again_at text.now }
    ensures right { IfSome result IsRightMeaning }
{
    let Some(rest) = word_of(b"?AGAIN ", text) else {
        return None;
    };
    let Some((count, rest)) = count_of(rest) else {
        return None;
    };
    if !rest.is_empty() {
        return None;
    }
    Some(Meaning::Again(count))
}

// `?HELLO K7M2QP` and `?HELLO K7M2QP 2`
#[tactic(auto, unfolding(crate::specs::Words::hello_at))]
fn hello(text: &[u8]) -> Option<Meaning>
    ensures value { result ≡ hello_at text.now }
    ensures right { IfSome result IsRightMeaning }
{
    let Some(rest) = word_of(b"?HELLO ", text) else {
        return None;
    };
    let Some((name, rest)) = locator_of(rest) else {
        return None;
    };
    hello_of(name, rest)
}

// A hello behind whose word this stands: nothing, or an epoch.
fn hello_of(name: Locator, rest: &[u8]) -> Option<Meaning>
    ensures value { result ≡ hello_of name rest.now }
    ensures right { IfSome result IsRightMeaning }
{
    if rest.is_empty() {
        return Some(Meaning::Hello(name, None));
    }
    match epoch_behind(rest) {
        Some(epoch) => Some(Meaning::Hello(name, Some(epoch))),
        None => None,
    }
}

// A blank and the number of an epoch.
#[tactic(auto, unfolding(crate::specs::Words::epoch_at))]
fn epoch_behind(text: &[u8]) -> Option<u32>
    ensures { result ≡ epoch_at text.now }
{
    let Some(rest) = byte_of(b' ', text) else {
        return None;
    };
    let Some((epoch, rest)) = count_of(rest) else {
        return None;
    };
    if !rest.is_empty() {
        return None;
    }
    epoch_of(epoch)
}

// Epochs begin at 1.
fn epoch_of(number: u32) -> Option<u32>
    ensures { result ≡ epoch_of number }
{
    if number == 0 { None } else { Some(number) }
}

/// The number that the digits at the front spell, one to six of them.
#[tactic(auto, unfolding(crate::specs::Words::count_at))]
pub(crate) fn count_of(bytes: &[u8]) -> Option<(u32, &[u8])>
    ensures { option_map (λ x. (x.0, x.1.now)) result ≡ count_at bytes.now }
{
    let (digits, rest) = digits_of(bytes);
    if digits.is_empty() || digits.len() > MOST_DIGITS {
        return None;
    }
    Some((value_of(digits), rest))
}

// A look, where something is looked at.
fn looking(text: &[u8], today: Day) -> Meaning
    requires today { IsCenturyDay today }
    ensures means { MeansLook today (word_at (codes "? ") text.now) result }
    ensures right { IsRightMeaning result }
{
    match word_of(b"? ", text) {
        Some(named) => look(named, today),
        None => Meaning::Wrong(Wrong::Word),
    }
}

fn look(text: &[u8], today: Day) -> Meaning
    requires today { IsCenturyDay today }
    ensures means { MeansLook today (Some text.now) result }
    ensures right { IsRightMeaning result }
{
    match read_look(text, today) {
        Some(look) => Meaning::Look(look),
        None => Meaning::Wrong(Wrong::Word),
    }
}
