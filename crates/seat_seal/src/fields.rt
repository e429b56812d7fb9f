//! The fields of a seal's text, and its lines.
ghost use Rattle.std.specs.Prelude.{◌≡◌, ◌≤◌, ◌<◌, IfSome, option_map, length};
ghost use Rattle.seat_seal.specs.Behind.{behind_byte, behind_word};
ghost use Rattle.seat_seal.specs.Reading.{digest_at, number_at, two_at, date_at, era_at, imprint_at, state_at, journal_at, script_at, line_at, today_at, carried_at};

use crate::date::Date;
use crate::digest::Digest;
use crate::era::Era;
use crate::imprint::Imprint;
use crate::scripts::Script;
use crate::seal::{JournalState, SealedJournal};
use airline_base::fields::{byte_of, digits_of, long_value_of, two_are, two_value, word_of};

#[tactic(auto, unfolding(crate::specs::Reading::digest_at))]
pub fn digest_at(bytes: &[u8]) -> Option<(Digest, &[u8])>
    ensures { option_map (λ x. (x.0, x.1.now)) result ≡ digest_at bytes.now }
{
    let Some((front, rest)) = bytes.split_at_checked(64) else {
        return None;
    };
    match Digest::read(front) {
        Some(digest) => Some((digest, rest)),
        None => None,
    }
}

#[tactic(auto, unfolding(crate::specs::Reading::number_at))]
fn number_at(bytes: &[u8], most: u64) -> Option<(u64, &[u8])>
    ensures value { option_map (λ x. (x.0, x.1.now)) result ≡ number_at most bytes.now }
    ensures bound { IfSome result (λ x. x.0 ≤ most) }
{
    let (digits, rest) = digits_of(bytes);
    if digits.len() > 10 {
        return None;
    }
    let number = long_value_of(digits);
    if number > most {
        return None;
    }
    Some((number, rest))
}

/// A number of at most `most` behind this word.
pub fn number_behind<'a>(word: &[u8], bytes: &'a [u8], most: u64) -> Option<(u64, &'a [u8])>
    ensures value { option_map (λ x. (x.0, x.1.now)) result ≡ behind_word word.now (number_at most) bytes.now }
    ensures bound { IfSome result (λ x. x.0 ≤ most) }
{
    let Some(rest) = word_of(word, bytes) else {
        return None;
    };
    number_at(rest, most)
}

fn two_at(bytes: &[u8]) -> Option<(u8, &[u8])>
    ensures value { option_map (λ x. (x.0, x.1.now)) result ≡ two_at bytes.now }
    ensures bound { IfSome result (λ x. x.0 ≤ 99) }
{
    match bytes {
        [tens, units, rest @ ..] if two_are(*tens, *units) => Some((
            two_value(*tens, *units),
            rest,
        )),
        _ => None,
    }
}

fn two_behind(byte: u8, bytes: &[u8]) -> Option<(u8, &[u8])>
    ensures value { option_map (λ x. (x.0, x.1.now)) result ≡ behind_byte byte two_at bytes.now }
    ensures bound { IfSome result (λ x. x.0 ≤ 99) }
{
    let Some(rest) = byte_of(byte, bytes) else {
        return None;
    };
    two_at(rest)
}

#[tactic(auto, unfolding(crate::specs::Reading::date_at))]
fn date_at(bytes: &[u8]) -> Option<(Date, &[u8])>
    ensures { option_map (λ x. (x.0, x.1.now)) result ≡ date_at bytes.now }
{
    let Some((century, rest)) = two_at(bytes) else {
        return None;
    };
    let Some((year, rest)) = two_at(rest) else {
        return None;
    };
    let Some((month, rest)) = two_behind(b'-', rest) else {
        return None;
    };
    let Some((day, rest)) = two_behind(b'-', rest) else {
        return None;
    };
    let date = Date {
        year: century as u16 * 100 + year as u16,
        month,
        day,
    };
    Some((date, rest))
}

/// A date behind this word.
pub fn date_behind<'a>(word: &[u8], bytes: &'a [u8]) -> Option<(Date, &'a [u8])>
    ensures { option_map (λ x. (x.0, x.1.now)) result ≡ behind_word word.now date_at bytes.now }
{
    let Some(rest) = word_of(word, bytes) else {
        return None;
    };
    date_at(rest)
}

#[tactic(auto, unfolding(crate::specs::Reading::imprint_at))]
pub fn imprint_at(bytes: &[u8]) -> Option<(Imprint, &[u8])>
    ensures { option_map (λ x. (x.0, x.1.now)) result ≡ imprint_at bytes.now }
{
    let Some((digest, rest)) = digest_at(bytes) else {
        return None;
    };
    let Some((count, rest)) = number_behind(b" bytes ", rest, 9_999_999_999) else {
        return None;
    };
    Some((
        Imprint {
            digest,
            bytes: count,
        },
        rest,
    ))
}

#[tactic(auto, unfolding(crate::specs::Reading::state_at))]
fn state_at(bytes: &[u8]) -> Option<(JournalState, &[u8])>
    ensures { option_map (λ x. (x.0, x.1.now)) result ≡ state_at bytes.now }
{
    match word_of(b" open", bytes) {
        Some(rest) => Some((JournalState::Open, rest)),
        None => match word_of(b" closed", bytes) {
            Some(rest) => Some((JournalState::Closed, rest)),
            None => None,
        },
    }
}

#[tactic(auto, unfolding(crate::specs::Reading::journal_at))]
pub fn journal_at(bytes: &[u8]) -> Option<(SealedJournal, &[u8])>
    ensures { option_map (λ x. (x.0, x.1.now)) result ≡ journal_at bytes.now }
{
    let Some((digest, rest)) = digest_at(bytes) else {
        return None;
    };
    let Some((lines, rest)) = number_behind(b" lines ", rest, 999_999) else {
        return None;
    };
    let Some((count, rest)) = number_behind(b" bytes ", rest, 9_999_999_999) else {
        return None;
    };
    let Some((state, rest)) = state_at(rest) else {
        return None;
    };
    let journal = SealedJournal {
        imprint: Imprint {
            digest,
            bytes: count,
        },
        lines: lines as u32,
        state,
    };
    Some((journal, rest))
}

#[tactic(auto, unfolding(crate::specs::Reading::script_at))]
fn script_at(bytes: &[u8]) -> Option<(Script, &[u8])>
    ensures { option_map (λ x. (x.0, x.1.now)) result ≡ script_at bytes.now }
{
    let Some((session, rest)) = number_at(bytes, 8) else {
        return None;
    };
    let Some(rest) = byte_of(b' ', rest) else {
        return None;
    };
    let Some((imprint, rest)) = imprint_at(rest) else {
        return None;
    };
    let script = Script {
        session: session as u8,
        imprint,
    };
    Some((script, rest))
}

// ---- lines: a word, a field and LF

#[tactic(auto, unfolding(crate::specs::Reading::line_at))]
pub fn digest_line<'a>(word: &[u8], bytes: &'a [u8]) -> Option<(Digest, &'a [u8])>
    ensures { option_map (λ x. (x.0, x.1.now)) result ≡ line_at word.now digest_at bytes.now }
{
    let Some(rest) = word_of(word, bytes) else {
        return None;
    };
    let Some((digest, rest)) = digest_at(rest) else {
        return None;
    };
    let Some(rest) = byte_of(b'\n', rest) else {
        return None;
    };
    Some((digest, rest))
}

#[tactic(auto, unfolding(crate::specs::Reading::line_at))]
pub fn date_line<'a>(word: &[u8], bytes: &'a [u8]) -> Option<(Date, &'a [u8])>
    ensures { option_map (λ x. (x.0, x.1.now)) result ≡ line_at word.now date_at bytes.now }
{
    let Some((date, rest)) = date_behind(word, bytes) else {
        return None;
    };
    let Some(rest) = byte_of(b'\n', rest) else {
        return None;
    };
    Some((date, rest))
}

#[tactic(auto, unfolding(crate::specs::Reading::line_at))]
pub fn number_line<'a>(word: &[u8], bytes: &'a [u8], most: u64) -> Option<(u64, &'a [u8])>
    ensures value { option_map (λ x. (x.0, x.1.now)) result ≡ line_at word.now (number_at most) bytes.now }
    ensures bound { IfSome result (λ x. x.0 ≤ most) }
{
    let Some((number, rest)) = number_behind(word, bytes, most) else {
        return None;
    };
    let Some(rest) = byte_of(b'\n', rest) else {
        return None;
    };
    Some((number, rest))
}

#[tactic(auto, unfolding(crate::specs::Reading::line_at))]
pub fn imprint_line<'a>(word: &[u8], bytes: &'a [u8]) -> Option<(Imprint, &'a [u8])>
    ensures { option_map (λ x. (x.0, x.1.now)) result ≡ line_at word.now imprint_at bytes.now }
{
    let Some(rest) = word_of(word, bytes) else {
        return None;
    };
    let Some((imprint, rest)) = imprint_at(rest) else {
        return None;
    };
    let Some(rest) = byte_of(b'\n', rest) else {
        return None;
    };
    Some((imprint, rest))
}

#[tactic(auto, unfolding(crate::specs::Reading::line_at))]
pub fn journal_line<'a>(word: &[u8], bytes: &'a [u8]) -> Option<(SealedJournal, &'a [u8])>
    ensures { option_map (λ x. (x.0, x.1.now)) result ≡ line_at word.now journal_at bytes.now }
{
    let Some(rest) = word_of(word, bytes) else {
        return None;
    };
    let Some((journal, rest)) = journal_at(rest) else {
        return None;
    };
    let Some(rest) = byte_of(b'\n', rest) else {
        return None;
    };
    Some((journal, rest))
}

#[tactic(auto, unfolding(crate::specs::Reading::line_at))]
pub fn script_line<'a>(word: &[u8], bytes: &'a [u8]) -> Option<(Script, &'a [u8])>
    ensures { option_map (λ x. (x.0, x.1.now)) result ≡ line_at word.now script_at bytes.now }
{
    let Some(rest) = word_of(word, bytes) else {
        return None;
    };
    let Some((script, rest)) = script_at(rest) else {
        return None;
    };
    let Some(rest) = byte_of(b'\n', rest) else {
        return None;
    };
    Some((script, rest))
}

// ---- the lines of an era

/// The line of the epoch, and those of the host's day and of the journal to which the bookings were carried, where they stand there, and else the first era.
#[tactic(auto, unfolding(crate::specs::Reading::era_at))]
pub fn era_at(bytes: &[u8]) -> (Era, &[u8])
    ensures era { result.0 ≡ (era_at bytes.now).0 }
    ensures rest { result.1.now ≡ (era_at bytes.now).1 }
{
    let Some((epoch, rest)) = number_line(b"epoch ", bytes, 999_999) else {
        return (Era::first(), bytes);
    };
    let (today, rest) = today_at(rest);
    let (carried, rest) = carried_at(rest);
    let era = Era {
        epoch: epoch as u32,
        today,
        carried,
    };
    (era, rest)
}

#[tactic(auto, unfolding(crate::specs::Reading::today_at))]
fn today_at(bytes: &[u8]) -> (Option<Date>, &[u8])
    ensures today { result.0 ≡ (today_at bytes.now).0 }
    ensures rest { result.1.now ≡ (today_at bytes.now).1 }
{
    match date_line(b"today ", bytes) {
        Some((date, rest)) => (Some(date), rest),
        None => (None, bytes),
    }
}

#[tactic(auto, unfolding(crate::specs::Reading::carried_at))]
fn carried_at(bytes: &[u8]) -> (Option<Imprint>, &[u8])
    ensures carried { result.0 ≡ (carried_at bytes.now).0 }
    ensures rest { result.1.now ≡ (carried_at bytes.now).1 }
{
    match imprint_line(b"carried ", bytes) {
        Some((imprint, rest)) => (Some(imprint), rest),
        None => (None, bytes),
    }
}
