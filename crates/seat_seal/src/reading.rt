//! A seal read from its text.
ghost use Rattle.std.specs.Prelude.{◌≡◌, Some, IfSome, option_map};
ghost use Rattle.airline_base.specs.Bytes.{same_text};
ghost use Rattle.seat_seal.specs.declared.seal.Seal.{Seal as Told};
ghost use Rattle.seat_seal.specs.Rules.{IsSeal, HasTypes};
ghost use Rattle.seat_seal.specs.Text.{seal_text};
ghost use Rattle.seat_seal.specs.RunParts.{run_from};
ghost use Rattle.seat_seal.specs.Reading.{scripts_at, changes_at, run_at, runs_at, sealed_at, sealed_behind, other_at, entry_at, second_at, head_at, seal_at};

use crate::date::Date;
use crate::digest::Digest;
use crate::fields::{
    date_behind, date_line, digest_line, era_at, imprint_line, journal_line, number_behind,
    number_line, script_line,
};
use crate::imprint::Imprint;
use crate::rules::is_seal;
use crate::run::{Run, Runs};
use crate::scripts::Scripts;
use crate::seal::{Seal, SealEntry, Sealed};
use crate::spelling::seal_text;
use airline_base::fields::{byte_of, word_of};

/// Reads a seal from its text.
///
/// What was read is spelled again, with the digest of its lines, and is a seal where that gives the bytes: a seal has one text.
pub fn read_seal(bytes: &[u8]) -> Option<Seal>
    // What is read is a seal, and the bytes are its text.
    ensures found { IfSome result (λ seal. IsSeal seal × (bytes.now ≡ seal_text seal)) }
    // What is a seal's text is read as that seal.
    ensures only { (seal : Told) → IsSeal seal → bytes.now ≡ seal_text seal → result ≡ Some seal }
{
    let seal = seal_at(bytes)?;
    if !is_seal(&seal) {
        return None;
    }
    if !is_text_of(&seal, bytes) {
        return None;
    }
    Some(seal)
}

// Whether the seal is spelled so.
fn is_text_of(seal: &Seal, bytes: &[u8]) -> bool
    ensures value { result ≡ same_text (seal_text seal.now) bytes.now }
    ensures first { HasTypes seal.now.first }
    ensures second { IfSome seal.now.second HasTypes }
{
    seal_text(seal).as_slice() == bytes
}

#[tactic(auto, unfolding(crate::specs::Reading::seal_at))]
fn seal_at(bytes: &[u8]) -> Option<Seal>
    ensures { result ≡ seal_at bytes.now }
{
    let Some(rest) = head_at(bytes) else {
        return None;
    };
    let Some((first, rest)) = entry_at(rest) else {
        return None;
    };
    second_at(first, rest)
}

// What stands behind the head of version 4 or 5.
#[tactic(auto, unfolding(crate::specs::Reading::head_at))]
fn head_at(bytes: &[u8]) -> Option<&[u8]>
    ensures { option_map (λ rest. rest.now) result ≡ head_at bytes.now }
{
    match word_of(b"SEATSEAL 4\n", bytes) {
        Some(rest) => Some(rest),
        None => word_of(b"SEATSEAL 5\n", bytes),
    }
}

// The digest's line, or a second entry.
#[tactic(auto, unfolding(crate::specs::Reading::second_at))]
fn second_at(first: SealEntry, bytes: &[u8]) -> Option<Seal>
    ensures { result ≡ second_at first bytes.now }
{
    match word_of(b"digest ", bytes) {
        Some(_) => Some(Seal {
            first,
            second: None,
        }),
        None => {
            let Some((second, _rest)) = entry_at(bytes) else {
                return None;
            };
            Some(Seal {
                first,
                second: Some(second),
            })
        }
    }
}

#[tactic(auto, unfolding(crate::specs::Reading::entry_at))]
fn entry_at(bytes: &[u8]) -> Option<(SealEntry, &[u8])>
    ensures { option_map (λ x. (x.0, x.1.now)) result ≡ entry_at bytes.now }
{
    match other_at(bytes) {
        Some((imprint, rest)) => Some((SealEntry::Other(imprint), rest)),
        None => {
            let Some((sealed, rest)) = sealed_at(bytes) else {
                return None;
            };
            Some((SealEntry::Sealed(sealed), rest))
        }
    }
}

#[tactic(auto, unfolding(crate::specs::Reading::other_at))]
fn other_at(bytes: &[u8]) -> Option<(Imprint, &[u8])>
    ensures { option_map (λ x. (x.0, x.1.now)) result ≡ other_at bytes.now }
{
    let Some((imprint, rest)) = imprint_line(b"other ", bytes) else {
        return None;
    };
    let Some(rest) = word_of(b"END\n", rest) else {
        return None;
    };
    Some((imprint, rest))
}

#[tactic(auto, unfolding(crate::specs::Reading::sealed_at))]
fn sealed_at(bytes: &[u8]) -> Option<(Sealed, &[u8])>
    ensures { option_map (λ x. (x.0, x.1.now)) result ≡ sealed_at bytes.now }
{
    let Some((set, rest)) = digest_line(b"set ", bytes) else {
        return None;
    };
    let Some((limits, rest)) = digest_line(b"limits ", rest) else {
        return None;
    };
    let Some((first, rest)) = date_line(b"first ", rest) else {
        return None;
    };
    let Some((days, rest)) = number_line(b"days ", rest, 366) else {
        return None;
    };
    sealed_behind(set, limits, first, days as u16, rest)
}

// The same, of what stands behind the lines of what it belongs to.
fn sealed_behind(
    set: Digest,
    limits: Digest,
    first: Date,
    days: u16,
    bytes: &[u8],
) -> Option<(Sealed, &[u8])>
    ensures { option_map (λ x. (x.0, x.1.now)) result ≡ sealed_behind set limits first days bytes.now }
{
    let (era, rest) = era_at(bytes);
    let Some((journal, rest)) = journal_line(b"journal ", rest) else {
        return None;
    };
    let (runs, rest) = runs_at(rest);
    let Some(rest) = word_of(b"END\n", rest) else {
        return None;
    };
    let sealed = Sealed {
        set,
        limits,
        first,
        days,
        era,
        journal,
        runs,
    };
    Some((sealed, rest))
}

fn runs_at(bytes: &[u8]) -> (Runs, &[u8])
    ensures runs { result.0 ≡ (runs_at bytes.now).0 }
    ensures rest { result.1.now ≡ (runs_at bytes.now).1 }
{
    let mut runs = Runs::new();
    let mut rest = bytes;
    for _ in 0..128u8 {
        let Some((one, after)) = run_at(rest) else {
            return (runs, rest);
        };
        runs.push(one);
        rest = after;
    }
    (runs, rest)
}

#[tactic(auto, unfolding(crate::specs::Reading::run_at))]
fn run_at(bytes: &[u8]) -> Option<(Run, &[u8])>
    ensures { option_map (λ x. (x.0, x.1.now)) result ≡ run_at bytes.now }
{
    let Some((behind, rest)) = number_behind(b"run behind ", bytes, 999_999) else {
        return None;
    };
    let Some((today, rest)) = date_behind(b" today ", rest) else {
        return None;
    };
    let Some(rest) = byte_of(b'\n', rest) else {
        return None;
    };
    Some(run_from(behind as u32, today, rest))
}

// The scripts and the changes of a run.
fn run_from(behind: u32, today: Date, bytes: &[u8]) -> (Run, &[u8])
    ensures { (result.0, result.1.now) ≡ run_from behind today bytes.now }
{
    let (scripts, rest) = scripts_at(bytes);
    let (changes, rest) = changes_at(rest);
    let run = Run {
        behind,
        today,
        scripts,
        changes,
    };
    (run, rest)
}

fn scripts_at(bytes: &[u8]) -> (Scripts, &[u8])
    ensures scripts { result.0 ≡ (scripts_at bytes.now).0 }
    ensures rest { result.1.now ≡ (scripts_at bytes.now).1 }
{
    let mut scripts = Scripts::new();
    let mut rest = bytes;
    for _ in 0..8u8 {
        let Some((script, after)) = script_line(b"script ", rest) else {
            return (scripts, rest);
        };
        scripts.push(script);
        rest = after;
    }
    (scripts, rest)
}

#[tactic(auto, unfolding(crate::specs::Reading::changes_at))]
fn changes_at(bytes: &[u8]) -> (Option<Imprint>, &[u8])
    ensures changes { result.0 ≡ (changes_at bytes.now).0 }
    ensures rest { result.1.now ≡ (changes_at bytes.now).1 }
{
    match imprint_line(b"changes ", bytes) {
        Some((imprint, rest)) => (Some(imprint), rest),
        None => (None, bytes),
    }
}
