//! The line of sums: how many flights of both seasons are gone, added, changed or not compared, and the seats on those that are touched.
//! It knows no flight.
ghost use Rattle.std.specs.Prelude.{◌≡◌, ◌++◌, ◌≤◌, OnOk, decimal, filter, length};
ghost use Rattle.std.specs.List.{sum_by};
ghost use Rattle.season_changes.specs.Sums.{count_text, held_beside, is_change_counted, is_counted, seats_text, sums_text, waiting_beside};

use crate::changes::Change;
use crate::differing::What;
use itoa::Buffer;
use seat_desk::{put, put_number};
use std::alloc::AllocError;

/// What a count is of.
#[derive(Clone, Copy)]
pub(crate) enum Counted {
    Gone,
    Added,
    Legs,
    Times,
    Limits,
    Outside,
}

/// Adds the line of sums.
#[tactic(auto, using(crate::proofs::Summing::sums_put))]
pub(crate) fn put_sums(
    text: &mut Vec<u8>,
    has_journal: bool,
    all: &[Change],
) -> Result<(), AllocError>
    ensures { OnOk result (text.new.items ≡ text.old.items ++ sums_text has_journal all.now) }
{
    put_count(text, b"SUMS gone ", all, Counted::Gone)?;
    put_count(text, b" added ", all, Counted::Added)?;
    put_count(text, b" legs ", all, Counted::Legs)?;
    put_count(text, b" times ", all, Counted::Times)?;
    put_count(text, b" limits ", all, Counted::Limits)?;
    put_count(text, b" outside ", all, Counted::Outside)?;
    put_seats(text, has_journal, all)?;
    put(text, b"\n")?;
    Ok(())
}

/// Adds a word and how many of these changes are counted.
#[tactic(auto, unfolding(crate::specs::Sums::count_text))]
fn put_count(
    text: &mut Vec<u8>,
    word: &[u8],
    all: &[Change],
    counted: Counted,
) -> Result<(), AllocError>
    ensures { OnOk result (text.new.items ≡ text.old.items ++ word.now ++ count_text counted all.now) }
{
    put(text, word)?;
    put_number(text, count_of(all, counted))
}

/// How many of these changes are counted.
fn count_of(all: &[Change], counted: Counted) -> u64
    ensures { result ≡ length (filter (is_change_counted counted) all.now) }
{
    let mut count = 0usize;
    for change in all {
        if is_counted(counted, change.what) {
            count += 1;
        }
    }
    count as u64
}

fn is_counted(counted: Counted, what: What) -> bool
    ensures { result ≡ is_counted counted what }
{
    match what {
        What::Gone => matches!(counted, Counted::Gone),
        What::Added => matches!(counted, Counted::Added),
        What::Outside => matches!(counted, Counted::Outside),
        What::Changed {
            legs,
            times,
            limits,
        } => match counted {
            Counted::Legs => legs,
            Counted::Times => times,
            Counted::Limits => limits,
            Counted::Gone | Counted::Added | Counted::Outside => false,
        },
    }
}

/// Adds the seats on all of them, where there is a journal.
#[tactic(auto, unfolding(crate::specs::Sums::seats_text))]
fn put_seats(text: &mut Vec<u8>, has_journal: bool, all: &[Change]) -> Result<(), AllocError>
    ensures { OnOk result (text.new.items ≡ text.old.items ++ seats_text has_journal all.now) }
{
    if !has_journal {
        return Ok(());
    }
    put(text, b" held ")?;
    put_wide(text, held_in(all))?;
    put(text, b" waiting ")?;
    put_wide(text, waiting_in(all))?;
    Ok(())
}

fn put_wide(text: &mut Vec<u8>, number: u128) -> Result<(), AllocError>
    ensures { OnOk result (text.new.items ≡ text.old.items ++ decimal number) }
{
    let mut buffer = Buffer::new();
    put(text, buffer.format(number).as_bytes())
}

fn held_in(all: &[Change]) -> u128
    ensures { result ≡ sum_by held_beside all.now }
{
    // For the prover alone: as many as 64 bits count, so that their sum fits.
    let _ = all.len();
    let mut seats = 0u128;
    for change in all {
        seats += u128::from(change.held);
    }
    seats
}

fn waiting_in(all: &[Change]) -> u128
    ensures { result ≡ sum_by waiting_beside all.now }
{
    // For the prover alone: as many as 64 bits count, so that their sum fits.
    let _ = all.len();
    let mut seats = 0u128;
    for change in all {
        seats += u128::from(change.waiting);
    }
    seats
}
