//! The line of sums of a report: how many live bookings have each code, and their seats.
//! It knows no line of a booking.
ghost use Rattle.std.specs.Prelude.{◌≡◌, ◌++◌, OnOk, decimal, flat_map};
ghost use Rattle.carry_reports.specs.Counting.{counted_text};
ghost use Rattle.carry_reports.specs.Sums.{sums_text};

use crate::counting::{CodeSum, sums_of};
use crate::fating::Fated;
use crate::line::put_word;
use itoa::Buffer;
use seat_desk::{put, put_number};
use std::alloc::AllocError;

/// Adds the line of sums: each code, the bookings that have it, and their seats.
#[tactic(auto, using(crate::proofs::Summing::sums_put))]
pub(crate) fn put_sums(text: &mut Vec<u8>, all: &[Fated]) -> Result<(), AllocError>
    ensures { OnOk result (text.new.items ≡ text.old.items ++ sums_text all.now) }
{
    put(text, b"SUMS")?;
    put_each(text, &sums_of(all))?;
    put(text, b"\n")
}

fn put_each(text: &mut Vec<u8>, sums: &[CodeSum]) -> Result<(), AllocError>
    ensures { OnOk result (text.new.items ≡ text.old.items ++ flat_map counted_text sums.now) }
{
    for sum in sums {
        put_sum(text, sum)?;
    }
    Ok(())
}

/// Adds a code, how many live bookings have it, and their seats.
#[tactic(auto, using(crate::proofs::Summing::sum_put))]
fn put_sum(text: &mut Vec<u8>, sum: &CodeSum) -> Result<(), AllocError>
    ensures { OnOk result (text.new.items ≡ text.old.items ++ counted_text sum.now) }
{
    put(text, b" ")?;
    put_word(text, sum.code)?;
    put(text, b" ")?;
    put_number(text, sum.count)?;
    put(text, b" ")?;
    put_wide(text, sum.seats)
}

fn put_wide(text: &mut Vec<u8>, number: u128) -> Result<(), AllocError>
    ensures { OnOk result (text.new.items ≡ text.old.items ++ decimal number) }
{
    let mut buffer = Buffer::new();
    put(text, buffer.format(number).as_bytes())
}
