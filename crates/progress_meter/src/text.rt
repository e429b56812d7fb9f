//! How the line of a meter is written.
ghost use Rattle.std.specs.Prelude.{◌≡◌, ◌+◌, ◌/◌, ◌%◌, ◌≤◌, ◌++◌, codes, decimal, length};
ghost use Rattle.progress_meter.specs.Lines.{behind_text, booking_text, cleared_text, erased, grouped, megabytes, meter_text, reading_text, replaying_text, size_text, stage_text, thousands, three_digits};

use crate::stand::{Stage, Stand};
use airline_base::spelling::put;
use arrayvec::ArrayVec;
use itoa::Buffer;

/// The most bytes that put a line in the place of the one before.
pub const MOST_LINE: usize = 256;

/// The bytes that put a line in the place of the one before.
pub type MeterText = ArrayVec<u8, MOST_LINE>;

/// What takes the line away: CR, and what stands behind it in the line is erased (ECMA-48, 8.3.41, EL).
const CLEARED: [u8; 4] = *b"\r\x1b[K";

const ERASED: [u8; 3] = *b"\x1b[K";

/// `seatdesk: read 12.4 of 61.0 MB, 3 s`, in the place of the line before: megabytes of 1,000,000 bytes, to a tenth and rounded down, and
/// whole seconds since the command began. It takes no memory.
#[tactic(auto, unfolding(crate::specs::Lines::meter_text))]
pub fn meter_text(stand: &Stand) -> MeterText
    ensures { result.items ≡ meter_text stand.now }
{
    let mut text = ArrayVec::new();
    put(&mut text, b"\rseatdesk: ");
    put_stage(&mut text, stand);
    put_seconds(&mut text, stand.seconds);
    text
}

/// What takes the line away.
pub fn cleared_text() -> &'static [u8]
    ensures { result.now ≡ cleared_text }
{
    &CLEARED
}

#[tactic(auto, unfolding(crate::specs::Lines::stage_text))]
fn put_stage(text: &mut MeterText, stand: &Stand)
    requires room { length text.old.items + 210 ≤ 256 }
    ensures text { text.new.items ≡ text.old.items ++ stage_text stand.now.stage stand.now }
    ensures len { length text.new.items ≤ length text.old.items + 210 }
{
    match stand.stage {
        Stage::Reading => put_reading(text, stand),
        Stage::Replaying => put_replaying(text, stand),
        Stage::Booking => put_booking(text, stand),
    }
}

fn put_seconds(text: &mut MeterText, seconds: u64)
    requires room { length text.old.items + 27 ≤ 256 }
    ensures text { text.new.items ≡ text.old.items ++ (codes ", " ++ (decimal seconds ++ (codes " s" ++ erased))) }
{
    put(text, b", ");
    put_count(text, seconds);
    put(text, b" s");
    put(text, &ERASED);
}

#[tactic(auto, unfolding(crate::specs::Lines::reading_text))]
fn put_reading(text: &mut MeterText, stand: &Stand)
    requires room { length text.old.items + 210 ≤ 256 }
    ensures text { text.new.items ≡ text.old.items ++ reading_text stand.now }
    ensures len { length text.new.items ≤ length text.old.items + 210 }
{
    put(text, b"read ");
    put_megabytes(text, stand.read);
    put_size(text, stand.size);
    put(text, b" MB");
}

#[tactic(auto, unfolding(crate::specs::Lines::size_text))]
fn put_size(text: &mut MeterText, size: Option<u64>)
    requires room { length text.old.items + 45 ≤ 256 }
    ensures text { text.new.items ≡ text.old.items ++ size_text size }
    ensures len { length text.new.items ≤ length text.old.items + 45 }
{
    if let Some(size) = size {
        put(text, b" of ");
        put_megabytes(text, size);
    }
}

#[tactic(auto, unfolding(crate::specs::Lines::replaying_text))]
fn put_replaying(text: &mut MeterText, stand: &Stand)
    requires room { length text.old.items + 210 ≤ 256 }
    ensures text { text.new.items ≡ text.old.items ++ replaying_text stand.now }
    ensures len { length text.new.items ≤ length text.old.items + 210 }
{
    if stand.lines == 0 {
        put(text, b"working on ");
        put_megabytes(text, stand.read);
        put(text, b" MB");
    } else {
        put(text, b"replaying ");
        put_grouped(text, stand.lines);
        put(text, b" lines");
    }
}

#[tactic(auto, unfolding(crate::specs::Lines::booking_text))]
fn put_booking(text: &mut MeterText, stand: &Stand)
    requires room { length text.old.items + 210 ≤ 256 }
    ensures text { text.new.items ≡ text.old.items ++ booking_text stand.now }
    ensures len { length text.new.items ≤ length text.old.items + 210 }
{
    if stand.lines == 0 {
        put(text, b"booking");
    } else {
        put_behind(text, stand.lines);
    }
}

#[tactic(auto, unfolding(crate::specs::Lines::behind_text))]
fn put_behind(text: &mut MeterText, lines: u64)
    requires room { length text.old.items + 180 ≤ 256 }
    ensures text { text.new.items ≡ text.old.items ++ behind_text lines }
    ensures len { length text.new.items ≤ length text.old.items + 180 }
{
    put(text, b"booking behind ");
    put_grouped(text, lines);
    put(text, b" lines");
}

#[tactic(auto, unfolding(crate::specs::Lines::megabytes))]
fn put_megabytes(text: &mut MeterText, bytes: u64)
    requires room { length text.old.items + 41 ≤ 256 }
    ensures text { text.new.items ≡ text.old.items ++ megabytes bytes }
    ensures len { length text.new.items ≤ length text.old.items + 41 }
{
    put_count(text, bytes / 1_000_000);
    put(text, b".");
    put_count(text, bytes / 100_000 % 10);
}

#[tactic(auto, unfolding(crate::specs::Lines::grouped))]
fn put_grouped(text: &mut MeterText, number: u64)
    requires room { length text.old.items + 142 ≤ 256 }
    ensures text { text.new.items ≡ text.old.items ++ grouped number }
    ensures len { length text.new.items ≤ length text.old.items + 142 }
{
    if number < 1_000_000 {
        put_thousands(text, number);
    } else {
        put_count(text, number / 1_000_000);
        put(text, b",");
        put_digits(text, number / 1_000);
        put(text, b",");
        put_digits(text, number);
    }
}

#[tactic(auto, unfolding(crate::specs::Lines::thousands))]
fn put_thousands(text: &mut MeterText, number: u64)
    requires room { length text.old.items + 81 ≤ 256 }
    ensures text { text.new.items ≡ text.old.items ++ thousands number }
    ensures len { length text.new.items ≤ length text.old.items + 81 }
{
    if number < 1_000 {
        put_count(text, number);
    } else {
        put_count(text, number / 1_000);
        put(text, b",");
        put_digits(text, number);
    }
}

#[tactic(auto, unfolding(crate::specs::Lines::three_digits))]
fn put_digits(text: &mut MeterText, number: u64)
    requires room { length text.old.items + 60 ≤ 256 }
    ensures text { text.new.items ≡ text.old.items ++ three_digits number }
    ensures len { length text.new.items ≤ length text.old.items + 60 }
{
    put_count(text, number / 100 % 10);
    put_count(text, number / 10 % 10);
    put_count(text, number % 10);
}

// At most twenty digits.
fn put_count(text: &mut MeterText, number: u64)
    requires room { length text.old.items + 20 ≤ 256 }
    ensures text { text.new.items ≡ text.old.items ++ decimal number }
    ensures len { length text.new.items ≤ length text.old.items + 20 }
{
    let mut buffer = Buffer::new();
    put(text, buffer.format(number).as_bytes());
}
