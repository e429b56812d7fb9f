//! How a host's status is written.
ghost use Rattle.std.specs.Prelude.{◌≡◌, ◌+◌, ◌/◌, ◌%◌, ◌≤◌, ◌++◌, codes, decimal, length, position};
ghost use Rattle.airline_base.specs.Lines.{is_line_feed};
ghost use Rattle.desk_status.specs.Tallies.{counted_text, ends_line, grouped_text, is_status, sold, sold_text, status_text, tenths};

use crate::tally::Tally;
use airline_base::fields::word_of;
use airline_base::lines::line_end;
use airline_base::spelling::{put, put_number};
use arrayvec::ArrayVec;
use itoa::Buffer;

/// The most bytes of a line of a host's status, its end with them.
pub const MOST_STATUS: usize = 160;

/// A line of a host's status, with its end.
pub type StatusText = ArrayVec<u8, MOST_STATUS>;

/// `STATUS lines 25 groups 7 each 3.5 desks 2 sold 98`: the lines of the journal, the groups in which lines were added since the host
/// began, how many lines one of these had, to a tenth and rounded down, the desks that it is open to, and the seats that are sold. It takes
/// no memory.
pub fn status_text(tally: &Tally) -> StatusText
    ensures { result.items ≡ status_text tally.now }
{
    let mut text = ArrayVec::new();
    put_counted(&mut text, tally);
    put_grouped(&mut text, tally);
    put_sold(&mut text, tally);
    text
}

#[tactic(auto, unfolding(crate::specs::Tallies::counted_text))]
fn put_counted(text: &mut StatusText, tally: &Tally)
    requires room { length text.old.items + 41 ≤ 160 }
    ensures text { text.new.items ≡ text.old.items ++ counted_text tally.now }
    ensures len { length text.new.items ≤ length text.old.items + 41 }
{
    put(text, b"STATUS lines ");
    put_number(text, tally.lines);
    put(text, b" groups ");
    put_number(text, tally.groups);
}

#[tactic(auto, unfolding(crate::specs::Tallies::grouped_text))]
fn put_grouped(text: &mut StatusText, tally: &Tally)
    requires room { length text.old.items + 47 ≤ 160 }
    ensures text { text.new.items ≡ text.old.items ++ grouped_text tally.now }
    ensures len { length text.new.items ≤ length text.old.items + 47 }
{
    put(text, b" each ");
    put_tenths(text, tenths_of(tally));
}

#[tactic(auto, unfolding(crate::specs::Tallies::sold_text))]
fn put_sold(text: &mut StatusText, tally: &Tally)
    requires room { length text.old.items + 44 ≤ 160 }
    ensures text { text.new.items ≡ text.old.items ++ sold_text tally.now }
{
    put(text, b" desks ");
    put_number(text, u32::from(tally.desks));
    put(text, b" sold ");
    put_seats(text, tally.confirmed.saturating_sub(tally.released));
    put(text, b"\n");
}

// Ten times the lines of a group.
fn tenths_of(tally: &Tally) -> u64
    ensures { result ≡ tenths tally.now }
{
    if tally.groups == 0 {
        return 0;
    }
    u64::from(tally.lines.saturating_sub(tally.begun)) * 10 / u64::from(tally.groups)
}

fn put_tenths(text: &mut StatusText, tenths: u64)
    requires room { length text.old.items + 41 ≤ 160 }
    ensures text { text.new.items ≡ text.old.items ++ (decimal (tenths / 10) ++ (codes "." ++ decimal (tenths % 10))) }
    ensures len { length text.new.items ≤ length text.old.items + 41 }
{
    put_seats(text, tenths / 10);
    put(text, b".");
    put_seats(text, tenths % 10);
}

// At most twenty digits.
fn put_seats(text: &mut StatusText, number: u64)
    requires room { length text.old.items + 20 ≤ 160 }
    ensures text { text.new.items ≡ text.old.items ++ decimal number }
    ensures len { length text.new.items ≤ length text.old.items + 20 }
{
    let mut buffer = Buffer::new();
    put(text, buffer.format(number).as_bytes());
}

/// Whether a text may be a host's status: one line, which begins as a status does.
pub fn is_status(text: &[u8]) -> bool
    ensures { result ≡ is_status text.now }
{
    match word_of(b"STATUS lines ", text) {
        Some(rest) => ends_line(rest),
        None => false,
    }
}

// Whether the first line ends with the bytes.
fn ends_line(bytes: &[u8]) -> bool
    ensures { result ≡ ends_line (position is_line_feed bytes.now) (length bytes.now) }
{
    match line_end(bytes) {
        Some(end) => end + 1 == bytes.len(),
        None => false,
    }
}
