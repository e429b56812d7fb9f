//! What stands at the front of a feed's line: whose it is, or a word of the feed.
ghost use Rattle.std.specs.Prelude.{◌≡◌, ◌≤◌, IfSome, length};
ghost use Rattle.airline_base.specs.Days.{IsCenturyDay};
ghost use Rattle.airline_base.specs.Lines.{line_at};
ghost use Rattle.desk_hall.specs.Orders.{day_at};
ghost use Rattle.desk_stream.specs.Leads.{epoch_at, epoch_of, first_day, lead_of, session_at, session_if, word_lead, IsRightLead};

use airline_base::Day;
use airline_base::fields::word_of;
use airline_base::lines::cut_line;
use desk_hall::{count_of, day_named};

/// What a feed's line begins with.
#[derive(Clone, Copy)]
pub enum Lead {
    /// The number of the manager, 0, or of a session, 1 to 8, and a blank: behind them is a line of its own.
    Session(u8),
    /// A day of the years 2000 to 2099.
    Day(Day),
    /// The epoch of the journal that the numbered lines behind it are for, 1 to 999,999.
    Epoch(u32),
    /// It is none of these.
    Unknown,
}

/// What a line with its end begins with.
pub(crate) fn lead_of(line: &[u8]) -> Lead
    ensures value { result ≡ lead_of line.now }
    ensures right { IsRightLead line.now result }
{
    match session_of(line) {
        Some(session) => Lead::Session(session),
        None => word_lead(line),
    }
}

/// The day that a feed begins with whose first line this is, with its end, where it is one.
pub fn first_day(line: &[u8]) -> Option<Day>
    ensures value { result ≡ first_day (lead_of line.now) }
    ensures century { IfSome result IsCenturyDay }
{
    match lead_of(line) {
        Lead::Day(day) => Some(day),
        _ => None,
    }
}

fn session_of(line: &[u8]) -> Option<u8>
    ensures value { result ≡ session_at line.now }
    ensures few { IfSome result (λ session. (session ≤ 8) × (2 ≤ length line.now)) }
{
    match line {
        [digit, blank, ..] => session_if(*digit, *blank),
        [_] => None,
        [] => None,
    }
}

fn session_if(digit: u8, blank: u8) -> Option<u8>
    ensures value { result ≡ session_if digit blank }
    ensures few { IfSome result (λ session. session ≤ 8) }
{
    if blank == b' ' && b'0' <= digit && digit <= b'8' {
        return Some(digit - b'0');
    }
    None
}

// A word of the feed.
fn word_lead(line: &[u8]) -> Lead
    ensures value { result ≡ word_lead (day_at (line_at line.now).0) (epoch_at (line_at line.now).0) }
    ensures right { IsRightLead line.now result }
{
    let (text, _) = cut_line(line);
    match day_named(text) {
        Some(day) => Lead::Day(day),
        None => match epoch_named(text) {
            Some(epoch) => Lead::Epoch(epoch),
            None => Lead::Unknown,
        },
    }
}

// `?EPOCH 3`
#[tactic(auto, unfolding(crate::specs::Leads::epoch_at))]
fn epoch_named(text: &[u8]) -> Option<u32>
    ensures { result ≡ epoch_at text.now }
{
    let Some(rest) = word_of(b"?EPOCH ", text) else {
        return None;
    };
    let Some((epoch, rest)) = count_of(rest) else {
        return None;
    };
    if !rest.is_empty() {
        return None;
    }
    epoch_of(epoch)
}

// Epochs begin at 1.
fn epoch_of(number: u32) -> Option<u32>
    ensures { result ≡ epoch_of number }
{
    if number == 0 { None } else { Some(number) }
}
