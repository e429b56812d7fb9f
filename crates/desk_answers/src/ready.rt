//! The line that says where a desk stands.
ghost use Rattle.std.specs.Prelude.{◌≡◌, ◌≤◌, ◌+◌, ◌++◌, codes, decimal, length};
ghost use Rattle.desk_answers.specs.Ready.{name_text, IsIsoDay, IsReadyLine};

use airline_base::spelling::{put, put_number};
use airline_base::{Day, Locator};
use arrayvec::ArrayVec;

/// A line of READY: two words, four numbers, a day, blanks and LF.
type ReadyLine = ArrayVec<u8, 70>;

/// READY, the word of the hello that it answers, the session, how many lines the journal has, how many of them are this session's,
/// the day, and the journal's epoch.
#[tactic(auto, using(crate::proofs::Readying::ready_is))]
pub fn ready_line(
    name: Option<Locator>,
    session: u8,
    lines: u32,
    calls: u32,
    today: Day,
    epoch: u32,
) -> ArrayVec<u8, 70>
    ensures { IsReadyLine name session lines calls today epoch result.items }
{
    let mut text = ArrayVec::new();
    put(&mut text, b"READY ");
    put_name(&mut text, name);
    put_counts(&mut text, u32::from(session), lines, calls);
    put(&mut text, &iso_day(today));
    put(&mut text, b" ");
    put_number(&mut text, epoch);
    put(&mut text, b"\n");
    text
}

fn put_name(text: &mut ReadyLine, name: Option<Locator>)
    requires room { length text.old.items + 7 ≤ 70 }
    ensures text { text.new.items ≡ text.old.items ++ name_text name }
    ensures len { length text.new.items ≤ length text.old.items + 7 }
{
    if let Some(name) = name {
        put(text, &name.characters());
        put(text, b" ");
    }
}

// Three numbers, a blank behind each.
fn put_counts(text: &mut ReadyLine, session: u32, lines: u32, calls: u32)
    requires room { length text.old.items + 33 ≤ 70 }
    ensures text { text.new.items ≡ text.old.items ++ decimal session ++ codes " " ++ decimal lines ++ codes " "
        ++ decimal calls ++ codes " " }
    ensures len { length text.new.items ≤ length text.old.items + 33 }
{
    put_number(text, session);
    put(text, b" ");
    put_number(text, lines);
    put(text, b" ");
    put_number(text, calls);
    put(text, b" ");
}

// YYYY-MM-DD
fn iso_day(day: Day) -> [u8; 10]
    ensures { IsIsoDay day result }
{
    let (year, month, date) = day.parts();
    let century = (year / 100) as u8;
    let year = (year % 100) as u8;
    [
        b'0' + century / 10,
        b'0' + century % 10,
        b'0' + year / 10,
        b'0' + year % 10,
        b'-',
        b'0' + month / 10,
        b'0' + month % 10,
        b'-',
        b'0' + date / 10,
        b'0' + date % 10,
    ]
}
