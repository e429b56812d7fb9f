//! A feed over a host that was opened, and the day on which such a host begins.
ghost use Rattle.std.specs.Prelude.{◌≡◌, ◌+◌, ◌<◌, ◌≤◌, ◌∷◌, All, ℕ, List, IfErr, IfOk, IfSome, IsTrue, OnOk, false, true, length, nat_lt};
ghost use Rattle.std.specs.List.{AllByRecursion};
ghost use Rattle.airline_base.specs.Days.{IsCenturyDay};
ghost use Rattle.flight_days.specs.Leaving.{AreDaysOf};
ghost use Rattle.desk_serving.specs.Opening.{day_or, entries_in, is_entry, left_behind, one_if, IsFeedDay, NeedsDay};
ghost use Rattle.desk_serving.specs.Serving.{IsFeedOver, IsFreshAt, IsOfOpening};
ghost use Rattle.desk_serving.specs.declared.fault.FedFault.TheVariants.{Behind, Broken};
ghost use Rattle.desk_serving.specs.declared.fault.StreamFault.TheVariants.{Memory as Wanting};
ghost use Rattle.seat_desk.specs.Loading.{IsGridOf};
ghost use Rattle.seat_journal.specs.declared.entry.Entry.{Entry};
ghost use Rattle.seat_journal.specs.Text.{IsEntry};
ghost use Rattle.seat_recovery.specs.OpenText.{open_text};
ghost use Rattle.seat_restoring.specs.Dating.{IsNotEarlier, IsSince};
ghost use Rattle.seat_rules.specs.Prefixes.{Begins};

use crate::ahead::FirstLine;
use crate::fault::{FedFault, StreamFault};
use airline_base::{Day, Memory};
use desk_answers::OpenHost;
use desk_calls::CallIndex;
use desk_feed::Progress;
use desk_lines::Desk;
use desk_stream::{Feed, first_day};
use flight_days::DayFlights;
use seat_disk::Tape;
use seat_seal::{Beside, era_known, known_of};
use ssim_flights::{Flights, Served};
use std::alloc::Global;
use std::sync::Wait;

/// A feed over the inventory of a host, behind the first `behind` lines of its journal, which is of this epoch. Nothing was heard.
#[tactic(auto, using(crate::proofs::Opened::feed_is_over, crate::proofs::Fresh::enough))]
pub(crate) fn feed_over<'a, R: Wait, D: Tape>(
    rt: &R,
    alloc: Global,
    flights: &'a Flights,
    host: OpenHost<'_, D>,
    epoch: u32,
    behind: u32,
) -> Result<Feed<'a, D>, (FedFault, D)>
    requires grid { IsGridOf flights.now host.serving.grid }
    ensures over { IfOk result (IsFeedOver flights.now host.entry.serving epoch behind) }
    ensures serving { IfOk result (λ feed. feed.serving ≡ host.entry.serving) }
    ensures behind { IfErr result (λ f. f.0 ≡ Behind → length host.entry.serving.journal < behind) }
    ensures memory { IfErr result (λ f. f.0 ≡ Broken Wanting → behind ≤ length host.entry.serving.journal) }
    ensures tape { IfErr result (λ f. f.1 ≡ host.entry.serving.tape) }
    ensures kind { IfErr result (λ f. IsOfOpening f.0) }
{
    let today = host.today();
    let serving = host.into_serving();
    let Some(progress) = Progress::behind(serving.journal(), behind) else {
        return Err((FedFault::Behind, serving.close(rt)));
    };
    let Ok(parts) = parts_of(alloc, flights, today, epoch) else {
        return Err((FedFault::Broken(StreamFault::Memory), serving.close(rt)));
    };
    let (served, days, desks, calls) = parts;
    Ok(Feed::over(
        flights,
        served,
        days,
        serving,
        epoch,
        progress,
        desks,
        calls,
        Vec::new(alloc),
        Vec::new(alloc),
    ))
}

/// Whether the seal beside a file with these bytes knows no day. Then a feed's first line must be one.
#[tactic(auto, using(crate::proofs::Opened::needs_day))]
pub fn needs_day(seal: &Beside<'_>, bytes: &[u8]) -> bool
    ensures { NeedsDay seal.now bytes.now result }
{
    let known = known_of(seal, bytes);
    era_known(&known).day().is_none()
}

/// The day on which the host of a feed begins: the one that the seal beside a file with these bytes knows, or else that of the feed's first
/// line, which is given with its end. None where that is none: no day is made up.
#[tactic(auto, using(crate::proofs::Opened::feed_day_is, crate::proofs::Opened::feed_day_since))]
pub fn feed_day(seal: &Beside<'_>, bytes: &[u8], line: &FirstLine) -> Option<Day>
    ensures day { IsFeedDay seal.now bytes.now line.now.items result }
    ensures later { IfSome result (IsNotEarlier seal.now bytes.now) }
    ensures century { IfSome result IsCenturyDay }
{
    let known = known_of(seal, bytes);
    day_or(era_known(&known).day(), first_day(line.as_slice()))
}

#[tactic(auto, using(crate::proofs::Opened::since_none))]
fn day_or(known: Option<Day>, first: Option<Day>) -> Option<Day>
    requires known { IfSome known IsCenturyDay }
    requires first { IfSome first IsCenturyDay }
    ensures value { result ≡ day_or known first }
    ensures since { IfSome result (IsSince known) }
    ensures century { IfSome result IsCenturyDay }
{
    match known {
        Some(day) => Some(day),
        None => first,
    }
}

/// How many lines of entries are still looked for, and where in a line the look is.
#[derive(Clone, Copy)]
struct Looking {
    left: u32,
    /// Whether a line begins here.
    begins: bool,
    /// Whether the line here is an entry's.
    opens: bool,
}

/// Whether the text of a journal has fewer lines of entries than a feed is said to stand behind: whole lines behind its first that begin with
/// a digit. It is a first look, ahead of any change. A journal that the text begins with has no more entries than these lines.
#[tactic(auto, using(crate::proofs::Fewer::few_entries))]
pub fn has_fewer(text: &[u8], lines: u32) -> bool
    ensures value { result ≡ nat_lt (entries_in false false text.now) lines }
    ensures few { IsTrue result → (entries : List Entry) → AllByRecursion IsEntry entries → Begins (open_text entries) text.now
        → length entries < lines }
{
    looks_fewer(text, lines)
}

// The look, byte by byte.
#[tactic(auto, using(crate::proofs::Entries::looks_none, crate::proofs::Entries::looks_over, crate::proofs::Entries::looks_on))]
fn looks_fewer(text: &[u8], lines: u32) -> bool
    ensures { result ≡ nat_lt (entries_in false false text.now) lines }
{
    let mut looking = Looking {
        left: lines,
        begins: false,
        opens: false,
    };
    for byte in text {
        if looking.left == 0 {
            return false;
        }
        looking = looked(looking, *byte);
    }
    looking.left > 0
}

// Behind one byte more.
#[tactic(auto, using(crate::proofs::Entries::looked_end, crate::proofs::Entries::looked_within))]
fn looked(looking: Looking, byte: u8) -> Looking
    requires some { 0 < looking.left }
    ensures { (rest : List ℕ) → left_behind result rest ≡ left_behind looking (byte ∷ rest) }
{
    let opens = is_entry(looking.begins, looking.opens, byte);
    if byte == b'\n' {
        return ended(looking.left, opens);
    }
    Looking {
        left: looking.left,
        begins: false,
        opens,
    }
}

fn is_entry(begins: bool, opens: bool, byte: u8) -> bool
    ensures { result ≡ is_entry begins opens byte }
{
    if begins { byte.is_ascii_digit() } else { opens }
}

// Behind the end of a line.
#[tactic(auto, using(crate::proofs::Entries::ended_entry, crate::proofs::Entries::ended_other))]
fn ended(left: u32, opens: bool) -> Looking
    requires some { 0 < left }
    ensures { (rest : List ℕ) → left_behind result rest ≡ nat_lt (one_if opens (entries_in true false rest)) left }
{
    if opens {
        return Looking {
            left: left - 1,
            begins: true,
            opens: false,
        };
    }
    Looking {
        left,
        begins: true,
        opens: false,
    }
}

// The index of the flights, those of each day, a desk for the manager and for each session, and an index of calls for each.
fn parts_of<'a>(
    alloc: Global,
    flights: &'a Flights,
    today: Day,
    epoch: u32,
) -> Result<(Served<'a>, DayFlights, Vec<Desk>, Vec<CallIndex>), Memory>
    ensures served { IfOk result (λ parts. parts.0 ≡ flights.now) }
    ensures days { IfOk result (λ parts. AreDaysOf parts.1 flights.now) }
    ensures counts { IfOk result (λ parts. (length parts.2.items ≡ 9) × (length parts.3.items ≡ 9)) }
    ensures fresh { IfOk result (λ parts. All (IsFreshAt epoch) parts.2.items) }
{
    let days = DayFlights::new(alloc, flights)?;
    let desks = desks_on(alloc, today, epoch)?;
    let calls = no_calls(alloc)?;
    let served = Served::new(alloc, flights)?;
    Ok((served, days, desks, calls))
}

// Whatever day this is: each line is heard on the feed's.
#[tactic(auto, using(crate::proofs::Fresh::fresh, crate::proofs::Fresh::all_fresh))]
fn desks_on(alloc: Global, today: Day, epoch: u32) -> Result<Vec<Desk>, Memory>
    ensures count { IfOk result (λ desks. length desks.items ≡ 9) }
    ensures fresh { IfOk result (λ desks. All (IsFreshAt epoch) desks.items) }
{
    let desks = [Desk::new(today, epoch); 9];
    Ok(Vec::from_slice(alloc, &desks)?)
}

// One for the manager, and one for each session.
fn no_calls(alloc: Global) -> Result<Vec<CallIndex>, Memory>
    ensures { IfOk result (λ calls. length calls.items ≡ 9) }
{
    let mut calls = Vec::new(alloc);
    add_three(alloc, &mut calls)?;
    add_three(alloc, &mut calls)?;
    add_three(alloc, &mut calls)?;
    Ok(calls)
}

fn add_three(alloc: Global, calls: &mut Vec<CallIndex>) -> Result<(), Memory>
    ensures { OnOk result (length calls.new.items ≡ length calls.old.items + 3) }
{
    calls.push(CallIndex::new(alloc))?;
    calls.push(CallIndex::new(alloc))?;
    calls.push(CallIndex::new(alloc))?;
    Ok(())
}
