//! The commands whose answer may be a table too, each with its form.
//! It knows which words name a form, and nothing of what stands in a row.
ghost use Rattle.std.specs.Prelude.{◌≤◌};
ghost use Rattle.ssim_flights.specs.Right.{IsOfCentury};

use crate::commands::{asked_of, bars_asked, page_of};
use crate::shards::shards_asked;
use airline_base::{Day, Locator};
use command_inputs::{
    By, LocatorsFault, by_asked, day_asked, days_of, flight_asked, form_asked, lines_behind,
    locators_asked, meter_input, page_asked, pair_asked, sums_form,
};
use desk_questions::HistoryOf;
use page_questions::LoadPage;
use pickup_questions::{By as PickupBy, PickupOf, read_older};
use progress_meter::{Lines, Meter};
use seat_desk::{DeskFault, Question};
use seat_files::{Input, Output, Refusal, metered_output, opened, taken, told};
use seat_lists::{BookingsOf, WaitingOf, Wanted};
use seat_loads::LoadsOf;
use seat_pickup::Past;
use seat_questions::{Cover, RoomsOf};
use seat_reports::desk_flights;
use seat_tables::Form;
use seat_words::{
    BookingsJob, CoverJob, HistoryJob, Horizon, LoadsJob, PickupJob, RoomsJob, Shape, WaitingJob,
    WordFault,
};
use std::alloc::Global;
use std::thread::Threads;
use table_questions::{
    BookingTable, ClassSums, CoverTable, DaySums, FlightSums, HistoryTable, LegSums, LoadTable,
    PairSums, RoomTable, Table, TableOf, WaitingTable, desk_flight_table,
};

/// The dated flights of a data set.
pub fn flights(
    rt: &HostRuntime,
    meter: &Meter,
    set: &str,
    first: &str,
    days: &str,
    shape: Shape,
) -> Result<(), Refusal> {
    let (first, days) = days_of(first, days)?;
    let form = form_asked(shape, false)?;
    let mut set = taken(rt, set)?;
    meter_input(rt, meter, &mut set, Lines::Uncounted);
    let mut out = metered_output(rt, meter);
    let outcome = flights_put(rt, form, &mut set, first, days, &mut out);
    told(outcome, &[&set], &[&out])
}

fn flights_put(
    rt: &HostRuntime,
    form: Option<Form>,
    set: &mut Input,
    first: Day,
    days: u16,
    out: &mut Output,
) -> Result<(), DeskFault>
    requires first { IsOfCentury first }
    requires days { (1 ≤ days) × (days ≤ 366) }
{
    match form {
        Some(form) => desk_flight_table(rt.alloc(), form, set, first, days, out),
        None => desk_flights(rt.alloc(), set, first, days, out),
    }
}

/// The rows that are for no leg or hidden, and the legs without one.
pub fn cover<R: Threads + Sync>(
    rt: &HostRuntime,
    threads: &R,
    meter: &Meter,
    asked: &CoverJob<'_>,
) -> Result<(), Refusal> {
    let over = &asked.over;
    let days = days_of(over.first, over.days)?;
    let form = form_asked(asked.shape, false)?;
    match form {
        Some(form) => {
            let table = CoverTable { form };
            asked_of(rt, threads, meter, over, days, &table, None, false)
        }
        None => asked_of(rt, threads, meter, over, days, &Cover, None, false),
    }
}

/// The rooms of the places that `--day` and `--pair` keep, with bars where they are asked for. Without a journal they are those
/// after no line.
pub fn rooms<R: Threads + Sync>(
    rt: &HostRuntime,
    threads: &R,
    meter: &Meter,
    asked: &RoomsJob<'_>,
) -> Result<(), Refusal> {
    let over = &asked.over;
    let days = days_of(over.first, over.days)?;
    let rooms = RoomsOf {
        day: day_asked(asked.day)?,
        pair: pair_asked(asked.pair)?,
        bars: bars_asked(rt, asked.bars),
    };
    let form = form_asked(asked.shape, asked.bars)?;
    match form {
        Some(form) => {
            let table = RoomTable { rooms };
            let journals = Journals::One(asked.journal, asked.is_open);
            tabled(rt, threads, meter, over, days, &table, form, journals)
        }
        None => asked_of(
            rt,
            threads,
            meter,
            over,
            days,
            &rooms,
            asked.journal,
            asked.is_open,
        ),
    }
}

/// How full the legs are that `--flight`, `--day` and `--pair` keep, with bars where they are asked for, as a page, or the sums that `--by` names. Without a journal that is before the first booking.
/// With `--shards` it is after the lines of all the journals.
pub fn loads<R: Threads + Sync>(
    rt: &HostRuntime,
    threads: &R,
    meter: &Meter,
    asked: &LoadsJob<'_>,
) -> Result<(), Refusal> {
    let over = &asked.over;
    let days = days_of(over.first, over.days)?;
    let loads = LoadsOf {
        flight: flight_asked(asked.flight)?,
        day: day_asked(asked.day)?,
        pair: pair_asked(asked.pair)?,
        bars: bars_asked(rt, asked.bars),
    };
    let by = by_asked(asked.by)?;
    let journals = journals_asked(
        asked.are_shards,
        asked.is_open,
        asked.journal,
        asked.others.as_slice(),
    )?;
    if asked.html {
        page_asked(asked.shape, asked.bars, by.is_some())?;
        let page = LoadPage { loads };
        return paged(rt, threads, meter, over, days, &page, journals);
    }
    match by {
        Some(by) => {
            let form = sums_form(asked.shape, asked.bars)?;
            summed(rt, threads, meter, over, days, loads, by, form, journals)
        }
        None => {
            let form = form_asked(asked.shape, asked.bars)?;
            loaded(rt, threads, meter, over, days, loads, form, journals)
        }
    }
}

/// What is asked about.
#[derive(Clone, Copy)]
enum Journals<'a, 'b> {
    /// A journal, or one without lines, and whether it may be open.
    One(Option<&'a str>, bool),
    /// The journals of several hosts: the first, and the others.
    Shards(&'a str, &'b [&'a str]),
}

/// The journals that the words name: with `--shards` one or more, which have ended, and else one at most.
fn journals_asked<'a, 'b>(
    are_shards: bool,
    is_open: bool,
    journal: Option<&'a str>,
    others: &'b [&'a str],
) -> Result<Journals<'a, 'b>, WordFault> {
    if !are_shards {
        if !others.is_empty() {
            return Err(WordFault::BadShards);
        }
        return Ok(Journals::One(journal, is_open));
    }
    if is_open {
        return Err(WordFault::BadShards);
    }
    match journal {
        Some(first) => Ok(Journals::Shards(first, others)),
        None => Err(WordFault::BadShards),
    }
}

/// The answer to a question about these.
fn put<'a, R: Threads + Sync, Q: Question>(
    rt: &HostRuntime,
    threads: &R,
    meter: &Meter,
    over: &Horizon<'a>,
    days: (Day, u16),
    question: &Q,
    journals: Journals<'a, '_>,
) -> Result<(), Refusal>
    requires first { IsOfCentury days.0 }
    requires days { (1 ≤ days.1) × (days.1 ≤ 366) }
{
    match journals {
        Journals::One(journal, is_open) => {
            asked_of(rt, threads, meter, over, days, question, journal, is_open)
        }
        Journals::Shards(first, others) => shards_asked(
            rt, threads, meter, over, days, question, first, others, false,
        ),
    }
}

/// The same of a question whose answer is a page.
fn paged<'a, R: Threads + Sync, Q: Question>(
    rt: &HostRuntime,
    threads: &R,
    meter: &Meter,
    over: &Horizon<'a>,
    days: (Day, u16),
    question: &Q,
    journals: Journals<'a, '_>,
) -> Result<(), Refusal>
    requires first { IsOfCentury days.0 }
    requires days { (1 ≤ days.1) × (days.1 ≤ 366) }
{
    match journals {
        Journals::One(journal, is_open) => {
            page_of(rt, threads, meter, over, days, question, journal, is_open)
        }
        Journals::Shards(first, others) => shards_asked(
            rt, threads, meter, over, days, question, first, others, true,
        ),
    }
}

/// The loads, as text or in a form.
fn loaded<'a, R: Threads + Sync>(
    rt: &HostRuntime,
    threads: &R,
    meter: &Meter,
    over: &Horizon<'a>,
    days: (Day, u16),
    loads: LoadsOf,
    form: Option<Form>,
    journals: Journals<'a, '_>,
) -> Result<(), Refusal>
    requires first { IsOfCentury days.0 }
    requires days { (1 ≤ days.1) × (days.1 ≤ 366) }
{
    match form {
        Some(form) => {
            let table = LoadTable { loads };
            tabled(rt, threads, meter, over, days, &table, form, journals)
        }
        None => put(rt, threads, meter, over, days, &loads, journals),
    }
}

/// Their sums.
fn summed<'a, R: Threads + Sync>(
    rt: &HostRuntime,
    threads: &R,
    meter: &Meter,
    over: &Horizon<'a>,
    days: (Day, u16),
    loads: LoadsOf,
    by: By,
    form: Form,
    journals: Journals<'a, '_>,
) -> Result<(), Refusal>
    requires first { IsOfCentury days.0 }
    requires days { (1 ≤ days.1) × (days.1 ≤ 366) }
{
    match by {
        By::EachLeg => {
            let table = LegSums { loads };
            tabled(rt, threads, meter, over, days, &table, form, journals)
        }
        By::EachDay => {
            let table = DaySums { loads };
            tabled(rt, threads, meter, over, days, &table, form, journals)
        }
        By::EachFlight => {
            let table = FlightSums { loads };
            tabled(rt, threads, meter, over, days, &table, form, journals)
        }
        By::EachPair => {
            let table = PairSums { loads };
            tabled(rt, threads, meter, over, days, &table, form, journals)
        }
        By::EachClass => {
            let table = ClassSums { loads };
            tabled(rt, threads, meter, over, days, &table, form, journals)
        }
    }
}

/// The live bookings of the locators, the flights and the day that are asked for.
pub fn bookings<R: Threads + Sync>(
    rt: &HostRuntime,
    threads: &R,
    meter: &Meter,
    asked: &BookingsJob<'_>,
) -> Result<(), Refusal> {
    let over = &asked.over;
    let days = days_of(over.first, over.days)?;
    let locators = locators_of(rt.alloc(), asked.locators.as_slice())?;
    let wanted = Wanted {
        locators: locators.as_slice(),
        flight: flight_asked(asked.flight)?,
        day: day_asked(asked.day)?,
    };
    let journal = Some(asked.journal);
    let form = form_asked(asked.shape, false)?;
    match form {
        Some(form) => {
            let table = BookingTable { wanted };
            let journals = Journals::One(journal, asked.is_open);
            tabled(rt, threads, meter, over, days, &table, form, journals)
        }
        None => asked_of(
            rt,
            threads,
            meter,
            over,
            days,
            &BookingsOf { wanted },
            journal,
            asked.is_open,
        ),
    }
}

/// Who waits, on the flights and the day that are asked for; with `--shards` of all the journals.
pub fn waiting<R: Threads + Sync>(
    rt: &HostRuntime,
    threads: &R,
    meter: &Meter,
    asked: &WaitingJob<'_>,
) -> Result<(), Refusal> {
    let over = &asked.over;
    let days = days_of(over.first, over.days)?;
    let wanted = Wanted {
        locators: &[],
        flight: flight_asked(asked.flight)?,
        day: day_asked(asked.day)?,
    };
    let journals = journals_asked(
        asked.are_shards,
        asked.is_open,
        Some(asked.journal),
        asked.others.as_slice(),
    )?;
    let form = form_asked(asked.shape, false)?;
    match form {
        Some(form) => {
            let table = WaitingTable { wanted };
            tabled(rt, threads, meter, over, days, &table, form, journals)
        }
        None => {
            let question = WaitingOf { wanted };
            put(rt, threads, meter, over, days, &question, journals)
        }
    }
}

/// What was held, sold, cancelled and confirmed behind the lines of an older journal, which is opened first, or behind so many.
pub fn pickup<R: Threads + Sync>(
    rt: &HostRuntime,
    threads: &R,
    meter: &Meter,
    asked: &PickupJob<'_>,
) -> Result<(), Refusal> {
    let over = &asked.over;
    let days = days_of(over.first, over.days)?;
    let behind = lines_behind(asked.since, asked.behind)?;
    let Some(lines) = behind else {
        return Err(Refusal::from(WordFault::BadBehind));
    };
    let question = PickupOf {
        past: Past::Lines(lines),
        flight: flight_asked(asked.flight)?,
        by: pickup_by(asked.by)?,
        form: sums_form(asked.shape, false)?,
    };
    match asked.since {
        Some(older) => pickup_since(rt, threads, meter, asked, days, &question, older),
        None => {
            let journal = Some(asked.journal);
            asked_of(
                rt,
                threads,
                meter,
                over,
                days,
                &question,
                journal,
                asked.is_open,
            )
        }
    }
}

/// The same question behind the lines of an older journal.
fn pickup_since<'a, R: Threads + Sync>(
    rt: &HostRuntime,
    threads: &R,
    meter: &Meter,
    asked: &PickupJob<'a>,
    days: (Day, u16),
    question: &PickupOf<'_>,
    older: &'a str,
) -> Result<(), Refusal>
    requires first { IsOfCentury days.0 }
    requires days { (1 ≤ days.1) × (days.1 ≤ 366) }
{
    let mut older = opened(rt, older)?;
    meter_input(rt, meter, &mut older, Lines::Ended);
    let lines = match read_older(threads, rt.alloc(), &mut older) {
        Ok(lines) => lines,
        Err(fault) => return told(Err(fault), &[&older], &[]),
    };
    let question = PickupOf {
        past: Past::Older(lines.as_slice()),
        flight: question.flight,
        by: question.by,
        form: question.form,
    };
    let journal = Some(asked.journal);
    asked_of(
        rt,
        threads,
        meter,
        &asked.over,
        days,
        &question,
        journal,
        asked.is_open,
    )
}

fn pickup_by(by: Option<&str>) -> Result<PickupBy, WordFault> {
    match by_asked(by)? {
        None => Ok(PickupBy::EachRow),
        Some(By::EachLeg) => Ok(PickupBy::EachLeg),
        Some(By::EachFlight) => Ok(PickupBy::EachFlight),
        Some(By::EachDay) => Ok(PickupBy::EachDay),
        Some(By::EachPair) => Ok(PickupBy::EachPair),
        Some(By::EachClass) => Ok(PickupBy::EachClass),
    }
}

/// What the lines of a journal did for a locator, or on a flight, on the days that are asked for.
pub fn history<R: Threads + Sync>(
    rt: &HostRuntime,
    threads: &R,
    meter: &Meter,
    asked: &HistoryJob<'_>,
) -> Result<(), Refusal> {
    let over = &asked.over;
    let days = days_of(over.first, over.days)?;
    let locators = match asked.locator {
        Some(word) => locators_of(rt.alloc(), &[word])?,
        None => Vec::new(rt.alloc()),
    };
    let wanted = Wanted {
        locators: locators.as_slice(),
        flight: flight_asked(asked.flight)?,
        day: day_asked(asked.day)?,
    };
    if locators.is_empty() && wanted.flight.is_none() {
        return Err(Refusal::from(WordFault::BadLocator));
    }
    let (journal, is_open) = (Some(asked.journal), asked.is_open);
    let form = form_asked(asked.shape, false)?;
    match form {
        Some(form) => {
            let table = HistoryTable { wanted };
            let journals = Journals::One(journal, is_open);
            tabled(rt, threads, meter, over, days, &table, form, journals)
        }
        None => {
            let question = HistoryOf { wanted };
            asked_of(rt, threads, meter, over, days, &question, journal, is_open)
        }
    }
}

/// The locators that the words name.
fn locators_of(alloc: Global, words: &[&str]) -> Result<Vec<Locator>, Refusal> {
    match locators_asked(alloc, words) {
        Ok(locators) => Ok(locators),
        Err(LocatorsFault::Word(fault)) => Err(Refusal::from(fault)),
        Err(LocatorsFault::Memory) => Err(Refusal::from(DeskFault::Memory)),
    }
}

/// The answer to a question as a table.
fn tabled<'a, R: Threads + Sync, T: Table>(
    rt: &HostRuntime,
    threads: &R,
    meter: &Meter,
    over: &Horizon<'a>,
    days: (Day, u16),
    table: &T,
    form: Form,
    journals: Journals<'a, '_>,
) -> Result<(), Refusal>
    requires first { IsOfCentury days.0 }
    requires days { (1 ≤ days.1) × (days.1 ≤ 366) }
{
    let question = TableOf { asked: table, form };
    put(rt, threads, meter, over, days, &question, journals)
}
