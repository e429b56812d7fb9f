//! `avs`: what a partner is told of the availability after a journal.
//! It knows which words name a flight, a day and the files, and nothing of what is told.
ghost use Rattle.std.specs.Prelude.{◌≡◌, ◌≤◌, IfOk};
ghost use Rattle.ssim_flights.specs.Right.{IsOfCentury};

use crate::commands::asked_of;
use airline_base::Day;
use command_inputs::{day_asked, days_of, flight_asked, meter_input};
use pickup_questions::read_older;
use progress_meter::{Lines, Meter};
use seat_availability::{
    Asked, AvailabilityOf, PartnerFault, PartnerKind, Thresholds, read_thresholds,
};
use seat_desk::{DeskFault, read_input};
use seat_files::{ListKind, Refusal, opened, told};
use seat_pickup::Past;
use seat_words::AvsJob;
use std::thread::Threads;

/// The most bytes of a partner's thresholds: 64 KiB.
const MOST_PARTNER_BYTES: u64 = 65_536;

/// What a partner is told of each segment, or of what changed behind the lines of an older journal. The partner's thresholds are read first, and then
/// the older journal.
pub fn avs<R: Threads + Sync>(
    rt: &HostRuntime,
    threads: &R,
    meter: &Meter,
    asked: &AvsJob<'_>,
) -> Result<(), Refusal> {
    let over = &asked.horizon;
    let days = days_of(over.first, over.days)?;
    let flight = flight_asked(asked.flight)?;
    let day = day_asked(asked.day)?;
    let thresholds = match thresholds_of(rt, asked.partner) {
        Ok(thresholds) => thresholds,
        Err(refusal) => return Err(refusal),
    };
    let wanted = Asked {
        flight,
        day,
        partner: thresholds.as_slice(),
        numeric: asked.numeric,
    };
    match asked.since {
        Some(older) => avs_since(rt, threads, meter, asked, days, &wanted, older),
        None => {
            let question = AvailabilityOf {
                asked: wanted,
                past: None,
            };
            let journal = Some(asked.journal);
            asked_of(
                rt,
                threads,
                meter,
                over,
                days,
                &question,
                journal,
                asked.is_open,
            )
        }
    }
}

/// What changed behind the lines of an older journal.
fn avs_since<'a, R: Threads + Sync>(
    rt: &HostRuntime,
    threads: &R,
    meter: &Meter,
    asked: &AvsJob<'a>,
    days: (Day, u16),
    wanted: &Asked<'_>,
    older: &'a str,
) -> Result<(), Refusal>
    requires first { IsOfCentury days.0 }
    requires days { (1 ≤ days.1) × (days.1 ≤ 366) }
{
    let mut older = opened(rt, older)?;
    meter_input(rt, meter, &mut older, Lines::Ended);
    let lines = match read_older(threads, rt.alloc(), &mut older) {
        Ok(lines) => lines,
        Err(fault) => return told(Err(fault), &[&older], &[]),
    };
    let question = AvailabilityOf {
        asked: Asked {
            flight: wanted.flight,
            day: wanted.day,
            partner: wanted.partner,
            numeric: wanted.numeric,
        },
        past: Some(Past::Older(lines.as_slice())),
    };
    let journal = Some(asked.journal);
    asked_of(
        rt,
        threads,
        meter,
        &asked.horizon,
        days,
        &question,
        journal,
        asked.is_open,
    )
}

/// The thresholds of the partner, if one is named; else none.
fn thresholds_of(rt: &HostRuntime, partner: Option<&str>) -> Result<Thresholds, Refusal> {
    let Some(name) = partner else {
        return Ok(Thresholds::new(rt.alloc()));
    };
    let mut file = opened(rt, name)?;
    let bytes = match read_input(rt.alloc(), &mut file, MOST_PARTNER_BYTES) {
        Ok(bytes) => bytes,
        Err(fault) => return Err(Refusal::from(fault).noting_all(&[&file])),
    };
    match read_thresholds(rt.alloc(), &bytes) {
        Ok(thresholds) => Ok(thresholds),
        Err(fault) => Err(refusal_of(fault).noting_all(&[&file])),
    }
}

/// The refusal of thresholds. Want of memory says nothing about them.
fn refusal_of(fault: PartnerFault) -> Refusal {
    let line = fault.line;
    match fault.kind {
        PartnerKind::Class => Refusal::of_list(ListKind::Class, line),
        PartnerKind::Twice => Refusal::of_list(ListKind::ClassAgain, line),
        PartnerKind::Seats => Refusal::of_list(ListKind::Seats, line),
        PartnerKind::Memory => Refusal::from(DeskFault::Memory),
    }
}
