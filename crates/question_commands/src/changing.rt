//! `changes`: what brings the limits after a journal to those that are wanted.
//! It knows which words name which legs and files, and nothing of how a limit comes to another.
use crate::commands::asked_of;
use command_inputs::{day_asked, days_of, flight_asked, pair_asked};
use limit_changes::{ChangesOf, LegsAsked};
use progress_meter::Meter;
use seat_desk::{MOST_LIMIT_BYTES, limit_rows, read_input};
use seat_files::{Refusal, opened};
use seat_limits::LimitRows;
use seat_words::ChangesJob;
use std::cell::Cell;
use std::io::Write;
use std::thread::Threads;

/// The changes that bring the limits to those that are wanted, as far as they go; where one falls short, a line on standard error says so. The wanted
/// limits are read ahead of all else.
pub fn changes<R: Threads + Sync>(
    rt: &HostRuntime,
    threads: &R,
    meter: &Meter,
    asked: &ChangesJob<'_>,
) -> Result<(), Refusal> {
    let over = &asked.over;
    let days = days_of(over.first, over.days)?;
    let legs = LegsAsked {
        flight: flight_asked(asked.flight)?,
        day: day_asked(asked.day)?,
        pair: pair_asked(asked.pair)?,
    };
    let wanted = match wanted_of(rt, asked.wanted) {
        Ok(wanted) => wanted,
        Err(refusal) => return Err(refusal),
    };
    let shorts = Cell::new(None);
    let question = ChangesOf {
        wanted: wanted.as_slice(),
        legs,
        shorts: &shorts,
    };
    let journal = Some(asked.journal);
    match asked_of(
        rt,
        threads,
        meter,
        over,
        days,
        &question,
        journal,
        asked.is_open,
    ) {
        Ok(()) => {
            tell_shorts(rt, meter, shorts.take());
            Ok(())
        }
        Err(refusal) => Err(refusal),
    }
}

/// The limits that are wanted.
fn wanted_of(rt: &HostRuntime, name: &str) -> Result<LimitRows, Refusal> {
    let mut file = opened(rt, name)?;
    let bytes = match read_input(rt.alloc(), &mut file, MOST_LIMIT_BYTES) {
        Ok(bytes) => bytes,
        Err(fault) => return Err(Refusal::from(fault).noting_all(&[&file])),
    };
    match limit_rows(rt.alloc(), &bytes) {
        Ok(rows) => Ok(rows),
        Err(fault) => Err(Refusal::from(fault).noting_all(&[&file])),
    }
}

/// Says on standard error which classes fall short.
fn tell_shorts(rt: &HostRuntime, meter: &Meter, shorts: Option<Vec<u8>>) {
    if let Some(text) = shorts {
        meter.end(rt);
        let _ = rt.stderr().write_all(&text);
    }
}
