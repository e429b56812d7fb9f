//! The days over which a data set has flights.
ghost use Rattle.std.specs.Prelude.{◌≡◌, ◌≤◌, min};
ghost use Rattle.seat_reports.specs.Span.{days_of, days_until, earliest, end_of, first_of, last_of, later, latest};

use airline_base::Day;
use ssim_records::{Carrier, DataSet, Leg};

/// As many days as a season may have.
const MOST_DAYS: u32 = 366;

/// The earliest day of all periods, or the carrier's where there is no leg.
pub(crate) fn first_of(set: &DataSet) -> Day
    ensures { result ≡ first_of set.now }
{
    match set.legs.as_slice() {
        [] => set.carrier.from,
        [leg, more @ ..] => earliest(leg.from, more),
    }
}

fn earliest(first: Day, legs: &[Leg]) -> Day
    ensures { result ≡ earliest first legs.now }
{
    let mut rest = legs;
    let mut day = first;
    while let [leg, more @ ..] = rest {
        day = earlier(day, leg.from);
        rest = more;
    }
    day
}

fn earlier(one: Day, other: Day) -> Day
    ensures { result ≡ min one other }
{
    if one.number() <= other.number() {
        one
    } else {
        other
    }
}

/// The last day of all periods, none where one has an open end.
fn last_of(set: &DataSet) -> Option<Day>
    ensures { result ≡ last_of set.now }
{
    match set.legs.as_slice() {
        [] => set.carrier.to,
        [leg, more @ ..] => latest(&set.carrier, end_of(&set.carrier, leg), more),
    }
}

fn latest(carrier: &Carrier, first: Option<Day>, legs: &[Leg]) -> Option<Day>
    ensures { result ≡ latest carrier.now first legs.now }
{
    let mut rest = legs;
    let mut day = first;
    while let [leg, more @ ..] = rest {
        day = later(day, end_of(carrier, leg));
        rest = more;
    }
    day
}

fn later(one: Option<Day>, other: Option<Day>) -> Option<Day>
    ensures { result ≡ later one other }
{
    let (Some(day), Some(next)) = (one, other) else {
        return None;
    };
    if day.number() <= next.number() {
        Some(next)
    } else {
        Some(day)
    }
}

/// The end of a leg's period, or else of the carrier's validity.
fn end_of(carrier: &Carrier, leg: &Leg) -> Option<Day>
    ensures { result ≡ end_of carrier.now leg.now }
{
    match leg.to {
        Some(day) => Some(day),
        None => carrier.to,
    }
}

/// How many days there are from the first to the last, at least 1 and at most 366; 366 where the end is open.
pub(crate) fn days_of(set: &DataSet) -> u32
    ensures days { result ≡ days_of set.now }
    ensures few { (1 ≤ result) × (result ≤ 366) }
{
    match last_of(set) {
        Some(last) => days_until(first_of(set), last),
        None => MOST_DAYS,
    }
}

fn days_until(first: Day, last: Day) -> u32
    ensures days { result ≡ days_until first last }
    ensures few { (1 ≤ result) × (result ≤ 366) }
{
    let behind = last.number().saturating_sub(first.number());
    if behind < MOST_DAYS {
        behind + 1
    } else {
        MOST_DAYS
    }
}
