//! The days on which a leg operates (SSIM chapter 7, period and days of operation).
ghost use Rattle.std.specs.Prelude.{◌≡◌, ◌+◌, ◌-◌, ◌≤◌};
ghost use Rattle.ssim_flights.specs.Operating.{days_among, last_day};

use airline_base::Day;
use arrayvec::ArrayVec;
use ssim_records::Leg;

/// The numbers of days of one or two weeks, in order.
pub(crate) type RoundDays = ArrayVec<u32, 14>;

/// How many days the leg's period has.
pub(crate) fn days_of_period(leg: &Leg, end: Day) -> u32
    ensures value { result ≡ last_day leg.now end + 1 - leg.now.from }
    ensures small { leg.now.from + result ≤ 84006 }
{
    (leg.to.unwrap_or(end).number() + 1).saturating_sub(leg.from.number())
}

/// The operating days among the first `count` days from the leg's first one on, whatever its last.
pub(crate) fn days_among(leg: &Leg, count: u32) -> RoundDays
    requires few { count ≤ 14 }
    requires small { leg.now.from + count ≤ 84006 }
    ensures { result.items ≡ days_among leg.now count }
{
    let mut days = RoundDays::new();
    let first = leg.from.number();
    for past in 0..count {
        if leg.operates_on(first + past) {
            days.push(first + past);
        }
    }
    days
}
