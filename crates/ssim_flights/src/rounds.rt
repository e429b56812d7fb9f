//! The operating days of a leg by rounds of one or two weeks: any of them is found without those before it.
ghost use Rattle.std.specs.Prelude.{◌≡◌, ◌≤◌, ◌<◌, nat_lt, pos, negsuc, ◌≤ℤ◌, All, filter, length, slice_index};
ghost use Rattle.ssim_flights.specs.Operating.{days_among, operating_days};
ghost use Rattle.ssim_flights.specs.Right.{IsRightLeg};
ghost use Rattle.ssim_flights.specs.Rounds.{AreBefore, round_days};
ghost use Rattle.ssim_flights.specs.Timetables.{AreLocals, AreShifted};

use crate::days::{RoundDays, days_among, days_of_period};
use crate::local_days::{LocalDays, local_day};
use airline_base::Day;
use ssim_records::Leg;
use std::marker::Model;

/// The days of a leg's period on which it operates.
#[derive(Drop)]
pub(crate) struct Rounds {
    leg: Leg,
    /// The day that stands for an open end of its period.
    end: Day,
    /// Those of the first round.
    first: RoundDays,
    count: usize,
}

impl Model for Rounds {
    ghost use Rattle.std.specs.Prelude.{List, ℕ};
    ghost use Rattle.ssim_flights.specs.Operating.{operating_days};
    ghost use Rattle.ssim_flights.specs.Rounds.{AreRounds};

    ghost Value = { List ℕ };

    ghost view = { λ r. operating_days r.leg r.end };

    ghost invariant = { λ r. AreRounds r.leg r.end r.first.items r.count };
}

impl Rounds {
    pub(crate) fn of(leg: &Leg, end: Day) -> Rounds
        requires right { IsRightLeg leg.now }
        requires end { end ≤ 47846 }
        ensures { result ≡ operating_days leg.now end }
    {
        let first = days_among(leg, round_days(leg.second_week));
        let count = count_among(leg, first.as_slice(), days_of_period(leg, end));
        Rounds {
            leg: *leg,
            end,
            first,
            count,
        }
    }

    pub(crate) fn len(&self) -> usize
        ensures { result ≡ length self.now }
    {
        self.count
    }

    /// Day `i`, counted from 0.
    pub(crate) fn day(&self, i: usize) -> Day
        requires { i < length self.now }
        ensures value { result ≡ slice_index self.now i }
        ensures begun { 10957 ≤ result }
        ensures lasts { result ≤ 47846 }
    {
        let first = self.first.as_slice();
        let past = (i / first.len()) as u32 * round_days(self.leg.second_week);
        let number = first[i % first.len()] + past;
        Day::numbered(number)
    }

    /// The local days that lie so many days after these.
    pub(crate) fn locals(&self, after: i32) -> LocalDays
        requires low { negsuc 1 ≤ℤ after }
        requires high { after ≤ℤ pos 8 }
        ensures { AreLocals after self.now result }
    {
        LocalDays {
            first: shifted(self.first.as_slice(), after),
            many: self.first.len() as u8,
            round: round_days(self.leg.second_week) as u8,
        }
    }

    /// How many of them lie before the day with this number.
    pub(crate) fn before(&self, number: u32) -> usize
        ensures { AreBefore self.now number result }
    {
        let days = number.saturating_sub(self.leg.from.number());
        count_among(&self.leg, self.first.as_slice(), days).min(self.count)
    }
}

/// The numbers of the days that lie so many days after those of a round.
fn shifted(days: &[u32], after: i32) -> [u16; 14]
    requires few { length days.now ≤ 14 }
    requires days { All (λ d. (10957 ≤ d) × (d ≤ 47846)) days.now }
    requires low { negsuc 1 ≤ℤ after }
    requires high { after ≤ℤ pos 8 }
    ensures { AreShifted after days.now (length days.now) result }
{
    let mut shifted_days = [0u16; 14];
    for j in 0..days.len() {
        let day = local_day(Day::numbered(days[j]), after);
        shifted_days[j] = day.number() as u16;
    }
    shifted_days
}

/// After how many days the days of operation come again.
fn round_days(second_week: bool) -> u32
    ensures { result ≡ round_days second_week }
{
    if second_week { 14 } else { 7 }
}

/// How many operating days there are among the first `days` days, whatever the last, from those of the first round.
fn count_among(leg: &Leg, first: &[u32], days: u32) -> usize
    requires { first.now ≡ days_among leg.now (round_days leg.now.second_week) }
    ensures { result ≡ length (days_among leg.now days) }
{
    let round = round_days(leg.second_week);
    let rest = leg.from.number() + days % round;
    (days / round) as usize * first.len() + days_before(first, rest)
}

/// How many of the days lie before the day with this number.
fn days_before(days: &[u32], number: u32) -> usize
    ensures value { result ≡ length (filter (λ d. nat_lt d number) days.now) }
    ensures bound { result ≤ length days.now }
{
    let mut count = 0usize;
    for day in days {
        if *day < number {
            count += 1;
        }
    }
    count
}
