//! Legs with the days of their operations.
ghost use Rattle.std.specs.Prelude.{◌≡◌, ◌≤◌, ◌<◌, All, OnOk, length, map, slice_index, pos, negsuc, ◌≤ℤ◌};
ghost use Rattle.ssim_flights.specs.Operating.{operation};
ghost use Rattle.ssim_flights.specs.Right.{IsRightLeg};
ghost use Rattle.ssim_flights.specs.Rounds.{AreBefore};
ghost use Rattle.ssim_flights.specs.Schedules.{day_at, days_after, local_at, local_time, schedule, scheduled, shortest};
ghost use Rattle.ssim_flights.specs.Timetables.{AreLocalsOf};

use crate::local_days::{LocalDays, local_day};
use crate::plan::Plan;
use crate::rounds::Rounds;
use airline_base::{Day, Memory, Station};
use ssim_records::Leg;
use std::marker::Model;

/// The operations of a leg, in order.
#[derive(Drop)]
pub(crate) struct Operations {
    days: Rounds,
    /// How many days a local day lies after the operating day.
    after: i32,
}

impl Model for Operations {
    ghost use Rattle.std.specs.Prelude.{List, map, negsuc, pos, ◌≤ℤ◌};
    ghost use Rattle.ssim_flights.specs.Operating.{operation, Operation};

    ghost Value = { List Operation };

    ghost view = { λ o. map (operation o.after) o.days };

    ghost invariant = { λ o. (negsuc 1 ≤ℤ o.after) × (o.after ≤ℤ pos 8) };
}

/// A leg with its operations.
#[derive(Drop)]
pub(crate) struct Scheduled {
    pub leg: Leg,
    pub operations: Operations,
    /// The local time of departure, in minutes of the day, 0 to 1440.
    pub time: u16,
}

impl Operations {
    fn of(days: Rounds, after: i32) -> Operations
        requires low { negsuc 1 ≤ℤ after }
        requires high { after ≤ℤ pos 8 }
        ensures { result ≡ map (operation after) days }
    {
        Operations { days, after }
    }

    pub(crate) fn len(&self) -> usize
        ensures { result ≡ length self.now }
    {
        self.days.len()
    }

    fn day(&self, i: usize) -> Day
        requires { i < length self.now }
        ensures { result ≡ slice_index (map (λ o. o.day) self.now) i }
    {
        self.days.day(i)
    }

    fn local(&self, i: usize) -> Day
        requires { i < length self.now }
        ensures { result ≡ slice_index (map (λ o. o.local) self.now) i }
    {
        local_day(self.days.day(i), self.after)
    }

    /// Their local days in few bytes.
    pub(crate) fn locals(&self) -> LocalDays
        ensures { AreLocalsOf self.now result }
    {
        self.days.locals(self.after)
    }

    fn before(&self, number: u32) -> usize
        ensures { AreBefore (map (λ o. o.day) self.now) number result }
    {
        self.days.before(number)
    }
}

impl Scheduled {
    /// The operating day of operation `i`, counted from 0.
    pub(crate) fn day(&self, i: usize) -> Day
        requires { i < length self.now.operations }
        ensures { result ≡ day_at self.now i }
    {
        self.operations.day(i)
    }

    /// Its local day.
    pub(crate) fn local(&self, i: usize) -> Day
        requires { i < length self.now.operations }
        ensures { result ≡ local_at self.now i }
    {
        self.operations.local(i)
    }

    /// How many operations lie before the day with this number.
    pub(crate) fn before(&self, number: u32) -> usize
        ensures { AreBefore (map (λ o. o.day) self.now.operations) number result }
    {
        self.operations.before(number)
    }
}

/// Makes this list that of the legs with their operations.
pub(crate) fn schedule(list: &mut Vec<Scheduled>, plan: &Plan, legs: &[Leg]) -> Result<(), Memory>
    requires right { All IsRightLeg legs.now }
    requires end { plan.now.end ≤ 47846 }
    ensures { OnOk result (list.new.items ≡ schedule plan.now legs.now) }
{
    list.clear();
    for leg in legs {
        let Ok(()) = list.push(schedule_leg(plan, leg)) else {
            return Err(Memory);
        };
    }
    Ok(())
}

/// How many operations each of the legs has, at most n.
pub(crate) fn shortest(n: usize, legs: &[Scheduled]) -> usize
    ensures value { result ≡ shortest n legs.now }
    ensures low { result ≤ n }
{
    let mut least = n;
    for leg in legs {
        least = least.min(leg.operations.len());
    }
    least
}

/// The leg with its operations.
fn schedule_leg(plan: &Plan, leg: &Leg) -> Scheduled
    requires right { IsRightLeg leg.now }
    requires end { plan.now.end ≤ 47846 }
    ensures { result ≡ scheduled plan.now leg.now }
{
    let days = Rounds::of(leg, plan.end);
    let after = days_after(plan.local, leg);
    let operations = Operations::of(days, after);
    let time = local_time(plan.local, leg);
    let _board: Station = leg.board;
    Scheduled {
        leg: *leg,
        operations,
        time,
    }
}

/// How many days the local day lies after the operating day.
fn days_after(local: bool, leg: &Leg) -> i32
    requires { IsRightLeg leg.now }
    ensures value { result ≡ days_after local leg.now }
    ensures low { negsuc 1 ≤ℤ result }
    ensures high { result ≤ℤ pos 8 }
{
    let shift = i32::from(leg.shift);
    if local {
        return shift;
    }
    let minutes = i32::from(leg.std) + i32::from(leg.offset);
    shift + minutes.div_euclid(1440)
}

/// The local time of departure, in minutes of the day.
fn local_time(local: bool, leg: &Leg) -> u16
    requires { IsRightLeg leg.now }
    ensures { result ≡ local_time local leg.now }
{
    if local {
        return leg.std;
    }
    let minutes = i32::from(leg.std) + i32::from(leg.offset);
    minutes.rem_euclid(1440) as u16
}
