//! `compare`: two seasons and a journal over the old one, read and compared, and the text written.
//! It knows the order in which inputs are read, and nothing of what differs.
ghost use Rattle.std.specs.Prelude.{◌≡◌, ◌≢◌, ◌≤◌, ◌+◌, ◌-◌, IfErr, OnOk, max, min};
ghost use Rattle.ssim_flights.specs.Right.{IsOfCentury};
ghost use Rattle.seat_desk.specs.Answering.{IsAnswerOf};
ghost use Rattle.seat_desk.specs.Desk.{IsWritten};
ghost use Rattle.season_changes.specs.Seasons.{answers_of, HasFailedOf, IsAbout, IsRefusedOf, IsTooLargeOf};

use crate::comparing::Comparison;
use crate::fault::SeasonFault;
use airline_base::{Day, NotedRead, NotedWrite};
use seat_desk::{DeskFault, Inputs, Loaded, answer_question, load};
use seat_seal::Beside;
use std::alloc::Global;
use std::thread::Threads;

/// Compares two seasons on the days that both have, and writes what becomes of their flights, with the seats of a journal over the old one
/// where there is one; else it is a journal without lines. The new season is read and checked first, then the old one, and last the journal;
/// nothing is written before all are right. The first days are in 2000 to 2099, and each has 1 to 366.
#[tactic(auto, using(crate::proofs::TwoSeasons::about_both))]
pub fn desk_compare<R: Threads + Sync, I: NotedRead, W: NotedWrite>(
    rt: &R,
    alloc: Global,
    from: &mut Inputs<I, I>,
    to: &mut Inputs<I, I>,
    has_journal: bool,
    journal: &mut I,
    beside: &Beside<'_>,
    out: &mut W,
) -> Result<(), SeasonFault>
    requires from_first { IsOfCentury from.old.first }
    requires from_days { (1 ≤ from.old.days) × (from.old.days ≤ 366) }
    requires to_first { IsOfCentury to.old.first }
    requires to_days { (1 ≤ to.old.days) × (to.old.days ≤ 366) }
    ensures ok { OnOk result (IsAbout I.remaining I.remaining from.old to.old has_journal
        (λ asked. IsWritten (IsAnswerOf (answers_of asked) beside.now I.remaining I.remaining from.old (I.remaining journal.old))
        (W.contents out.old) (W.contents out.new))) }
    ensures fault { IfErr result (λ f. IsRefusedOf I.remaining I.remaining from.old to.old (I.remaining journal.old) beside.now
        f.is_new f.fault) }
    ensures large { IfErr result (λ f. f.fault ≡ DeskFault.TooLarge
        → IsTooLargeOf I.remaining I.remaining from.old to.old (I.remaining journal.old) f.is_new) }
    ensures device { IfErr result (λ f. f.fault ≡ DeskFault.Device
        → HasFailedOf I.remaining I.remaining I.failure_count I.failure_count I.remaining I.failure_count W.contents W.failure_count from.old from.new
        to.old to.new has_journal journal.old journal.new beside.now out.old out.new f.is_new) }
    ensures untouched { IfErr result (λ f. f.fault ≢ DeskFault.Device → out.new ≡ out.old) }
{
    let days = common_days(from.first, from.days, to.first, to.days);
    let loaded = match load(alloc, to) {
        Ok(loaded) => loaded,
        Err(fault) => {
            return Err(SeasonFault {
                is_new: true,
                fault,
            });
        }
    };
    let asked = about(&loaded, days, has_journal);
    match answer_question(rt, alloc, &asked, from, journal, beside, out) {
        Ok(()) => Ok(()),
        Err(fault) => Err(SeasonFault {
            is_new: false,
            fault,
        }),
    }
}

/// The question what this season makes of another on these days, which both have.
fn about(loaded: &Loaded, days: (Day, Day), has_journal: bool) -> Comparison<'_>
    ensures flights { result.flights.now ≡ loaded.now.flights }
    ensures grid { result.grid.now ≡ loaded.now.grid }
    ensures first { result.first ≡ days.0 }
    ensures last { result.last ≡ days.1 }
    ensures journal { result.has_journal ≡ has_journal }
{
    let (first, last) = days;
    Comparison {
        flights: &loaded.flights,
        grid: &loaded.grid,
        first,
        last,
        has_journal,
    }
}

/// The first and the last of the days that both of two runs of days have: the last one lies before the first where they have none.
fn common_days(from: Day, from_days: u16, to: Day, to_days: u16) -> (Day, Day)
    requires from_first { IsOfCentury from }
    requires from_days { (1 ≤ from_days) × (from_days ≤ 366) }
    requires to_first { IsOfCentury to }
    requires to_days { (1 ≤ to_days) × (to_days ≤ 366) }
    ensures first { result.0 ≡ max from to }
    ensures last { result.1 ≡ min (from + from_days - 1) (to + to_days - 1) }
{
    let from_last = last_day(from, from_days);
    let to_last = last_day(to, to_days);
    (later(from, to), earlier(from_last, to_last))
}

/// The last of so many days from a day on.
fn last_day(first: Day, days: u16) -> Day
    requires first { IsOfCentury first }
    requires days { (1 ≤ days) × (days ≤ 366) }
    ensures { result ≡ first + days - 1 }
{
    Day::numbered(first.number() + u32::from(days) - 1)
}

fn later(day: Day, other: Day) -> Day
    ensures { result ≡ max day other }
{
    if day.number() <= other.number() {
        other
    } else {
        day
    }
}

fn earlier(day: Day, other: Day) -> Day
    ensures { result ≡ min day other }
{
    if day.number() <= other.number() {
        day
    } else {
        other
    }
}
