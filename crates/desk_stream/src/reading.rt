//! Where the reading of a feed stands, and what each of its words leaves.
ghost use Rattle.std.specs.Prelude.{◌≡◌, ◌==◌, ℕ, List, None, Some, IfSome};
ghost use Rattle.airline_base.specs.Days.{IsCenturyDay};
ghost use Rattle.desk_stream.specs.Reading.{counted, first_step, later_of, next_step, of_epoch, on_day, step_of, IsRightStep};
ghost use Rattle.desk_stream.specs.Leads.{IsRightLead};

use crate::lead::Lead;
use crate::telling::FeedTurn;
use airline_base::Day;
use desk_hall::Turn;

/// Where the reading of a feed stands.
#[derive(Clone, Copy)]
pub struct Reading {
    /// The day on which its lines are read; none ahead of the first.
    pub today: Option<Day>,
    /// The epoch that its numbered lines are for.
    pub epoch: u32,
    /// How many lines it has had.
    pub lines: u32,
}

/// What a line of it comes to, by what stands at its front.
#[derive(Clone, Copy)]
pub enum Step {
    /// It is answered so.
    Told(FeedTurn),
    /// It is not answered.
    Silent,
    /// A line of the manager or of a session is behind its lead, read on this day.
    Line(u8, Day),
}

/// What a line that begins so comes to, the last of those that are counted, at a journal of this epoch, and where the reading stands behind it.
pub(crate) fn step_of(own: u32, reading: &Reading, line: &[u8], lead: Lead) -> (Reading, Step)
    requires today { IfSome reading.now.today IsCenturyDay }
    requires right { IsRightLead line.now lead }
    ensures value { result ≡ step_of own reading.now lead }
    ensures right { IsRightStep line.now result.1 }
    ensures today { IfSome result.0.today IsCenturyDay }
{
    match reading.today {
        None => first_step(own, reading, line, lead),
        Some(today) => next_step(own, reading, line, today, lead),
    }
}

// Ahead of the first day. An epoch holds all the same: no numbered line is then taken for another journal's.
fn first_step(own: u32, reading: &Reading, line: &[u8], lead: Lead) -> (Reading, Step)
    requires none { reading.now.today ≡ None }
    requires right { IsRightLead line.now lead }
    ensures value { result ≡ first_step own reading.now lead }
    ensures right { IsRightStep line.now result.1 }
    ensures today { IfSome result.0.today IsCenturyDay }
{
    match lead {
        Lead::Day(day) => on_day(own, reading, day),
        Lead::Epoch(epoch) => (
            of_epoch(reading, epoch),
            Step::Told(FeedTurn::Dayless(reading.lines)),
        ),
        _ => (*reading, Step::Told(FeedTurn::Dayless(reading.lines))),
    }
}

fn next_step(own: u32, reading: &Reading, line: &[u8], today: Day, lead: Lead) -> (Reading, Step)
    requires today { reading.now.today ≡ Some today }
    requires century { IsCenturyDay today }
    requires right { IsRightLead line.now lead }
    ensures value { result ≡ next_step own reading.now today lead }
    ensures right { IsRightStep line.now result.1 }
    ensures today { IfSome result.0.today IsCenturyDay }
{
    match lead {
        Lead::Session(session) => (*reading, Step::Line(session, today)),
        Lead::Day(day) => on_day(own, reading, later_of(today, day)),
        Lead::Epoch(epoch) => (of_epoch(reading, epoch), Step::Silent),
        Lead::Unknown => (*reading, Step::Told(FeedTurn::Unknown(reading.lines))),
    }
}

// The manager is told where it stands on the day.
fn on_day(own: u32, reading: &Reading, day: Day) -> (Reading, Step)
    requires century { IsCenturyDay day }
    ensures value { result ≡ on_day own reading.now day }
    ensures right { (line : List ℕ) → IsRightStep line result.1 }
    ensures today { IfSome result.0.today IsCenturyDay }
{
    let behind = Reading {
        today: Some(day),
        epoch: reading.epoch,
        lines: reading.lines,
    };
    (behind, Step::Told(FeedTurn::Desk(Turn::Stands(day, own))))
}

// A day that is not later is passed over.
fn later_of(today: Day, day: Day) -> Day
    requires century { IsCenturyDay today × IsCenturyDay day }
    ensures value { result ≡ later_of today day }
    ensures century { IsCenturyDay result }
{
    if day.number() > today.number() {
        return day;
    }
    today
}

fn of_epoch(reading: &Reading, epoch: u32) -> Reading
    ensures { result ≡ of_epoch reading.now epoch }
{
    Reading {
        today: reading.today,
        epoch,
        lines: reading.lines,
    }
}

/// A line more.
pub(crate) fn count(reading: &mut Reading)
    ensures { reading.new ≡ counted reading.old }
{
    reading.lines = reading.lines.saturating_add(1);
}

/// Whether its numbered lines are for a journal of this epoch.
pub(crate) fn is_of(reading: &Reading, epoch: u32) -> bool
    ensures { result ≡ (reading.now.epoch == epoch) }
{
    reading.epoch == epoch
}
