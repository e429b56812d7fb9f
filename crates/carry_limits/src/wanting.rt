//! The limits that are wanted of the legs of a new season.
//! It knows no bookings.
ghost use Rattle.std.specs.Prelude.{◌≡◌, IfNone, IfSome, Some};
ghost use Rattle.std.specs.Bool.{OnFalse};
ghost use Rattle.seat_carrying.specs.Lifting.{wanted};
ghost use Rattle.seat_moving.specs.Moving.{is_very};
ghost use Rattle.seat_nesting.specs.Nesting.{IsLegLadder, ladder_at};
ghost use Rattle.seat_rules.specs.Inventory.{state_now};
ghost use Rattle.carry_limits.specs.Filed.{AreAsBegun, IsChanged, is_limit, same_limit, same_limits, sets_limits};
ghost use Rattle.carry_limits.specs.Wanting.{leg_named, old_leg, one_leg, wanted_on};

use airline_base::Place;
use seat_carrying::wanted_for;
use seat_core::Core;
use seat_journal::{Entry, Work};
use seat_moving::name_of;
use seat_nesting::{Grid, Ladder, Step};
use ssim_flights::{Flights, Served, Wanted};

/// An old season with what a journal left of it, and a new one.
#[derive(Clone, Copy)]
pub struct Seasons<'a> {
    /// The flights of the old season.
    pub old: &'a Served<'a>,
    /// The inventory over them behind the journal's lines.
    pub before: &'a Core,
    /// The flights of the new season.
    pub flights: &'a Flights,
    /// The same, each place of which is found by its name.
    pub new: &'a Served<'a>,
    /// The limits of their legs in the new season's file.
    pub file: &'a Grid,
    /// Whether the file's limits are wanted as they are, whatever the journal's changes set.
    pub fresh: bool,
}

/// The wanted limits of a leg whose file has these; none where they are the file's. `sets` is whether the journal sets any limit.
#[tactic(auto, using(crate::proofs::Kept::fresh_file, crate::proofs::Kept::begun_file, crate::proofs::Kept::unchanged_file, crate::proofs::Kept::changed_file))]
pub(crate) fn other_limits(
    seasons: &Seasons<'_>,
    sets: bool,
    file: &Ladder,
    flight: u32,
    leg: u8,
) -> Option<Ladder>
    requires new { seasons.now.new.now ≡ seasons.now.flights.now }
    requires file { file.now ≡ ladder_at seasons.now.file.now flight leg }
    requires sets { OnFalse sets (AreAsBegun seasons.now.before.now) }
    ensures other { IfSome result (λ ladder. ladder ≡ wanted_on seasons.now flight leg) }
    ensures none { IfNone result (file.now ≡ wanted_on seasons.now flight leg) }
{
    // For the prover alone: a ladder says that its limits do not rise.
    let _ = file.steps();
    if seasons.fresh {
        return None;
    }
    if !sets {
        return None;
    }
    match changed_leg(seasons, flight, leg) {
        Some(old) => Some(wanted_after(seasons.before, file, old)),
        None => None,
    }
}

/// The file's limits of a leg, with what the journal's changes set of classes of its old leg that are still there.
#[tactic(auto, using(crate::proofs::Standing::waits_now))]
fn wanted_after(before: &Core, file: &Ladder, old: Place) -> Ladder
    ensures { result ≡ wanted file.now (ladder_at before.now.grid old.flight old.from)
        (ladder_at (state_now before.now).grid old.flight old.from) }
{
    let begun = opening_steps(before.grid(), old.flight, old.from);
    wanted_for(file, begun, before.steps(old.flight, old.from))
}

/// The steps of a leg: a ladder's, or none.
#[tactic(auto, using(crate::proofs::Standing::leg_ladder_of, crate::proofs::Standing::leg_ladder_none))]
fn opening_steps(grid: &Grid, flight: u32, leg: u8) -> &[Step]
    ensures value { result.now ≡ ladder_at grid.now flight leg }
    ensures ladder { IsLegLadder (ladder_at grid.now flight leg) }
{
    match grid.ladder(flight, leg) {
        Some(ladder) => ladder.steps(),
        None => &[],
    }
}

/// Whether a line of the journal sets a limit, accepted or not.
#[tactic(auto, using(crate::proofs::Kept::limits_stay))]
pub(crate) fn sets_any(before: &Core) -> bool
    ensures { OnFalse result (AreAsBegun before.now) }
{
    sets_limits(before.journal())
}

fn sets_limits(journal: &[Entry]) -> bool
    ensures { result ≡ sets_limits journal.now }
{
    journal.iter().any(|line| is_limit(&line.work))
}

fn is_limit(work: &Work) -> bool
    ensures { result ≡ is_limit work.now }
{
    match work {
        Work::Seats(_) => false,
        Work::Limit(_) => true,
        Work::Sale(_) => false,
    }
}

/// The leg of the old flights that has the name of a leg of the new ones, which that name finds; none where its limits are those with which it began.
#[tactic(auto, using(crate::proofs::Kept::nameless, crate::proofs::Kept::by_its_name))]
fn changed_leg(seasons: &Seasons<'_>, flight: u32, leg: u8) -> Option<Place>
    requires { seasons.now.new.now ≡ seasons.now.flights.now }
    ensures { IsChanged seasons.now.before.now (old_leg seasons.now.old.now seasons.now.flights.now flight leg) result }
{
    let place = Place {
        flight,
        from: leg,
        to: leg,
    };
    match name_of(seasons.flights, place) {
        Some(name) => changed_by_name(seasons, place, &name),
        None => None,
    }
}

/// The leg of a name, if the name finds this leg among the new flights; none where its limits are those with which it began. Most are, and then the new
/// flights are not looked through.
#[tactic(auto, using(crate::proofs::Kept::lost_leg, crate::proofs::Kept::begun_leg, crate::proofs::Kept::other_leg, crate::proofs::Kept::very_leg))]
fn changed_by_name(seasons: &Seasons<'_>, place: Place, name: &Wanted) -> Option<Place>
    ensures { IsChanged seasons.now.before.now (leg_named seasons.now.old.now seasons.now.new.now place (Some name.now)) result }
{
    let Some(old) = one_leg(seasons.old.find(name)) else {
        return None;
    };
    if is_as_begun(seasons.before, old) {
        return None;
    }
    if !is_very(place, seasons.new.find(name)) {
        return None;
    }
    Some(old)
}

/// Whether a leg has the limits now with which it began.
fn is_as_begun(before: &Core, old: Place) -> bool
    ensures { result ≡ same_limits (ladder_at before.now.grid old.flight old.from) (ladder_at (state_now before.now).grid old.flight old.from) }
{
    let begun = opening_steps(before.grid(), old.flight, old.from);
    same_limits(begun, before.steps(old.flight, old.from))
}

/// Whether steps have the same classes in the same order, each with the same limit and the same wait.
fn same_limits(steps: &[Step], others: &[Step]) -> bool
    ensures { result ≡ same_limits steps.now others.now }
{
    match steps {
        [] => others.is_empty(),
        [step, lower @ ..] => match others {
            [] => false,
            [other, more @ ..] => same_limit(step, other) && same_limits(lower, more),
        },
    }
}

fn same_limit(step: &Step, other: &Step) -> bool
    ensures { result ≡ same_limit step.now other.now }
{
    step.class == other.class && step.limit == other.limit && step.wait == other.wait
}

fn is_very(place: Place, found: Option<Place>) -> bool
    ensures { result ≡ is_very place found }
{
    match found {
        Some(found) => found == place,
        None => false,
    }
}

/// A place, if it has one leg.
fn one_leg(found: Option<Place>) -> Option<Place>
    ensures { result ≡ one_leg found }
{
    match found {
        Some(place) if place.from == place.to => found,
        _ => None,
    }
}
