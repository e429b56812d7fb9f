//! The laws of the definitions, each the contract of a function that does nothing.
ghost use Rattle.seat_rules.specs.Laws.{LegalByRecursion, NoneFitsAfterAStep, ReplayKeepsLimits, LiveBookingsDiffer, HeldSeatsAreTheTotals, HeldByRankIsHeldByBookings, ReplayIsNumbered, ApplyingIsTheStep, PassIsByTable};
ghost use Rattle.seat_rules.specs.Replaying.{LegalHasNoFault};
ghost use Rattle.seat_rules.specs.Closing.{ClosedIsClosed, WithoutClosingNothingChanges};
ghost use Rattle.seat_rules.specs.Showing.{ShownIsHeld};

/// Legal histories by beginnings are those by recursion.
#[tactic(auto, using(crate::proofs::History::Legal::legal_both))]
pub fn legal_by_recursion()
    ensures { LegalByRecursion }
{}

/// After any step from a replay no waiting booking fits.
#[tactic(auto, using(crate::proofs::History::Replays::none_fits_after_a_step))]
pub fn none_fits_after_a_step()
    ensures { NoneFitsAfterAStep }
{}

/// No replay holds more seats in a rank and below it than its limit.
#[tactic(auto, using(crate::proofs::History::Replays::replay_keeps_limits))]
pub fn replay_keeps_limits()
    ensures { ReplayKeepsLimits }
{}

/// No two live bookings of a replay have the same locator, place and class.
#[tactic(auto, using(crate::proofs::Step::Apart::live_bookings_differ))]
pub fn live_bookings_differ()
    ensures { LiveBookingsDiffer }
{}

/// After a legal history the seats of the held bookings are those confirmed less those released.
#[tactic(auto, using(crate::proofs::History::Totals::held_seats_are_the_totals))]
pub fn held_seats_are_the_totals()
    ensures { HeldSeatsAreTheTotals }
{}

/// Held by classes is the sum over the held bookings that cover the leg.
#[tactic(auto, using(crate::proofs::Counters::Ranks::held_by_rank))]
pub fn held_by_rank()
    ensures { HeldByRankIsHeldByBookings }
{}

/// After a legal history the bookings stand in order of number.
#[tactic(auto, using(crate::proofs::Step::Effect::replay_is_numbered))]
pub fn replay_is_numbered()
    ensures { ReplayIsNumbered }
{}

/// Applying the next line to the bookings is the step.
pub fn applying_is_the_step()
    ensures { ApplyingIsTheStep }
{}

/// The table of held seats and the bookings in order give the advices of a pass.
#[tactic(auto, using(crate::proofs::Passes::ByTable::pass_is_by_table))]
pub fn pass_is_by_table()
    ensures { PassIsByTable }
{}

/// Exactly the legal histories of at most `cap` entries are replayed without a fault.
#[tactic(auto, using(crate::proofs::History::Faults::legal_has_no_fault))]
pub fn legal_has_no_fault()
    ensures { LegalHasNoFault }
{}

/// Between a close of a leg's class and the next open no line gives or confirms a seat in that class on that leg.
#[tactic(auto, using(crate::proofs::History::Closed::closed_is_closed))]
pub fn closed_is_closed()
    ensures { ClosedIsClosed }
{}

/// Where no line closes or opens a class, each room and each waiting room is as by the rules without closed classes.
#[tactic(auto, using(crate::proofs::History::Closed::without_closing))]
pub fn without_closing_nothing_changes()
    ensures { WithoutClosingNothingChanges }
{}

/// Over a legal history the counters that its entries leave hold what its replay holds.
#[tactic(auto, using(crate::proofs::Counters::Shown::shown_is_held))]
pub fn shown_is_held()
    ensures { ShownIsHeld }
{}
