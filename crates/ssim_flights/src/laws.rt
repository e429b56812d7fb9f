//! The laws of operating days, on a function that does nothing.
ghost use Rattle.ssim_flights.specs.Operating.{OperatingDaysAreExact, OperatingDaysAscend, OperatingDaysLieWithin};

/// The operating days of a leg are in order, within its period, and exactly those on which it operates.
#[tactic(auto, using(crate::proofs::OperatingDays::days_increase, crate::proofs::OperatingDays::days_within))]
pub fn operating_days_are_exact()
    ensures exact { OperatingDaysAreExact }
    ensures ascending { OperatingDaysAscend }
    ensures within { OperatingDaysLieWithin }
{}
