//! The law of sums by group, on a function that does nothing.
ghost use Rattle.pickup_questions.specs.Together.{GroupsComeToSums};

/// What the rows of `pickup` come to by flight, by class and by day is together what the line of sums has: no row of a class of a flight
/// is left out of its groups, and none counts in two, where each flight has a leg.
pub fn groups_come_to_sums()
    ensures { GroupsComeToSums }
{}
