//! The laws, each the contract of a function that does nothing.
ghost use Rattle.seat_shards.specs.Laws.{MergedIsLegal, MergedTotals};
ghost use Rattle.seat_shards.specs.Taking.{OneVerdict};

/// The lines of hosts that have different flights, each a legal history by itself, are a legal history together, in whatever order
/// that keeps each host's, with lines, calls and the booking numbers of advices counted anew. It is as long as theirs together.
pub fn merged_is_legal()
    ensures { MergedIsLegal }
{}

/// Its totals are the sums of theirs.
#[tactic(auto, using(crate::proofs::Sums::merged_totals))]
pub fn merged_totals()
    ensures { MergedTotals }
{}

/// No journals are both accepted and refused over one grid, so a right answer is given exactly where they are legal and apart.
pub fn one_verdict()
    ensures { OneVerdict }
{}
