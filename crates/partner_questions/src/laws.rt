//! The law of the last line, the contract of a function that does nothing.
ghost use Rattle.partner_questions.specs.Sums.{CountsAreWhole};

/// The lines that are the same and the differences are together the lines of the list and the bookings that it lacks.
#[tactic(auto, using(crate::proofs::Summing::counts_are_whole))]
pub fn counts_are_whole()
    ensures { CountsAreWhole }
{}
