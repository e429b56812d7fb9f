//! Worked rows of the definitions, and their law, each on a function that does nothing.
ghost use Rattle.progress_meter.specs.Reading.{CutsMakeNoDifference};
ghost use Rattle.progress_meter.specs.Rows.{Begun, Booked, Lineless, Millions, Replayed, Sized, Unmeasured};

/// What the line of a meter says.
pub fn lines_read_so()
    ensures sized { Sized }
    ensures unmeasured { Unmeasured }
    ensures replayed { Replayed }
    ensures millions { Millions }
    ensures lineless { Lineless }
    ensures booked { Booked }
    ensures begun { Begun }
{}

/// However an input is cut into reads, as many lines ended in it.
#[tactic(auto, using(crate::proofs::Cuts::cuts_make_no_difference))]
pub fn cuts_make_no_difference()
    ensures { CutsMakeNoDifference }
{}
