//! The laws of what desks are told, each the contract of a function that does nothing.
//! It knows the definitions alone.
ghost use Rattle.desk_telling.specs.Laws.{OwnIsTold, ToldGoesOn, ToldStays};

/// A desk sees its own replies and advices alone: what it is told of a line is the line's reply, if its session asked for it, or an advice
/// of the line to a booking that a line of its session made.
pub fn own_is_told()
    ensures { OwnIsTold }
{}

/// What a desk is told of a journal behind line n is the rest of what it is told of all.
pub fn told_goes_on()
    ensures { ToldGoesOn }
{}

/// What a desk is told of a line stays the same while the journal grows.
pub fn told_stays()
    ensures { ToldStays }
{}
