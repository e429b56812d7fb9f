//! The laws of what a desk is told again and of what departed, each the contract of a function that does nothing.
//! It knows the definitions alone.
ghost use Rattle.desk_hall.specs.Departed.{ClosingsCloseAll};
ghost use Rattle.desk_hall.specs.Pieces.{AllIsToldBehind, PiecesAreTheWhole, PiecesStay};

/// The pieces that a desk is told again, one behind the other, are what it would be told at once.
pub fn pieces_are_the_whole()
    ensures { PiecesAreTheWhole }
{}

/// Up to the last line of the journal that is what it is told behind a line.
pub fn all_is_told_behind()
    ensures { AllIsToldBehind }
{}

/// A piece is the same whatever lines come behind it.
pub fn pieces_stay()
    ensures { PiecesStay }
{}

/// Behind the lines that the closings of what departed make no leg of it has a class open.
pub fn closings_close_all()
    ensures { ClosingsCloseAll }
{}
