//! The laws of the lists, each the contract of a function that does nothing.
//! It knows the definitions alone.
ghost use Rattle.seat_lists.specs.Passing.{PassesGoInOrder, WaitersLackSeats};

/// Whoever a pass confirms, it confirms in the order in which `waiting` lists them.
pub fn passes_go_in_order()
    ensures { PassesGoInOrder }
{}

/// Whoever waits after a journal lacks at least one seat: none is left waiting who fits.
pub fn waiters_lack_seats()
    ensures { WaitersLackSeats }
{}
