//! The laws of what a host says, each the contract of a function that does nothing.
//! It knows the definitions alone.
ghost use Rattle.desk_answers.specs.Laws.{CallsAreBehind};

/// A numbered request leaves the journal that a list of them leaves, request by request, whatever is said of it. So a list that is sent
/// again, however it was cut, leaves the journal of the list sent once.
pub fn calls_are_behind()
    ensures { CallsAreBehind }
{}
