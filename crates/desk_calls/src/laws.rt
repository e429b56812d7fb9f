//! The law of numbered requests, as the contract of a function that does nothing.
//! It knows the definitions alone.
ghost use Rattle.desk_calls.specs.Sending.{SentAgainIsSentOnce};

/// A session's numbered list that is sent any number of times, and broken off anywhere each time, and at last sent whole, leaves the
/// journal of the list sent once.
pub fn sent_again_is_sent_once()
    ensures { SentAgainIsSentOnce }
{}
