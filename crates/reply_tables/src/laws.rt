//! The law of the rows, the contract of a function that does nothing.
ghost use Rattle.reply_tables.specs.ReplyRows.{LinesHaveRows};

/// No reply is left out of a table: a line whose request and whose advices' bookings are there, as those are that
/// [`desk_replies`](seat_scripts::desk_replies) words, has a row, and so has each of its advices.
pub fn lines_have_rows()
    ensures { LinesHaveRows }
{}
