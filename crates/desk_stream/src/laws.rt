//! The laws of feeds of very requests, as the contracts of functions that do nothing.
//! It knows the definitions alone.
ghost use Rattle.desk_stream.specs.Laws.{AFeedIsItsJournal, LivedAgainBooksNothing, OwnFeedIsNoStranger, RightLinesAreBooked};

use seat_replies::commands_are_very_requests;

/// However often a feed was sent from a place that the journal had come to, wherever it was broken off, and whatever of the journal
/// was left then, at last sent to its end it leaves the journal of the feed in one piece.
pub fn a_feed_is_its_journal()
    ensures { AFeedIsItsJournal }
{}

/// That is the journal behind a group of the feed's right lines, however it is cut into smaller ones.
pub fn right_lines_are_booked()
    ensures { RightLinesAreBooked }
{}

/// Where the journal has the lines of all that is sent nothing is booked.
pub fn lived_again_books_nothing()
    ensures { LivedAgainBooksNothing }
{}

/// A feed is no stranger to its own journal.
pub fn own_feed_is_no_stranger()
    ensures { OwnFeedIsNoStranger }
{
    commands_are_very_requests();
}
