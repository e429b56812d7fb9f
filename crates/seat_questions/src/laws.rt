//! The laws of the rooms and of hidden rows, the contracts of functions that do nothing.
ghost use Rattle.seat_questions.specs.Cover.{RowsWithoutEffectGiveNothing};
ghost use Rattle.seat_questions.specs.Rooms.{ClosedHasNoRoom, FoundPlacesAreWritten, OpeningRoomsAreOfNoLines, WrittenPlacesAreFound};

/// The rooms after a journal without lines, as [`NO_LINES`](seat_desk::NO_LINES) is one, are those of the limits themselves.
pub fn opening_rooms_are_of_no_lines()
    ensures { OpeningRoomsAreOfNoLines }
{}

/// A request that names what a line of `rooms` has is answered from that very place, whose rooms the line has.
pub fn written_places_are_found()
    ensures { WrittenPlacesAreFound }
{}

/// A place that is kept and that such a request finds has its line.
pub fn found_places_are_written()
    ensures { FoundPlacesAreWritten }
{}

/// A class that `rooms` marks as closed has no room there.
#[tactic(auto, using(crate::proofs::Closings::closed_has_no_room))]
pub fn closed_has_no_room()
    ensures { ClosedHasNoRoom }
{}

/// Without a limit row that gives no leg its ladder each leg has the ladder that it has.
pub fn rows_without_effect_give_nothing()
    ensures { RowsWithoutEffectGiveNothing }
{}
