//! What one flight's lines and bookings owe to those of the others: nothing.
ghost use Rattle.seat_rules.specs.Flights.{LineOfPart, PartIsLegal, PartGrows, PartIsAlone, PartLeavesBookings, PartLeavesLimits, PartLeavesRoom, PassOfFlight, RoomOfFlight};

/// Where no booking of another flight can be confirmed, a pass looks at one flight's waiting list and ladders alone.
#[tactic(auto, using(crate::proofs::Flight::View::pass_of_flight))]
pub fn pass_of_flight()
    ensures { PassOfFlight }
{}

/// The room of a place rests on the ladders and the bookings of its flight alone.
#[tactic(auto, using(crate::proofs::Flight::View::room_of_flight))]
pub fn room_of_flight()
    ensures { RoomOfFlight }
{}

/// A flight's part of a legal history is itself a legal history, also over limits that differ on other flights.
#[tactic(auto, using(crate::proofs::Flight::Locality::part_is_legal))]
pub fn part_is_legal()
    ensures { PartIsLegal }
{}

/// A line on the flight has the same reply, released seats and advices in the part as in the whole.
#[tactic(auto, using(crate::proofs::Flight::Locality::line_of_part))]
pub fn line_of_part()
    ensures { LineOfPart }
{}

/// The part leaves the limits of the flight as the whole history leaves them.
#[tactic(auto, using(crate::proofs::Flight::Locality::part_leaves_limits))]
pub fn part_leaves_limits()
    ensures { PartLeavesLimits }
{}

/// The part leaves each place on the flight the room that the whole history leaves it.
#[tactic(auto, using(crate::proofs::Flight::Locality::part_leaves_room))]
pub fn part_leaves_room()
    ensures { PartLeavesRoom }
{}

/// The part leaves the bookings of the flight, each under the number of its line in the part.
#[tactic(auto, using(crate::proofs::Flight::Locality::part_leaves_bookings))]
pub fn part_leaves_bookings()
    ensures { PartLeavesBookings }
{}

/// The part is what the flight's lines make when they are carried out once more, alone.
#[tactic(auto, using(crate::proofs::Flight::Locality::part_is_alone))]
pub fn part_is_alone()
    ensures { PartIsAlone }
{}

/// The part grows with the journal, by the lines that its own lines make when they are carried out alone.
#[tactic(auto, using(crate::proofs::Flight::Locality::part_grows))]
pub fn part_grows()
    ensures { PartGrows }
{}
