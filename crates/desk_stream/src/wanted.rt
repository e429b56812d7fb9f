//! What a numbered line asks for: seats, or what a row of the manager sets.
ghost use Rattle.std.specs.Prelude.{◌≡◌, ◌↔◌, ◌≤◌, IsTrue};
ghost use Rattle.seat_desk.specs.Loading.{IsGridOf};
ghost use Rattle.seat_serving.specs.Answering.{IsRight};
ghost use Rattle.desk_stream.specs.Wanting.{asked_for, repeat_of, IsRightWanted, IsVery};

use airimp_lines::Request;
use desk_answers::asked_by;
use desk_hall::{Turn, sets};
use seat_disk::Tape;
use seat_journal::{Control, Work};
use seat_replies::is_very_request;
use seat_serving::{Asked, Serving};
use ssim_flights::{Flights, Served};

/// What a numbered line asks for.
#[derive(Clone, Copy)]
pub enum Wanted {
    /// Seats, which a session asks for.
    Seats(Request),
    /// What the manager sets.
    Row(Control),
}

/// What it asks of the inventory.
#[tactic(auto, using(crate::proofs::Wants::seats_right, crate::proofs::Wants::row_wanted))]
pub(crate) fn asked_for<D: Tape>(
    served: &Served<'_>,
    serving: &Serving<D>,
    session: u8,
    wanted: &Wanted,
) -> Asked
    requires grid { IsGridOf served.now serving.now.grid }
    requires session { session ≤ 8 }
    requires right { IsRightWanted served.now session wanted.now }
    ensures value { result ≡ asked_for served.now session wanted.now }
    ensures right { IsRight serving.now.grid result }
{
    match wanted {
        Wanted::Seats(wish) => asked_by(served, session, wish),
        Wanted::Row(control) => Asked {
            session,
            work: control.work(),
        },
    }
}

/// Whether a line of the journal asks for this very request.
pub(crate) fn is_very(flights: &Flights, wanted: &Wanted, work: Work) -> bool
    ensures { IsTrue result ↔ IsVery flights.now wanted.now work }
{
    match wanted {
        Wanted::Seats(wish) => is_very_request(flights, wish, work),
        Wanted::Row(control) => sets(control, work),
    }
}

/// How a call is told once more that is there.
pub(crate) fn repeat_of(session: u8, number: u32, wanted: &Wanted) -> Turn
    ensures { result ≡ repeat_of session number wanted.now }
{
    match wanted {
        Wanted::Seats(wish) => Turn::Repeated(session, number, *wish),
        Wanted::Row(control) => Turn::RepeatedRow(number, *control),
    }
}
