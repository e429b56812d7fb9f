//! What a line means behind the number of the manager or of a session.
ghost use Rattle.std.specs.Prelude.{◌≡◌, ◌≤◌, List};
ghost use Rattle.desk_hall.specs.Orders.{IsRightOrder};
ghost use Rattle.desk_lines.specs.Lines.{IsRightMeaning};
ghost use Rattle.desk_stream.specs.Meaning.{meant_by, ordered, unnumbered, IsRightMeant};
ghost use Rattle.ssim_flights.specs.declared.flight.Flight.{Flight as Flown};

use crate::wanted::Wanted;
use desk_hall::{Order, Turn};
use desk_lines::{Desk, Meaning, Wrong};
use ssim_flights::Served;

/// What it means: a numbered request, or what books nothing.
#[derive(Clone, Copy)]
pub enum Meant {
    /// The call of this number asks for this.
    Called(u32, Wanted),
    /// It is answered so.
    Said(Turn),
}

/// What a line of a session's desk means to the feed. Requests without a number are none of its lines.
pub(crate) fn meant_by(session: u8, desk: &Desk, meaning: Meaning) -> Meant
    requires session { 1 ≤ session }
    requires right { IsRightMeaning meaning }
    ensures value { result ≡ meant_by session desk.now meaning }
    ensures right { (flights : List Flown) → IsRightMeant flights session result }
{
    match meaning {
        Meaning::Call(number, wish) => Meant::Called(number, Wanted::Seats(wish)),
        Meaning::Request(_) => unnumbered(session, desk),
        _ => Meant::Said(Turn::Quiet(session, *desk, meaning)),
    }
}

/// The same of a line of the manager. The feed's own words have the day, and its end is that of the feed.
pub(crate) fn ordered(served: &Served<'_>, manager: &Desk, order: Order) -> Meant
    requires right { IsRightOrder served.now order }
    ensures value { result ≡ ordered manager.now order }
    ensures right { IsRightMeant served.now 0 result }
{
    match order {
        Order::RowCall(number, control) => Meant::Called(number, Wanted::Row(control)),
        Order::Said(meaning) => Meant::Said(Turn::Quiet(0, *manager, meaning)),
        Order::Refused(fault) => Meant::Said(Turn::Refused(fault, manager.lines)),
        Order::RefusedCall(number, fault) => Meant::Said(Turn::RefusedCall(fault, number)),
        Order::Row(_) => unnumbered(0, manager),
        Order::Day(_) => unnumbered(0, manager),
        Order::Stop => unnumbered(0, manager),
    }
}

fn unnumbered(session: u8, desk: &Desk) -> Meant
    ensures { result ≡ unnumbered session desk.now }
{
    Meant::Said(Turn::Quiet(session, *desk, Meaning::Wrong(Wrong::Word)))
}
