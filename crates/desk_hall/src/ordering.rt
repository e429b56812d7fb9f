//! What a line of the manager comes to behind the lines of the journal, and behind those that are asked for.
ghost use Rattle.std.specs.Prelude.{◌≡◌, ◌==◌, ◌≤◌, ◌<◌, ◌+◌, None, length, IfSome, nat_le, nat_lt};
ghost use Rattle.airline_base.specs.Days.{IsCenturyDay};
ghost use Rattle.desk_hall.specs.Orders.{IsOfCentury, IsRightOrder};
ghost use Rattle.desk_hall.specs.Planning.{PlansOrder, PlansRow, PlansRowCall, control_asked, day_behind, goes_on};
ghost use Rattle.desk_hall.specs.declared.orders.Order.TheVariants as orders;
ghost use Rattle.seat_desk.specs.Loading.{IsGridOf};
ghost use Rattle.seat_rules.specs.Journal.{calls_of};
ghost use Rattle.seat_serving.specs.Answering.{behind, IsRight};

use crate::orders::Order;
use crate::planning::{Plan, calls_behind, quiet};
use crate::turn::Turn;
use airline_base::Day;
use desk_lines::{Desk, Meaning, Wrong};
use seat_disk::Tape;
use seat_journal::Control;
use seat_serving::{Asked, Serving};
use ssim_flights::Flights;

/// What a line of the manager comes to that asks for this, on the day that holds behind it.
pub(crate) fn plan_of_order<D: Tape>(
    flights: &Flights,
    serving: &Serving<D>,
    asked: &[Asked],
    manager: &Desk,
    today: Day,
    order: Order,
) -> Plan
    requires grid { IsGridOf flights.now serving.now.grid }
    requires right { IsRightOrder flights.now order }
    requires room { length serving.now.journal + length asked.now ≤ serving.now.cap }
    ensures right { IfSome result.asked (IsRight serving.now.grid) }
    ensures room { IfSome result.asked (λ a. length serving.now.journal + length asked.now < serving.now.cap) }
    ensures plans { PlansOrder serving.now.cap manager.now today (behind serving.now.grid serving.now.journal asked.now)
        order result }
{
    match order {
        Order::Said(meaning) => quiet(0, manager, meaning),
        Order::Row(control) => plan_row(flights, serving, asked, control),
        Order::RowCall(number, control) => {
            plan_row_call(flights, serving, asked, manager, number, control)
        }
        Order::Refused(fault) => unasked(Turn::Refused(fault, manager.lines)),
        Order::RefusedCall(number, fault) => unasked(Turn::RefusedCall(fault, number)),
        Order::Day(_) => unasked(Turn::Stands(today, manager.epoch)),
        Order::Stop => quiet(0, manager, Meaning::Nothing),
    }
}

fn unasked(turn: Turn) -> Plan
    ensures { (result.turn ≡ turn) × (result.asked ≡ None) }
{
    Plan { turn, asked: None }
}

// What a row sets is asked for where there is room.
#[tactic(auto, using(crate::proofs::Ordered::row_right, crate::proofs::Ordered::row_room, crate::proofs::Ordered::row_full))]
pub(crate) fn plan_row<D: Tape>(
    flights: &Flights,
    serving: &Serving<D>,
    asked: &[Asked],
    control: Control,
) -> Plan
    requires grid { IsGridOf flights.now serving.now.grid }
    requires right { IsRightOrder flights.now (orders.Row control) }
    requires room { length serving.now.journal + length asked.now ≤ serving.now.cap }
    ensures right { IfSome result.asked (IsRight serving.now.grid) }
    ensures room { IfSome result.asked (λ a. length serving.now.journal + length asked.now < serving.now.cap) }
    ensures plans { PlansRow (nat_lt (length (behind serving.now.grid serving.now.journal asked.now)) serving.now.cap)
        (behind serving.now.grid serving.now.journal asked.now) control result }
{
    if asked.len() < serving.room() as usize {
        let place = (serving.journal().len() + asked.len()) as u32;
        return Plan {
            turn: Turn::Line(place),
            asked: Some(control_asked(control)),
        };
    }
    unasked(Turn::Full(0, calls_behind(serving, asked, 0) + 1))
}

// The same of a numbered one where its number is that of the manager's next call.
#[tactic(auto, using(crate::proofs::Ordered::row_next, crate::proofs::Ordered::row_there, crate::proofs::Ordered::row_beyond))]
fn plan_row_call<D: Tape>(
    flights: &Flights,
    serving: &Serving<D>,
    asked: &[Asked],
    manager: &Desk,
    number: u32,
    control: Control,
) -> Plan
    requires grid { IsGridOf flights.now serving.now.grid }
    requires right { IsRightOrder flights.now (orders.Row control) }
    requires room { length serving.now.journal + length asked.now ≤ serving.now.cap }
    ensures right { IfSome result.asked (IsRight serving.now.grid) }
    ensures room { IfSome result.asked (λ a. length serving.now.journal + length asked.now < serving.now.cap) }
    ensures plans { PlansRowCall (number == calls_of (behind serving.now.grid serving.now.journal asked.now) 0 + 1)
        (nat_le number (calls_of (behind serving.now.grid serving.now.journal asked.now) 0)) serving.now.cap manager.now number
        (behind serving.now.grid serving.now.journal asked.now) control result }
{
    let calls = calls_behind(serving, asked, 0);
    if number == calls + 1 {
        return plan_row(flights, serving, asked, control);
    }
    if number <= calls {
        return unasked(Turn::RepeatedRow(number, control));
    }
    quiet(0, manager, Meaning::WrongCall(number, Wrong::Beyond))
}

fn control_asked(control: Control) -> Asked
    ensures { result ≡ control_asked control }
{
    Asked {
        session: 0,
        work: control.work(),
    }
}

/// The day that holds behind an order: one that is not later is passed over.
pub(crate) fn day_behind(today: Day, order: &Order) -> Day
    requires today { IsCenturyDay today }
    requires order { IsOfCentury order.now }
    ensures value { result ≡ day_behind today order.now }
    ensures century { IsCenturyDay result }
{
    match order {
        Order::Day(day) if day.number() > today.number() => *day,
        _ => today,
    }
}

/// Whether the host goes on behind it.
pub(crate) fn goes_on(order: &Order) -> bool
    ensures { result ≡ goes_on order.now }
{
    !matches!(order, Order::Stop)
}
