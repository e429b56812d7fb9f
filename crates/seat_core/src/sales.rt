//! What a line is answered that closes or opens a class (ST): the pass once it is open, or NO.
ghost use Rattle.std.specs.Prelude.{◌≡◌, [], true, IfNone, IfOk, IfSome};
ghost use Rattle.seat_nesting.specs.Changing.{has_sale};
ghost use Rattle.seat_nesting.specs.Counting.{limits_of, table_of};
ghost use Rattle.seat_nesting.specs.Nesting.{ladder_at};
ghost use Rattle.seat_core.specs.Answers.{CountsFlight, Says};
ghost use Rattle.seat_bookings.specs.Books.{book_at, queue_at};
ghost use Rattle.seat_rules.specs.Sequential.{sales_by, set_sale, state_of};
ghost use Rattle.seat_rules.specs.Tables.{advices_by};

use crate::pass::advices_of;
use crate::reply::{Answer, reply};
use airline_base::{Code, Memory};
use seat_bookings::{FlightBook, WaitingList, queue_at};
use seat_journal::{Advice, SaleChange};
use seat_nesting::{Counts, Ladder};
use std::alloc::Global;

/// Answers a line that closes or opens a class, from the counters and the bookings of its flight. The counters are left as
/// they were.
#[tactic(auto, using(crate::proofs::Step::Reply::none_queued))]
pub fn answer_sale(
    alloc: Global,
    counts: &mut Counts,
    books: &[FlightBook],
    change: &SaleChange,
) -> Answer
    requires flight { CountsFlight counts.old books.now change.now.flight }
    ensures says { Says (set_sale (state_of (limits_of counts.old) (book_at books.now change.now.flight)) change.now)
        result }
    ensures limits { limits_of counts.new ≡ limits_of counts.old }
    ensures seats { table_of counts.new ≡ table_of counts.old }
{
    if !counts.has_sale(change.flight, change.leg, change.class) {
        return reply(alloc, *b"NO");
    }
    Answer {
        reply: Code::of(*b"OK"),
        released: 0,
        advices: advices_opened(alloc, counts, books, change),
    }
}

/// The advices of the pass over the waiting list of a flight, once the class is closed or open. Nothing that waits fits
/// before it.
fn advices_opened(
    alloc: Global,
    counts: &mut Counts,
    books: &[FlightBook],
    change: &SaleChange,
) -> Result<Vec<Advice>, Memory>
    requires has { has_sale (limits_of counts.old) change.now.flight change.now.leg change.now.class ≡ true }
    requires quiet { advices_by (limits_of counts.old) (table_of counts.old) (queue_at books.now change.now.flight)
        ≡ [] }
    ensures limits { limits_of counts.new ≡ limits_of counts.old }
    ensures seats { table_of counts.new ≡ table_of counts.old }
    ensures told { IfOk result (λ told. told.items
        ≡ advices_by (sales_by (limits_of counts.old) change.now) (table_of counts.old)
        (queue_at books.now change.now.flight)) }
{
    match queue_at(books, change.flight) {
        Some(queue) => advices_open(alloc, counts, queue, change),
        None => Ok(Vec::new(alloc)),
    }
}

/// The same over this waiting list: the class is opened, and then what was closed is closed again. A class that is closed
/// leaves no more room, so that there is no pass.
#[tactic(auto, using(crate::proofs::Passes::Sales::none_shut))]
fn advices_open(
    alloc: Global,
    counts: &mut Counts,
    queue: &WaitingList,
    change: &SaleChange,
) -> Result<Vec<Advice>, Memory>
    requires has { has_sale (limits_of counts.old) change.now.flight change.now.leg change.now.class ≡ true }
    requires quiet { advices_by (limits_of counts.old) (table_of counts.old) queue.now.bookings ≡ [] }
    ensures limits { limits_of counts.new ≡ limits_of counts.old }
    ensures seats { table_of counts.new ≡ table_of counts.old }
    ensures told { IfOk result (λ told. told.items
        ≡ advices_by (sales_by (limits_of counts.old) change.now) (table_of counts.old) queue.now.bookings) }
{
    if change.closed {
        return Ok(Vec::new(alloc));
    }
    let (flight, leg) = (change.flight, change.leg);
    let Some(before) = ladder_of(counts, flight, leg) else {
        return Ok(Vec::new(alloc));
    };
    counts.set_sale(flight, leg, change.class, change.closed);
    let told = advices_of(alloc, counts, queue);
    counts.set_marks(flight, leg, before);
    told
}

/// The limits of a leg now, and which of its classes are closed.
fn ladder_of(counts: &Counts, flight: u32, leg: u8) -> Option<Ladder>
    ensures found { IfSome result (λ l. l ≡ ladder_at (limits_of counts.now) flight leg) }
    ensures none { IfNone result (ladder_at (limits_of counts.now) flight leg ≡ []) }
{
    match counts.ladder(flight, leg) {
        Some(ladder) => Some(ladder.copy()),
        None => None,
    }
}
