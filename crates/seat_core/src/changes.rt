//! What a change of a limit is answered (AU): the pass under the new limit, or NO.
ghost use Rattle.std.specs.Prelude.{◌≡◌, [], true, IfOk};
ghost use Rattle.seat_nesting.specs.Changing.{can_set};
ghost use Rattle.seat_nesting.specs.Counting.{limits_of, table_of};
ghost use Rattle.seat_core.specs.Answers.{CountsFlight, Says};
ghost use Rattle.seat_bookings.specs.Books.{book_at, queue_at};
ghost use Rattle.seat_rules.specs.Sequential.{changed_by, set, state_of};
ghost use Rattle.seat_rules.specs.Tables.{advices_by};

use crate::pass::advices_of;
use crate::reply::{Answer, reply};
use airline_base::{Code, Memory};
use seat_bookings::{FlightBook, WaitingList, queue_at};
use seat_journal::{Advice, Change};
use seat_nesting::Counts;
use std::alloc::Global;

/// Answers a change of a limit, from the counters and the bookings of its flight. The counters are left as they were.
#[tactic(auto, using(crate::proofs::Step::Reply::none_queued))]
pub fn answer_change(
    alloc: Global,
    counts: &mut Counts,
    books: &[FlightBook],
    change: &Change,
) -> Answer
    requires flight { CountsFlight counts.old books.now change.now.flight }
    ensures says { Says (set (state_of (limits_of counts.old) (book_at books.now change.now.flight)) change.now)
        result }
    ensures limits { limits_of counts.new ≡ limits_of counts.old }
    ensures seats { table_of counts.new ≡ table_of counts.old }
{
    let (flight, leg, class) = (change.flight, change.leg, change.class);
    if !counts.can_set(flight, leg, class, change.limit, change.wait) {
        return reply(alloc, *b"NO");
    }
    Answer {
        reply: Code::of(*b"OK"),
        released: 0,
        advices: advices_under(alloc, counts, books, change),
    }
}

/// The advices of the pass over the waiting list of a change's flight, under the limits with that change. Nothing that waits
/// fits before it.
fn advices_under(
    alloc: Global,
    counts: &mut Counts,
    books: &[FlightBook],
    change: &Change,
) -> Result<Vec<Advice>, Memory>
    requires may { can_set (limits_of counts.old) (table_of counts.old) change.now.flight change.now.leg
        change.now.class change.now.limit change.now.wait ≡ true }
    requires quiet { advices_by (limits_of counts.old) (table_of counts.old) (queue_at books.now change.now.flight)
        ≡ [] }
    ensures limits { limits_of counts.new ≡ limits_of counts.old }
    ensures seats { table_of counts.new ≡ table_of counts.old }
    ensures told { IfOk result (λ told. told.items
        ≡ advices_by (changed_by (limits_of counts.old) change.now) (table_of counts.old)
        (queue_at books.now change.now.flight)) }
{
    match queue_at(books, change.flight) {
        Some(queue) => advices_with(alloc, counts, queue, change),
        None => Ok(Vec::new(alloc)),
    }
}

/// The same over this waiting list: the change is made, and then undone. A limit that is not raised leaves no more room, so
/// that there is no pass.
#[tactic(auto, using(crate::proofs::Passes::Lowered::none_lowered))]
fn advices_with(
    alloc: Global,
    counts: &mut Counts,
    queue: &WaitingList,
    change: &Change,
) -> Result<Vec<Advice>, Memory>
    requires may { can_set (limits_of counts.old) (table_of counts.old) change.now.flight change.now.leg
        change.now.class change.now.limit change.now.wait ≡ true }
    requires quiet { advices_by (limits_of counts.old) (table_of counts.old) queue.now.bookings ≡ [] }
    ensures limits { limits_of counts.new ≡ limits_of counts.old }
    ensures seats { table_of counts.new ≡ table_of counts.old }
    ensures told { IfOk result (λ told. told.items
        ≡ advices_by (changed_by (limits_of counts.old) change.now) (table_of counts.old) queue.now.bookings) }
{
    counts.limits_are_kept();
    let (flight, leg, class) = (change.flight, change.leg, change.class);
    let Some(before) = counts.step(flight, leg, class) else {
        return Ok(Vec::new(alloc));
    };
    if change.limit <= before.limit {
        return Ok(Vec::new(alloc));
    }
    counts.set(flight, leg, class, change.limit, change.wait);
    let told = advices_of(alloc, counts, queue);
    counts.set(flight, leg, class, before.limit, before.wait);
    told
}
