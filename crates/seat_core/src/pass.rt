//! The pass over a flight's waiting list, by counters of held seats.
ghost use Rattle.std.specs.Prelude.{◌≡◌, ◌≤◌, ◌<◌, ◌++◌, ◌∷◌, [], drop, length, IfOk, OnErr, OnOk};
ghost use Rattle.seat_nesting.specs.Counting.{limits_of, table_of};
ghost use Rattle.seat_nesting.specs.Nesting.{room};
ghost use Rattle.seat_core.specs.Answers.{rest_advised};
ghost use Rattle.seat_rules.specs.Sequential.{advice_of};
ghost use Rattle.seat_rules.specs.Showing.{given_back, shown_advices, taken_back};
ghost use Rattle.seat_rules.specs.Tables.{advices_by, told_of};

use airline_base::{Class, Memory, Place};
use seat_bookings::WaitingList;
use seat_journal::Advice;
use seat_nesting::Counts;
use seat_rules::{Booking, give_back};
use std::alloc::Global;

/// The advices of the pass over a waiting list, once so many seats are given back. The counters are left as they were.
pub fn advices_after(
    alloc: Global,
    counts: &mut Counts,
    queue: &WaitingList,
    place: Place,
    class: Class,
    seats: u16,
) -> Result<Vec<Advice>, Memory>
    ensures limits { limits_of counts.new ≡ limits_of counts.old }
    ensures seats { table_of counts.new ≡ table_of counts.old }
    ensures told { IfOk result (λ told. told.items
        ≡ advices_by (limits_of counts.old) (given_back (limits_of counts.old) (table_of counts.old) place class seats)
        queue.now.bookings) }
{
    counts.limits_are_kept();
    if !counts.holds(place, class, seats) {
        return advices_of(alloc, counts, queue);
    }
    counts.give(place, class, seats);
    let told = advices_of(alloc, counts, queue);
    counts.take(place, class, seats);
    told
}

/// The advices of the pass over a waiting list. The counters are left as they were.
pub fn advices_of(
    alloc: Global,
    counts: &mut Counts,
    queue: &WaitingList,
) -> Result<Vec<Advice>, Memory>
    ensures limits { limits_of counts.new ≡ limits_of counts.old }
    ensures seats { table_of counts.new ≡ table_of counts.old }
    ensures told { IfOk result (λ told. told.items
        ≡ advices_by (limits_of counts.old) (table_of counts.old) queue.now.bookings) }
{
    let mut advices = Vec::new(alloc);
    let confirmed = confirm_each(counts, queue, &mut advices);
    take_back_each(counts, advices.as_slice());
    let Ok(()) = confirmed else {
        return Err(Memory);
    };
    copied(alloc, advices.as_slice())
}

/// These advices, in memory for just as many.
fn copied(alloc: Global, advices: &[Advice]) -> Result<Vec<Advice>, Memory>
    ensures { IfOk result (λ told. told.items ≡ advices.now) }
{
    match Vec::from_slice(alloc, advices) {
        Ok(told) => Ok(told),
        Err(_) => Err(Memory),
    }
}

/// Takes the seats of each waiting booking that fits, in order, and tells of it. Those that don't are passed over: they
/// don't fit later on either, as a pass only takes seats.
#[tactic(auto, using(crate::proofs::Passes::Skipped::told_on, crate::proofs::Passes::Skipped::back_on, crate::proofs::Passes::Skipped::ended))]
fn confirm_each(
    counts: &mut Counts,
    queue: &WaitingList,
    advices: &mut Vec<Advice>,
) -> Result<(), Memory>
    requires none { advices.old.items ≡ [] }
    ensures limits { limits_of counts.new ≡ limits_of counts.old }
    ensures advices { OnOk result (advices.new.items
        ≡ advices_by (limits_of counts.old) (table_of counts.old) queue.now.bookings) }
    ensures seats { taken_back (limits_of counts.old) (table_of counts.new) advices.new.items ≡ table_of counts.old }
{
    let most = queue.as_slice().len();
    let mut at = 0;
    while at < most {
        let Ok(next) = confirm_next(counts, queue, advices, at) else {
            return Err(Memory);
        };
        at = next;
    }
    Ok(())
}

/// Takes the seats of the first booking from an index on that fits, and tells of it. Where the pass goes on: behind that
/// booking, or at the end where none fits.
#[tactic(auto, using(crate::proofs::Passes::Skipped::told_behind, crate::proofs::Passes::Skipped::none_behind, crate::proofs::Passes::Skipped::found_inside, crate::proofs::Passes::Skipped::back_behind))]
fn confirm_next(
    counts: &mut Counts,
    queue: &WaitingList,
    advices: &mut Vec<Advice>,
    from: usize,
) -> Result<usize, Memory>
    requires within { from < length queue.now.bookings }
    ensures limits { limits_of counts.new ≡ limits_of counts.old }
    ensures back { taken_back (limits_of counts.old) (table_of counts.new) advices.new.items
        ≡ taken_back (limits_of counts.old) (table_of counts.old) advices.old.items }
    ensures told { IfOk result (λ to. advices.new.items
        ++ advices_by (limits_of counts.old) (table_of counts.new) (drop to queue.now.bookings)
        ≡ advices.old.items ++ advices_by (limits_of counts.old) (table_of counts.old) (drop from queue.now.bookings)) }
    ensures further { IfOk result (λ to. from < to) }
    ensures inside { IfOk result (λ to. to ≤ length queue.now.bookings) }
{
    let bookings = queue.as_slice();
    let Some(behind) = queue.next_fit(counts, from) else {
        return Ok(bookings.len());
    };
    let at = from + behind;
    let Ok(()) = consider(counts, &bookings[at], advices) else {
        return Err(Memory);
    };
    Ok(at + 1)
}

/// Takes the seats of one booking, where it waits and fits, and tells of it.
#[tactic(auto, using(crate::proofs::Passes::Undone::taken_one, crate::proofs::Passes::Undone::told_fits, crate::proofs::Passes::Undone::told_over, crate::proofs::Passes::Undone::told_held, seat_nesting::proofs::Rooms::fits_free))]
fn consider(counts: &mut Counts, booking: &Booking, advices: &mut Vec<Advice>) -> Result<(), Memory>
    ensures limits { limits_of counts.new ≡ limits_of counts.old }
    ensures advices { OnOk result (advices.new.items ≡ advices.old.items
        ++ told_of (limits_of counts.old) (table_of counts.old) booking.now) }
    ensures seats { OnOk result (table_of counts.new
        ≡ shown_advices (limits_of counts.old) (table_of counts.old)
        (told_of (limits_of counts.old) (table_of counts.old) booking.now)) }
    ensures same { OnErr result (advices.new.items ≡ advices.old.items × table_of counts.new ≡ table_of counts.old) }
{
    if !booking.is_waiting() {
        return Ok(());
    }
    if booking.seats > counts.room(booking.place, booking.class) {
        return Ok(());
    }
    let Ok(()) = tell(advices, booking) else {
        return Err(Memory);
    };
    counts.take(booking.place, booking.class, booking.seats);
    Ok(())
}

/// Gives back the seats of advices, the last first.
fn take_back_each(counts: &mut Counts, advices: &[Advice])
    ensures limits { limits_of counts.new ≡ limits_of counts.old }
    ensures seats { table_of counts.new ≡ taken_back (limits_of counts.old) (table_of counts.old) advices.now }
{
    let mut at = advices.len();
    while at > 0 {
        at -= 1;
        let advice = &advices[at];
        give_back(counts, advice.place, advice.class, advice.seats);
    }
}

/// The advice of a waiting booking that has so many seats fewer, where those that are left fit. The bookings beside it
/// wait in vain as before.
pub fn advices_of_rest(
    alloc: Global,
    counts: &Counts,
    booking: &Booking,
    seats: u16,
) -> Result<Vec<Advice>, Memory>
    ensures { IfOk result (λ told. told.items
        ≡ rest_advised (room (limits_of counts.now) (table_of counts.now) booking.now.place booking.now.class)
        booking.now seats) }
{
    let mut told = Vec::new(alloc);
    if booking.seats <= seats {
        return Ok(told);
    }
    let left = booking.seats - seats;
    if left <= counts.room(booking.place, booking.class) {
        let advice = Advice {
            number: booking.number,
            place: booking.place,
            class: booking.class,
            seats: left,
        };
        let Ok(()) = told.push(advice) else {
            return Err(Memory);
        };
    }
    Ok(told)
}

/// Adds the advice of a booking.
fn tell(advices: &mut Vec<Advice>, booking: &Booking) -> Result<(), Memory>
    ensures ok { OnOk result (advices.new.items ≡ advices.old.items ++ advice_of booking.now ∷ []) }
    ensures err { OnErr result (advices.new.items ≡ advices.old.items) }
{
    let advice = Advice {
        number: booking.number,
        place: booking.place,
        class: booking.class,
        seats: booking.seats,
    };
    match advices.push(advice) {
        Ok(()) => Ok(()),
        Err(_) => Err(Memory),
    }
}
