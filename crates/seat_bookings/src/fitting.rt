//! Which waiting booking fits: most are passed over by their number or their class alone.
ghost use Rattle.std.specs.Prelude.{◌≡◌, ◌≤◌, ◌&&◌, ℕ, Some, drop, length, nat_le, position};
ghost use Rattle.seat_nesting.specs.Counting.{limits_of, table_of};
ghost use Rattle.seat_nesting.specs.Nesting.{room};
ghost use Rattle.seat_bookings.specs.Demands.{first_fitting, first_with, least_with, start_of, IsIndexed};
ghost use Rattle.seat_bookings.specs.Fitting.{most_of, IsMost, IsMostFor};
ghost use Rattle.seat_bookings.specs.Queues.{fits, next_fit};

use crate::bookings::reach;
use crate::demands::Demand;
use airline_base::Class;
use seat_nesting::Counts;
use seat_rules::Booking;

/// How far behind an index the first of these bookings stands that has at most the seats that the counters leave room for.
#[tactic(auto, using(crate::proofs::Waitlists::Fitting::none_next, crate::proofs::Waitlists::Fitting::most_behind, crate::proofs::Waitlists::Reaching::reach_within))]
pub fn next_fit(
    counts: &Counts,
    bookings: &[Booking],
    demands: &[Demand],
    from: usize,
) -> Option<usize>
    requires within { from ≤ length bookings.now }
    requires indexed { IsIndexed bookings.now demands.now }
    ensures { result ≡ next_fit (limits_of counts.now) (table_of counts.now) bookings.now from }
{
    let mut most = [0; 26];
    let Some(first) = first_fitting(counts, demands, &mut most) else {
        return None;
    };
    let start = from.max(reach(bookings, first));
    match fit_from(counts, bookings, &most, start) {
        Some(at) => Some(start - from + at),
        None => None,
    }
}

// The least number at which a demand begins that finds room for its smallest booking. Notes by classes from A on the most
// room that a demand of the class finds.
fn first_fitting(counts: &Counts, demands: &[Demand], most: &mut [u16; 26]) -> Option<u32>
    ensures first { result ≡ first_fitting (limits_of counts.now) (table_of counts.now) demands.now }
    ensures most { IsMost (limits_of counts.now) (table_of counts.now) most.new demands.now }
{
    let mut first = None;
    let mut at = demands.len();
    while at > 0 {
        at -= 1;
        let demand = &demands[at];
        let room = counts.room(demand.place, demand.class);
        raise(most, demand.class, room);
        first = sooner(demand, room, first);
    }
    first
}

// The least of a number and that at which a demand begins, where so many seats are left for its smallest booking.
fn sooner(demand: &Demand, left: u16, other: Option<u32>) -> Option<u32>
    ensures { result ≡ first_with demand.now left other }
{
    if demand.smallest > left {
        return other;
    }
    Some(lower(start_of(demand, left), other))
}

// Where the bookings of a demand begin that have at most so many seats, which are at least its least.
fn start_of(demand: &Demand, left: u16) -> u32
    ensures { result ≡ start_of demand.now left }
{
    if demand.smallest < left {
        return demand.first;
    }
    demand.near
}

fn lower(number: u32, other: Option<u32>) -> u32
    ensures { Some result ≡ least_with number other }
{
    match other {
        Some(other) => number.min(other),
        None => number,
    }
}

// How far behind an index the first of these bookings stands that fits, where those that do have no more seats than are
// noted for their class.
fn fit_from(counts: &Counts, bookings: &[Booking], most: &[u16; 26], start: usize) -> Option<usize>
    requires within { start ≤ length bookings.now }
    requires most { IsMostFor (limits_of counts.now) (table_of counts.now) most.now (drop start bookings.now) }
    ensures { result ≡ next_fit (limits_of counts.now) (table_of counts.now) bookings.now start }
{
    first_fit(counts, behind(bookings, start), most)
}

// Where the first of these bookings stands that has at most the seats that the counters leave room for.
fn first_fit(counts: &Counts, bookings: &[Booking], most: &[u16; 26]) -> Option<usize>
    requires { IsMostFor (limits_of counts.now) (table_of counts.now) most.now bookings.now }
    ensures { result ≡ position (fits (limits_of counts.now) (table_of counts.now)) bookings.now }
{
    first_below(counts, bookings, most)
}

// The same, of those alone that have at most the seats that are noted for their class.
fn first_below(counts: &Counts, bookings: &[Booking], most: &[u16; 26]) -> Option<usize>
    ensures { result ≡ position (λ b. nat_le b.seats (most_of most.now b.class)
        && nat_le b.seats (room (limits_of counts.now) (table_of counts.now) b.place b.class)) bookings.now }
{
    bookings.iter().position(|b| b.seats <= most_of(most, b.class)
        && b.seats <= counts.room(b.place, b.class))
}

/// The bookings from an index on.
pub fn behind(bookings: &[Booking], from: usize) -> &[Booking]
    requires { from ≤ length bookings.now }
    ensures { result.now ≡ drop from bookings.now }
{
    &bookings[from..]
}

// The most room of a class.
fn most_of(most: &[u16; 26], class: Class) -> u16
    ensures { result ≡ most_of most.now class }
{
    most[(class.letter() - b'A') as usize]
}

// Notes a room of a class.
fn raise(most: &mut [u16; 26], class: Class, room: u16)
    ensures here { room ≤ most_of most.new class }
    ensures kept { (other : ℕ) → most_of most.old other ≤ most_of most.new other }
{
    let place = (class.letter() - b'A') as usize;
    most[place] = room.max(most[place]);
}
