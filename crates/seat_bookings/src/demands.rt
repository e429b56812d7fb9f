//! What waits for each place and class, so that a waiting list can answer without walking its bookings.
ghost use Rattle.std.specs.Prelude.{◌≡◌, ◌≤◌, ◌<◌, ◌+◌, ◌^◌, ◌++◌, ◌∷◌, [], None, Some, drop, length, position, vec_len, vec_capacity};
ghost use Rattle.std.specs.List.{list_any};
ghost use Rattle.seat_bookings.specs.Demands.{begun, is_demand_of, is_party_of, joined, least_with, demand_first, demand_from, demand_nearer, demand_seats, demand_smallest, demand_waits, near_from, near_left, nearer, next_first, next_of, next_party, settled, smallest_of};
ghost use Rattle.seat_rules.specs.Applying.{IsOrdered};

use crate::bookings::reach;
use crate::fitting::behind;
use airline_base::{Class, Place};
use seat_rules::Booking;

/// The bookings that wait for one place in one class: a number that none of them is below, one that none of the smallest is
/// below, the seats of the smallest, and of all together.
#[derive(Clone, Copy)]
pub struct Demand {
    pub place: Place,
    pub class: Class,
    pub first: u32,
    pub near: u32,
    pub smallest: u16,
    pub seats: u64,
}

impl Demand {
    /// The seats that it waits for in this class on this leg.
    pub fn waits_on(&self, flight: u32, leg: u8, class: Class) -> u64
        ensures { result ≡ demand_waits flight leg class self.now }
    {
        let here = self.place.flight == flight && self.place.from <= leg && leg <= self.place.to;
        if here && self.class == class {
            self.seats
        } else {
            0
        }
    }
}

/// Adds a waiting booking of this number and so many seats.
#[tactic(auto, using(crate::proofs::Waitlists::Demands::seats_found, crate::proofs::Waitlists::Demands::joined_found, crate::proofs::Waitlists::Demands::joined_none))]
pub fn join(demands: &mut Vec<Demand>, number: u32, place: Place, class: Class, seats: u16)
    requires spare { vec_len demands.old < vec_capacity demands.old }
    requires few { demand_seats place class demands.old.items + seats < 2 ^ 64 }
    ensures { demands.new.items ≡ joined demands.old.items place class number seats }
{
    match find_demand(demands, place, class) {
        Some(at) => {
            let demand = &mut demands[at];
            demand.near = nearer(number, seats, demand);
            demand.first = number.min(demand.first);
            demand.smallest = seats.min(demand.smallest);
            demand.seats += u64::from(seats);
        }
        None => open(demands, number, place, class, seats),
    }
}

/// Takes `off` seats from a waiting booking of this number, which keeps `left`.
pub fn lessen(
    demands: &mut Vec<Demand>,
    number: u32,
    place: Place,
    class: Class,
    off: u16,
    left: u16,
)
    requires { off ≤ demand_seats place class demands.old.items }
    ensures { demands.new.items ≡ settled demands.old.items place class
        (least_with left (demand_smallest place class demands.old.items)) None
        (demand_nearer place class number left demands.old.items) off }
{
    let smallest = least(left, smallest_in(demands, place, class));
    let close = nearer_in(demands, place, class, number, left);
    settle(demands, place, class, Some(smallest), None, close, off);
}

/// Removes a booking of this number and so many seats, which has left the queue, where it stood at this index.
pub fn leave(demands: &mut Vec<Demand>, queue: &[Booking], at: usize, gone: Booking)
    requires within { at ≤ length queue.now }
    requires ordered { IsOrdered queue.now }
    requires enough { gone.seats ≤ demand_seats gone.place gone.class demands.old.items }
    requires least { demand_smallest gone.place gone.class demands.old.items
        ≡ least_with gone.seats (smallest_of gone.place gone.class queue.now) }
    ensures { demands.new.items ≡ settled demands.old.items gone.place gone.class
        (smallest_of gone.place gone.class queue.now)
        (next_first (demand_first gone.place gone.class demands.old.items) gone.number
        (next_of gone.place gone.class (drop at queue.now)))
        (near_left gone.place gone.class (smallest_of gone.place gone.class queue.now) demands.old.items queue.now)
        gone.seats }
{
    let (place, class) = (gone.place, gone.class);
    let smallest = smallest_left(demands, queue, at, place, class, gone.seats);
    let next = next_left(demands, queue, at, place, class, gone.number);
    let close = near_left(demands, queue, place, class, smallest);
    settle(demands, place, class, smallest, next, close, gone.seats);
}

fn open(demands: &mut Vec<Demand>, number: u32, place: Place, class: Class, seats: u16)
    requires { vec_len demands.old < vec_capacity demands.old }
    ensures { demands.new.items ≡ demands.old.items
        ++ record { place = place; class = class; first = number; near = number; smallest = seats; seats = seats }
        ∷ [] }
{
    let pushed = demands.push(Demand {
        place,
        class,
        first: number,
        near: number,
        smallest: seats,
        seats: u64::from(seats),
    });
    prove!(pushed.is_ok());
    let _ = pushed;
}

#[tactic(auto, using(crate::proofs::Waitlists::Demands::seats_found, crate::proofs::Waitlists::Demands::settled_found, crate::proofs::Waitlists::Demands::settled_gone, crate::proofs::Waitlists::Demands::settled_none))]
// Takes seats off the demand, which has this smallest from now on, begins at `next` and its smallest at `close`, where these are told, and goes where
// there is no smallest.
fn settle(
    demands: &mut Vec<Demand>,
    place: Place,
    class: Class,
    smallest: Option<u16>,
    next: Option<u32>,
    close: Option<u32>,
    off: u16,
)
    requires { off ≤ demand_seats place class demands.old.items }
    ensures { demands.new.items ≡ settled demands.old.items place class smallest next close off }
{
    let Some(at) = find_demand(demands, place, class) else {
        return;
    };
    match smallest {
        Some(smallest) => {
            let demand = &mut demands[at];
            demand.first = begun(demand.first, next);
            demand.near = begun(demand.near, close);
            demand.smallest = smallest;
            demand.seats -= u64::from(off);
        }
        None => {
            demands.remove(at);
        }
    }
}

fn begun(first: u32, next: Option<u32>) -> u32
    ensures { result ≡ begun first next }
{
    match next {
        Some(next) => next,
        None => first,
    }
}

// Where the smallest of a demand begin, once a booking of this number has so many seats.
fn nearer(number: u32, seats: u16, demand: &Demand) -> u32
    ensures { result ≡ nearer number seats demand.now }
{
    if seats < demand.smallest {
        return number;
    }
    number.min(demand.near)
}

// The same of the demand of this place and class.
fn nearer_in(demands: &[Demand], place: Place, class: Class, number: u32, seats: u16) -> Option<u32>
    ensures { result ≡ demand_nearer place class number seats demands.now }
{
    for demand in demands {
        if demand.place == place && demand.class == class {
            return Some(nearer(number, seats, demand));
        }
    }
    None
}

// The number of the first booking of the least seats that are left.
fn near_left(
    demands: &[Demand],
    queue: &[Booking],
    place: Place,
    class: Class,
    smallest: Option<u16>,
) -> Option<u32>
    requires { IsOrdered queue.now }
    ensures { result ≡ near_left place class smallest demands.now queue.now }
{
    let Some(smallest) = smallest else {
        return None;
    };
    near_from(
        queue,
        place,
        class,
        smallest,
        from_in(demands, place, class, smallest),
    )
}

// The number of the first booking of these seats from a number on.
#[tactic(auto, using(crate::proofs::Waitlists::Reaching::reach_inside))]
fn near_from(
    queue: &[Booking],
    place: Place,
    class: Class,
    seats: u16,
    number: Option<u32>,
) -> Option<u32>
    requires { IsOrdered queue.now }
    ensures { result ≡ near_from place class seats number queue.now }
{
    match number {
        Some(number) => next_party(behind(queue, reach(queue, number)), place, class, seats),
        None => None,
    }
}

// A number that no booking with these least seats is below.
fn from_in(demands: &[Demand], place: Place, class: Class, least: u16) -> Option<u32>
    ensures { result ≡ demand_from place class least demands.now }
{
    for demand in demands {
        if demand.place == place && demand.class == class {
            if demand.smallest == least {
                return Some(demand.near);
            }
            return Some(demand.first);
        }
    }
    None
}

// The number of the first booking of this place and class with so many seats.
fn next_party(queue: &[Booking], place: Place, class: Class, seats: u16) -> Option<u32>
    ensures { result ≡ next_party place class seats queue.now }
{
    for booking in queue {
        if booking.place == place && booking.class == class && booking.seats == seats {
            return Some(booking.number);
        }
    }
    None
}

// Where the demand begins once the booking of this number has left, which stood at an index: at the next one behind it,
// where it was the first.
fn next_left(
    demands: &[Demand],
    queue: &[Booking],
    at: usize,
    place: Place,
    class: Class,
    number: u32,
) -> Option<u32>
    requires { at ≤ length queue.now }
    ensures { result ≡ next_first (demand_first place class demands.now) number (next_of place class (drop at queue.now)) }
{
    let Some(first) = first_in(demands, place, class) else {
        return None;
    };
    if first == number {
        return next_of(behind(queue, at), place, class);
    }
    None
}

// The number of the first booking of this place and class.
fn next_of(queue: &[Booking], place: Place, class: Class) -> Option<u32>
    ensures { result ≡ next_of place class queue.now }
{
    for booking in queue {
        if booking.place == place && booking.class == class {
            return Some(booking.number);
        }
    }
    None
}

// The number at which the demand of this place and class begins.
fn first_in(demands: &[Demand], place: Place, class: Class) -> Option<u32>
    ensures { result ≡ demand_first place class demands.now }
{
    for demand in demands {
        if demand.place == place && demand.class == class {
            return Some(demand.first);
        }
    }
    None
}

#[tactic(auto, using(crate::proofs::Waitlists::Index::none_least, crate::proofs::Waitlists::Index::other_least, crate::proofs::Waitlists::Index::same_least, crate::proofs::Waitlists::Departures::least_behind))]
// The least seats of a booking once one with so many left: all are looked through only where that was the smallest and
// none behind it is as small.
fn smallest_left(
    demands: &[Demand],
    queue: &[Booking],
    at: usize,
    place: Place,
    class: Class,
    seats: u16,
) -> Option<u16>
    requires within { at ≤ length queue.now }
    requires least { demand_smallest place class demands.now ≡ least_with seats (smallest_of place class queue.now) }
    ensures { result ≡ smallest_of place class queue.now }
{
    let Some(smallest) = smallest_in(demands, place, class) else {
        return None;
    };
    if smallest < seats {
        return Some(smallest);
    }
    if waits_behind(queue, at, place, class, smallest) {
        return Some(smallest);
    }
    smallest_of(queue, place, class, smallest)
}

// Whether a booking of this place and class from an index on has so many seats.
fn waits_behind(queue: &[Booking], at: usize, place: Place, class: Class, seats: u16) -> bool
    requires { at ≤ length queue.now }
    ensures { result ≡ list_any (is_party_of place class seats) (drop at queue.now) }
{
    is_party_among(behind(queue, at), place, class, seats)
}

fn is_party_among(queue: &[Booking], place: Place, class: Class, seats: u16) -> bool
    ensures { result ≡ list_any (is_party_of place class seats) queue.now }
{
    queue.iter().any(|b| b.place == place && b.class == class && b.seats == seats)
}

// The least seats among the bookings of this place and class, none of which has fewer than `floor`.
fn smallest_of(queue: &[Booking], place: Place, class: Class, floor: u16) -> Option<u16>
    requires { least_with floor (smallest_of place class queue.now) ≡ Some floor }
    ensures { result ≡ smallest_of place class queue.now }
{
    let mut smallest = None;
    let mut at = queue.len();
    while at > 0 {
        at -= 1;
        let booking = &queue[at];
        if booking.place == place && booking.class == class {
            if booking.seats == floor {
                return Some(floor);
            }
            smallest = Some(least(booking.seats, smallest));
        }
    }
    smallest
}

fn least(seats: u16, other: Option<u16>) -> u16
    ensures { Some result ≡ least_with seats other }
{
    match other {
        Some(other) => seats.min(other),
        None => seats,
    }
}

/// The seats of the smallest booking that waits for this place and class.
fn smallest_in(demands: &[Demand], place: Place, class: Class) -> Option<u16>
    ensures { result ≡ demand_smallest place class demands.now }
{
    for demand in demands {
        if demand.place == place && demand.class == class {
            return Some(demand.smallest);
        }
    }
    None
}

/// Where the demand of this place and class stands.
fn find_demand(demands: &[Demand], place: Place, class: Class) -> Option<usize>
    ensures { result ≡ position (is_demand_of place class) demands.now }
{
    demands
        .iter()
        .position(|p| p.place == place && p.class == class)
}
