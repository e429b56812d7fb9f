//! Which live bookings can be asked for over other limits.
ghost use Rattle.std.specs.Prelude.{◌≡◌, ◌++◌, ◌∷◌, [], IfOk, OnOk, filter, if◌then◌else◌};
ghost use Rattle.std.specs.List.{All};
ghost use Rattle.seat_nesting.specs.Nesting.{is_open_on};
ghost use Rattle.seat_carrying.specs.Carrying.{sells};
ghost use Rattle.seat_carrying.specs.Owned.{IsOwned};
ghost use Rattle.carry_lines.specs.Carriable.{StaysApart, is_agent, is_carriable, is_party, is_there};

use airline_base::{Class, Memory, Place};
use seat_carrying::Owned;
use seat_nesting::{Grid, Step};
use seat_rules::Booking;
use std::alloc::Global;

/// The live bookings that can be asked for over these limits, in their order.
#[tactic(auto, using(crate::proofs::Choices::all_owned))]
pub fn carriable(alloc: Global, grid: &Grid, moved: &[Owned]) -> Result<Vec<Owned>, Memory>
    ensures kept { IfOk result (λ all. all.items ≡ filter (is_carriable grid.now) moved.now) }
    ensures owned { IfOk result (λ all. All (IsOwned grid.now) all.items) }
    ensures apart { IfOk result (λ all. StaysApart moved.now all.items) }
{
    let mut all = Vec::new(alloc);
    for owned in moved {
        add_if(&mut all, is_carriable(grid, owned), owned)?;
    }
    Ok(all)
}

/// Adds a booking, if it can be asked for.
fn add_if(all: &mut Vec<Owned>, is_carriable: bool, owned: &Owned) -> Result<(), Memory>
    ensures { OnOk result (all.new.items ≡ all.old.items ++ (if is_carriable then owned.now ∷ [] else [])) }
{
    if !is_carriable {
        return Ok(());
    }
    let _booking: Booking = owned.booking;
    match all.push(*owned) {
        Ok(()) => Ok(()),
        Err(_) => Err(Memory),
    }
}

/// Whether a live booking can be asked for over these limits: by a session of an agent, 1 to 8, with 1 to 999 seats, in a class that each leg of
/// its place has and that is open there.
pub fn is_carriable(grid: &Grid, owned: &Owned) -> bool
    ensures { result ≡ is_carriable grid.now owned.now }
{
    let booking = &owned.booking;
    is_agent(owned.session)
        && is_party(booking.seats)
        && is_there(grid, booking.place)
        && sells(grid, booking.place, booking.class)
}

fn is_agent(session: u8) -> bool
    ensures { result ≡ is_agent session }
{
    1 <= session && session <= 8
}

fn is_party(seats: u16) -> bool
    ensures { result ≡ is_party seats }
{
    1 <= seats && seats <= 999
}

/// Whether the limits have the legs of a place.
#[tactic(auto, using(crate::proofs::Choices::there_test))]
fn is_there(grid: &Grid, place: Place) -> bool
    ensures { result ≡ is_there grid.now place }
{
    grid.fits(place)
}

/// Whether each leg of a place has the class, and it is open.
fn sells(grid: &Grid, place: Place, class: Class) -> bool
    ensures { result ≡ sells grid.now place class }
{
    let flight = place.flight;
    if place.from > place.to {
        return false;
    }
    let mut sold = is_open_on(grid.steps(flight, place.from), class);
    for leg in place.from..place.to {
        let here = is_open_on(grid.steps(flight, leg + 1), class);
        sold = sold && here;
    }
    sold
}

/// Whether a leg with these steps has the class, and it is open.
fn is_open_on(steps: &[Step], class: Class) -> bool
    ensures { result ≡ is_open_on steps.now class }
{
    for step in steps {
        if step.class == class {
            return !step.closed;
        }
    }
    false
}
