//! What a row says of a booking in one of the two seasons.
//! It knows nothing of what became of it.
ghost use Rattle.std.specs.Prelude.{◌≡◌};
ghost use Rattle.carry_tables.specs.Sides.{board_in, day_in, designator_in, no_side, off_in, side_of};

use airline_base::Class;
use seat_tables::Cell;
use ssim_flights::Wanted;

/// A booking on the flights of a season, or that it has no place there.
#[derive(Clone, Copy)]
pub(crate) struct Side {
    pub number: Cell,
    pub designator: Cell,
    pub class: Cell,
    pub day: Cell,
    pub board: Cell,
    pub off: Cell,
    pub status: Cell,
    pub seats: Cell,
}

/// A booking on the place of this name, which is not told where the flights have no such place.
pub(crate) fn side_of(
    number: u32,
    name: Option<Wanted>,
    class: Class,
    status: Cell,
    seats: u16,
) -> Side
    ensures { result ≡ side_of number name class status seats }
{
    Side {
        number: Cell::Number(u64::from(number)),
        designator: designator_in(&name),
        class: Cell::Letter(class),
        day: day_in(&name),
        board: board_in(&name),
        off: off_in(&name),
        status,
        seats: Cell::Number(u64::from(seats)),
    }
}

/// One that has no place.
pub(crate) fn no_side() -> Side
    ensures { result ≡ no_side }
{
    Side {
        number: Cell::Nothing,
        designator: Cell::Nothing,
        class: Cell::Nothing,
        day: Cell::Nothing,
        board: Cell::Nothing,
        off: Cell::Nothing,
        status: Cell::Nothing,
        seats: Cell::Nothing,
    }
}

fn designator_in(name: &Option<Wanted>) -> Cell
    ensures { result ≡ designator_in name.now }
{
    match name {
        Some(name) => Cell::Flight(name.airline, name.number, name.suffix),
        None => Cell::Nothing,
    }
}

fn day_in(name: &Option<Wanted>) -> Cell
    ensures { result ≡ day_in name.now }
{
    match name {
        Some(name) => Cell::Date(name.day),
        None => Cell::Nothing,
    }
}

fn board_in(name: &Option<Wanted>) -> Cell
    ensures { result ≡ board_in name.now }
{
    match name {
        Some(name) => Cell::Stop(name.board),
        None => Cell::Nothing,
    }
}

fn off_in(name: &Option<Wanted>) -> Cell
    ensures { result ≡ off_in name.now }
{
    match name {
        Some(name) => Cell::Stop(name.off),
        None => Cell::Nothing,
    }
}
