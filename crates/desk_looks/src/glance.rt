//! The seats that are left where a viewer is let in.
use airline_base::{Class, Place};
use desk_answers::Seats;
use seat_display::Sight;
use seat_nesting::Grid;

/// What is seen of the table, where that many lines are said to be seen, over the limits that its journal begins with.
#[derive(Clone, Copy)]
pub(crate) struct Glance<'a> {
    pub sight: &'a Sight,
    pub grid: &'a Grid,
    pub lines: u32,
}

impl<'a> Seats for Glance<'a> {
    ghost use Rattle.seat_rules.specs.Journal.{replay};

    ghost ladders = { λ g. g.grid.now };

    ghost count = { λ g. g.lines };

    ghost state = { λ g. replay g.sight.now.grid g.sight.now.front };

    fn lines_seen(&self) -> u32 {
        self.lines
    }

    fn opening(&self) -> &Grid {
        self.grid
    }

    fn left_on(&self, place: Place, class: Class) -> u16 {
        self.sight.room(place, class)
    }
}
