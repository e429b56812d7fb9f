//! The law of the rows, the contract of a function that does nothing.
ghost use Rattle.carry_tables.specs.FateRows.{EachHasARow};

/// No live booking is left out of a table, and none stands twice: there are as many rows as live bookings, each the row of the one at its place.
pub fn each_has_a_row()
    ensures { EachHasARow }
{}
