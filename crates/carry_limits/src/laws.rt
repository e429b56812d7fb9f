//! The laws of the limits over which bookings are carried, each the contract of a function that does nothing.
ghost use Rattle.carry_limits.specs.Laws.{FlightsOwnBookingsSuffice, LiftedLimitsHaveRoom};
ghost use Rattle.carry_limits.specs.Same.{CarryIsSame};

/// What is done to a leg's limits, and whether it has too few seats, depends on the bookings of its own flight alone.
pub fn flights_own_bookings_suffice()
    ensures { FlightsOwnBookingsSuffice }
{}

/// The lifted limits of a leg have room for what is held and for what waits, where its highest rank has the seats and at most 999 wait in each class.
pub fn lifted_limits_have_room()
    ensures { LiftedLimitsHaveRoom }
{}

/// Onto the season that an inventory has, its live bookings are carried as they are: the same held, the same waiting, in the same order, under the limits
/// that it has now.
pub fn carry_is_same()
    ensures { CarryIsSame }
{}
