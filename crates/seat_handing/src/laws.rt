//! Laws of the definitions, on functions that do nothing.
ghost use Rattle.seat_handing.specs.Laws.{MarkIsKnown};

/// Beside a seal with the mark every journal is known as one whose bookings were carried to another.
pub fn what_is_marked_is_known()
    ensures { MarkIsKnown }
{}
