//! Laws of the definitions, on functions that do nothing.
ghost use Rattle.seat_seal.specs.Known.{OneIsKnown};
ghost use Rattle.seat_seal.specs.Laws.{GrownIsKnown, OneSeal};

/// Two seals with the same text are the same.
pub fn seals_are_unique()
    ensures { OneSeal }
{}

/// No two things are known of a journal by what stands beside it.
pub fn one_is_known()
    ensures { OneIsKnown }
{}

/// A text that was booked is known again, itself and with more behind it.
pub fn grown_texts_are_known()
    ensures { GrownIsKnown }
{}
