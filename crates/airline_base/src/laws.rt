//! Laws of the definitions, each on a function that does nothing.
ghost use Rattle.airline_base.specs.Days.{WrittenIsRead, ReadIsWritten, OneDateText};

/// `Day::bytes` and `Day::read` undo each other in the years 2000 to 2099.
pub fn day_texts_are_inverse()
    ensures read { WrittenIsRead }
    ensures written { ReadIsWritten }
    ensures one { OneDateText }
{}
