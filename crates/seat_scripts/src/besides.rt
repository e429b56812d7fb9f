//! What stands beside two journals that are read one behind the other.
ghost use Rattle.std.specs.Prelude.{IsTrue, is_some};

use seat_seal::Beside;

/// What stands beside an older journal, and beside the journal that goes on from it.
#[derive(Clone, Copy)]
pub struct Besides<'a> {
    pub older: Beside<'a>,
    pub journal: Beside<'a>,
}

/// Whether digests of the set and of the limits are needed: where they are asked for, or a seal stands beside one of the two.
pub(crate) fn needs_digests(besides: &Besides<'_>, are_asked: bool) -> bool
    ensures asked { IsTrue are_asked → IsTrue result }
    ensures older { IsTrue (is_some besides.now.older.text) → IsTrue result }
    ensures journal { IsTrue (is_some besides.now.journal.text) → IsTrue result }
{
    are_asked || besides.older.text.is_some() || besides.journal.text.is_some()
}
