//! How many lines of a journal stand ahead of its scripts.
ghost use Rattle.std.specs.Prelude.{◌≡◌};
ghost use Rattle.seat_scripts.specs.Taken.{lines_taken};

use seat_seal::{Sealed, lines_behind, runs_in};

/// So many as are given, or else those that the last run went on from, or none.
pub(crate) fn lines_taken(given: Option<u32>, known: &Option<Sealed>) -> u32
    ensures { result ≡ lines_taken given known.now }
{
    match given {
        Some(more) => more,
        None => lines_behind(runs_in(known)),
    }
}
