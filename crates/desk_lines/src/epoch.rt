//! The epoch of the journal that a client means, and what its numbered lines mean where that is another journal's.
//! It knows what lines mean, and nothing of where a desk stands.
ghost use Rattle.std.specs.Prelude.{◌≡◌, true};
ghost use Rattle.desk_lines.specs.Epochs.{by_epoch, is_other, stranger_behind};
ghost use Rattle.desk_lines.specs.Lines.{IsRightMeaning};

use crate::desk::{Meaning, Wrong};

/// Whether the client that speaks is for another journal behind a line that means this, at a desk of a journal of this epoch.
pub(crate) fn stranger_behind(was: bool, epoch: u32, meaning: &Meaning) -> bool
    ensures { result ≡ stranger_behind was epoch meaning.now }
{
    match meaning {
        Meaning::Hello(_, named) => is_other(*named, epoch),
        _ => was,
    }
}

fn is_other(named: Option<u32>, epoch: u32) -> bool
    ensures { result ≡ is_other named epoch }
{
    match named {
        Some(named) => named != epoch,
        None => false,
    }
}

/// What a line means, of a client for this journal or for another.
pub fn by_epoch(is_stranger: bool, meaning: Meaning) -> Meaning
    ensures value { result ≡ by_epoch is_stranger meaning }
    ensures right { IsRightMeaning meaning → IsRightMeaning result }
{
    if is_stranger {
        return strange(meaning);
    }
    meaning
}

// A numbered line is refused.
fn strange(meaning: Meaning) -> Meaning
    ensures value { result ≡ by_epoch true meaning }
    ensures right { IsRightMeaning meaning → IsRightMeaning result }
{
    match meaning {
        Meaning::Call(call, _) => Meaning::WrongCall(call, Wrong::Epoch),
        Meaning::WrongCall(call, _) => Meaning::WrongCall(call, Wrong::Epoch),
        _ => meaning,
    }
}
