//! What becomes of a line.
ghost use Rattle.std.specs.Prelude.{◌≡◌};
ghost use Rattle.desk_serving.specs.Groups.{goes_on};

use crate::notice::Want;
use desk_pipes::Delivered;

#[derive(Drop)]
pub enum Taking {
    /// It is of a session that no desk has.
    Nobodys,
    /// It is heard, and the host goes on or not.
    Heard(bool),
    /// Memory was wanting for it, and its desk is told so.
    Forgotten(Delivered<Want>),
}

/// Only a line that is heard may end the host.
pub(crate) fn goes_on(taking: &Taking) -> bool
    ensures { result ≡ goes_on taking.now }
{
    match taking {
        Taking::Nobodys => true,
        Taking::Heard(goes) => *goes,
        Taking::Forgotten(_) => true,
    }
}
