//! The day of a host, which stands in the seal of its journal before a line is told under it.
//! It knows the entry of that seal and the file that it is in, and no desk.
ghost use Rattle.std.specs.Prelude.{◌≡◌, IfErr, OnOk};
ghost use Rattle.seat_desk.specs.Desk.{HasFailed};
ghost use Rattle.desk_serving.specs.Daily.{IsOnDay, IsSealedOn, StaysNamed};

use airline_base::Day;
use seat_desk::DeskFault;
use seat_disk::Replaced;
use seat_restoring::seal_on;
use seat_seal::Sealed;
use seat_serving::ServeFault;

/// Why a group is not answered.
#[derive(Clone, Copy)]
pub enum GroupFault {
    /// The inventory does not go on.
    Serve(ServeFault),
    /// The day is not in the seal, and nothing is told under it.
    Seal(DeskFault),
}

/// Puts the day of the host into the seal, on its disk, where it is another than before.
#[tactic(auto, using(crate::proofs::Daily::sealed_same, crate::proofs::Daily::sealed_on, crate::proofs::Daily::stays_same, crate::proofs::Daily::stays_with))]
pub(crate) fn keep_day<K: Replaced>(
    before: Day,
    today: Day,
    entry: &mut Sealed,
    seals: &mut K,
) -> Result<(), DeskFault>
    requires dated { IsOnDay before entry.old (K.may_leave seals.old) }
    ensures sealed { OnOk result (IsSealedOn K.named K.may_leave K.kept_may_leave K.failure_count today entry.old entry.new seals.old seals.new) }
    ensures stays { StaysNamed K.may_leave K.kept_may_leave entry.old seals.old seals.new }
    ensures device { IfErr result (λ f. f ≡ DeskFault.Device → HasFailed K.failure_count seals.old seals.new) }
{
    if before.number() == today.number() {
        return Ok(());
    }
    match seal_on(today, entry, seals) {
        Ok(()) => Ok(()),
        Err(fault) => Err(fault),
    }
}
