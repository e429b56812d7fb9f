//! The day of a feed, which stands in the seal of its journal before a line is told under it.
ghost use Rattle.std.specs.Prelude.{◌≡◌, ◌≤◌, IfErr, IfSome, OnOk};
ghost use Rattle.seat_desk.specs.Desk.{HasFailed};
ghost use Rattle.desk_serving.specs.Daily.{IsOnDay, IsSealedOn, StaysNamed};
ghost use Rattle.desk_serving.specs.Streaming.{later_day};

use airline_base::Day;
use seat_desk::DeskFault;
use seat_disk::Replaced;
use seat_restoring::seal_on;
use seat_seal::Sealed;

/// Puts a day of the feed into the seal, on its disk, where it is later than the one that the seal has. A feed may be on an earlier one, as one is
/// that is lived again: its lines are read on that, and the seal keeps its own.
#[tactic(auto, using(crate::proofs::Daily::sealed_same, crate::proofs::Daily::sealed_on, crate::proofs::Daily::stays_same, crate::proofs::Daily::stays_with))]
pub(crate) fn keep_later<K: Replaced>(
    day: &mut Day,
    today: Option<Day>,
    entry: &mut Sealed,
    seals: &mut K,
) -> Result<(), DeskFault>
    requires dated { IsOnDay day.old entry.old (K.may_leave seals.old) }
    ensures sealed { OnOk result (IsSealedOn K.named K.may_leave K.kept_may_leave K.failure_count day.new entry.old entry.new seals.old seals.new) }
    ensures day { OnOk result (day.new ≡ later_day day.old today) }
    ensures since { OnOk result (IfSome today (λ it. it ≤ day.new)) }
    ensures stays { StaysNamed K.may_leave K.kept_may_leave entry.old seals.old seals.new }
    ensures device { IfErr result (λ f. f ≡ DeskFault.Device → HasFailed K.failure_count seals.old seals.new) }
{
    let Some(today) = today else {
        return Ok(());
    };
    if today.number() <= day.number() {
        return Ok(());
    }
    *day = today;
    match seal_on(today, entry, seals) {
        Ok(()) => Ok(()),
        Err(fault) => Err(fault),
    }
}
