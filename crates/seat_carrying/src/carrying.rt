//! Live bookings asked for anew, those that hold first.
ghost use Rattle.std.specs.Prelude.{◌≡◌, ◌↔◌, ◌<◌, ◌+◌, ◌++◌, ◌∷◌, [], IsTrue, OnErr, OnOk, Err, filter, length, if◌then◌else◌};
ghost use Rattle.std.specs.List.{All};
ghost use Rattle.seat_rules.specs.Bookings.{is_held, is_waiting};
ghost use Rattle.seat_carrying.specs.Carrying.{command_for};
ghost use Rattle.seat_carrying.specs.Owned.{AsksForFirst, HasTheVery, IsOwned, LosesNobody, bookings_of, line_for, lines_after, owned_in_turn};

use crate::owned::Owned;
use seat_core::Core;
use seat_journal::Work;
use seat_rules::CoreFault;
use std::alloc::Global;

/// Asks an inventory for live bookings anew, each by its own session's next call: those that are held as SS, in order, and then those
/// that wait as LL. Where memory or a line is wanting the inventory has the lines that were answered so far.
pub fn carry(alloc: Global, core: &mut Core, live: &[Owned]) -> Result<(), CoreFault>
    requires owned { All (IsOwned core.old.grid) live.now }
    ensures lines { OnOk result (core.new.journal ≡ lines_after core.old.grid core.old.journal (owned_in_turn live.now)) }
    ensures wanting { OnErr result (AsksForFirst core.old.grid core.old.journal core.new.journal (owned_in_turn live.now)) }
    ensures full { result ≡ Err CoreFault.JournalFull → length core.new.journal ≡ core.old.cap }
    ensures nobody { OnOk result (LosesNobody core.old core.new (bookings_of live.now)) }
    ensures very { OnOk result (HasTheVery core.old core.new (bookings_of live.now)) }
    ensures grid { core.new.grid ≡ core.old.grid }
    ensures cap { core.new.cap ≡ core.old.cap }
{
    ask_held(alloc, core, live)?;
    ask_waiting(alloc, core, live)
}

/// Asks for those that are held.
fn ask_held(alloc: Global, core: &mut Core, live: &[Owned]) -> Result<(), CoreFault>
    requires owned { All (IsOwned core.old.grid) live.now }
    ensures lines { OnOk result (core.new.journal ≡ lines_after core.old.grid core.old.journal (filter (λ o. is_held o.booking.status) live.now)) }
    ensures wanting { OnErr result (AsksForFirst core.old.grid core.old.journal core.new.journal (filter (λ o. is_held o.booking.status) live.now)) }
    ensures full { result ≡ Err CoreFault.JournalFull → length core.new.journal ≡ core.old.cap }
    ensures grid { core.new.grid ≡ core.old.grid }
    ensures cap { core.new.cap ≡ core.old.cap }
{
    for owned in live {
        ask_if(alloc, core, owned, !owned.booking.is_waiting())?;
    }
    Ok(())
}

/// Asks for those that wait.
fn ask_waiting(alloc: Global, core: &mut Core, live: &[Owned]) -> Result<(), CoreFault>
    requires owned { All (IsOwned core.old.grid) live.now }
    ensures lines { OnOk result (core.new.journal ≡ lines_after core.old.grid core.old.journal (filter (λ o. is_waiting o.booking.status) live.now)) }
    ensures wanting { OnErr result (AsksForFirst core.old.grid core.old.journal core.new.journal (filter (λ o. is_waiting o.booking.status) live.now)) }
    ensures full { result ≡ Err CoreFault.JournalFull → length core.new.journal ≡ core.old.cap }
    ensures grid { core.new.grid ≡ core.old.grid }
    ensures cap { core.new.cap ≡ core.old.cap }
{
    for owned in live {
        ask_if(alloc, core, owned, owned.booking.is_waiting())?;
    }
    Ok(())
}

/// Asks for a booking, where its turn has come.
fn ask_if(alloc: Global, core: &mut Core, owned: &Owned, turn: bool) -> Result<(), CoreFault>
    requires owned { IsOwned core.old.grid owned.now }
    ensures line { OnOk result (core.new.journal ≡ lines_after core.old.grid core.old.journal (if turn then owned.now ∷ [] else [])) }
    ensures none { OnErr result (core.new.journal ≡ core.old.journal) }
    ensures turned { OnErr result (IsTrue turn) }
    ensures full { result ≡ Err CoreFault.JournalFull → length core.old.journal ≡ core.old.cap }
    ensures grid { core.new.grid ≡ core.old.grid }
    ensures cap { core.new.cap ≡ core.old.cap }
{
    if turn {
        ask(alloc, core, owned)
    } else {
        Ok(())
    }
}

/// Asks for a booking by its session's next call.
fn ask(alloc: Global, core: &mut Core, owned: &Owned) -> Result<(), CoreFault>
    requires owned { IsOwned core.old.grid owned.now }
    ensures line { OnOk result (core.new.journal ≡ core.old.journal ++ line_for core.old.grid core.old.journal owned.now ∷ []) }
    ensures none { OnErr result (core.new.journal ≡ core.old.journal) }
    ensures grid { core.new.grid ≡ core.old.grid }
    ensures cap { core.new.cap ≡ core.old.cap }
    ensures full { (result ≡ Err CoreFault.JournalFull) ↔ (length core.old.journal ≡ core.old.cap) }
{
    let call = core.calls_of(owned.session) + 1;
    match core.step(alloc, owned.session, call, Work::Seats(owned.command())) {
        Ok(_) => Ok(()),
        Err(fault) => Err(fault),
    }
}
