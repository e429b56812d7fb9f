//! What the manager sets, one line after the other.
ghost use Rattle.std.specs.Prelude.{◌≡◌, ◌↔◌, ◌++◌, ◌∷◌, [], Err, OnErr, OnOk, length};
ghost use Rattle.std.specs.List.{All};
ghost use Rattle.seat_rules.specs.Journal.{FitsChange, FitsWork, MayAsk};
ghost use Rattle.carry_lines.specs.Setting.{FitsMark, SetsFirst, changes_of, closings_of, lines_set, manager_line};

use crate::mark::Mark;
use seat_core::Core;
use seat_journal::{Change, Work};
use seat_rules::CoreFault;
use std::alloc::Global;

/// Changes limits, each by the manager's next call, in order. Where memory or a line is wanting the inventory has the lines that were
/// answered so far.
pub fn changed(alloc: Global, core: &mut Core, rows: &[Change]) -> Result<(), CoreFault>
    requires fits { All (FitsChange core.old.grid) rows.now }
    ensures lines { OnOk result (core.new.journal ≡ lines_set core.old.grid core.old.journal (changes_of rows.now)) }
    ensures wanting { OnErr result (SetsFirst core.old.grid core.old.journal core.new.journal (changes_of rows.now)) }
    ensures full { result ≡ Err CoreFault.JournalFull → length core.new.journal ≡ core.old.cap }
    ensures grid { core.new.grid ≡ core.old.grid }
    ensures cap { core.new.cap ≡ core.old.cap }
{
    for row in rows {
        set(alloc, core, Work::Limit(*row))?;
    }
    Ok(())
}

/// Closes classes, each by the manager's next call, in order. Where memory or a line is wanting the inventory has the lines that were
/// answered so far.
pub fn closed_again(alloc: Global, core: &mut Core, marks: &[Mark]) -> Result<(), CoreFault>
    requires fits { All (FitsMark core.old.grid) marks.now }
    ensures lines { OnOk result (core.new.journal ≡ lines_set core.old.grid core.old.journal (closings_of marks.now)) }
    ensures wanting { OnErr result (SetsFirst core.old.grid core.old.journal core.new.journal (closings_of marks.now)) }
    ensures full { result ≡ Err CoreFault.JournalFull → length core.new.journal ≡ core.old.cap }
    ensures grid { core.new.grid ≡ core.old.grid }
    ensures cap { core.new.cap ≡ core.old.cap }
{
    for mark in marks {
        set(alloc, core, mark.work())?;
    }
    Ok(())
}

/// Asks for one thing by the manager's next call.
fn set(alloc: Global, core: &mut Core, work: Work) -> Result<(), CoreFault>
    requires manager { MayAsk 0 work }
    requires fits { FitsWork core.old.grid work }
    ensures line { OnOk result (core.new.journal ≡ core.old.journal ++ manager_line core.old.grid core.old.journal work ∷ []) }
    ensures none { OnErr result (core.new.journal ≡ core.old.journal) }
    ensures full { (result ≡ Err CoreFault.JournalFull) ↔ (length core.old.journal ≡ core.old.cap) }
    ensures grid { core.new.grid ≡ core.old.grid }
    ensures cap { core.new.cap ≡ core.old.cap }
{
    let call = core.calls_of(0) + 1;
    match core.step(alloc, 0, call, work) {
        Ok(_) => Ok(()),
        Err(fault) => Err(fault),
    }
}
