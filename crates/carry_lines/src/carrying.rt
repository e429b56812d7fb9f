//! The inventory into which live bookings are carried.
ghost use Rattle.std.specs.Prelude.{◌≡◌, ◌≤◌, ◌<◌, ◌+◌, ◌↔◌, Err, IfErr, IfOk, IsTrue, length};
ghost use Rattle.std.specs.List.{All};
ghost use Rattle.seat_rules.specs.Inventory.{IsReplayed};
ghost use Rattle.seat_rules.specs.Journal.{FitsChange};
ghost use Rattle.seat_carrying.specs.Owned.{IsOwned};
ghost use Rattle.carry_lines.specs.Setting.{FitsMark};
ghost use Rattle.carry_lines.specs.Carried.{AnswersByRoom, AreShut, HasLineEach, HasTheVery, KeepsAll, LosesNobody, carried_lines};

use crate::managing::{changed, closed_again};
use crate::mark::Mark;
use seat_carrying::{Owned, carry};
use seat_core::Core;
use seat_journal::Change;
use seat_nesting::Grid;
use seat_rules::CoreFault;
use std::alloc::Global;

/// A new inventory over these limits, at most 999 each, with a journal of at most `cap` lines, which are at most 999,999: the manager changes limits,
/// each live booking is asked for anew by its own session, those that are held as SS in order and then those that wait as LL, and the manager closes classes.
/// It is full where there are more lines than `cap`.
pub fn carried(
    alloc: Global,
    grid: Grid,
    cap: u32,
    rows: &[Change],
    live: &[Owned],
    marks: &[Mark],
) -> Result<Core, CoreFault>
    requires most { cap ≤ 999999 }
    requires changes { All (FitsChange grid) rows.now }
    requires bookings { All (IsOwned grid) live.now }
    requires closings { All (FitsMark grid) marks.now }
    ensures lines { IfOk result (λ new. IsReplayed new grid cap (carried_lines grid rows.now live.now marks.now)) }
    ensures full { (result ≡ Err CoreFault.JournalFull) ↔ (cap < length rows.now + length live.now + length marks.now) }
    ensures nobody { IfOk result (λ new. LosesNobody grid rows.now live.now new) }
    ensures very { IfOk result (λ new. HasTheVery grid rows.now live.now new) }
    ensures keeps { IfOk result (λ new. KeepsAll grid rows.now live.now new) }
    ensures own { IfOk result (λ new. HasLineEach rows.now live.now new.journal) }
    ensures answers { IfOk result (λ new. AnswersByRoom grid rows.now live.now new) }
    ensures shut { IfOk result (λ new. AreShut marks.now new.journal) }
{
    if !has_lines(cap, rows.len(), live.len(), marks.len()) {
        return Err(CoreFault::JournalFull);
    }
    carried_within(alloc, grid, cap, rows, live, marks)
}

/// Whether there are so many lines.
fn has_lines(cap: u32, rows: usize, live: usize, marks: usize) -> bool
    ensures { IsTrue result ↔ rows + live + marks ≤ cap }
{
    let cap = cap as usize;
    rows <= cap && live <= cap - rows && marks <= cap - rows - live
}

/// The inventory, where there are lines enough.
fn carried_within(
    alloc: Global,
    grid: Grid,
    cap: u32,
    rows: &[Change],
    live: &[Owned],
    marks: &[Mark],
) -> Result<Core, CoreFault>
    requires most { cap ≤ 999999 }
    requires enough { length rows.now + length live.now + length marks.now ≤ cap }
    requires changes { All (FitsChange grid) rows.now }
    requires bookings { All (IsOwned grid) live.now }
    requires closings { All (FitsMark grid) marks.now }
    ensures lines { IfOk result (λ new. IsReplayed new grid cap (carried_lines grid rows.now live.now marks.now)) }
    ensures memory { IfErr result (λ fault. fault ≡ CoreFault.Memory) }
{
    let Ok(mut core) = Core::new(alloc, grid, cap) else {
        return Err(CoreFault::Memory);
    };
    changed(alloc, &mut core, rows)?;
    carry(alloc, &mut core, live)?;
    closed_again(alloc, &mut core, marks)?;
    Ok(core)
}
