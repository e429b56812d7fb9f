//! Opening a display.
ghost use Rattle.std.specs.Prelude.{◌≡◌, ◌<◌, ◌≤◌, ◌++◌, ◌∷◌, [], true, drop, All, IfOk, IfSome, OnOk, is_some, vec_len};
ghost use Rattle.left_right.specs.Sides.{view};
ghost use Rattle.seat_rules.specs.Showing.{standing_of, unsold};
ghost use Rattle.seat_display.specs.Faces.{opened};
ghost use Rattle.seat_display.specs.Shown.{IsEmptyTable, has_rooms};
ghost use Rattle.seat_display.specs.declared.table.Op.TheVariants.{Mark};

use crate::book::{Trace, open_book};
use crate::publisher::{Publisher, turn};
use crate::rule::{Notes, TableWriter};
use crate::table::{Op, Table};
use crate::viewer::Viewer;
use airline_base::Memory;
use seat_nesting::{Counts, Grid};
use std::alloc::Global;
use std::sync::Wait;

/// What viewers are shown of what is visible.
#[derive(Clone, Copy)]
pub enum Shows {
    /// The lines, and the seats that they leave.
    Rooms,
    /// The lines alone, where nobody looks at seats: `Viewer::look` lends no sight.
    Lines,
}

/// A display over these opening limits with nothing visible, and so many viewers, 1 to 9.
pub fn open<R: Wait>(
    rt: &R,
    alloc: Global,
    grid: &Grid,
    places: u8,
    shows: Shows,
) -> Result<(Publisher, Vec<Viewer>), Memory>
    requires { (0 < places) × (places < 10) }
    ensures publisher { IfOk result (λ r. (r.0.grid ≡ grid.now) × (r.0.visible ≡ []) × (r.0.pending ≡ [])) }
    ensures viewers { IfOk result (λ r. (vec_len r.1 ≡ places) × All (λ v. v ≡ opened r.0.book grid.now) r.1.items) }
{
    let (head, seen) = open_book();
    let Ok(first) = empty(alloc, grid, &seen, shows) else {
        return Err(Memory);
    };
    let Ok(second) = empty(alloc, grid, &seen, shows) else {
        return Err(Memory);
    };
    let Ok(mut writer) = TableWriter::new(alloc, first, second, usize::from(places)) else {
        return Err(Memory);
    };
    match fill(rt, alloc, &mut writer, &seen, places) {
        Ok(viewers) => Ok((Publisher::over(writer, head, seen), viewers)),
        Err(Memory) => {
            writer.take(rt);
            Err(Memory)
        }
    }
}

// A table with no line.
#[tactic(auto, using(crate::proofs::Steps::empty_leaves))]
fn empty(alloc: Global, grid: &Grid, seen: &Trace, shows: Shows) -> Result<Table, Memory>
    requires { seen.now.log ≡ [] }
    ensures empty { IfOk result (λ t. IsEmptyTable t grid.now seen.now.book) }
    ensures seen { IfOk result (λ t. t.seen ≡ seen.now) }
    ensures counts { IfOk result (λ t. is_some t.counts ≡ has_rooms shows) }
{
    let Ok(opening) = grid.copy(alloc) else {
        return Err(Memory);
    };
    let Ok(counts) = counters(alloc, grid, shows) else {
        return Err(Memory);
    };
    Ok(Table {
        opening,
        counts,
        lines: 0,
        seen: seen.again(),
    })
}

// The counters of a table, on which no seat is held, where rooms are shown.
#[tactic(auto, using(crate::proofs::Steps::unsold_counts))]
fn counters(alloc: Global, grid: &Grid, shows: Shows) -> Result<Option<Counts>, Memory>
    ensures unsold { IfOk result (λ counts. IfSome counts (λ c. standing_of c ≡ unsold grid.now)) }
    ensures counts { IfOk result (λ counts. is_some counts ≡ has_rooms shows) }
{
    match shows {
        Shows::Rooms => match Counts::new(alloc, grid) {
            Ok(counts) => Ok(Some(counts)),
            Err(Memory) => Err(Memory),
        },
        Shows::Lines => Ok(None),
    }
}

// Makes room in the log for what one entry needs, so that its mark wants no memory later, and seats the viewers.
fn fill<R: Wait>(
    rt: &R,
    alloc: Global,
    writer: &mut TableWriter,
    seen: &Trace,
    places: u8,
) -> Result<Vec<Viewer>, Memory>
    requires empty { seen.now.log ≡ [] }
    requires shown { IsEmptyTable writer.old.desk.shown.value writer.old.desk.shown.value.opening
        seen.now.book }
    requires plain { drop writer.old.behind writer.old.log.items ≡ [] }
    ensures shown { OnOk result (IsEmptyTable writer.new.desk.shown.value writer.old.desk.shown.value.opening
        seen.now.book) }
    ensures plain { OnOk result (drop writer.new.behind writer.new.log.items ≡ []) }
    ensures knows { OnOk result (((view writer.new.desk.place).knows ≡ true)
        × ((view writer.new.desk.place).grid ≡ writer.old.desk.shown.value.opening)) }
    ensures viewers { IfOk result (λ v. (vec_len v ≡ places)
        × All (λ w. w ≡ opened seen.now.book writer.old.desk.shown.value.opening) v.items) }
{
    let Ok(()) = warm(rt, writer, seen) else {
        return Err(Memory);
    };
    let Ok(()) = warm(rt, writer, seen) else {
        return Err(Memory);
    };
    hand_out(alloc, writer, seen, places)
}

// Marks twice what is shown already.
fn warm<R: Wait>(rt: &R, writer: &mut TableWriter, seen: &Trace) -> Result<(), Memory>
    requires empty { seen.now.log ≡ [] }
    requires shown { IsEmptyTable writer.old.desk.shown.value writer.old.desk.shown.value.opening
        seen.now.book }
    requires plain { drop writer.old.behind writer.old.log.items ≡ [] }
    ensures shown { OnOk result (IsEmptyTable writer.new.desk.shown.value writer.old.desk.shown.value.opening
        seen.now.book) }
    ensures plain { OnOk result (drop writer.new.behind writer.new.log.items ≡ []) }
    ensures knows { OnOk result (((view writer.new.desk.place).knows ≡ true)
        × ((view writer.new.desk.place).grid ≡ writer.old.desk.shown.value.opening)
        × ((view writer.new.desk.place).seen.book ≡ seen.now.book)) }
{
    let Ok(()) = mark(writer, seen) else {
        return Err(Memory);
    };
    let Ok(()) = mark(writer, seen) else {
        return Err(Memory);
    };
    turn(rt, writer);
    Ok(())
}

fn mark(writer: &mut TableWriter, seen: &Trace) -> Result<(), Memory>
    ensures desk { writer.new.desk ≡ writer.old.desk }
    ensures pending { OnOk result (drop writer.new.behind writer.new.log.items
        ≡ drop writer.old.behind writer.old.log.items ++ Mark seen.now ∷ []) }
{
    match writer.append(Op::Mark(seen.again())) {
        Ok(()) => Ok(()),
        Err(_) => Err(Memory),
    }
}

fn hand_out(
    alloc: Global,
    writer: &mut TableWriter,
    seen: &Trace,
    places: u8,
) -> Result<Vec<Viewer>, Memory>
    requires knows { ((view writer.old.desk.place).knows ≡ true)
        × ((view writer.old.desk.place).seen.book ≡ seen.now.book) }
    requires empty { seen.now.log ≡ [] }
    ensures kept { (writer.new.desk.shown ≡ writer.old.desk.shown)
        × (drop writer.new.behind writer.new.log.items ≡ drop writer.old.behind writer.old.log.items)
        × (view writer.new.desk.place ≡ view writer.old.desk.place) }
    ensures viewers { IfOk result (λ v. (vec_len v ≡ places)
        × All (λ w. w ≡ opened seen.now.book (view writer.old.desk.place).grid) v.items) }
{
    let mut viewers = Vec::new(alloc);
    for _place in 0..places {
        let Ok(viewer) = seat(writer, seen) else {
            return Err(Memory);
        };
        let Ok(()) = viewers.push(viewer) else {
            return Err(Memory);
        };
    }
    Ok(viewers)
}

// A viewer at a place of its own.
fn seat(writer: &mut TableWriter, seen: &Trace) -> Result<Viewer, Memory>
    requires knows { ((view writer.old.desk.place).knows ≡ true)
        × ((view writer.old.desk.place).seen.book ≡ seen.now.book) }
    requires empty { seen.now.log ≡ [] }
    ensures kept { (writer.new.desk.shown ≡ writer.old.desk.shown) × (writer.new.log ≡ writer.old.log)
        × (writer.new.behind ≡ writer.old.behind) × (view writer.new.desk.place ≡ view writer.old.desk.place) }
    ensures viewer { IfOk result (λ v. v ≡ opened seen.now.book (view writer.old.desk.place).grid) }
{
    let Ok(mut reader) = writer.factory().reader() else {
        return Err(Memory);
    };
    reader.learn::<Notes>(writer.tell::<Notes>());
    Ok(Viewer::over(reader, seen))
}
