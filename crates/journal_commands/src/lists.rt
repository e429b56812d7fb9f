//! The lists that a carry is asked for in files.
//! It knows which file is which, and nothing of how a list is read or of what becomes of it.
ghost use Rattle.std.specs.Prelude.{◌≤◌, IfOk, length};

use airline_base::Locator;
use carry_order::{OrderFault, read_order};
use carry_protections::{CourseFault, CourseKind};
use seat_desk::{DeskFault, MOST_LIMIT_BYTES, read_input};
use seat_files::{ListKind, Refusal, opened};

/// The locators that keep their seats first, where a file names them.
pub(crate) fn order_of(rt: &HostRuntime, name: Option<&str>) -> Result<Vec<Locator>, Refusal> {
    let Some(name) = name else {
        return Ok(Vec::new(rt.alloc()));
    };
    let mut input = opened(rt, name)?;
    let bytes = match read_input(rt.alloc(), &mut input, MOST_LIMIT_BYTES) {
        Ok(bytes) => bytes,
        Err(fault) => return Err(Refusal::from(fault).noting_all(&[&input])),
    };
    match read_order(rt.alloc(), &bytes) {
        Ok(order) => Ok(order),
        Err(OrderFault::Line(line)) => {
            let refusal = Refusal::of_list(ListKind::First, line);
            Err(refusal.noting_all(&[&input]))
        }
        Err(OrderFault::Memory) => Err(Refusal::from(DeskFault::Memory)),
    }
}

/// The text of the rows that say where bookings go, where a file has them.
pub(crate) fn protections_of(rt: &HostRuntime, name: Option<&str>) -> Result<Vec<u8>, Refusal>
    ensures size { IfOk result (λ bytes. length bytes.items ≤ 16777216) }
{
    let Some(name) = name else {
        return Ok(Vec::new(rt.alloc()));
    };
    let mut input = opened(rt, name)?;
    match read_input(rt.alloc(), &mut input, MOST_LIMIT_BYTES) {
        Ok(bytes) => Ok(bytes),
        Err(fault) => Err(Refusal::from(fault).noting_all(&[&input])),
    }
}

/// The refusal of a row of that file.
pub(crate) fn of_row(fault: CourseFault, name: Option<&str>) -> Refusal {
    let kind = match fault.kind {
        CourseKind::Form => ListKind::Protection,
        CourseKind::Source => ListKind::Source,
        CourseKind::Again => ListKind::SourceAgain,
        CourseKind::Target => ListKind::Target,
        CourseKind::Unsold => ListKind::TargetClass,
        CourseKind::Twice => ListKind::TargetHeld,
        CourseKind::Memory => return Refusal::from(DeskFault::Memory),
    };
    let refusal = Refusal::of_list(kind, fault.line);
    match name {
        Some(name) => refusal.at(name, None),
        None => refusal,
    }
}
