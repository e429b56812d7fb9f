//! The rows that say where bookings go, and the first that can't be followed.
//! It knows neither a row's text nor where a booking goes.
ghost use Rattle.std.specs.Prelude.{◌≡◌, ◌<◌, ◌^◌, IfErr, IfOk, None, OnOk, length, if◌then◌else◌};
ghost use Rattle.carry_limits.specs.ByFlight.{list_at};
ghost use Rattle.carry_protections.specs.Refusing.{has_twice};
ghost use Rattle.carry_plans.specs.Plans.{AreCourses, AreParts, IsSold, IsUnplanned, first_twice, row_fault};

use crate::asked::CarryAsked;
use crate::fault::CarryFault;
use crate::planning::Parts;
use carry_limits::ByFlight;
use carry_protections::{
    Course, CourseFault, CourseKind, Courses, has_twice, lacking, read_courses,
};
use seat_core::Core;
use seat_nesting::Grid;
use ssim_flights::{Flights, Served};
use std::alloc::Global;

/// Where the rows say that bookings go.
#[tactic(auto, using(crate::proofs::Protections::wrong_rows, crate::proofs::Protections::right_rows))]
pub(crate) fn courses_of(
    alloc: Global,
    asked: &CarryAsked<'_>,
    olds: &Flights,
    old: &Served<'_>,
    before: &Core,
    news: &Flights,
    new: &Served<'_>,
    file: &Grid,
) -> Result<Courses, CarryFault>
    requires size { length asked.now.protections.now < 2 ^ 32 }
    requires old { old.now ≡ olds.now }
    requires new { new.now ≡ news.now }
    ensures found { IfOk result (λ all. AreCourses asked.now olds.now news.now all) }
    ensures fault { IfErr result (IsUnplanned asked.now olds.now before.now news.now file.now) }
{
    match read_courses(alloc, asked.protections, old, new) {
        Ok(courses) => Ok(courses),
        Err(fault) => Err(of_courses(fault)),
    }
}

/// Want of memory says nothing of a row.
fn of_courses(fault: CourseFault) -> CarryFault
    ensures { result ≡ row_fault fault }
{
    match fault.kind {
        CourseKind::Memory => CarryFault::Memory,
        _ => CarryFault::Row(fault),
    }
}

/// The row of this line can't be followed.
fn of_row(line: u32, kind: CourseKind) -> CarryFault
    ensures { result ≡ CarryFault.Row (record { line = line; kind = kind }) }
{
    CarryFault::Row(CourseFault { line, kind })
}

/// Refuses a row by which a live booking goes where its class is not sold.
#[tactic(auto, using(crate::proofs::Protections::unsold_of, crate::proofs::Protections::sold_of))]
pub(crate) fn pass_unsold(
    asked: &CarryAsked<'_>,
    courses: &Courses,
    olds: &Flights,
    old: &Served<'_>,
    before: &Core,
    news: &Flights,
    new: &Served<'_>,
    file: &Grid,
    parts: &Parts,
) -> Result<(), CarryFault>
    requires old { old.now ≡ olds.now }
    requires new { new.now ≡ news.now }
    requires courses { AreCourses asked.now olds.now news.now courses.now }
    requires parts { AreParts asked.now courses.now olds.now before.now news.now file.now parts.now.chosen.live.items parts.now.chosen.kept.items parts.now.by }
    ensures sold { OnOk result (IsSold courses.now before.now olds.now news.now asked.now file.now parts.now.chosen.live.items) }
    ensures fault { IfErr result (IsUnplanned asked.now olds.now before.now news.now file.now) }
{
    let live = parts.chosen.live.as_slice();
    match lacking(
        courses,
        before.journal(),
        olds,
        old,
        new,
        asked.today,
        file,
        live,
    ) {
        None => Ok(()),
        Some(line) => Err(of_row(line, CourseKind::Unsold)),
    }
}

/// Refuses a row by which a live booking goes where its locator has another one in that class.
#[tactic(auto, using(crate::proofs::Protections::twice_of, crate::proofs::Protections::once_of))]
pub(crate) fn pass_twice(
    asked: &CarryAsked<'_>,
    courses: &Courses,
    olds: &Flights,
    before: &Core,
    news: &Flights,
    file: &Grid,
    parts: &Parts,
) -> Result<(), CarryFault>
    requires courses { AreCourses asked.now olds.now news.now courses.now }
    requires parts { AreParts asked.now courses.now olds.now before.now news.now file.now parts.now.chosen.live.items parts.now.chosen.kept.items parts.now.by }
    ensures once { OnOk result (first_twice parts.now.by courses.now ≡ None) }
    ensures fault { IfErr result (IsUnplanned asked.now olds.now before.now news.now file.now) }
{
    let rows = courses.as_slice();
    match first_twice(rows, &parts.by) {
        None => Ok(()),
        Some(line) => Err(of_row(line, CourseKind::Twice)),
    }
}

/// The line of the first row whose place has two of a locator in one class.
fn first_twice(courses: &[Course], by: &ByFlight) -> Option<u32>
    ensures { result ≡ first_twice by.now courses.now }
{
    for course in courses {
        if has_twice(course.to, by.on(course.to.flight)) {
            return Some(course.line);
        }
    }
    None
}
