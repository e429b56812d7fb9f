//! Where the bookings of places go, by the rows of a text.
//! It knows which places flights have; no booking.
ghost use Rattle.std.specs.Prelude.{◌≡◌, ◌≢◌, ◌<◌, ◌^◌, Err, IfErr, IfOk, Ok, OnOk, false, length};
ghost use Rattle.carry_protections.specs.Courses.{IsOwn, course_at, courses_in, has_course, is_blank, places_by, with_line};
ghost use Rattle.carry_protections.specs.declared.course.CourseKind.TheVariants.{Memory as Wanting};

use crate::by_place::Courses;
use crate::row::{ClassPair, Heading, classes_of, heading_of};
use airline_base::lines::cut_line;
use airline_base::{Items, Place};
use ssim_flights::Served;
use std::alloc::Global;

/// Where the bookings of a place of the old flights go, by the row of a line.
#[derive(Drop)]
pub struct Course {
    /// The line of the row, counted from 1.
    pub line: u32,
    /// A place of the old flights.
    pub from: Place,
    /// One of the new flights, between the same stations.
    pub to: Place,
    /// The classes that go onto others.
    pub classes: Items<ClassPair>,
}

/// Why a row is refused.
#[derive(Clone, Copy)]
pub enum CourseKind {
    /// The line is no such row, or it names a class twice.
    Form,
    /// The old flights have no such place.
    Source,
    /// A row ahead of it says where the bookings of that place go.
    Again,
    /// The new flights have none where they are to go.
    Target,
    /// A booking goes where its class is not sold.
    Unsold,
    /// A booking goes where its locator has another one in that class.
    Twice,
    Memory,
}

/// The first row that is refused, and why.
#[derive(Clone, Copy)]
pub struct CourseFault {
    /// The number of the line; lines count from 1.
    pub line: u32,
    pub kind: CourseKind,
}

/// Where bookings of the old flights go onto the new ones, by the rows of a text of less than 4 GiB. Lines end with LF, with CR LF or where the bytes end;
/// those with nothing but blanks are passed over. A refusal names the first line that is refused.
#[tactic(auto, using(crate::proofs::Following::goes_first, crate::proofs::Following::goes_end, crate::proofs::Following::done_is))]
pub fn read_courses(
    alloc: Global,
    bytes: &[u8],
    old: &Served<'_>,
    new: &Served<'_>,
) -> Result<Courses, CourseFault>
    requires size { length bytes.now < 2 ^ 32 }
    ensures found { IfOk result (λ all. courses_in old.now new.now bytes.now ≡ Ok all) }
    ensures fault { IfErr result (λ f. f.kind ≢ Wanting → courses_in old.now new.now bytes.now ≡ Err f) }
    ensures own { IfErr result (λ f. IsOwn f.kind) }
{
    let mut all = Courses::new(alloc);
    let mut rest = bytes;
    let mut line = 0;
    while !rest.is_empty() {
        let (text, after) = cut_line(rest);
        line += 1;
        if let Err(kind) = take_line(alloc, &mut all, old, new, text, line) {
            return Err(CourseFault { line, kind });
        }
        rest = after;
    }
    Ok(all)
}

/// Adds the course of a line, where it has one.
#[tactic(auto, using(crate::proofs::Following::blank_line, crate::proofs::Following::right_line, crate::proofs::Following::wrong_line))]
fn take_line(
    alloc: Global,
    all: &mut Courses,
    old: &Served<'_>,
    new: &Served<'_>,
    text: &[u8],
    line: u32,
) -> Result<(), CourseKind>
    ensures taken { OnOk result (with_line old.now new.now line text.now all.old ≡ Ok all.new) }
    ensures fault { IfErr result (λ kind. kind ≢ Wanting → with_line old.now new.now line text.now all.old ≡ Err kind) }
    ensures own { IfErr result IsOwn }
{
    if is_blank(text) {
        return Ok(());
    }
    let course = match course_of(alloc, all, old, new, text, line) {
        Ok(course) => course,
        Err(kind) => return Err(kind),
    };
    match all.push(course) {
        Ok(()) => Ok(()),
        Err(_) => Err(CourseKind::Memory),
    }
}

/// The course of a row behind these, or its first fault.
#[tactic(auto, using(crate::proofs::Following::no_heading, crate::proofs::Following::no_classes, crate::proofs::Following::no_places, crate::proofs::Following::own_classes, crate::proofs::Following::a_course))]
fn course_of(
    alloc: Global,
    ahead: &Courses,
    old: &Served<'_>,
    new: &Served<'_>,
    text: &[u8],
    line: u32,
) -> Result<Course, CourseKind>
    ensures ok { IfOk result (λ c. course_at old.now new.now ahead.now line text.now ≡ Ok c) }
    ensures first { IfOk result (λ c. has_course ahead.now c.from ≡ false) }
    ensures fault { IfErr result (λ kind. kind ≢ Wanting → course_at old.now new.now ahead.now line text.now ≡ Err kind) }
    ensures own { IfErr result IsOwn }
{
    let Some((heading, rest)) = heading_of(text) else {
        return Err(CourseKind::Form);
    };
    let classes = match classes_of(alloc, rest) {
        Ok(classes) => classes,
        Err(kind) => return Err(kind),
    };
    match places_of(ahead, old, new, &heading) {
        Ok((from, to)) => Ok(Course {
            line,
            from,
            to,
            classes,
        }),
        Err(kind) => Err(kind),
    }
}

/// The two places of a row behind these.
fn places_of(
    ahead: &Courses,
    old: &Served<'_>,
    new: &Served<'_>,
    heading: &Heading,
) -> Result<(Place, Place), CourseKind>
    ensures value { result ≡ places_by old.now new.now ahead.now heading.now }
    ensures first { IfOk result (λ p. has_course ahead.now p.0 ≡ false) }
    ensures own { IfErr result IsOwn }
{
    let Some(from) = old.find(&heading.from) else {
        return Err(CourseKind::Source);
    };
    if ahead.has(from) {
        return Err(CourseKind::Again);
    }
    let Some(to) = new.find(&heading.to) else {
        return Err(CourseKind::Target);
    };
    Ok((from, to))
}

fn is_blank(text: &[u8]) -> bool
    ensures { result ≡ is_blank text.now }
{
    text.iter().all(|c| *c == b' ')
}
