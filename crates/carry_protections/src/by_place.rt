//! Courses in the order of their rows, each found by its place without going over the others.
//! It knows no row's text, and no booking.
ghost use Rattle.std.specs.Prelude.{◌≡◌, ◌<◌, ◌++◌, ◌∷◌, [], OnErr, OnOk, false, length, option_map, slice_get};
ghost use Rattle.std.specs.HashMap.{get, spare};
ghost use Rattle.carry_protections.specs.ByPlace.{AreNumbers, PutsNumber, SameNumbers, number_of, same_spot, spot_of};
ghost use Rattle.carry_protections.specs.Courses.{has_course};
ghost use Rattle.carry_protections.specs.Going.{course_for};

use crate::course::Course;
use airline_base::{Memory, Place};
use std::alloc::Global;
use std::collections::HashMap;
use std::marker::Model;

/// A place of the old flights, by which a course is found.
#[derive(Clone, Copy, PartialEq, Eq, Hash)]
pub struct Spot {
    pub flight: u32,
    pub from: u8,
    pub to: u8,
}

/// The number of the course of each place; courses are counted from 0.
type Numbers = HashMap<Spot, usize>;

/// Courses in the order of their rows, no two of one place.
#[derive(Drop)]
pub struct Courses {
    rows: Vec<Course>,
    numbers: Numbers,
}

impl Model for Courses {
    ghost use Rattle.std.specs.Prelude.{List};
    ghost use Rattle.carry_protections.specs.ByPlace.{AreNumbers};
    ghost use Rattle.carry_protections.specs.declared.course.Course.{Course};

    ghost Value = { List Course };

    ghost view = { λ c. c.rows.items };

    ghost invariant = { λ c. AreNumbers c.numbers c.rows.items };
}

impl Courses {
    #[tactic(auto, using(crate::proofs::Numbering::numbers_none))]
    pub(crate) fn new(alloc: Global) -> Courses
        ensures { result ≡ [] }
    {
        Courses {
            rows: Vec::new(alloc),
            numbers: HashMap::new(alloc),
        }
    }

    /// The courses in the order of their rows.
    pub fn as_slice(&self) -> &[Course]
        ensures { result.now ≡ self.now }
    {
        self.rows.as_slice()
    }

    /// Whether the bookings of a place have a course.
    pub(crate) fn has(&self, place: Place) -> bool
        ensures { result ≡ has_course self.now place }
    {
        number_at(&self.numbers, place).is_some()
    }

    /// The course of the bookings of a place, where they have one.
    pub(crate) fn course(&self, place: Place) -> Option<&Course>
        ensures { option_map (λ c. c.now) result ≡ course_for self.now place }
    {
        match number_at(&self.numbers, place) {
            Some(number) => row_at(self.rows.as_slice(), number),
            None => None,
        }
    }

    /// Adds a course of a place that has none yet.
    pub(crate) fn push(&mut self, course: Course) -> Result<(), Memory>
        requires { has_course self.old course.from ≡ false }
        ensures added { OnOk result (self.new ≡ self.old ++ course ∷ []) }
        ensures same { OnErr result (self.new ≡ self.old) }
    {
        reserve(&mut self.numbers)?;
        let place = course.from;
        let number = count_of(self.rows.as_slice());
        push_row(&mut self.rows, course)?;
        put_reserved(&mut self.numbers, spot_of(place), number);
        Ok(())
    }
}

fn spot_of(place: Place) -> Spot
    ensures { result ≡ spot_of place }
{
    Spot {
        flight: place.flight,
        from: place.from,
        to: place.to,
    }
}

/// The number of the course of a place, where it has one.
fn number_at(numbers: &Numbers, place: Place) -> Option<usize>
    ensures { result ≡ get same_spot numbers.now (spot_of place) }
{
    numbers.get(&spot_of(place)).copied()
}

/// Makes the memory for one more number.
fn reserve(numbers: &mut Numbers) -> Result<(), Memory>
    ensures same { SameNumbers numbers.old numbers.new }
    ensures spare { OnOk result (0 < spare numbers.new) }
{
    numbers.reserve(1)?;
    Ok(())
}

/// Gives a place a number, for which there is memory.
fn put_reserved(numbers: &mut Numbers, spot: Spot, number: usize)
    requires { 0 < spare numbers.old }
    ensures { PutsNumber numbers.old numbers.new spot number }
{
    let put = numbers.insert(spot, number);
    prove!(put.is_ok());
    let _ = put;
}

fn count_of(rows: &[Course]) -> usize
    ensures { result ≡ length rows.now }
{
    rows.len()
}

#[tactic(auto, using(crate::proofs::Numbering::row_there, std::proofs::lemmas::Option::slice_get_past))]
fn row_at(rows: &[Course], number: usize) -> Option<&Course>
    ensures { option_map (λ c. c.now) result ≡ slice_get rows.now number }
{
    if number < rows.len() {
        Some(&rows[number])
    } else {
        None
    }
}

fn push_row(rows: &mut Vec<Course>, course: Course) -> Result<(), Memory>
    ensures added { OnOk result (rows.new.items ≡ rows.old.items ++ course ∷ []) }
    ensures same { OnErr result (rows.new.items ≡ rows.old.items) }
{
    let _place: Place = course.from;
    match rows.push(course) {
        Ok(()) => Ok(()),
        Err(_) => Err(Memory),
    }
}
