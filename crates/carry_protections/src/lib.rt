//! Live bookings that go where rows say: those of a place of the old flights onto one of the new ones, in the same class or in another.
//! It knows rows, places and classes; nothing of limits but that a leg sells a class, of how a booking is asked for, or of files.
#![tactic(auto)]

mod by_place;
mod course;
mod going;
mod refusing;
mod row;

pub use by_place::Courses;
pub use course::{Course, CourseFault, CourseKind, read_courses};
pub use going::moved_under;
pub use refusing::{has_twice, lacking};
pub use row::ClassPair;
