//! What is counted of one input.
use crate::course::{Course, Lines, Told};
use crate::meter::Meter;

/// The count of one input, on a meter's gauge or on none.
#[derive(Drop)]
pub struct Tally {
    meter: Meter,
    course: Course,
}

impl Tally {
    /// Nothing is counted.
    pub fn none() -> Tally {
        Tally {
            meter: Meter::none(),
            course: Course::begun(Lines::Uncounted),
        }
    }

    /// An input is to be read, of so many bytes where that is known.
    pub fn new(meter: &Meter, size: Option<u64>, lines: Lines) -> Tally {
        if let Some(gauge) = meter.gauge() {
            gauge.expect(size);
        }
        Tally {
            meter: meter.shared(),
            course: Course::begun(lines),
        }
    }

    /// A read gave these bytes. One that gave none is the end of its input, once.
    pub fn count(&mut self, bytes: &[u8]) {
        let Some(gauge) = self.meter.gauge() else {
            return;
        };
        match self.course.read(bytes) {
            Told::More(bytes) => gauge.add(bytes),
            Told::End(lines) => gauge.end(lines),
            Told::Nothing => {}
        }
    }
}
