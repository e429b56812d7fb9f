//! Dates of the years 2000 to 2099, as a seal writes them.
ghost use Rattle.std.specs.Prelude.{◌≡◌};
ghost use Rattle.airline_base.specs.Days.{IsDate};
ghost use Rattle.seat_seal.specs.Dates.{day_in, is_of_century};

use airline_base::Day;

/// A year, a month and a day of the month.
#[derive(Clone, Copy)]
pub struct Date {
    pub year: u16,
    pub month: u8,
    pub day: u8,
}

impl Date {
    /// The date of this day.
    pub fn of(day: Day) -> Self
        ensures { IsDate result.year result.month result.day day }
    {
        let (year, month, day) = day.parts();
        Date { year, month, day }
    }

    /// The day of this date, where it is a date of the years 2000 to 2099.
    #[tactic(auto, unfolding(crate::specs::Dates::day_in))]
    pub fn day(&self) -> Option<Day>
        ensures { result ≡ day_in self.now }
    {
        if !self.is_of_century() {
            return None;
        }
        Day::of(self.year, self.month, self.day)
    }

    fn is_of_century(&self) -> bool
        ensures { result ≡ is_of_century self.now }
    {
        2000 <= self.year && self.year <= 2099
    }
}
