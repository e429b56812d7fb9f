//! The days on which a leg operates (SSIM chapter 7, period, days of operation and frequency rate).
ghost use Rattle.std.specs.Prelude.{◌≡◌, ◌≤◌, ◌<◌, pos};
ghost use Rattle.jiff_core.specs.Calendar.{weekday_number};
ghost use Rattle.ssim_records.specs.Operating.{operates};

use crate::carrier::Leg;

impl Leg {
    /// Whether the day of this number, which is none ahead of the leg's period, is one of its days of operation, in one of its
    /// weeks. The last day of the period is not looked at.
    pub fn operates_on(&self, number: u32) -> bool
        requires begun { self.now.from ≤ number }
        requires small { number ≤ 84005 }
        ensures { result ≡ operates self.now number }
    {
        let weeks = (number - self.from.number()) / 7;
        self.days[weekday(number)] && (!self.second_week || weeks % 2 == 0)
    }
}

/// The day of the week, from Monday as 0.
fn weekday(number: u32) -> usize
    requires { number ≤ 84005 }
    ensures value { result ≡ weekday_number (pos number) }
    ensures bound { result < 7 }
{
    ((number + 3) % 7) as usize
}
