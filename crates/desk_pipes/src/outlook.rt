//! What a look goes by that does not wait for the host: the day on which lines are read, and how many lines of the journal are told.
ghost use Rattle.std.specs.Prelude.{◌≡◌};
ghost use Rattle.airline_base.specs.Days.{IsCenturyDay};

use airline_base::Day;
use std::marker::Model;

/// The day, of the years 2000 to 2099, and the count of lines. Whoever was told a line finds it counted.
#[derive(Drop)]
pub struct Outlook {
    today: Day,
    lines: u32,
}

impl Model for Outlook {
    ghost use Rattle.airline_base.specs.Days.{IsCenturyDay};
    ghost use Rattle.desk_pipes.specs.Watching.{Outlooked};

    ghost Value = { Outlooked };

    ghost view = { λ s. record { today = s.today; lines = s.lines } };

    ghost invariant = { λ s. IsCenturyDay s.today };
}

impl Outlook {
    pub fn new(today: Day, lines: u32) -> Outlook
        requires today { IsCenturyDay today }
        ensures { (result.today ≡ today) × (result.lines ≡ lines) }
    {
        Outlook { today, lines }
    }

    pub(crate) fn day(&self) -> Day
        ensures day { result ≡ self.now.today }
        ensures century { IsCenturyDay result }
    {
        self.today
    }

    pub(crate) fn count(&self) -> u32
        ensures { result ≡ self.now.lines }
    {
        self.lines
    }

    pub(crate) fn set(&mut self, today: Day, lines: u32) -> LooksGoBy
        requires today { IsCenturyDay today }
        ensures set { (self.new.today ≡ today) × (self.new.lines ≡ lines) }
        ensures by { (result.today ≡ today) × (result.lines ≡ lines) }
    {
        self.today = today;
        self.lines = lines;
        LooksGoBy { today, lines }
    }
}

/// That looks go by a day and a count of lines. Only who sets them has it.
#[derive(Drop)]
pub struct LooksGoBy {
    today: Day,
    lines: u32,
}

impl Model for LooksGoBy {
    ghost use Rattle.desk_pipes.specs.Watching.{Outlooked};

    ghost Value = { Outlooked };

    ghost view = { λ s. record { today = s.today; lines = s.lines } };
}
