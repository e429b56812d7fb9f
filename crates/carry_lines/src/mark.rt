//! A class that is closed again.
ghost use Rattle.std.specs.Prelude.{◌≡◌};
ghost use Rattle.carry_lines.specs.Setting.{closing};

use airline_base::Class;
use seat_journal::{SaleChange, Work};

/// A class on one leg of a flight, which is closed again.
#[derive(Clone, Copy)]
pub struct Mark {
    /// The flight's index.
    pub flight: u32,
    /// The leg's index in its flight, from 0.
    pub leg: u8,
    pub class: Class,
}

impl Mark {
    /// What closes it.
    pub fn work(&self) -> Work
        ensures { result ≡ closing self.now }
    {
        Work::Sale(SaleChange {
            flight: self.flight,
            leg: self.leg,
            class: Some(self.class),
            closed: true,
        })
    }
}
