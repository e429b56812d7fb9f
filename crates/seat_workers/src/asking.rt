//! What stands on a worker's list.
ghost use Rattle.std.specs.Prelude.{◌≡◌};

use seat_journal::{Command, Control, Work};

/// Asks for a line: a command of a session, or what the manager sets.
pub trait Asking: Copy {
    ghost use Rattle.seat_journal.specs.declared.entry.Work.{Work};

    ghost asks: { Self → Work };

    fn work(self) -> Work
        ensures { result ≡ asks self };
}

impl Asking for Command {
    ghost use Rattle.seat_journal.specs.declared.entry.Work.TheVariants.{Seats};

    ghost asks = { λ command. Seats command };

    fn work(self) -> Work {
        Work::Seats(self)
    }
}

impl Asking for Control {
    ghost use Rattle.seat_journal.specs.Controls.{set_by};

    ghost asks = { λ control. set_by control };

    fn work(self) -> Work {
        Control::work(&self)
    }
}
