//! What a line of a desk comes to.
ghost use Rattle.std.specs.Prelude.{◌≡◌};
ghost use Rattle.desk_hall.specs.Departed.{gives_day, is_day_given};

use crate::orders::RowFault;
use airimp_lines::Request;
use airline_base::Day;
use desk_lines::{Desk, Meaning};
use seat_journal::Control;

/// How a line is answered. A session's number stands first.
#[derive(Clone, Copy)]
pub enum Turn {
    /// By the line of the journal at this place, counted from 0, which it made.
    Line(u32),
    /// By the fault that a full journal has for a call of this number.
    Full(u8, u32),
    /// By the line of this call, where that is there and asked for this very request.
    Repeated(u8, u32, Request),
    /// The same of the manager's row.
    RepeatedRow(u32, Control),
    /// By what its meaning asks for, which books nothing; so stood the desk behind it.
    Quiet(u8, Desk, Meaning),
    /// By the fault of the manager's row, the line of this number.
    Refused(RowFault, u32),
    /// By that of a row with the number of this call.
    RefusedCall(RowFault, u32),
    /// By where the manager stands on this day, at a journal of this epoch.
    Stands(Day, u32),
}

/// Whether the manager gave a day, and nothing else was heard.
pub(crate) fn is_day_given(turns: &[Turn]) -> bool
    ensures { result ≡ is_day_given turns.now }
{
    match turns {
        [turn] => gives_day(turn),
        _ => false,
    }
}

fn gives_day(turn: &Turn) -> bool
    ensures { result ≡ gives_day turn.now }
{
    matches!(turn, Turn::Stands(_, _))
}
