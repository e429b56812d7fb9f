//! What a command's code wants.
ghost use Rattle.std.specs.Prelude.{◌≡◌};
ghost use Rattle.seat_rules.specs.Codes.{action_of};

use airline_base::Code;

/// How a command wants seats: only now, now or later, or on the waitlist.
#[derive(Clone, Copy)]
pub enum Wish {
    Need,
    Sell,
    Waitlist,
}

/// What the code of a command asks for.
#[derive(Clone, Copy)]
pub enum Action {
    Want(Wish),
    Cancel,
    Other,
}

/// Reads a command's code.
pub fn action_of(code: Code) -> Action
    ensures { result ≡ action_of code }
{
    match code.letters() {
        [b'N', b'N'] => Action::Want(Wish::Need),
        [b'S', b'S'] => Action::Want(Wish::Sell),
        [b'L', b'L'] => Action::Want(Wish::Waitlist),
        [b'X', b'X'] => Action::Cancel,
        _ => Action::Other,
    }
}
