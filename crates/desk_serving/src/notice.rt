//! What a desk is told. A notice is made here alone, each by a clause that says why it is that desk's, and it goes into the outbox of its own session.
//! It knows a hall, and nothing of outboxes, of looks or of the seal.
ghost use Rattle.std.specs.Prelude.{◌≡◌, ◌≤◌, None, IfOk, OnOk, length};
ghost use Rattle.desk_hall.specs.Pieces.{backlog_of};
ghost use Rattle.desk_serving.specs.Groups.{unclosed_line, IsGiven, IsOwn, SaysUnclosed, SaysWanting};

use airline_base::Memory;
use airline_base::spelling::put;
use arrayvec::ArrayVec;
use desk_answers::memory_line;
use desk_hall::Hall;
use desk_pipes::Letter;
use seat_disk::Tape;
use std::alloc::Global;
use std::marker::Model;

/// What a session's desk, or the manager, is told of lines.
#[derive(Drop)]
pub struct Notice {
    session: u8,
    text: Vec<u8>,
}

impl Model for Notice {
    ghost use Rattle.desk_pipes.specs.Waiting.{Posted};

    ghost Value = { Posted };

    ghost view = { λ s. record { session = s.session; text = s.text.items } };
}

impl Letter for Notice {
    ghost posted = { λ s. s };

    fn session(&self) -> u8 {
        self.session
    }

    fn text(&self) -> &[u8] {
        self.text.as_slice()
    }
}

/// What a session's desk, or the manager, is told of the lines that were heard.
#[tactic(auto, using(crate::proofs::Groups::is_own))]
pub(crate) fn notice_of<D: Tape>(
    alloc: Global,
    hall: &mut Hall<'_, D>,
    session: u8,
) -> Result<Notice, Memory>
    requires session { session ≤ length hall.old.desks }
    ensures own { IfOk result (IsOwn hall.old session) }
    ensures same { hall.new ≡ hall.old }
{
    let text = hall.told(alloc, session)?;
    Ok(Notice { session, text })
}

/// A piece, of so many lines of the journal at most, of what is told again.
#[tactic(auto, using(crate::proofs::Groups::given))]
pub(crate) fn piece_of<D: Tape>(
    alloc: Global,
    hall: &mut Hall<'_, D>,
    session: u8,
    most: u32,
) -> Result<Notice, Memory>
    ensures given { IfOk result (IsGiven hall.old hall.new session most) }
    ensures same { (hall.new.serving ≡ hall.old.serving) × (hall.new.today ≡ hall.old.today) }
{
    let text = hall.again(alloc, session, most)?;
    Ok(Notice { session, text })
}

/// All that is still to be told again.
#[tactic(auto, using(crate::proofs::Groups::given))]
pub(crate) fn rest_of<D: Tape>(
    alloc: Global,
    hall: &mut Hall<'_, D>,
    session: u8,
) -> Result<Notice, Memory>
    ensures given { IfOk result (IsGiven hall.old hall.new session (length hall.old.serving.journal)) }
    ensures told { OnOk result (backlog_of hall.new.backlogs session ≡ None) }
    ensures same { (hall.new.serving ≡ hall.old.serving) × (hall.new.today ≡ hall.old.today) }
{
    let text = hall.again_all(alloc, session)?;
    Ok(Notice { session, text })
}

/// That memory was wanting, which takes none.
#[derive(Drop)]
pub struct Want {
    session: u8,
    text: ArrayVec<u8, 40>,
}

impl Model for Want {
    ghost use Rattle.desk_pipes.specs.Waiting.{Posted};

    ghost Value = { Posted };

    ghost view = { λ s. record { session = s.session; text = s.text.items } };
}

impl Letter for Want {
    ghost posted = { λ s. s };

    fn session(&self) -> u8 {
        self.session
    }

    fn text(&self) -> &[u8] {
        self.text.as_slice()
    }
}

/// It is told to the desk of the session whose last line it was.
#[tactic(auto, using(crate::proofs::Groups::says_wanting))]
pub(crate) fn want_of<D: Tape>(hall: &Hall<'_, D>, session: u8) -> Want
    requires session { session ≤ length hall.now.desks }
    ensures { SaysWanting hall.now session result }
{
    let number = hall.lines_of(session);
    Want {
        session,
        text: memory_line(session, number),
    }
}

/// That memory was wanting to close all that departed before the day that holds. It is told to the manager.
#[tactic(auto, using(crate::proofs::Closings::says_unclosed))]
pub(crate) fn unclosed() -> Want
    ensures { SaysUnclosed result }
{
    Want {
        session: 0,
        text: unclosed_line(),
    }
}

fn unclosed_line() -> ArrayVec<u8, 40>
    ensures { result.items ≡ unclosed_line }
{
    let mut text = ArrayVec::new();
    put(&mut text, b"FAULT - UNCLOSED\n");
    text
}
