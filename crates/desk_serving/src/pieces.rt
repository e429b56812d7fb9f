//! What a desk is told again, piece by piece.
//! It knows a hall and an outbox for each desk, and nothing of who asks when.
ghost use Rattle.std.specs.Prelude.{◌≡◌, ◌+◌, None, IfNone, IfOk, IfSome, OnOk, length};
ghost use Rattle.desk_hall.specs.Pieces.{backlog_of};
ghost use Rattle.desk_serving.specs.Groups.{AreSteps, IsGiven, IsStep};

use crate::notice::{Notice, piece_of, rest_of};
use crate::step::Step;
use airline_base::Memory;
use desk_hall::Hall;
use desk_pipes::{Delivered, Post, Room};
use seat_disk::Tape;
use std::alloc::Global;
use std::sync::Wait;

/// As many lines of the journal as a piece has at most of what is told again.
const MOST_LINES: u32 = 4_096;

/// Tells a piece to each that is behind and has room for it.
#[tactic(auto, using(crate::proofs::Groups::no_steps, crate::proofs::Groups::all_steps))]
pub(crate) fn tell_pieces<R: Wait, D: Tape>(
    rt: &R,
    alloc: Global,
    hall: &mut Hall<'_, D>,
    post: &Post,
) -> Result<(), Memory>
    ensures pieces { OnOk result (AreSteps (length hall.old.desks + 1) hall.old hall.new) }
    ensures same { (hall.new.serving ≡ hall.old.serving) × (hall.new.today ≡ hall.old.today) }
{
    let count = hall.count();
    for session in 0..count + 1 {
        let _step = tell_piece(rt, alloc, hall, post, session)?;
    }
    Ok(())
}

// Where it is behind, and its outbox said that there is room.
fn tell_piece<R: Wait, D: Tape>(
    rt: &R,
    alloc: Global,
    hall: &mut Hall<'_, D>,
    post: &Post,
    session: u8,
) -> Result<Step, Memory>
    ensures step { IfOk result (IsStep hall.old hall.new session) }
    ensures same { (hall.new.serving ≡ hall.old.serving) × (hall.new.today ≡ hall.old.today) }
{
    let Some(room) = room_of(rt, hall, post, session) else {
        return Ok(Step::NotBehind);
    };
    if !room.is_there() {
        return Ok(Step::Full(room));
    }
    let told = give_piece(rt, alloc, hall, post, session)?;
    Ok(Step::Told(room, told))
}

/// Whether a session that is behind has room for a piece. Where it has not, whoever takes what waits wakes the host.
#[tactic(auto, using(crate::proofs::Groups::not_behind))]
pub(crate) fn room_of<R: Wait, D: Tape>(
    rt: &R,
    hall: &Hall<'_, D>,
    post: &Post,
    session: u8,
) -> Option<Room>
    ensures own { IfSome result (λ room. room.session ≡ session) }
    ensures none { IfNone result (backlog_of hall.now.backlogs session ≡ None) }
{
    if !hall.is_behind(session) {
        return None;
    }
    Some(post.room(rt, session))
}

fn give_piece<R: Wait, D: Tape>(
    rt: &R,
    alloc: Global,
    hall: &mut Hall<'_, D>,
    post: &Post,
    session: u8,
) -> Result<Delivered<Notice>, Memory>
    ensures given { IfOk result (IsGiven hall.old hall.new session 4096) }
    ensures same { (hall.new.serving ≡ hall.old.serving) × (hall.new.today ≡ hall.old.today) }
{
    let piece = piece_of(alloc, hall, session, MOST_LINES)?;
    Ok(post.deliver(rt, piece))
}

/// Tells all that a session is still to be told.
pub(crate) fn give_rest<R: Wait, D: Tape>(
    rt: &R,
    alloc: Global,
    hall: &mut Hall<'_, D>,
    post: &Post,
    session: u8,
) -> Result<Delivered<Notice>, Memory>
    ensures given { IfOk result (IsGiven hall.old hall.new session (length hall.old.serving.journal)) }
    ensures told { OnOk result (backlog_of hall.new.backlogs session ≡ None) }
    ensures same { (hall.new.serving ≡ hall.old.serving) × (hall.new.today ≡ hall.old.today) }
{
    let rest = rest_of(alloc, hall, session)?;
    Ok(post.deliver(rt, rest))
}
