//! What stands in a pipe ahead of a host's mark, which is held until the mark was read.
ghost use Rattle.std.specs.Prelude.{◌≡◌, ◌≤◌, ◌<◌, ◌+◌, ◌++◌, IfOk, IfSome, OnOk, Some, false, is_some, length, true, vec_capacity, vec_len};
ghost use Rattle.std.specs.Io.KnownBytes.{Consumes, IsAtEnd};
ghost use Rattle.desk_pipes.specs.Marks.{HasMark, IsSeen};
ghost use Rattle.desk_pipes.specs.declared.holding.Held.TheVariants.{Ended, Full, Marked};

use crate::mark::{Ahead, Mark};
use std::io;
use std::io::Read;
use std::sync::Wait;

/// The most that one read takes.
pub(crate) const PIECE: usize = 512;

/// The most that is held ahead of a mark: twice what a pipe has at most that nobody with privileges made larger.
pub(crate) const MOST_AHEAD: usize = 2_097_152;

/// Why nothing more is held.
#[derive(Clone, Copy)]
enum Held {
    /// The mark was read.
    Marked,
    /// There may be no room for a piece more.
    Full,
    /// There is nothing more to read.
    Ended,
}

/// A pipe that was read up to its mark, where one is written to it. Nothing is heard of a pipe that is not.
#[derive(Clone, Copy)]
pub(crate) struct Reached {
    why: Option<Held>,
}

/// Holds what is to be read ahead of what is heard: nothing where no mark is written to the pipe.
pub(crate) fn reach<R: Wait, I: Read>(
    rt: &R,
    mark: Option<Mark>,
    held: &mut Vec<u8>,
    input: &mut I,
) -> io::Result<Reached>
    ensures marked { IfSome mark (λ mark. IfOk result (λ it. it.why ≡ Some Marked → HasMark mark.bytes held.new.items)) }
    ensures full { IfSome mark (λ mark. IfOk result (λ it. it.why ≡ Some Full → vec_capacity held.new < vec_len held.new + 512)) }
    ensures ended { IfSome mark (λ mark. IfOk result (λ it. it.why ≡ Some Ended → IsAtEnd (I.remaining input.new))) }
    ensures bytes { IfSome mark (λ mark. OnOk result (Consumes (I.remaining input.old) (I.remaining input.new) held.new.items)) }
    ensures held { IfSome mark (λ mark. IfOk result (λ it. is_some it.why ≡ true)) }
{
    let why = match mark {
        Some(mark) => Some(hold_ahead(rt, mark, held, input)?),
        None => None,
    };
    Ok(Reached { why })
}

/// Holds what there is to read up to a mark, as far as there is room, and what came in one piece with that.
#[tactic(auto, using(crate::proofs::Marks::none_seen, crate::proofs::Marks::none_read, crate::proofs::Marks::more_read))]
fn hold_ahead<R: Wait, I: Read>(
    rt: &R,
    mark: Mark,
    held: &mut Vec<u8>,
    input: &mut I,
) -> io::Result<Held>
    ensures marked { IfOk result (λ why. why ≡ Marked → HasMark mark.bytes held.new.items) }
    ensures full { IfOk result (λ why. why ≡ Full → vec_capacity held.new < vec_len held.new + 512) }
    ensures ended { IfOk result (λ why. why ≡ Ended → IsAtEnd (I.remaining input.new)) }
    ensures bytes { OnOk result (Consumes (I.remaining input.old) (I.remaining input.new) held.new.items) }
{
    let mut ahead = Ahead::of(mark);
    let mut piece = [0u8; PIECE];
    held.clear();
    'pieces: for _ in rt.forever() {
        if held.capacity() - held.len() < PIECE {
            return Ok(Held::Full);
        }
        let n = input.read(&mut piece)?;
        if n == 0 {
            return Ok(Held::Ended);
        }
        if hold_piece(&mut ahead, held, &piece[..n]) {
            return Ok(Held::Marked);
        }
    }
    unreachable!()
}

// Holds a piece more. Whether the mark stands in what is held then.
#[tactic(auto, using(crate::proofs::Marks::all_seen, crate::proofs::Marks::still_seen))]
fn hold_piece(ahead: &mut Ahead, held: &mut Vec<u8>, piece: &[u8]) -> bool
    requires room { vec_len held.old + length piece.now ≤ vec_capacity held.old }
    requires few { length piece.now < 513 }
    requires seen { IsSeen ahead.old.mark.bytes held.old.items ahead.old.seen }
    requires open { ahead.old.seen < 24 }
    ensures held { held.new.items ≡ held.old.items ++ piece.now }
    ensures marked { result ≡ true → HasMark ahead.old.mark.bytes held.new.items }
    ensures seen { result ≡ false → IsSeen ahead.new.mark.bytes held.new.items ahead.new.seen }
    ensures open { result ≡ false → ahead.new.seen < 24 }
    ensures mark { ahead.new.mark ≡ ahead.old.mark }
    ensures capacity { vec_capacity held.old ≤ vec_capacity held.new }
{
    ahead.pass(piece);
    let held_all = held.extend_from_slice(piece);
    prove!(held_all.is_ok());
    ahead.is_over()
}
