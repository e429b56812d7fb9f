//! The bytes of a feed: each is held until its line ends, and the line is then heard.
ghost use Rattle.std.specs.Prelude.{◌≡◌, ◌∷◌, ◌++◌, [], IfErr, OnErr, OnOk};
ghost use Rattle.desk_stream.specs.Hearing.{IsSamePending};
ghost use Rattle.desk_stream.specs.declared.hearing.FeedFault.TheVariants.{Memory as Wanting, Strange as Stranger};
ghost use Rattle.desk_serving.specs.Streaming.{held, Hears, HearsFront, IsLineHeard, IsNoEarlierDay, IsSameBut, Lived, StopsAt, WantsAt};

use arrayvec::ArrayVec;
use desk_stream::{Feed, FeedFault};
use seat_disk::Tape;
use std::alloc::Global;

/// What is held of a line: one byte more than it may have, and a digit and a blank ahead of them.
pub(crate) type HeldLine = ArrayVec<u8, 259>;

/// Hears the bytes of a piece behind those of a line that are held.
#[tactic(auto, using(crate::proofs::Hearing::hears_none, crate::proofs::Hearing::lived_none, crate::proofs::Hearing::same_none, crate::proofs::Hearing::hears_all, crate::proofs::Hearing::hears_more, crate::proofs::Hearing::lived_on, crate::proofs::Hearing::same_on, crate::proofs::Hearing::hears_front, crate::proofs::Days::same_day, crate::proofs::Days::days_on))]
pub(crate) fn hear_piece<D: Tape>(
    alloc: Global,
    feed: &mut Feed<'_, D>,
    line: &mut HeldLine,
    piece: &[u8],
) -> Result<(), FeedFault>
    ensures hears { OnOk result (Hears feed.old line.old.items piece.now feed.new line.new.items) }
    ensures front { OnErr result (HearsFront feed.old line.old.items piece.now feed.new) }
    ensures lived { Lived feed.old feed.new }
    ensures strange { IfErr result (λ f. f ≡ Stranger → StopsAt feed.new) }
    ensures memory { IfErr result (λ f. f ≡ Wanting → WantsAt feed.new) }
    ensures days { IsNoEarlierDay feed.old.reading.today feed.new.reading.today }
    ensures same { IsSameBut feed.old feed.new }
{
    for byte in piece {
        match hear_byte(alloc, feed, line, *byte) {
            Ok(()) => (),
            Err(fault) => return Err(fault),
        }
    }
    Ok(())
}

// Holds a byte of a line, and hears the line where it ends it.
#[tactic(auto, using(crate::proofs::Hearing::byte_held, crate::proofs::Hearing::line_ended, crate::proofs::Hearing::lived_none, crate::proofs::Hearing::same_none, crate::proofs::Days::same_day))]
fn hear_byte<D: Tape>(
    alloc: Global,
    feed: &mut Feed<'_, D>,
    line: &mut HeldLine,
    byte: u8,
) -> Result<(), FeedFault>
    ensures hears { OnOk result (Hears feed.old line.old.items (byte ∷ []) feed.new line.new.items) }
    ensures stays { OnErr result (IsSamePending feed.old.pending feed.new.pending) }
    ensures lived { Lived feed.old feed.new }
    ensures strange { IfErr result (λ f. f ≡ Stranger → StopsAt feed.new) }
    ensures memory { IfErr result (λ f. f ≡ Wanting → WantsAt feed.new) }
    ensures days { IsNoEarlierDay feed.old.reading.today feed.new.reading.today }
    ensures same { IsSameBut feed.old feed.new }
{
    hold(line, byte);
    if byte != b'\n' {
        return Ok(());
    }
    match hear_line(alloc, feed, line.as_slice()) {
        Ok(()) => {
            line.clear();
            Ok(())
        }
        Err(fault) => Err(fault),
    }
}

// Hears a line.
#[tactic(auto, using(crate::proofs::Hearing::line_lived, crate::proofs::Hearing::line_heard, crate::proofs::Hearing::same_lived, crate::proofs::Hearing::stops_at, crate::proofs::Hearing::wants_at, crate::proofs::Hearing::same_but, crate::proofs::Days::day_read))]
fn hear_line<D: Tape>(alloc: Global, feed: &mut Feed<'_, D>, line: &[u8]) -> Result<(), FeedFault>
    ensures heard { OnOk result (IsLineHeard feed.old feed.new line.now) }
    ensures stays { OnErr result (IsSamePending feed.old.pending feed.new.pending) }
    ensures lived { Lived feed.old feed.new }
    ensures strange { IfErr result (λ f. f ≡ Stranger → StopsAt feed.new) }
    ensures memory { IfErr result (λ f. f ≡ Wanting → WantsAt feed.new) }
    ensures days { IsNoEarlierDay feed.old.reading.today feed.new.reading.today }
    ensures same { IsSameBut feed.old feed.new }
{
    match feed.hear(alloc, line) {
        Ok(()) => Ok(()),
        Err(fault) => Err(fault),
    }
}

// Holds a byte, where there is room.
#[tactic(auto, using(crate::proofs::Holding::held_more, crate::proofs::Holding::held_full))]
fn hold(line: &mut HeldLine, byte: u8)
    ensures { line.new.items ≡ held (line.old.items ++ byte ∷ []) }
{
    if !line.is_full() {
        line.push(byte);
    }
}
