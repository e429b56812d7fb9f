//! The bytes of a pipe, cut into lines.
ghost use Rattle.std.specs.Prelude.{◌≡◌, ◌∷◌, ◌++◌, ◌+◌, ◌≤◌, ◌<◌, [], length, map, vec_capacity, vec_len};
ghost use Rattle.airline_base.specs.Lines.{is_line_feed};
ghost use Rattle.desk_pipes.specs.Cutting.{held, lines_cut, rest_cut};

use arrayvec::ArrayVec;
use std::mem;

/// What is held of a line: one byte more than it may have.
pub type HeldLine = ArrayVec<u8, 257>;

/// Cuts the bytes of a piece behind those of a line that are held: each line that ends in it stands behind `lines`, with its end, and
/// what is behind the last is held.
#[tactic(auto, using(crate::proofs::Pieces::lines_more, crate::proofs::Pieces::rest_more))]
pub fn cut_lines(line: &mut HeldLine, piece: &[u8], lines: &mut Vec<HeldLine>)
    requires room { vec_len lines.old + length piece.now ≤ vec_capacity lines.old }
    ensures lines { map (λ l. l.items) lines.new.items
        ≡ map (λ l. l.items) lines.old.items ++ lines_cut line.old.items piece.now }
    ensures rest { line.new.items ≡ rest_cut line.old.items piece.now }
    ensures capacity { vec_capacity lines.new ≡ vec_capacity lines.old }
{
    let mut rest = piece;
    while let [byte, more @ ..] = rest {
        take_byte(line, *byte, lines);
        rest = more;
    }
}

// Holds a byte, and where it ends the line the line is whole.
#[tactic(auto, using(crate::proofs::Pieces::line_ends, crate::proofs::Pieces::line_goes_on))]
fn take_byte(line: &mut HeldLine, byte: u8, lines: &mut Vec<HeldLine>)
    requires room { vec_len lines.old < vec_capacity lines.old }
    ensures lines { map (λ l. l.items) lines.new.items
        ≡ map (λ l. l.items) lines.old.items ++ lines_cut line.old.items (byte ∷ []) }
    ensures rest { line.new.items ≡ rest_cut line.old.items (byte ∷ []) }
    ensures few { vec_len lines.new ≤ vec_len lines.old + 1 }
    ensures capacity { vec_capacity lines.new ≡ vec_capacity lines.old }
{
    hold(line, byte);
    if byte == b'\n' {
        let whole = mem::replace(line, HeldLine::new());
        lines.push_reserved(whole);
    }
}

// Holds a byte, where there is room.
#[tactic(auto, using(crate::proofs::Pieces::held_more, crate::proofs::Pieces::held_full))]
fn hold(line: &mut HeldLine, byte: u8)
    ensures { line.new.items ≡ held (line.old.items ++ byte ∷ []) }
{
    if !line.is_full() {
        line.push(byte);
    }
}
