//! The mark that a host writes to a pipe at its start: what is read ahead of it was said ahead of that.
ghost use Rattle.std.specs.Prelude.{◌≡◌, ◌≤◌, ◌<◌, ◌∷◌, [], get_or, length, nat_eq, nat_le, take};
ghost use Rattle.desk_pipes.specs.Marks.{SeesOn};

/// The bytes of a mark: `!?HOST `, a word of sixteen letters, and its end. `!` spoils the half of a line that stands ahead of it.
const BYTES: usize = 24;

const BEGIN: [u8; 7] = *b"!?HOST ";

/// The letters of a word, one for each half of a byte.
const LETTERS: [u8; 16] = *b"ABCDEFGHIJKLMNOP";

/// A mark, which no other host has.
#[derive(Clone, Copy)]
pub struct Mark {
    bytes: [u8; BYTES],
}

impl Mark {
    /// By eight bytes that were drawn.
    pub fn of(drawn: [u8; 8]) -> Mark {
        let mut bytes = [b'\n'; BYTES];
        for place in 0..BEGIN.len() {
            bytes[place] = BEGIN[place];
        }
        for place in 0..16 {
            bytes[BEGIN.len() + place] = letter(drawn[place / 2], place % 2 == 0);
        }
        Mark { bytes }
    }

    pub fn as_slice(&self) -> &[u8] {
        &self.bytes
    }

    // Whether this is its byte at a place.
    fn has_at(&self, place: usize, byte: u8) -> bool
        requires within { place < 24 }
        ensures value { result ≡ nat_eq (get_or self.now.bytes place 0) byte }
        ensures long { length self.now.bytes ≡ 24 }
    {
        self.bytes[place] == byte
    }
}

fn letter(byte: u8, is_first: bool) -> u8 {
    let half = if is_first { byte / 16 } else { byte % 16 };
    LETTERS[usize::from(half)]
}

/// What is read of a pipe ahead of a host's mark, and how much of the mark its last bytes are.
#[derive(Clone, Copy)]
pub(crate) struct Ahead {
    mark: Mark,
    seen: usize,
}

impl Ahead {
    pub(crate) fn of(mark: Mark) -> Ahead
        ensures { (result.mark ≡ mark) × (result.seen ≡ 0) }
    {
        Ahead { mark, seen: 0 }
    }

    /// Whether the mark was read.
    pub(crate) fn is_over(&self) -> bool
        ensures over { result ≡ nat_le 24 self.now.seen }
        ensures long { length self.now.mark.bytes ≡ 24 }
    {
        self.seen >= BYTES
    }

    pub(crate) fn is_mark(&self, line: &[u8]) -> bool {
        line == self.mark.as_slice()
    }

    /// How many bytes of the next piece stand ahead of the mark, its own bytes with them.
    #[tactic(auto, using(crate::proofs::Marks::sees_none, crate::proofs::Marks::sees_more))]
    pub(crate) fn pass(&mut self, piece: &[u8]) -> usize
        ensures within { result ≤ length piece.now }
        ensures seen { SeesOn self.old.mark.bytes self.old.seen (take result piece.now) self.new.seen }
        ensures all { self.new.seen < 24 → result ≡ length piece.now }
        ensures mark { self.new.mark ≡ self.old.mark }
    {
        let [byte, more @ ..] = piece else {
            return 0;
        };
        if self.is_over() {
            return 0;
        }
        self.step(*byte);
        1 + self.pass(more)
    }

    // Only the first byte of a mark is a `!`.
    #[tactic(auto, using(crate::proofs::Marks::sees_next, crate::proofs::Marks::sees_first, crate::proofs::Marks::sees_nothing))]
    fn step(&mut self, byte: u8)
        requires ahead { self.old.seen < 24 }
        ensures seen { SeesOn self.old.mark.bytes self.old.seen (byte ∷ []) self.new.seen }
        ensures mark { self.new.mark ≡ self.old.mark }
    {
        if self.mark.has_at(self.seen, byte) {
            self.seen += 1;
        } else if self.mark.has_at(0, byte) {
            self.seen = 1;
        } else {
            self.seen = 0;
        }
    }
}
