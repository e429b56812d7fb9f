//! Whether a text begins with what was booked, and its imprint, by one look at its bytes.
ghost use Rattle.std.specs.Prelude.{◌≡◌, ◌≤◌, ℕ, List, length};
ghost use Rattle.seat_seal.specs.Booked.{begins_with, is_booked};
ghost use Rattle.seat_seal.specs.Imprints.{imprint_of};
ghost use Rattle.booked_texts.specs.Looks.{IsAt};

use seat_seal::{Imprint, Tally, same_imprint};

/// The imprint of a text, and whether the text begins with one of these that were booked. Where they stand by their counts of bytes,
/// the least first, each byte of the text is digested once.
pub fn imprint_beside(text: &[u8], booked: &[Imprint]) -> (Imprint, bool)
    ensures imprint { result.0 ≡ imprint_of text.now }
    ensures booked { result.1 ≡ is_booked booked.now text.now }
{
    let mut beginning = Beginning::new();
    let mut is_booked = false;
    for one in booked {
        let begins = beginning.is_booked(text, one);
        is_booked = is_booked || begins;
    }
    (beginning.whole(text), is_booked)
}

/// A tally of the first bytes of a text, and how many these are.
#[derive(Drop)]
struct Beginning {
    tally: Tally,
    count: usize,
}

impl Beginning {
    fn new() -> Self
        ensures at { (text : List ℕ) → IsAt result text }
        ensures count { result.count ≡ 0 }
    {
        Beginning {
            tally: Tally::new(),
            count: 0,
        }
    }

    /// Whether the text begins with what was booked.
    fn is_booked(&mut self, text: &[u8], booked: &Imprint) -> bool
        requires { IsAt self.old text.now }
        ensures value { result ≡ begins_with text.now booked.now }
        ensures at { IsAt self.new text.now }
    {
        if booked.bytes > text.len() as u64 {
            return false;
        }
        let count = booked.bytes as usize;
        self.go_back(text, count);
        self.take_to(text, count);
        count > 0 && same_imprint(booked, &self.tally.so_far())
    }

    /// Begins anew where it has taken more bytes.
    fn go_back(&mut self, text: &[u8], count: usize)
        requires { IsAt self.old text.now }
        ensures at { IsAt self.new text.now }
        ensures count { self.new.count ≤ count }
        ensures same { self.old.count ≤ count → self.new ≡ self.old }
    {
        let _text = text;
        if count < self.count {
            *self = Beginning::new();
        }
    }

    /// Takes more of the text, up to so many bytes.
    fn take_to(&mut self, text: &[u8], count: usize)
        requires at { IsAt self.old text.now }
        requires more { (self.old.count ≤ count) × (count ≤ length text.now) }
        ensures at { IsAt self.new text.now }
        ensures count { self.new.count ≡ count }
    {
        self.tally.take(&text[self.count..count]);
        self.count = count;
    }

    /// The imprint of the whole text.
    fn whole(self, text: &[u8]) -> Imprint
        requires { IsAt self text.now }
        ensures { result ≡ imprint_of text.now }
    {
        let mut beginning = self;
        beginning.take_to(text, text.len());
        beginning.tally.imprint()
    }
}
