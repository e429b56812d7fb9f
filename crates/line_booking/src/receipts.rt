//! The receipts of a session.
ghost use Rattle.std.specs.Prelude.{◌≡◌, [], None, true, IfSome, IfNone, OnOk, Some};
ghost use Rattle.line_booking.specs.Receipts.{KeepsLine, KeepsSame};

use crate::receipt::Receipt;
use airline_base::Memory;
use std::alloc::Global;
use std::marker::Model;

/// The numbers of the lines that the calls of a session were given, in order, and the last of these lines. The others stand in
/// the journal.
#[derive(Drop)]
pub struct Receipts {
    numbers: Vec<u32>,
    last: Option<Receipt>,
}

impl Model for Receipts {
    ghost use Rattle.std.specs.Prelude.{nat_lt, vec_len, vec_capacity};
    ghost use Rattle.line_booking.specs.Receipts.{Kept};

    ghost Value = { Kept };

    ghost view = { λ r. record { numbers = r.numbers.items; last = r.last; spare = nat_lt (vec_len r.numbers) (vec_capacity r.numbers) } };
}

impl Receipts {
    /// Of no line.
    pub fn new(alloc: Global) -> Self
        ensures numbers { result.numbers ≡ [] }
        ensures last { result.last ≡ None }
    {
        Receipts {
            numbers: Vec::new(alloc),
            last: None,
        }
    }

    /// The numbers of the lines.
    pub fn numbers(&self) -> &[u32]
        ensures { result.now ≡ self.now.numbers }
    {
        self.numbers.as_slice()
    }

    /// The last line.
    pub fn last(&self) -> Option<&Receipt>
        ensures found { IfSome result (λ line. self.now.last ≡ Some line.now) }
        ensures none { IfNone result (self.now.last ≡ None) }
    {
        self.last.as_ref()
    }

    /// Makes memory for so many lines, where it is to be had: else it is asked for line by line.
    pub fn expect(&mut self, lines: usize)
        ensures { KeepsSame self.old self.new }
    {
        let _ = self.numbers.reserve(lines);
    }

    /// Makes memory for one line more.
    pub fn reserve(&mut self) -> Result<(), Memory>
        ensures same { KeepsSame self.old self.new }
        ensures spare { OnOk result (self.new.spare ≡ true) }
    {
        match self.numbers.reserve(1) {
            Ok(()) => Ok(()),
            Err(_) => Err(Memory),
        }
    }

    /// Adds a line, for which there is memory.
    pub fn add(&mut self, line: Receipt)
        requires { self.old.spare ≡ true }
        ensures { KeepsLine self.old self.new line }
    {
        self.numbers.push_reserved(line.entry().number);
        self.last = Some(line);
    }

    /// The numbers of the lines, in place of the receipts.
    pub fn into_numbers(self) -> Vec<u32>
        ensures { result.items ≡ self.numbers }
    {
        let Receipts { numbers, last: _ } = self;
        numbers
    }
}
