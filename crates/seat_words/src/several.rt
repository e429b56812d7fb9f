//! Values of which there may be more than one.
ghost use Rattle.std.specs.Prelude.{◌≡◌, ◌==◌, ℕ, List, IfOk, length};
ghost use Rattle.clap.specs.Walk.{texts};

use std::alloc::{AllocError, Global};
use std::marker::Model;

/// The values by one place or of one option, in the order of the words.
#[derive(Drop)]
pub struct Several<'a> {
    values: Vec<&'a str>,
}

impl<'a> Model for Several<'a> {
    ghost Value = { List (List ℕ) };

    ghost view = { λ s. texts s.values.items };
}

impl<'a> Several<'a> {
    pub fn as_slice(&self) -> &[&'a str]
        ensures { texts result.now ≡ self.now }
    {
        self.values.as_slice()
    }

    pub fn len(&self) -> usize
        ensures { result ≡ length self.now }
    {
        self.values.len()
    }

    pub fn is_empty(&self) -> bool
        ensures { result ≡ (length self.now == 0) }
    {
        self.values.is_empty()
    }

    /// These values.
    pub fn of(alloc: Global, values: &[&'a str]) -> Result<Self, AllocError>
        ensures { IfOk result (λ s. s ≡ texts values.now) }
    {
        let mut kept = Vec::new(alloc);
        kept.extend_from_slice(values)?;
        Ok(Several { values: kept })
    }
}
