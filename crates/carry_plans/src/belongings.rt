//! What the seals of several journals know of them.
//! It knows of each the epoch alone.
ghost use Rattle.std.specs.Prelude.{◌≡◌, ◌↔◌, ◌++◌, ◌∷◌, ◌<◌, [], IsSome, OnOk, length, option_to_list};
ghost use Rattle.carry_plans.specs.Knowing.{latest};

use seat_seal::Sealed;
use std::alloc::{AllocError, Global};
use std::marker::Model;

/// What the seals of several journals know, in their order.
#[derive(Drop)]
pub struct Belongings {
    items: Vec<Sealed>,
}

impl Model for Belongings {
    ghost use Rattle.std.specs.Prelude.{List};
    ghost use Rattle.seat_seal.specs.declared.seal.Sealed.{Sealed as Belonging};

    ghost Value = { List Belonging };

    ghost view = { λ b. b.items.items };
}

impl Belongings {
    pub(crate) fn new(alloc: Global) -> Self
        ensures { result ≡ [] }
    {
        Belongings {
            items: Vec::new(alloc),
        }
    }

    pub fn as_slice(&self) -> &[Sealed]
        ensures { result.now ≡ self.now }
    {
        self.items.as_slice()
    }

    pub fn into_vec(self) -> Vec<Sealed>
        ensures { result.items ≡ self }
    {
        self.items
    }

    /// Adds one behind the others.
    pub(crate) fn push(&mut self, known: Sealed) -> Result<(), AllocError>
        ensures { OnOk result (self.new ≡ self.old ++ known ∷ []) }
    {
        self.items.push(known)?;
        Ok(())
    }

    /// Takes off the last one, where there is one.
    pub(crate) fn pop(&mut self) -> Option<Sealed>
        ensures items { self.old ≡ self.new ++ option_to_list result }
        ensures some { IsSome result ↔ (0 < length self.old) }
    {
        self.items.pop()
    }
}

/// The largest epoch that these seals know.
#[tactic(auto, using(crate::proofs::Epochs::latest_none, crate::proofs::Epochs::latest_more))]
pub(crate) fn latest(knowns: &[Sealed]) -> u32
    ensures { result ≡ latest knowns.now }
{
    let Some((known, others)) = knowns.split_first() else {
        return 0;
    };
    let rest = latest(others);
    known.era.epoch.max(rest)
}
