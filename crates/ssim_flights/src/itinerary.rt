//! Which legs belong to one itinerary (SSIM chapter 7, flight leg record).
ghost use Rattle.std.specs.Prelude.{◌≡◌, IfOk};
ghost use Rattle.std.specs.Hash as fed;
ghost use Rattle.std.specs.Cmp.Rules.{hashing};
ghost use Rattle.std.proofs.Common.{rules};
ghost use Rattle.ssim_flights.specs.Hashing.{name_number};
ghost use Rattle.ssim_flights.specs.Itineraries.{itineraries, name_of};

use crate::hashing::suffix_number;
use crate::leg_list::LegLists;
use airline_base::Memory;
use indexmap::IndexSet;
use ssim_records::Leg;
use std::alloc::Global;
use std::hash::{Hash, Hasher};

/// What the legs of an itinerary share, the airline aside.
#[derive(Clone, Copy, PartialEq, Eq)]
pub(crate) struct Name {
    pub number: u16,
    pub suffix: Option<u8>,
    pub variation: u8,
    pub overflow: u8,
}

impl Name {
    fn as_number(&self) -> u64
        ensures { result ≡ name_number self.now }
    {
        u64::from(self.number)
            + 65_536 * suffix_number(self.suffix)
            + 4_294_967_296 * u64::from(self.variation)
            + 1_099_511_627_776 * u64::from(self.overflow)
    }
}

/// The fields are hashed as one number, since each write to a hasher costs.
impl Hash for Name {
    ghost hash_input = { λ n. fed.u64 (name_number n) };

    ghost respects_eq = { Prim.search (hashing, rules) };

    fn hash<H: Hasher>(&self, state: &mut H) {
        state.write_u64(self.as_number());
    }
}

fn name_of(leg: &Leg) -> Name
    ensures { result ≡ name_of leg.now }
{
    Name {
        number: leg.number,
        suffix: leg.suffix,
        variation: leg.variation,
        overflow: leg.overflow,
    }
}

/// The itineraries of these legs, in the order of their first records.
pub(crate) fn itineraries(alloc: Global, legs: &[Leg]) -> Result<LegLists, Memory>
    ensures { IfOk result (λ all. all ≡ itineraries legs.now) }
{
    let mut names = IndexSet::new(alloc);
    let mut all = LegLists::new(alloc);
    for leg in legs {
        let Ok((index, is_new)) = names.insert_full(name_of(leg)) else {
            return Err(Memory);
        };
        let Ok(()) = all.place(alloc, index, is_new, *leg) else {
            return Err(Memory);
        };
    }
    Ok(all)
}
