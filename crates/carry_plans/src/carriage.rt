//! What a carry makes.
ghost use Rattle.std.specs.Prelude.{◌≡◌};
ghost use Rattle.carry_plans.specs.Carries.{marked_text, text_for};

use airline_base::Items;
use seat_seal::Sealed;

/// A new journal and what is said of it, and the report.
#[derive(Drop)]
pub struct Carriage {
    /// The text of the new journal.
    pub text: Items<u8>,
    /// What its seal says.
    pub entry: Sealed,
    /// Of each live booking of the older journal, in the form that is asked for.
    pub report: Items<u8>,
    /// What the seal of the older journal knows of it.
    pub known: Sealed,
    /// The seal of the journal that all hosts would have together, where the new one is of one of several.
    pub whole: Option<Items<u8>>,
}

impl Carriage {
    /// Of which the mark in the older journal's seal is, beside a name.
    pub fn marked(&self) -> &[u8]
        ensures { result.now ≡ marked_text self.now }
    {
        text_for(&self.text, &self.whole)
    }
}

/// The new journal's own text, or the seal of that of all hosts together where it is one of several.
pub fn text_for<'a>(own: &'a Items<u8>, whole: &'a Option<Items<u8>>) -> &'a [u8]
    ensures { result.now ≡ text_for own.now whole.now }
{
    match whole {
        Some(whole) => whole.as_slice(),
        None => own.as_slice(),
    }
}
