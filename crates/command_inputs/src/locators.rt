//! The locators that a question is about.
ghost use Rattle.std.specs.Prelude.{◌≡◌, IfErr, IfOk, OnOk, map};
ghost use Rattle.command_inputs.specs.Asked.{AreLocators, IsAdded, IsLocatorFault, IsLocatorsFault};

use airline_base::Locator;
use seat_words::{WordFault, locator_word};
use std::alloc::Global;

/// Why words give no locators.
#[derive(Clone, Copy)]
pub enum LocatorsFault {
    /// One of them is no locator.
    Word(WordFault),
    /// A list of them could not grow.
    Memory,
}

/// The locators of `--locator`, in the order of the words. Where one of them is no locator it is `E2 locator`.
#[tactic(auto, using(crate::proofs::Located::none_yet, crate::proofs::Located::one_more, crate::proofs::Located::are_all))]
pub fn locators_asked(alloc: Global, words: &[&str]) -> Result<Vec<Locator>, LocatorsFault>
    ensures ok { IfOk result (λ locators. AreLocators (map (λ word. word.now) words.now) locators.items) }
    ensures fault { IfErr result (IsLocatorsFault (map (λ word. word.now) words.now)) }
{
    let mut locators = Vec::new(alloc);
    for word in words {
        add_locator(&mut locators, word)?;
    }
    Ok(locators)
}

/// Adds the locator that the word names.
#[tactic(auto, using(crate::proofs::Located::added, crate::proofs::Located::no_locator, crate::proofs::Located::not_added))]
fn add_locator(locators: &mut Vec<Locator>, word: &str) -> Result<(), LocatorsFault>
    ensures ok { OnOk result (IsAdded word.now locators.old.items locators.new.items) }
    ensures fault { IfErr result (IsLocatorFault word.now) }
{
    let Some(locator) = locator_word(word) else {
        return Err(LocatorsFault::Word(WordFault::BadLocator));
    };
    match locators.push(locator) {
        Ok(()) => Ok(()),
        Err(_) => Err(LocatorsFault::Memory),
    }
}
