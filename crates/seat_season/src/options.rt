//! The options and the words by their places that stand behind a command.
ghost use Rattle.std.specs.Prelude.{◌≡◌, option_map};
ghost use Rattle.seat_season.specs.Line.{texts};
ghost use Rattle.seat_season.specs.Options.{has_option, has_place, season_from, season_of};

use crate::awaits::{Awaits, is_free, is_given, is_place, next};

/// Whether this option stands among them.
pub(crate) fn has_option(option: &str, words: &[&str]) -> bool
    ensures { result ≡ has_option option.now Awaits.Nothing (texts words.now) }
{
    let mut rest = words;
    let mut awaits = Awaits::Nothing;
    while let [word, more @ ..] = rest {
        if is_free(awaits) && is_given(option, word) {
            return true;
        }
        awaits = next(awaits, word);
        rest = more;
    }
    false
}

/// Whether a word by its place stands among them.
pub(crate) fn has_place(words: &[&str]) -> bool
    ensures { result ≡ has_place Awaits.Nothing (texts words.now) }
{
    let mut rest = words;
    let mut awaits = Awaits::Nothing;
    while let [word, more @ ..] = rest {
        if is_place(awaits, word) {
            return true;
        }
        awaits = next(awaits, word);
        rest = more;
    }
    false
}

/// The first season that they name.
pub(crate) fn season_behind<'a>(words: &[&'a str]) -> Option<&'a str>
    ensures { option_map (λ season. season.now) result ≡ season_from Awaits.Nothing (texts words.now) }
{
    let mut rest = words;
    let mut awaits = Awaits::Nothing;
    while let [word, more @ ..] = rest {
        if let Some(season) = season_in(awaits, word) {
            return Some(season);
        }
        awaits = next(awaits, word);
        rest = more;
    }
    None
}

fn season_in<'a>(awaits: Awaits, word: &'a str) -> Option<&'a str>
    ensures { option_map (λ season. season.now) result ≡ season_of awaits word.now }
{
    match awaits {
        Awaits::Season => Some(word),
        Awaits::Nothing => season_attached(word),
        Awaits::Value | Awaits::Desk | Awaits::Rest => None,
    }
}

/// The season that the word names behind `=`.
#[tactic(auto, using(std::proofs::lemmas::Str::Pattern::split_once_first))]
fn season_attached(word: &str) -> Option<&str>
    ensures { option_map (λ season. season.now) result ≡ season_of Awaits.Nothing word.now }
{
    match word.split_once('=') {
        Some((option, season)) if option == "--season" => Some(season),
        _ => None,
    }
}
