//! What the rows of sums of loads are of.
ghost use Rattle.std.specs.Prelude.{◌≡◌, IfNone, IfSome, None, Ok};
ghost use Rattle.command_inputs.specs.Asked.{by_word, kind_word, sums_asked};

use seat_words::WordFault;

/// What a row of sums of loads is of, as `--by` names it.
#[derive(Clone, Copy)]
pub enum By {
    /// `leg`
    EachLeg,
    /// `flight`
    EachFlight,
    /// `day`
    EachDay,
    /// `pair`
    EachPair,
    /// `class`
    EachClass,
}

/// What the rows of `loads --by` are of: none where the option is not there.
pub fn by_asked(by: Option<&str>) -> Result<Option<By>, WordFault>
    ensures none { IfNone by.entry (result ≡ Ok None) }
    ensures named { IfSome by.entry (λ word. result ≡ sums_asked word.now) }
{
    match by {
        None => Ok(None),
        Some(word) => sums_asked(word),
    }
}

/// What the word names. Any other word is `E2 by`.
fn sums_asked(word: &str) -> Result<Option<By>, WordFault>
    ensures { result ≡ sums_asked word.now }
{
    match by_word(word) {
        Some(by) => Ok(Some(by)),
        None => Err(WordFault::BadBy),
    }
}

fn by_word(word: &str) -> Option<By>
    ensures { result ≡ by_word word.now }
{
    if word == "leg" {
        return Some(By::EachLeg);
    }
    if word == "pair" {
        return Some(By::EachPair);
    }
    kind_word(word)
}

fn kind_word(word: &str) -> Option<By>
    ensures { result ≡ kind_word word.now }
{
    if word == "flight" {
        return Some(By::EachFlight);
    }
    if word == "day" {
        return Some(By::EachDay);
    }
    if word == "class" {
        return Some(By::EachClass);
    }
    None
}
