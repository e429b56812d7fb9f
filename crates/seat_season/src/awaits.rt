//! What a word of a command line is, by what the word ahead of it awaits.
//! It knows how options are written, and nothing of what they mean.
ghost use Rattle.std.specs.Prelude.{◌≡◌};
ghost use Rattle.seat_season.specs.Line.{texts};
ghost use Rattle.seat_season.specs.Options.{awaited, is_flag, is_free, is_given, is_long, is_one_of, is_option, is_place, next, has_sign};

/// What a word awaits behind it.
#[derive(Clone, Copy)]
pub(crate) enum Awaits {
    /// Nothing: the next word is an option, or a word by its place.
    Nothing,
    /// The value of an option.
    Value,
    /// A desk, or a session.
    Desk,
    /// The name of a season file.
    Season,
    /// All words behind `--` are words by their places.
    Rest,
}

/// What the next word but one awaits.
pub(crate) fn next(awaits: Awaits, word: &str) -> Awaits
    ensures { result ≡ next awaits word.now }
{
    match awaits {
        Awaits::Nothing => awaited(word),
        Awaits::Value | Awaits::Desk | Awaits::Season => Awaits::Nothing,
        Awaits::Rest => Awaits::Rest,
    }
}

fn awaited(word: &str) -> Awaits
    ensures { result ≡ awaited word.now }
{
    match word {
        "--" => Awaits::Rest,
        "--season" => Awaits::Season,
        "--desk" | "--session" => Awaits::Desk,
        _ if is_long(word) && !has_sign(word) && !is_flag(word) => Awaits::Value,
        _ => Awaits::Nothing,
    }
}

/// Whether no option awaits this word, and it may be one.
pub(crate) fn is_free(awaits: Awaits) -> bool
    ensures { result ≡ is_free awaits }
{
    match awaits {
        Awaits::Nothing => true,
        _ => false,
    }
}

/// Whether the word stands by its place, behind a word that awaits this.
pub(crate) fn is_place(awaits: Awaits, word: &str) -> bool
    ensures { result ≡ is_place awaits word.now }
{
    match awaits {
        Awaits::Nothing => !is_option(word),
        Awaits::Value | Awaits::Desk | Awaits::Season => false,
        Awaits::Rest => true,
    }
}

/// Whether the word begins with `-` and has more behind it.
pub(crate) fn is_option(word: &str) -> bool
    ensures { result ≡ is_option word.now }
{
    match word.as_bytes() {
        [first, _, ..] => *first == b'-',
        _ => false,
    }
}

fn is_long(word: &str) -> bool
    ensures { result ≡ is_long word.now }
{
    match word.as_bytes() {
        [first, second, _, ..] => *first == b'-' && *second == b'-',
        _ => false,
    }
}

#[tactic(auto, using(std::proofs::lemmas::Str::Pattern::split_once_first))]
fn has_sign(word: &str) -> bool
    ensures { result ≡ has_sign word.now }
{
    match word.split_once('=') {
        Some(_) => true,
        None => false,
    }
}

// The options without a value.
const FLAGS: [&str; 14] = [
    "--again",
    "--all",
    "--bars",
    "--csv",
    "--cut",
    "--html",
    "--json",
    "--no-clobber",
    "--numeric",
    "--open",
    "--quiet",
    "--sealed",
    "--shards",
    "--verbose",
];

/// Whether the word is an option without a value.
fn is_flag(word: &str) -> bool
    ensures { result ≡ is_flag word.now }
{
    is_one_of(word, &FLAGS)
}

/// Whether the word is one of these.
pub(crate) fn is_one_of(word: &str, words: &[&str]) -> bool
    ensures { result ≡ is_one_of word.now (texts words.now) }
{
    let mut rest = words;
    while let [other, more @ ..] = rest {
        if word == *other {
            return true;
        }
        rest = more;
    }
    false
}

/// Whether the word is this option, alone or with its value behind `=`.
#[tactic(auto, using(std::proofs::lemmas::Str::Pattern::split_once_first, crate::proofs::WordLaws::unsigned))]
pub(crate) fn is_given(option: &str, word: &str) -> bool
    ensures { result ≡ is_given option.now word.now }
{
    match word.split_once('=') {
        Some((ahead, _)) => ahead == option,
        None => word == option,
    }
}
