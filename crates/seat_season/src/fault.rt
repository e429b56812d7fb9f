//! What a season file is refused with.
ghost use Rattle.std.specs.Prelude.{◌≡◌, option_map};
ghost use Rattle.seat_season.specs.FaultText.{key_of, kind_of};

use crate::key::Key;
use std::fmt;

/// Why a text is no table.
#[derive(Clone, Copy)]
pub enum TextFault {
    /// It is no TOML: the line, from 1, at which it is none.
    Line(u32),
    /// A growth was refused.
    Memory,
}

/// Why a table is no season.
#[derive(Clone, Copy)]
pub enum SeasonFault<'a> {
    /// A key that no season has.
    Unknown(&'a str),
    /// The value of this key is none that it may have.
    Wrong(Key),
    /// A key that each season has.
    Missing(Key),
}

/// What a season file is refused with. Its text is the code, and where the fault stands.
#[derive(Clone, Copy)]
pub enum SeasonKind {
    /// The text is no TOML at this line.
    Form { line: u32 },
    /// It has a key that no season has.
    Key,
    /// The value of this key is none that it may have.
    Value(Key),
    /// It has no such key.
    Missing(Key),
}

impl SeasonFault<'_> {
    /// The same without the key that no season has.
    pub fn kind(&self) -> SeasonKind
        ensures { result ≡ kind_of self.now }
    {
        match self {
            SeasonFault::Unknown(_) => SeasonKind::Key,
            SeasonFault::Wrong(key) => SeasonKind::Value(*key),
            SeasonFault::Missing(key) => SeasonKind::Missing(*key),
        }
    }
}

impl<'a> SeasonFault<'a> {
    /// The key that no season has.
    pub fn key(&self) -> Option<&'a str>
        ensures { option_map (λ key. key.now) result ≡ key_of self.now }
    {
        match self {
            SeasonFault::Unknown(key) => Some(*key),
            SeasonFault::Wrong(_) | SeasonFault::Missing(_) => None,
        }
    }
}

impl fmt::Display for SeasonKind {
    ghost use Rattle.std.specs.Prelude.{Some};
    ghost use Rattle.seat_season.specs.FaultText.{season_text};

    ghost output = { λ kind. Some (season_text kind) };

    /// The code, and the line or the key.
    fn fmt<W: fmt::Write>(&self, f: &mut fmt::Formatter<W>) -> fmt::Result {
        match self {
            SeasonKind::Form { line } => write!(f, "SEASON form {line}"),
            SeasonKind::Key => f.write_str("SEASON key"),
            SeasonKind::Value(key) => {
                let key = key.text();
                write!(f, "SEASON value {key}")
            }
            SeasonKind::Missing(key) => {
                let key = key.text();
                write!(f, "SEASON missing {key}")
            }
        }
    }
}
