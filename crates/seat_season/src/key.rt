//! The keys that a season may have.
ghost use Rattle.std.specs.Prelude.{◌≡◌};
ghost use Rattle.seat_season.specs.Keys.{is_key, key_text};

/// A key of a season file.
#[derive(Clone, Copy)]
pub enum Key {
    Set,
    Limits,
    First,
    Days,
    Journal,
    Desks,
}

impl Key {
    /// The key, as it is written.
    pub fn text(self) -> &'static str
        ensures { result.now ≡ key_text self }
    {
        match self {
            Key::Set => "set",
            Key::Limits => "limits",
            Key::First => "first",
            Key::Days => "days",
            Key::Journal => "journal",
            Key::Desks => "desks",
        }
    }
}

/// Whether a season may have this key.
pub(crate) fn is_key(key: &str) -> bool
    ensures { result ≡ is_key key.now }
{
    matches!(
        key,
        "set" | "limits" | "first" | "days" | "journal" | "desks"
    )
}
