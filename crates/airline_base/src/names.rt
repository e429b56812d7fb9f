//! The names of the airline standards. Each name that has exactly one form is a type of its own.
ghost use Rattle.std.specs.Prelude.{◌≡◌, ℕ, List, Some, None, if◌then◌else◌, IsTrue};
ghost use Rattle.std.specs.Char.{is_ascii_uppercase};
ghost use Rattle.airline_base.specs.Names.{is_station, is_airline, is_code, is_locator, is_name_byte};

use std::marker::Model;

/// A city or an airport: three letters A to Z (IATA location identifier).
#[derive(Clone, Copy, PartialEq, Eq, Hash)]
pub struct Station {
    letters: [u8; 3],
}

impl Model for Station {
    ghost Value = { List ℕ };

    ghost view = { λ s. s.letters };

    ghost invariant = { λ s. IsTrue (is_station s.letters) };

    ghost inverse = { λ v. record { letters = v } };
}

impl Station {
    /// The station that these bytes spell, if they spell one.
    pub fn new(text: &[u8]) -> Option<Self>
        ensures { result ≡ (if is_station text.now then Some text.now else None) }
    {
        match text {
            [a, b, c]
                if a.is_ascii_uppercase() && b.is_ascii_uppercase() && c.is_ascii_uppercase() => {
                Some(Station {
                    letters: [*a, *b, *c],
                })
            }
            _ => None,
        }
    }

    pub fn letters(&self) -> [u8; 3]
        ensures value { result ≡ self.now }
        ensures station { IsTrue (is_station self.now) }
    {
        self.letters
    }
}

/// An airline: two of A to Z and 0 to 9, at least one a letter (IATA designator).
#[derive(Clone, Copy, PartialEq, Eq, Hash)]
pub struct Airline {
    characters: [u8; 2],
}

impl Model for Airline {
    ghost Value = { List ℕ };

    ghost view = { λ s. s.characters };

    ghost invariant = { λ s. IsTrue (is_airline s.characters) };

    ghost inverse = { λ v. record { characters = v } };
}

impl Airline {
    /// The airline that these bytes spell, if they spell one.
    pub fn new(text: &[u8]) -> Option<Self>
        ensures { result ≡ (if is_airline text.now then Some text.now else None) }
    {
        match text {
            [a, b]
                if is_name_byte(*a)
                    && is_name_byte(*b)
                    && (a.is_ascii_uppercase() || b.is_ascii_uppercase()) => {
                Some(Airline {
                    characters: [*a, *b],
                })
            }
            _ => None,
        }
    }

    pub fn characters(&self) -> [u8; 2]
        ensures value { result ≡ self.now }
        ensures airline { IsTrue (is_airline self.now) }
    {
        self.characters
    }
}

/// A request or reply code: two letters A to Z (AIRIMP).
#[derive(Clone, Copy, PartialEq, Eq)]
pub struct Code {
    pair: [u8; 2],
}

impl Model for Code {
    ghost Value = { List ℕ };

    ghost view = { λ c. c.pair };

    ghost invariant = { λ c. IsTrue (is_code c.pair) };

    ghost inverse = { λ v. record { pair = v } };
}

impl Code {
    /// The code that these bytes spell, if they spell one.
    pub fn new(text: &[u8]) -> Option<Self>
        ensures { result ≡ (if is_code text.now then Some text.now else None) }
    {
        match text {
            [a, b] if a.is_ascii_uppercase() && b.is_ascii_uppercase() => Some(Code {
                pair: [*a, *b],
            }),
            _ => None,
        }
    }

    /// The code of letters that are known to be one.
    pub fn of(letters: [u8; 2]) -> Self
        requires { IsTrue (is_code letters) }
        ensures { result ≡ letters }
    {
        Code { pair: letters }
    }

    pub fn letters(&self) -> [u8; 2]
        ensures value { result ≡ self.now }
        ensures code { IsTrue (is_code self.now) }
    {
        self.pair
    }
}

/// A booking class: one letter A to Z.
#[derive(Clone, Copy, PartialEq, Eq)]
pub struct Class {
    byte: u8,
}

impl Model for Class {
    ghost Value = { ℕ };

    ghost view = { λ c. c.byte };

    ghost invariant = { λ c. IsTrue (is_ascii_uppercase c.byte) };

    ghost inverse = { λ n. record { byte = n } };
}

impl Class {
    /// The class of this letter, if it is one.
    pub fn new(letter: u8) -> Option<Self>
        ensures { result ≡ (if is_ascii_uppercase letter then Some letter else None) }
    {
        if letter.is_ascii_uppercase() {
            Some(Class { byte: letter })
        } else {
            None
        }
    }

    pub fn letter(self) -> u8
        ensures value { result ≡ self }
        ensures class { IsTrue (is_ascii_uppercase self) }
    {
        self.byte
    }
}

/// The name of a booking record: six of A to Z and 0 to 9.
#[derive(Clone, Copy, PartialEq, Eq)]
pub struct Locator {
    name: [u8; 6],
}

impl Model for Locator {
    ghost Value = { List ℕ };

    ghost view = { λ l. l.name };

    ghost invariant = { λ l. IsTrue (is_locator l.name) };

    ghost inverse = { λ v. record { name = v } };
}

impl Locator {
    /// The locator that these bytes spell, if they spell one.
    pub fn new(text: &[u8]) -> Option<Self>
        ensures { result ≡ (if is_locator text.now then Some text.now else None) }
    {
        match text {
            [a, b, c, d, e, f]
                if is_name_byte(*a)
                    && is_name_byte(*b)
                    && is_name_byte(*c)
                    && is_name_byte(*d)
                    && is_name_byte(*e)
                    && is_name_byte(*f) => {
                Some(Locator {
                    name: [*a, *b, *c, *d, *e, *f],
                })
            }
            _ => None,
        }
    }

    pub fn characters(&self) -> [u8; 6]
        ensures value { result ≡ self.now }
        ensures locator { IsTrue (is_locator self.now) }
    {
        self.name
    }
}

fn is_name_byte(byte: u8) -> bool
    ensures { result ≡ is_name_byte byte }
{
    byte.is_ascii_uppercase() || byte.is_ascii_digit()
}
