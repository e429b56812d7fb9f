//! Digests (SHA-256, FIPS 180-4).
ghost use Rattle.std.specs.Prelude.{◌≡◌};
ghost use Rattle.sha2.specs.Sha256.{sha256};
ghost use Rattle.hex.specs.Hex.{encode_lower};
ghost use Rattle.seat_seal.specs.Digests.{IsDigest, digest_in};

use hex::{decode_to_slice, encode_to_slice};
use sha2::{Digest as Hasher, Sha256};
use std::marker::Model;

/// The SHA-256 digest of some bytes.
#[derive(Clone, Copy, PartialEq, Eq)]
pub struct Digest {
    bytes: [u8; 32],
}

impl Model for Digest {
    ghost use Rattle.std.specs.Prelude.{ℕ, List};
    ghost use Rattle.seat_seal.specs.Digests.{IsDigest};

    ghost Value = { List ℕ };

    ghost view = { λ d. d.bytes };

    ghost invariant = { λ d. IsDigest d.bytes };

    ghost inverse = { λ v. record { bytes = v } };
}

impl Default for Digest {
    fn default() -> Self {
        Digest::of([0; 32])
    }
}

impl Digest {
    /// The digest of these bytes.
    pub fn of(bytes: [u8; 32]) -> Self
        ensures { result ≡ bytes }
    {
        Digest { bytes }
    }

    pub fn bytes(&self) -> [u8; 32]
        ensures value { result ≡ self.now }
        ensures digest { IsDigest self.now }
    {
        self.bytes
    }

    /// 64 hex digits, small letters.
    pub fn letters(&self) -> [u8; 64]
        ensures value { result ≡ encode_lower self.now }
        ensures digest { IsDigest self.now }
    {
        let mut letters = [0; 64];
        let encoded = encode_to_slice(self.bytes().as_slice(), &mut letters);
        prove!(encoded.is_ok());
        let _ = encoded;
        letters
    }

    /// The digest that these hex digits spell, small letters or capital ones.
    #[tactic(auto, unfolding(crate::specs::Digests::digest_in))]
    pub fn read(text: &[u8]) -> Option<Self>
        ensures { result ≡ digest_in text.now }
    {
        let mut bytes = [0; 32];
        match decode_to_slice(text, &mut bytes) {
            Ok(()) => Some(Digest::of(bytes)),
            Err(_) => None,
        }
    }
}

/// The digest of these bytes.
pub fn digest_of(bytes: &[u8]) -> Digest
    ensures { result ≡ sha256 bytes.now }
{
    Digest::of(Sha256::digest(bytes))
}
