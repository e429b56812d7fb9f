//! Imprints: the digest of some bytes, and their count.
ghost use Rattle.std.specs.Prelude.{◌≡◌, ◌+◌, ◌<◌, ◌^◌, ℕ, List, [], ◌++◌, length};
ghost use Rattle.seat_seal.specs.Imprints.{imprint_of, HasTaken};

use crate::digest::{Digest, digest_of};
use sha2::{Digest as Hasher, Sha256};
use std::alloc::AllocError;

/// The digest of some bytes, and their count.
#[derive(Clone, Copy, PartialEq, Eq)]
pub struct Imprint {
    pub digest: Digest,
    pub bytes: u64,
}

/// The imprint of these bytes.
pub fn imprint_of(bytes: &[u8]) -> Imprint
    ensures { result ≡ imprint_of bytes.now }
{
    Imprint {
        digest: digest_of(bytes),
        bytes: bytes.len() as u64,
    }
}

/// An imprint that is taken of bytes in pieces, as they are written or read.
#[derive(Drop)]
pub struct Tally {
    hasher: Sha256,
    bytes: u64,
}

impl Tally {
    /// Of no bytes.
    pub fn new() -> Self
        ensures { HasTaken result [] }
    {
        Tally {
            hasher: Sha256::new(),
            bytes: 0,
        }
    }

    /// Takes these bytes behind those it has taken.
    pub fn take(&mut self, piece: &[u8])
        requires { (taken : List ℕ) × HasTaken self.old taken × (length taken + length piece.now < 2 ^ 64) }
        ensures { (taken : List ℕ) → HasTaken self.old taken → HasTaken self.new (taken ++ piece.now) }
    {
        self.hasher.update(piece);
        self.bytes += piece.len() as u64;
    }

    /// The imprint of the bytes that it has taken so far. It may take more.
    pub fn so_far(&self) -> Imprint
        ensures { (taken : List ℕ) → HasTaken self.now taken → result ≡ imprint_of taken }
    {
        let hasher: Result<Sha256, AllocError> = self.hasher.clone();
        Imprint {
            digest: Digest::of(hasher.unwrap().finalize()),
            bytes: self.bytes,
        }
    }

    /// The imprint of all bytes that it has taken.
    pub fn imprint(self) -> Imprint
        ensures { (taken : List ℕ) → HasTaken self taken → result ≡ imprint_of taken }
    {
        Imprint {
            digest: Digest::of(self.hasher.finalize()),
            bytes: self.bytes,
        }
    }
}
