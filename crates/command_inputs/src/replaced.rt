//! What the seal that a command wrote took the place of, told on standard error.
use crate::noting::{has_run, is_without_runs};
use seat_files::{SealFile, SealOut, Shown};
use seat_seal::{Digest, digest_of, read_seal};
use std::fmt;

/// Tells which seal stood there, where it had other bytes than the one that is written, and where its runs are known no more. Of one that
/// stays as it was nothing is told.
pub fn tell_replaced(rt: &HostRuntime, journal: &str, stood: &SealFile, written: &SealOut) {
    let Some(stood) = stood.as_beside().text else {
        return;
    };
    let Ok(Some(text)) = written.text() else {
        return;
    };
    if text.as_slice() == stood {
        return;
    }
    let file = Shown { name: journal };
    let digest = Hex {
        digest: digest_of(stood),
    };
    let _ = eprintln!(rt;
        "seatdesk: note: {file}.seal took the place of a seal of {} bytes, SHA-256 {digest}",
        stood.len()
    );
    if is_without_runs(&text) && had_run(stood) {
        let _ = eprintln!(rt;
            "seatdesk: note: {file}.seal knows no run any more, so scripts that were booked can be booked again"
        );
    }
}

/// Whether what stood there had a run, or may have had one: it is no seal of this version.
fn had_run(stood: &[u8]) -> bool {
    match read_seal(stood) {
        Some(seal) => has_run(&seal),
        None => true,
    }
}

/// A digest, in hex digits.
#[derive(Drop)]
struct Hex {
    digest: Digest,
}

impl fmt::Display for Hex {
    fn fmt<W: fmt::Write>(&self, f: &mut fmt::Formatter<W>) -> fmt::Result {
        let bytes = self.digest.bytes();
        for byte in bytes.as_slice() {
            write!(f, "{:02x}", *byte)?;
        }
        Ok(())
    }
}
