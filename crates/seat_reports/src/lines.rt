//! Lines that end with LF or the end of the bytes.
ghost use Rattle.std.specs.Prelude.{◌≡◌, ◌<◌, ◌∷◌, length};
ghost use Rattle.seat_reports.specs.Lines.{lines_of};

use airline_base::lines::line_end;

/// The first line, which ends at an LF alone (a CR ahead of it belongs to the line), and the bytes behind that LF.
#[tactic(auto, using(crate::proofs::Cuts::lines_cut, crate::proofs::Cuts::lines_last))]
pub fn cut_at_feed(bytes: &[u8]) -> (&[u8], &[u8])
    requires { 0 < length bytes.now }
    ensures line { lines_of bytes.now ≡ result.0.now ∷ lines_of result.1.now }
    ensures shorter { length result.1.now < length bytes.now }
{
    match line_end(bytes) {
        Some(at) => (&bytes[..at], &bytes[at + 1..]),
        None => (bytes, &[]),
    }
}
