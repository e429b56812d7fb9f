//! The lines of a text, one at a time.
ghost use Rattle.std.specs.Prelude.{◌≡◌, ℕ, ◌<◌, List, ◌∷◌, length, position};
ghost use Rattle.std.specs.Str.Lines.{lines, strip_carriage_return};
ghost use Rattle.airline_base.specs.Lines.{is_line_feed, line_at};

/// The first line without its end (LF, CR LF, or the end of the bytes), and what stands behind that end.
#[tactic(auto, unfolding(crate::specs::Lines::line_at))]
pub fn cut_line(bytes: &[u8]) -> (&[u8], &[u8])
    ensures value { ◌≡◌ {A = List ℕ × List ℕ} (result.0.now, result.1.now) (line_at bytes.now) }
    // Bytes that are not empty have these lines.
    ensures lines { 0 < length bytes.now → lines bytes.now ≡ result.0.now ∷ lines result.1.now }
    ensures shorter { 0 < length bytes.now → length result.1.now < length bytes.now }
{
    let Some(end) = line_end(bytes) else {
        return (bytes, &[]);
    };
    (without_return(&bytes[..end]), &bytes[end + 1..])
}

/// Where the first LF stands.
pub fn line_end(bytes: &[u8]) -> Option<usize>
    ensures { result ≡ position is_line_feed bytes.now }
{
    bytes.iter().position(|c| *c == b'\n')
}

fn without_return(line: &[u8]) -> &[u8]
    ensures { result.now ≡ strip_carriage_return line.now }
{
    match line {
        [front @ .., b'\r'] => front,
        _ => line,
    }
}
