//! Words that name a desk's two pipes, as `london.in:london.out`.
ghost use Rattle.std.specs.Prelude.{◌≡◌, option_map};
ghost use Rattle.seat_words.specs.PipeWords.{pipes_in};

/// The pipe that is read and the one that is written: what stands ahead of the first colon, and what stands behind it.
#[tactic(auto, using(std::proofs::lemmas::Str::Pattern::split_once_first))]
pub fn pipes_of(word: &str) -> Option<(&str, &str)>
    ensures { option_map (λ pipes. (pipes.0.now, pipes.1.now)) result ≡ pipes_in word.now }
{
    let Some((input, out)) = word.split_once(':') else {
        return None;
    };
    if input.is_empty() || out.is_empty() {
        return None;
    }
    Some((input, out))
}
