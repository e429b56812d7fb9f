//! The names of several journals, as the words have them.
ghost use Rattle.std.specs.Prelude.{◌≡◌, map};
ghost use Rattle.journal_commands.specs.Names.{last_of, name_at};

/// The name at this place, counted from 1, of the first and the others; the last one behind their end.
#[tactic(auto, using(crate::proofs::Places::none_behind, crate::proofs::Places::here, crate::proofs::Places::later_at))]
pub(crate) fn name_at<'a>(first: &'a str, others: &[&'a str], place: u32) -> &'a str
    ensures { result.now ≡ name_at first.now (map (λ name. name.now) others.now) place }
{
    let Some((next, later)) = others.split_first() else {
        return first;
    };
    if place <= 1 {
        return first;
    }
    name_at(*next, later, place - 1)
}

/// The last name.
#[tactic(auto, using(crate::proofs::Places::none_last, crate::proofs::Places::later_last))]
pub(crate) fn last_of<'a>(first: &'a str, others: &[&'a str]) -> &'a str
    ensures { result.now ≡ last_of first.now (map (λ name. name.now) others.now) }
{
    let Some((next, later)) = others.split_first() else {
        return first;
    };
    last_of(*next, later)
}
