//! The record at the front of the bytes.
ghost use Rattle.std.specs.Prelude.{◌≡◌, option_map};
ghost use Rattle.std.specs.Result.{result_map_both};
ghost use Rattle.ssim_records.specs.Cut.{end_at, cut_at};

use crate::set_fault::SetKind;
use airline_base::fields::are_printable;

fn after_end(bytes: &[u8]) -> Option<&[u8]>
    ensures { option_map (λ x. x.now) result ≡ end_at bytes.now }
{
    match bytes {
        [b'\n', rest @ ..] => Some(rest),
        [b'\r', b'\n', rest @ ..] => Some(rest),
        [b'\r', ..] => None,
        _ => Some(bytes),
    }
}

/// The record at the front, and what follows it and its end.
#[tactic(auto, unfolding(crate::specs::Cut::cut_at))]
pub fn cut(bytes: &[u8]) -> Result<(&[u8], &[u8]), SetKind>
    ensures { result_map_both (λ x. (x.0.now, x.1.now)) (λ e. e) result ≡ cut_at bytes.now }
{
    let Some((record, rest)) = bytes.split_at_checked(200) else {
        return Err(SetKind::Short);
    };
    if !are_printable(record) {
        return Err(SetKind::BadByte);
    }
    let Some(rest) = after_end(rest) else {
        return Err(SetKind::BadEnd);
    };
    Ok((record, rest))
}
