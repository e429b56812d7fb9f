//! The lines of a booking message.
ghost use Rattle.std.specs.Prelude.{◌≡◌, option_map};
ghost use Rattle.std.specs.List.{list_all};
ghost use Rattle.airline_base.specs.Names.{is_name_byte};
ghost use Rattle.airimp_lines.specs.Messages.{address_at, heading_at, is_address, is_remark, is_service_line, is_name_line, is_passed_over};

use airline_base::Locator;
use airline_base::fields::{byte_of, locator_of};

/// The locator on the first line of a message.
#[tactic(auto, unfolding(crate::specs::Messages::heading_at))]
pub(crate) fn heading_of(text: &[u8]) -> Option<Locator>
    ensures { result ≡ heading_at text.now }
{
    let Some(rest) = after_address(text) else {
        return None;
    };
    let Some(rest) = byte_of(b' ', rest) else {
        return None;
    };
    let Some((locator, rest)) = locator_of(rest) else {
        return None;
    };
    if is_remark(rest) { Some(locator) } else { None }
}

/// Whether a line behind the first one asks for no seats.
pub(crate) fn is_passed_over(text: &[u8]) -> bool
    ensures { result ≡ is_passed_over text.now }
{
    is_service_line(text) || is_name_line(text)
}

fn after_address(bytes: &[u8]) -> Option<&[u8]>
    ensures { option_map (λ x. x.now) result ≡ address_at bytes.now }
{
    let Some((front, rest)) = bytes.split_at_checked(5) else {
        return None;
    };
    if is_address(front) { Some(rest) } else { None }
}

fn is_address(text: &[u8]) -> bool
    ensures { result ≡ is_address text.now }
{
    text.len() == 5 && are_name_bytes(text)
}

fn are_name_bytes(text: &[u8]) -> bool
    ensures { result ≡ list_all is_name_byte text.now }
{
    text.iter()
        .all(|c| c.is_ascii_uppercase() || c.is_ascii_digit())
}

fn is_remark(bytes: &[u8]) -> bool
    ensures { result ≡ is_remark bytes.now }
{
    match bytes {
        [] => true,
        [first, ..] => *first == b'/' || *first == b' ',
    }
}

#[tactic(auto, unfolding(crate::specs::Messages::is_service_line))]
fn is_service_line(text: &[u8]) -> bool
    ensures { result ≡ is_service_line text.now }
{
    text.starts_with(b"SSR") || text.starts_with(b"OSI")
}

#[tactic(auto, unfolding(crate::specs::Messages::is_name_line))]
fn is_name_line(text: &[u8]) -> bool
    ensures { result ≡ is_name_line text.now }
{
    match text {
        [] => false,
        [first] | [first, _] => first.is_ascii_digit(),
        [first, _, third, ..] => first.is_ascii_digit() && !third.is_ascii_digit(),
    }
}
