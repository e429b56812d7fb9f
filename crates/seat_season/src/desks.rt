//! Names of desks, as a season has them: the nth is that of session n.
ghost use Rattle.std.specs.Prelude.{◌≡◌, false};
ghost use Rattle.std.specs.List.{list_all};
ghost use Rattle.std.specs.Option.{option_map_or};
ghost use Rattle.toml.specs.Data.{as_str};
ghost use Rattle.seat_season.specs.Desks.{are_apart, are_desks, are_names, is_among, is_desk, is_desk_name, is_named, is_of_name, place_from};
ghost use Rattle.toml.specs.View.{items_view, view};

use toml::Value;

/// As many sessions as there may be.
const MOST_DESKS: usize = 8;

/// Whether these are names of desks: at most eight, each empty or a letter with letters, digits, `-` and `_` behind it, and no two that
/// are one.
#[tactic(auto, using(crate::proofs::DeskLaws::as_many))]
pub(crate) fn are_desks(names: &[Value]) -> bool
    ensures { result ≡ are_desks (items_view names.now) }
{
    names.len() <= MOST_DESKS && are_names(names) && are_apart(names)
}

fn are_names(names: &[Value]) -> bool
    ensures { result ≡ are_names (items_view names.now) }
{
    let mut rest = names;
    while let [name, more @ ..] = rest {
        if !is_desk(name) {
            return false;
        }
        rest = more;
    }
    true
}

fn are_apart(names: &[Value]) -> bool
    ensures { result ≡ are_apart (items_view names.now) }
{
    let mut rest = names;
    while let [name, more @ ..] = rest {
        if is_again(name, more) {
            return false;
        }
        rest = more;
    }
    true
}

fn is_again(name: &Value, names: &[Value]) -> bool
    ensures { result ≡ option_map_or (λ name. is_among name (items_view names.now)) (as_str (view name.now)) false }
{
    match name.as_str() {
        Some(name) => is_among(name, names),
        None => false,
    }
}

fn is_among(name: &str, names: &[Value]) -> bool
    ensures { result ≡ is_among name.now (items_view names.now) }
{
    let mut rest = names;
    while let [other, more @ ..] = rest {
        if is_named(name, other) {
            return true;
        }
        rest = more;
    }
    false
}

fn is_desk(name: &Value) -> bool
    ensures { result ≡ is_desk (view name.now) }
{
    match name.as_str() {
        Some(name) => is_desk_name(name.as_bytes()),
        None => false,
    }
}

fn is_desk_name(name: &[u8]) -> bool
    ensures { result ≡ is_desk_name name.now }
{
    match name {
        [] => true,
        [letter, more @ ..] => letter.is_ascii_alphabetic() && are_of_name(more),
    }
}

fn are_of_name(bytes: &[u8]) -> bool
    ensures { result ≡ list_all is_of_name bytes.now }
{
    let mut rest = bytes;
    while let [byte, more @ ..] = rest {
        if !is_of_name(*byte) {
            return false;
        }
        rest = more;
    }
    true
}

fn is_of_name(byte: u8) -> bool
    ensures { result ≡ is_of_name byte }
{
    byte.is_ascii_alphanumeric() || byte == b'-' || byte == b'_'
}

/// Whether the value is this name, which is not empty.
fn is_named(name: &str, value: &Value) -> bool
    ensures { result ≡ is_named name.now (view value.now) }
{
    if name.is_empty() {
        return false;
    }
    match value.as_str() {
        Some(other) => other == name,
        None => false,
    }
}

/// The session of the desk with this name, from 1.
pub(crate) fn session_of(names: &[Value], name: &str) -> Option<usize>
    ensures { result ≡ place_from 1 name.now (items_view names.now) }
{
    let mut rest = names;
    let mut session = 1;
    while let [other, more @ ..] = rest {
        if is_named(name, other) {
            return Some(session);
        }
        session += 1;
        rest = more;
    }
    None
}
