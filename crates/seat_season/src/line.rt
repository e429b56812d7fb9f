//! A command line, where it may have a season: the command, the words ahead of it and those behind it.
ghost use Rattle.std.specs.Prelude.{◌≡◌, ◌≤◌, length, option_map};
ghost use Rattle.std.specs.List.{prefix_len};
ghost use Rattle.seat_season.specs.Line.{beside_in, beside_season, is_over, lacks_horizon, line_in, season_named, texts};
ghost use Rattle.seat_season.specs.Options.{is_option};

use crate::awaits::{is_one_of, is_option};
use crate::options::{has_option, season_behind};

/// A command line at its command.
#[derive(Clone, Copy)]
pub(crate) struct Line<'a, 'b> {
    /// The words ahead of the command, the program's name among them.
    pub(crate) ahead: &'b [&'a str],
    pub(crate) command: &'a str,
    pub(crate) behind: &'b [&'a str],
}

/// The line at its command, which is the first word behind the program's name that is no option.
pub(crate) fn line_of<'a, 'b>(words: &'b [&'a str]) -> Option<Line<'a, 'b>>
    ensures { option_map (λ line. (texts line.ahead.now, (line.command.now, texts line.behind.now))) result
        ≡ line_in (texts words.now) }
{
    let [_, more @ ..] = words else {
        return None;
    };
    let place = 1 + options_ahead(more);
    if place >= words.len() {
        return None;
    }
    Some(Line {
        ahead: &words[..place],
        command: words[place],
        behind: &words[place + 1..],
    })
}

/// How many options stand first.
fn options_ahead(words: &[&str]) -> usize
    ensures count { result ≡ prefix_len is_option (texts words.now) }
    ensures within { result ≤ length words.now }
{
    let mut rest = words;
    let mut count = 0;
    while let [word, more @ ..] = rest {
        if !is_option(word) {
            return count;
        }
        count += 1;
        rest = more;
    }
    count
}

// The commands that work over a set, its limits and its days.
const OVER: [&str; 18] = [
    "cover",
    "rooms",
    "loads",
    "run",
    "serve",
    "bookings",
    "waiting",
    "pickup",
    "history",
    "avs",
    "reconcile",
    "changes",
    "audit",
    "seal",
    "recover",
    "replies",
    "told",
    "why",
];

/// Whether the command works over a set, its limits and its days, all of which a season has.
fn is_over(command: &str) -> bool
    ensures { result ≡ is_over command.now }
{
    is_one_of(command, &OVER)
}

/// The season file that the words of a command line name, the program's name first among them, where their command takes one.
pub fn season_named<'a>(words: &[&'a str]) -> Option<&'a str>
    ensures { option_map (λ season. season.now) result ≡ season_named (texts words.now) }
{
    let Some(line) = line_of(words) else {
        return None;
    };
    if is_over(line.command) {
        season_behind(line.behind)
    } else {
        None
    }
}

/// The first of the four options that may not stand beside a season, where one does.
pub fn beside_season(words: &[&str]) -> Option<&'static str>
    ensures { option_map (λ option. option.now) result ≡ beside_season (texts words.now) }
{
    let Some(line) = line_of(words) else {
        return None;
    };
    beside_in(line.behind)
}

/// Whether the command works over a set, its limits and its days, and the words name none of these and no season.
pub fn lacks_horizon(words: &[&str]) -> bool
    ensures { result ≡ lacks_horizon (texts words.now) }
{
    match line_of(words) {
        Some(line) => {
            is_over(line.command)
                && season_behind(line.behind).is_none()
                && beside_in(line.behind).is_none()
        }
        None => false,
    }
}

fn beside_in(behind: &[&str]) -> Option<&'static str>
    ensures { option_map (λ option. option.now) result ≡ beside_in (texts behind.now) }
{
    if has_option("--set", behind) {
        return Some("--set");
    }
    if has_option("--limits", behind) {
        return Some("--limits");
    }
    if has_option("--first", behind) {
        return Some("--first");
    }
    if has_option("--days", behind) {
        return Some("--days");
    }
    None
}
