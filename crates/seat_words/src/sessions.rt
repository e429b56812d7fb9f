//! Words that name the scripts of sessions, as `lisbon.txt`, or `3=lisbon.txt` where a session keeps its number.
ghost use Rattle.std.specs.Prelude.{◌≡◌, ◌≤◌, IfSome, is_some, option_map, slice_get};
ghost use Rattle.std.specs.List.{AllByRecursion, list_all};
ghost use Rattle.std.specs.Option.{option_map_or};
ghost use Rattle.clap.specs.Walk.{texts};
ghost use Rattle.seat_words.specs.SessionWords.{IsServed, are_apart, audit_lacks, digit_value, file_of, have_numbers, highest_after, is_of, is_of_a_session, is_repeated, numbered, numbered_file, sessions_in, sessions_of_run};

use super::fault::WordFault;
use airline_base::fields::are_digits;

/// As many sessions as a run may have.
const MOST_SESSIONS: usize = 8;

/// How many sessions the words ask for: those from 1 to the number of words, or to the highest number among them. Each word's
/// file is that of one of these sessions.
#[tactic(auto, using(crate::proofs::Served::few_sessions, crate::proofs::Served::all_served))]
pub fn sessions_of(words: &[&str]) -> Option<usize>
    ensures value { result ≡ sessions_in (texts words.now) }
    ensures few { IfSome result (λ n. n ≤ 8) }
    ensures served { IfSome result (λ n. AllByRecursion (IsServed (texts words.now) n) (texts words.now)) }
{
    count_of(words)
}

fn count_of(words: &[&str]) -> Option<usize>
    ensures { result ≡ sessions_in (texts words.now) }
{
    if words.len() > MOST_SESSIONS {
        return None;
    }
    if !have_numbers(words) {
        return Some(words.len());
    }
    if !are_of_sessions(words) || !are_apart(words) {
        return None;
    }
    Some(highest(words) as usize)
}

/// The same for a run, which needs a script unless it has changes: session 1 then asks for nothing.
pub fn sessions_of_run(words: &[&str], has_changes: bool) -> Option<usize>
    ensures value { result ≡ sessions_of_run (texts words.now) has_changes }
    ensures count { IfSome result (λ n. (1 ≤ n) × (n ≤ 8)) }
{
    if !words.is_empty() {
        return sessions_of(words);
    }
    if has_changes { Some(1) } else { None }
}

/// What an audit lacks of its words, if anything: scripts need the day of the run, and that day, an older journal and a list of refused lines need scripts.
pub fn audit_lacks(has_scripts: bool, has_older: bool, has_day: bool) -> Option<WordFault>
    ensures { result ≡ audit_lacks has_scripts has_older has_day }
{
    if has_scripts && !has_day {
        return Some(WordFault::BadToday);
    }
    if !has_scripts && (has_older || has_day) {
        return Some(WordFault::BadScripts);
    }
    None
}

/// The file of a session's script, if the words name one.
pub fn session_file<'a>(words: &[&'a str], session: usize) -> Option<&'a str>
    ensures { option_map (λ file. file.now) result ≡ file_of (texts words.now) session }
{
    let place = session.checked_sub(1)?;
    if !have_numbers(words) {
        return placed_file(words, place);
    }
    numbered_file(words, session)
}

fn placed_file<'a>(words: &[&'a str], place: usize) -> Option<&'a str>
    ensures { option_map (λ file. file.now) result ≡ slice_get (texts words.now) place }
{
    match words.get(place) {
        Some(file) => Some(*file),
        None => None,
    }
}

fn have_numbers(words: &[&str]) -> bool
    ensures { result ≡ have_numbers (texts words.now) }
{
    let mut rest = words;
    while let [word, more @ ..] = rest {
        if numbered(word).is_some() {
            return true;
        }
        rest = more;
    }
    false
}

/// The file behind a session's number.
fn numbered_file<'a>(words: &[&'a str], session: usize) -> Option<&'a str>
    ensures { option_map (λ file. file.now) result ≡ numbered_file session (texts words.now) }
{
    let mut rest = words;
    while let [word, more @ ..] = rest {
        if let Some((number, file)) = numbered(word) {
            if number as usize == session {
                return Some(file);
            }
        }
        rest = more;
    }
    None
}

fn are_of_sessions(words: &[&str]) -> bool
    ensures { result ≡ list_all is_of_a_session (texts words.now) }
{
    let mut rest = words;
    while let [word, more @ ..] = rest {
        if !is_of_a_session(word) {
            return false;
        }
        rest = more;
    }
    true
}

fn are_apart(words: &[&str]) -> bool
    ensures { result ≡ are_apart (texts words.now) }
{
    let mut rest = words;
    while let [word, more @ ..] = rest {
        if is_repeated(word, more) {
            return false;
        }
        rest = more;
    }
    true
}

/// Whether one of these words has the number of that word.
fn is_repeated(word: &str, more: &[&str]) -> bool
    ensures { result ≡ is_repeated word.now (texts more.now) }
{
    let Some((number, _)) = numbered(word) else {
        return false;
    };
    let mut rest = more;
    while let [other, others @ ..] = rest {
        if is_of(other, number) {
            return true;
        }
        rest = others;
    }
    false
}

fn highest(words: &[&str]) -> u8
    ensures { result ≡ highest_after 0 (texts words.now) }
{
    let mut most = 0u8;
    let mut rest = words;
    while let [word, more @ ..] = rest {
        most = most.max(number_of(word));
        rest = more;
    }
    most
}

/// Whether a word begins with digits and `=`.
pub fn has_number(word: &str) -> bool
    ensures { result ≡ is_some (numbered word.now) }
{
    numbered(word).is_some()
}

/// The number of a word, 0 where it has none.
fn number_of(word: &str) -> u8
    ensures { result ≡ option_map_or (λ named. named.0) (numbered word.now) 0 }
{
    match numbered(word) {
        Some((number, _)) => number,
        None => 0,
    }
}

fn is_of(word: &str, session: u8) -> bool
    ensures { result ≡ is_of session word.now }
{
    match numbered(word) {
        Some((number, _)) => number == session,
        None => false,
    }
}

fn is_of_a_session(word: &str) -> bool
    ensures { result ≡ is_of_a_session word.now }
{
    match numbered(word) {
        Some((number, file)) => number >= 1 && number as usize <= MOST_SESSIONS && !file.is_empty(),
        None => false,
    }
}

/// The number and the file of a word that begins with digits and `=`. Several digits are no session's number.
#[tactic(auto, using(std::proofs::lemmas::Str::Pattern::split_once_first))]
fn numbered(word: &str) -> Option<(u8, &str)>
    ensures { option_map (λ named. (named.0, named.1.now)) result ≡ numbered word.now }
{
    let Some((digits, file)) = word.split_once('=') else {
        return None;
    };
    let digits = digits.as_bytes();
    if digits.is_empty() || !are_digits(digits) {
        return None;
    }
    Some((digit_value(digits), file))
}

/// The value of one digit, and 0 for several.
fn digit_value(digits: &[u8]) -> u8
    ensures { result ≡ digit_value digits.now }
{
    match digits {
        [digit] => digit.saturating_sub(b'0'),
        _ => 0,
    }
}
