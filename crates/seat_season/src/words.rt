//! The words of a command line that has a season: with the options that the season stands for, its journal where none is named, and
//! the sessions of its desks. It knows how these are written, and leaves what they mean to the command line's own reading.
ghost use Rattle.std.specs.Prelude.{◌≡◌, ◌≤◌, ◌+◌, ◌++◌, ◌∷◌, [], IfOk, OnOk, Some, codes, decimal, option_map, string_bytes, map};
ghost use Rattle.seat_season.specs.Folders.{path_in};
ghost use Rattle.seat_season.specs.Line.{texts};
ghost use Rattle.seat_season.specs.Season.{said};
ghost use Rattle.seat_season.specs.Words.{added_words, begun_words, date_word, digit_of, horizon_words, is_desk_or_place, journal_words, named_desk, named_file, renamed, run_words, seasoned, seasoned_line, serve_words, session_digit, two, word_of, words_texts};
ghost use Rattle.toml.specs.View.{items_view};

use crate::awaits::{Awaits, is_place, next};
use crate::desks::session_of;
use crate::line::{Line, line_of};
use crate::options::{has_option, has_place};
use crate::paths::path_of;
use crate::season::Season;
use itoa::Buffer;
use std::alloc::{AllocError, Global};
use toml::Value;
use toml_datetime::Date;

/// Words of a command line.
#[derive(Drop)]
pub struct Words {
    words: Vec<String>,
}

impl Words {
    /// The words, in order.
    pub fn texts(&self, alloc: Global) -> Result<Vec<&str>, AllocError>
        ensures { IfOk result (λ words. texts words.items ≡ words_texts self.now) }
    {
        texts_of(alloc, self.words.as_slice())
    }
}

fn texts_of(alloc: Global, words: &[String]) -> Result<Vec<&str>, AllocError>
    ensures { IfOk result (λ kept. texts kept.items ≡ map string_bytes words.now) }
{
    let mut kept = Vec::new(alloc);
    let mut rest = words;
    while let [word, more @ ..] = rest {
        let Ok(()) = keep(&mut kept, word.as_str()) else {
            return Err(AllocError);
        };
        rest = more;
    }
    Ok(kept)
}

#[tactic(auto, using(std::proofs::lemmas::List::map_push))]
fn keep<'a>(kept: &mut Vec<&'a str>, word: &'a str) -> Result<(), AllocError>
    ensures { OnOk result (texts kept.new.items ≡ texts kept.old.items ++ word.now ∷ []) }
{
    let Ok(()) = kept.push(word) else {
        return Err(AllocError);
    };
    Ok(())
}

/// Adds a copy of a word.
fn put(alloc: Global, words: &mut Words, word: &str) -> Result<(), AllocError>
    ensures { OnOk result (words_texts words.new ≡ words_texts words.old ++ word.now ∷ []) }
{
    let Ok(word) = String::from_str(alloc, word) else {
        return Err(AllocError);
    };
    put_own(words, word)
}

#[tactic(auto, using(std::proofs::lemmas::List::map_push))]
fn put_own(words: &mut Words, word: String) -> Result<(), AllocError>
    ensures { OnOk result (words_texts words.new ≡ words_texts words.old ++ string_bytes word ∷ []) }
{
    let Ok(()) = words.words.push(word) else {
        return Err(AllocError);
    };
    Ok(())
}

#[tactic(auto, using(crate::proofs::WordLaws::one_more))]
fn put_all(alloc: Global, words: &mut Words, more: &[&str]) -> Result<(), AllocError>
    ensures { OnOk result (words_texts words.new ≡ words_texts words.old ++ texts more.now) }
{
    let mut rest = more;
    while let [word, behind @ ..] = rest {
        let Ok(()) = put(alloc, words, word) else {
            return Err(AllocError);
        };
        rest = behind;
    }
    Ok(())
}

/// Where a season lies, and whether its journal is there and not empty.
#[derive(Clone, Copy)]
pub struct Around<'a> {
    /// The folder of the season file, where its name has one.
    pub folder: Option<&'a str>,
    pub has_lines: bool,
}

/// The words of a command line with what its season says.
pub fn seasoned_words(
    alloc: Global,
    words: &[&str],
    season: &Season<'_>,
    around: &Around<'_>,
) -> Result<Words, AllocError>
    ensures { IfOk result (λ with_season. words_texts with_season ≡ seasoned (said season.now)
        (option_map (λ f. f.now) around.now.folder) around.now.has_lines (texts words.now)) }
{
    let mut seasoned = Words {
        words: Vec::new(alloc),
    };
    put_seasoned(alloc, &mut seasoned, words, season, around)?;
    Ok(seasoned)
}

fn put_seasoned(
    alloc: Global,
    words: &mut Words,
    given: &[&str],
    season: &Season<'_>,
    around: &Around<'_>,
) -> Result<(), AllocError>
    ensures { OnOk result (words_texts words.new ≡ words_texts words.old ++ seasoned (said season.now)
        (option_map (λ f. f.now) around.now.folder) around.now.has_lines (texts given.now)) }
{
    match line_of(given) {
        Some(line) => put_line(alloc, words, &line, season, around),
        None => put_all(alloc, words, given),
    }
}

fn put_line(
    alloc: Global,
    words: &mut Words,
    line: &Line<'_, '_>,
    season: &Season<'_>,
    around: &Around<'_>,
) -> Result<(), AllocError>
    ensures { OnOk result (words_texts words.new ≡ words_texts words.old ++ seasoned_line (said season.now)
        (option_map (λ f. f.now) around.now.folder) around.now.has_lines
        (texts line.now.ahead.now, (line.now.command.now, texts line.now.behind.now))) }
{
    let Ok(()) = put_all(alloc, words, line.ahead) else {
        return Err(AllocError);
    };
    let Ok(()) = put(alloc, words, line.command) else {
        return Err(AllocError);
    };
    let Ok(()) = put_added(alloc, words, line, season, around) else {
        return Err(AllocError);
    };
    let Ok(()) = put_renamed(alloc, words, season.desks, line.behind) else {
        return Err(AllocError);
    };
    Ok(())
}

#[tactic(auto, using(crate::proofs::WordLaws::two_parts))]
fn put_added(
    alloc: Global,
    words: &mut Words,
    line: &Line<'_, '_>,
    season: &Season<'_>,
    around: &Around<'_>,
) -> Result<(), AllocError>
    ensures { OnOk result (words_texts words.new ≡ words_texts words.old ++ added_words (said season.now)
        (option_map (λ f. f.now) around.now.folder) around.now.has_lines line.now.command.now (texts line.now.behind.now)) }
{
    let Ok(()) = put_horizon(alloc, words, season, around.folder) else {
        return Err(AllocError);
    };
    put_own_journal(alloc, words, line, season, around)
}

/// The journal of the season, where it has one.
fn put_own_journal(
    alloc: Global,
    words: &mut Words,
    line: &Line<'_, '_>,
    season: &Season<'_>,
    around: &Around<'_>,
) -> Result<(), AllocError>
    ensures { OnOk result (words_texts words.new ≡ words_texts words.old
        ++ journal_words line.now.command.now (texts line.now.behind.now) around.now.has_lines
        (option_map (path_in (option_map (λ f. f.now) around.now.folder)) (said season.now).journal)) }
{
    let Some(journal) = season.journal else {
        return Ok(());
    };
    let Ok(journal) = path_of(alloc, around.folder, journal) else {
        return Err(AllocError);
    };
    put_journal(alloc, words, line, journal.as_str(), around.has_lines)
}

/// The four options that say over which flights and limits a command works.
fn put_horizon(
    alloc: Global,
    words: &mut Words,
    season: &Season<'_>,
    folder: Option<&str>,
) -> Result<(), AllocError>
    ensures { OnOk result (words_texts words.new
        ≡ words_texts words.old ++ horizon_words (option_map (λ f. f.now) folder.entry) (said season.now)) }
{
    let Ok(()) = put_path(alloc, words, "--set", folder, season.set) else {
        return Err(AllocError);
    };
    let Ok(()) = put_path(alloc, words, "--limits", folder, season.limits) else {
        return Err(AllocError);
    };
    let Ok(()) = put_first(alloc, words, season.first) else {
        return Err(AllocError);
    };
    let Ok(()) = put_days(alloc, words, season.days) else {
        return Err(AllocError);
    };
    Ok(())
}

/// An option, and the path that is its value.
fn put_path(
    alloc: Global,
    words: &mut Words,
    option: &str,
    folder: Option<&str>,
    name: &str,
) -> Result<(), AllocError>
    ensures { OnOk result (words_texts words.new ≡ words_texts words.old
        ++ option.now ∷ path_in (option_map (λ f. f.now) folder.entry) name.now ∷ []) }
{
    let Ok(path) = path_of(alloc, folder, name) else {
        return Err(AllocError);
    };
    let Ok(()) = put(alloc, words, option) else {
        return Err(AllocError);
    };
    put(alloc, words, path.as_str())
}

fn put_first(alloc: Global, words: &mut Words, first: Date) -> Result<(), AllocError>
    ensures { OnOk result (words_texts words.new ≡ words_texts words.old ++ codes "--first" ∷ date_word first ∷ []) }
{
    let Ok(day) = date_word(alloc, first) else {
        return Err(AllocError);
    };
    let Ok(()) = put(alloc, words, "--first") else {
        return Err(AllocError);
    };
    put(alloc, words, day.as_str())
}

fn put_days(alloc: Global, words: &mut Words, days: u16) -> Result<(), AllocError>
    ensures { OnOk result (words_texts words.new ≡ words_texts words.old ++ codes "--days" ∷ decimal days ∷ []) }
{
    let mut number = Buffer::new();
    let Ok(()) = put(alloc, words, "--days") else {
        return Err(AllocError);
    };
    put(alloc, words, number.format(days))
}

/// The journal, where the command goes on from one, writes one or asks one, and none is named.
fn put_journal(
    alloc: Global,
    words: &mut Words,
    line: &Line<'_, '_>,
    journal: &str,
    has_lines: bool,
) -> Result<(), AllocError>
    ensures { OnOk result (words_texts words.new ≡ words_texts words.old
        ++ journal_words line.now.command.now (texts line.now.behind.now) has_lines (Some journal.now)) }
{
    match line.command {
        "cover" => Ok(()),
        "run" => put_run(alloc, words, line.behind, journal, has_lines),
        "serve" => put_served(alloc, words, line.behind, journal),
        _ if has_place(line.behind) => Ok(()),
        _ => put(alloc, words, journal),
    }
}

fn put_served(
    alloc: Global,
    words: &mut Words,
    behind: &[&str],
    journal: &str,
) -> Result<(), AllocError>
    ensures { OnOk result (words_texts words.new ≡ words_texts words.old ++ serve_words (texts behind.now) journal.now) }
{
    if has_option("--journal", behind) {
        return Ok(());
    }
    let Ok(()) = put(alloc, words, "--journal") else {
        return Err(AllocError);
    };
    put(alloc, words, journal)
}

fn put_run(
    alloc: Global,
    words: &mut Words,
    behind: &[&str],
    journal: &str,
    has_lines: bool,
) -> Result<(), AllocError>
    ensures { OnOk result (words_texts words.new ≡ words_texts words.old ++ run_words (texts behind.now) has_lines journal.now) }
{
    if has_option("--journal", behind) {
        return Ok(());
    }
    let Ok(()) = put(alloc, words, "--journal") else {
        return Err(AllocError);
    };
    let Ok(()) = put(alloc, words, journal) else {
        return Err(AllocError);
    };
    put_begun(alloc, words, behind, journal, has_lines)
}

/// A run goes on from the journal, or begins it anew where it has nothing.
fn put_begun(
    alloc: Global,
    words: &mut Words,
    behind: &[&str],
    journal: &str,
    has_lines: bool,
) -> Result<(), AllocError>
    ensures { OnOk result (words_texts words.new ≡ words_texts words.old ++ begun_words (texts behind.now) has_lines journal.now) }
{
    if has_option("--after", behind) || has_option("--resume", behind) {
        return Ok(());
    }
    if has_lines {
        let Ok(()) = put(alloc, words, "--after") else {
            return Err(AllocError);
        };
        return put(alloc, words, journal);
    }
    if has_option("--no-clobber", behind) {
        return Ok(());
    }
    put(alloc, words, "--no-clobber")
}

/// The words behind a command, with the session of each desk that is named.
fn put_renamed(
    alloc: Global,
    words: &mut Words,
    desks: Option<&[Value]>,
    behind: &[&str],
) -> Result<(), AllocError>
    ensures { OnOk result (words_texts words.new ≡ words_texts words.old
        ++ renamed (option_map (λ names. items_view names.now) desks.entry) Awaits.Nothing (texts behind.now)) }
{
    let Some(names) = desks else {
        return put_all(alloc, words, behind);
    };
    let mut rest = behind;
    let mut awaits = Awaits::Nothing;
    while let [word, more @ ..] = rest {
        let Ok(()) = put_word(alloc, words, names, awaits, word) else {
            return Err(AllocError);
        };
        awaits = next(awaits, word);
        rest = more;
    }
    Ok(())
}

fn put_word(
    alloc: Global,
    words: &mut Words,
    names: &[Value],
    awaits: Awaits,
    word: &str,
) -> Result<(), AllocError>
    ensures { OnOk result (words_texts words.new ≡ words_texts words.old ++ word_of (items_view names.now) awaits word.now ∷ []) }
{
    if let Some((session, file)) = named_file(names, awaits, word) {
        let Ok(named) = joined(alloc, session, file) else {
            return Err(AllocError);
        };
        return put_own(words, named);
    }
    if let Some(session) = named_desk(names, awaits, word) {
        return put(alloc, words, session);
    }
    put(alloc, words, word)
}

/// A session's number, `=` and its file.
fn joined(alloc: Global, session: &str, file: &str) -> Result<String, AllocError>
    ensures { IfOk result (λ word. string_bytes word ≡ session.now ++ (codes "=" ++ file.now)) }
{
    let Ok(mut word) = String::from_str(alloc, session) else {
        return Err(AllocError);
    };
    let Ok(()) = word.push_str("=") else {
        return Err(AllocError);
    };
    let Ok(()) = word.push_str(file) else {
        return Err(AllocError);
    };
    Ok(word)
}

/// The session and the file of a word that is a desk's name, `=` and a file, where a script or a desk may stand.
#[tactic(auto, using(std::proofs::lemmas::Str::Pattern::split_once_first))]
fn named_file<'a>(names: &[Value], awaits: Awaits, word: &'a str) -> Option<(&'static str, &'a str)>
    ensures { option_map (λ named. (named.0.now, named.1.now)) result ≡ named_file (items_view names.now) awaits word.now }
{
    if !is_desk_or_place(awaits, word) {
        return None;
    }
    let Some((name, file)) = word.split_once('=') else {
        return None;
    };
    let Some(session) = digit_of(names, name) else {
        return None;
    };
    Some((session, file))
}

/// The session of a word that is a desk's name, where a desk may stand.
fn named_desk(names: &[Value], awaits: Awaits, word: &str) -> Option<&'static str>
    ensures { option_map (λ session. session.now) result ≡ named_desk (items_view names.now) awaits word.now }
{
    match awaits {
        Awaits::Desk => digit_of(names, word),
        _ => None,
    }
}

fn is_desk_or_place(awaits: Awaits, word: &str) -> bool
    ensures { result ≡ is_desk_or_place awaits word.now }
{
    match awaits {
        Awaits::Desk => true,
        _ => is_place(awaits, word),
    }
}

/// The digit of the session whose desk has this name.
fn digit_of(names: &[Value], name: &str) -> Option<&'static str>
    ensures { option_map (λ digit. digit.now) result ≡ digit_of (items_view names.now) name.now }
{
    session_digit(session_of(names, name)?)
}

fn session_digit(session: usize) -> Option<&'static str>
    ensures { option_map (λ d. d.now) result ≡ session_digit session }
{
    if 1 <= session && session <= 8 {
        Some(digit(session as u16))
    } else {
        None
    }
}

/// A date, as 2024-07-01.
#[tactic(auto, unfolding(crate::specs::Words::date_word))]
fn date_word(alloc: Global, date: Date) -> Result<String, AllocError>
    ensures { IfOk result (λ word. string_bytes word ≡ date_word date) }
{
    let mut word = String::new(alloc);
    let Ok(()) = put_two(&mut word, "", date.year / 100) else {
        return Err(AllocError);
    };
    let Ok(()) = put_two(&mut word, "", date.year % 100) else {
        return Err(AllocError);
    };
    let Ok(()) = put_two(&mut word, "-", u16::from(date.month)) else {
        return Err(AllocError);
    };
    let Ok(()) = put_two(&mut word, "-", u16::from(date.day)) else {
        return Err(AllocError);
    };
    Ok(word)
}

/// Adds the last two digits of a number, and what stands ahead of them.
fn put_two(word: &mut String, ahead: &str, number: u16) -> Result<(), AllocError>
    ensures { OnOk result (string_bytes word.new ≡ string_bytes word.old ++ (ahead.now ++ two number)) }
{
    let Ok(()) = word.push_str(ahead) else {
        return Err(AllocError);
    };
    let Ok(()) = word.push_str(digit(number / 10 % 10)) else {
        return Err(AllocError);
    };
    word.push_str(digit(number % 10))
}

fn digit(number: u16) -> &'static str
    requires { number ≤ 9 }
    ensures { result.now ≡ (48 + number) ∷ [] }
{
    match number {
        0 => "0",
        1 => "1",
        2 => "2",
        3 => "3",
        4 => "4",
        5 => "5",
        6 => "6",
        7 => "7",
        8 => "8",
        _ => "9",
    }
}
