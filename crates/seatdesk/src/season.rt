//! The season that a command line names, or the two of `compare` and `carry`: its file, its folder, and whether its journal is there.
//! It knows nothing of what a season says, or of which words stand for it.
ghost use Rattle.std.specs.Prelude.{◌≤◌, IfOk, length};

use crate::undone::Undone;
use crate::{DIFFERS, done_by, misread, refused};
use progress_meter::Meter;
use seat_desk::{DeskFault, read_input};
use seat_files::{Refusal, opened};
use seat_season::{
    Around, MOST_SEASON_BYTES, Season, SeasonKind, TextFault, Words, beside_season, folder_of,
    path_of, season_named, season_of, season_table, seasoned_words,
};
use seat_words::{CarryJob, CompareJob, Horizon, Job, WordFault, read_words, words_in_conflict};
use std::alloc::{AllocError, Global};
use std::process::ExitCode;
use std::sync::Wait;
use std::thread::Threads;
use std::time::Clock;
use std::{fs, io};
use toml::Table;

/// The words of a command over a season, and over nothing else.
const OVER: [&str; 2] = ["seatdesk", "cover"];

/// The season file that the words name.
pub fn season_asked<'a>(words: &[&'a str]) -> Option<&'a str> {
    season_named(words)
}

/// Runs the command that the words name, with what their season says.
pub fn started<T: Threads + Wait + Clock + Sync + Copy + Send + 'static>(
    rt: &HostRuntime,
    threads: &T,
    words: &[&str],
    file: &str,
) -> io::Result<ExitCode> {
    if let Some(option) = beside_season(words) {
        return Ok(misread(rt, &in_conflict(rt, option)?));
    }
    let is_verbose = words
        .iter()
        .any(|word| *word == "-v" || *word == "--verbose");
    let seasoned = match words_over(rt, words, file, is_verbose)? {
        Ok(seasoned) => seasoned,
        Err(status) => return Ok(status),
    };
    let words = seasoned.texts(rt.alloc())?;
    done_by(rt, threads, words.as_slice())
}

/// The words with what a season says; or the status of one that is refused, which is told.
fn words_over(
    rt: &HostRuntime,
    words: &[&str],
    file: &str,
    is_verbose: bool,
) -> Result<Result<Words, ExitCode>, AllocError> {
    let table = match table_of(rt, file) {
        Ok(table) => table,
        Err(refusal) => return Ok(Err(refused(rt, is_verbose, &refusal))),
    };
    let season = match season_of(&table) {
        Ok(season) => season,
        Err(fault) => {
            let refusal = Refusal::of_season(file, fault.kind(), fault.key());
            return Ok(Err(refused(rt, is_verbose, &refusal)));
        }
    };
    let around = around_of(rt, &season, file)?;
    Ok(Ok(seasoned_words(rt.alloc(), words, &season, &around)?))
}

/// Runs `compare` over what two seasons say of a set, its limits and its days.
pub fn compared<T: Threads + Sync>(
    rt: &HostRuntime,
    threads: &T,
    meter: &Meter,
    asked: &CompareJob<'_>,
    is_verbose: bool,
) -> Result<ExitCode, Undone> {
    let (from, to) = match both_words(rt, asked.from, asked.to, is_verbose)? {
        Ok(words) => words,
        Err(status) => return Ok(status),
    };
    let from = from.texts(rt.alloc())?;
    let to = to.texts(rt.alloc())?;
    match compared_over(
        rt,
        threads,
        meter,
        from.as_slice(),
        to.as_slice(),
        asked.journal,
    ) {
        Ok(()) => Ok(ExitCode::SUCCESS),
        Err(undone) => over_both(rt, meter, is_verbose, undone),
    }
}

/// Runs `carry` over what two seasons say of a set, its limits and its days. Its status says too where legs have too few seats.
pub fn carried<'a, T: Threads + Sync>(
    rt: &'a HostRuntime,
    threads: &T,
    meter: &Meter,
    asked: &CarryJob<'a>,
    is_verbose: bool,
) -> Result<ExitCode, Undone> {
    let (from, to) = match both_words(rt, asked.from, asked.to, is_verbose)? {
        Ok(words) => words,
        Err(status) => return Ok(status),
    };
    let from = horizon_in(rt, staying(rt.alloc(), from)?)?;
    let to = horizon_in(rt, staying(rt.alloc(), to)?)?;
    match journal_commands::carry(rt, threads, meter, asked, &from, &to) {
        Ok(false) => Ok(ExitCode::SUCCESS),
        Ok(true) => Ok(ExitCode::from(DIFFERS)),
        Err(refusal) => Err(Undone::Refused(refusal)),
    }
}

/// The words of a season, which stay for as long as the program runs, as those of the command line do.
fn staying<'a>(alloc: Global, words: Words) -> Result<&'a [&'a str], AllocError> {
    let mut kept = Vec::new(alloc);
    kept.push(words)?;
    let kept: &'a [Words] = kept.leak();
    let texts: &'a [&'a str] = kept[0].texts(alloc)?.leak();
    Ok(texts)
}

/// What two seasons say of a set, its limits and its days.
fn both_words(
    rt: &HostRuntime,
    from: &str,
    to: &str,
    is_verbose: bool,
) -> Result<Result<(Words, Words), ExitCode>, AllocError> {
    let from = match words_over(rt, &OVER, from, is_verbose)? {
        Ok(words) => words,
        Err(status) => return Ok(Err(status)),
    };
    let to = match words_over(rt, &OVER, to, is_verbose)? {
        Ok(words) => words,
        Err(status) => return Ok(Err(status)),
    };
    Ok(Ok((from, to)))
}

/// The status of a command over two seasons that was not done, of which a refusal is told while what the seasons say is there.
fn over_both(
    rt: &HostRuntime,
    meter: &Meter,
    is_verbose: bool,
    undone: Undone,
) -> Result<ExitCode, Undone> {
    match undone {
        Undone::Word(error) => Err(Undone::Word(error)),
        Undone::Refused(refusal) => {
            meter.end(rt);
            Ok(refused(rt, is_verbose, &refusal))
        }
    }
}

fn compared_over<'a, T: Threads + Sync>(
    rt: &HostRuntime,
    threads: &T,
    meter: &Meter,
    from: &'a [&'a str],
    to: &'a [&'a str],
    journal: Option<&'a str>,
) -> Result<(), Undone> {
    let from = horizon_in(rt, from)?;
    let to = horizon_in(rt, to)?;
    question_commands::compare(rt, threads, meter, &from, &to, journal)?;
    Ok(())
}

/// Over what the words of a command work that has nothing else.
fn horizon_in<'a>(rt: &HostRuntime, words: &'a [&'a str]) -> Result<Horizon<'a>, Undone> {
    match read_words(rt.alloc(), words) {
        Ok(line) => horizon_of(&line.job),
        Err(error) => Err(Undone::Word(error)),
    }
}

fn horizon_of<'a>(job: &Job<'a>) -> Result<Horizon<'a>, Undone> {
    match job {
        Job::Cover(asked) => Ok(asked.over),
        _ => Err(Undone::Refused(Refusal::from(WordFault::BadWords))),
    }
}

/// The fault of an option that a season stands in the place of.
fn in_conflict(rt: &HostRuntime, option: &str) -> Result<clap::Error, AllocError> {
    let message = format!(in rt.alloc();
        "the argument '--season <SEASON>' cannot be used with '{option}'"
    )?;
    words_in_conflict(rt.alloc(), message.as_str())
}

fn table_of(rt: &HostRuntime, file: &str) -> Result<Table, Refusal> {
    let text = match season_bytes(rt, file) {
        Ok(text) => text,
        Err(refusal) => return Err(refusal),
    };
    match season_table(rt.alloc(), &text) {
        Ok(table) => Ok(table),
        Err(TextFault::Line(line)) => {
            Err(Refusal::of_season(file, SeasonKind::Form { line }, None))
        }
        Err(TextFault::Memory) => Err(Refusal::from(DeskFault::Memory)),
    }
}

/// The bytes of a season file.
fn season_bytes(rt: &HostRuntime, file: &str) -> Result<Vec<u8>, Refusal>
    ensures { IfOk result (λ text. length text.items ≤ 65536) }
{
    let mut input = match opened(rt, file) {
        Ok(input) => input,
        Err(refusal) => return Err(refusal),
    };
    match read_input(rt.alloc(), &mut input, MOST_SEASON_BYTES) {
        Ok(text) => Ok(text),
        Err(fault) => Err(Refusal::from(fault).noting_all(&[&input])),
    }
}

/// Where the season lies, and whether its journal is there and not empty. One that can't be looked at is left to the command.
fn around_of<'a>(
    rt: &HostRuntime,
    season: &Season<'_>,
    file: &'a str,
) -> Result<Around<'a>, AllocError> {
    let folder = folder_of(file);
    let has_lines = match season.journal {
        Some(journal) => {
            let path = path_of(rt.alloc(), folder, journal)?;
            is_begun(rt, path.as_str())
        }
        None => false,
    };
    Ok(Around { folder, has_lines })
}

fn is_begun(rt: &HostRuntime, path: &str) -> bool {
    match fs::metadata(rt, path) {
        Ok(file) => !file.is_file() || file.len() > 0,
        Err(error) => error.kind() != io::ErrorKind::NotFound,
    }
}
