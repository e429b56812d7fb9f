//! The program `seatdesk`: it takes the words, calls the command and answers its status.
//! It knows the words and the statuses, and nothing of what the commands do.
#![tactic(auto)]

mod answers;
mod asked;
mod behind;
mod counted;
mod explain;
mod explanations;
mod faults;
mod meaning;
mod notes;
mod replies;
mod season;
mod told;
mod undone;
mod written;

use clap::error::ErrorKind;
use command_inputs::meter_of;
use progress_meter::{Meter, Stage};
use seat_desk::DeskFault;
use seat_files::Refusal;
use seat_season::lacks_horizon;
use seat_words::{
    AuditJob, CommandLine, Job, ReconcileJob, ServeJob, WordFault, read_words, words_in_conflict,
    wrong_value,
};
use std::alloc::{AllocError, Global};
use std::io;
use std::io::IsTerminal;
use std::process::ExitCode;
use std::sync::Wait;
use std::thread::Threads;
use std::time::Clock;
use undone::Undone;

/// What a host lacks whose words name nobody whom it serves.
const NOBODY: &str =
    "serve names nobody whom it serves: --desk - takes a desk on standard input, --desk N=IN:OUT and --manager IN:OUT take desks and a manager on pipes, --feed - takes one stream of lines for all";

/// What stands for what a command over a horizon lacks.
const SEASON: &str =
    "A season file stands in the place of --set, --limits, --first and --days: --season SEASON";

/// What stands behind `season` and names no file.
const NO_LIMITS: &str = "invalid value '' for '<LIMITS>': it names no file";

/// What says whose bookings a list is to have: one of two, and not both.
const WHOSE: &str =
    "reconcile lacks whose bookings the list is to have: --session N says those that this session made, --all all live ones";

const BOTH: &str = "the argument '--session <N>' cannot be used with '--all'";

/// The status of a command that was done, and found a difference.
pub const DIFFERS: u8 = 1;

fn main(rt: HostRuntime) -> ExitCode {
    match start(&rt, &rt) {
        Ok(status) => status,
        Err(error) => refused(&rt, false, &unread(&error)),
    }
}

/// Why the words are not read: one of them is not UTF-8, or a growth was refused.
fn unread(error: &io::Error) -> Refusal {
    if error.kind() == io::ErrorKind::InvalidData {
        Refusal::from(WordFault::BadWords)
    } else {
        Refusal::from(DeskFault::Memory)
    }
}

/// Runs the command that the words name, with threads where it has sessions. An error is one of the words themselves.
fn start<T: Threads + Wait + Clock + Sync + Copy + Send + 'static>(
    rt: &HostRuntime,
    threads: &T,
) -> io::Result<ExitCode> {
    let given: Vec<String> = std::env::args(rt)?.collect(rt.alloc())?;
    let mut words = Vec::new(rt.alloc());
    for word in &given {
        explain::add_word(&mut words, word.as_str())?;
    }
    match season::season_asked(words.as_slice()) {
        Some(file) => season::started(rt, threads, words.as_slice(), file),
        None => done_by(rt, threads, words.as_slice()),
    }
}

/// Runs the command that these words name, with what their season says among them where they name one.
pub fn done_by<'a, T: Threads + Wait + Clock + Sync + Copy + Send + 'static>(
    rt: &'a HostRuntime,
    threads: &T,
    words: &'a [&'a str],
) -> io::Result<ExitCode> {
    match read_words(rt.alloc(), words) {
        Ok(asked) => metered(rt, threads, &asked),
        Err(error) => {
            let status = misread(rt, &error);
            tell_of_season(rt, words, &error);
            Ok(status)
        }
    }
}

/// Does what the command line asks for, with a line that says how far it is, and tells why it was not done.
fn metered<'a, T: Threads + Wait + Clock + Sync + Copy + Send + 'static>(
    rt: &'a HostRuntime,
    threads: &T,
    asked: &CommandLine<'a>,
) -> io::Result<ExitCode> {
    let meter = staying(rt.alloc(), meter_for(rt, threads, asked))?;
    let outcome = carry_out(rt, threads, meter, asked);
    meter.end(rt);
    Ok(match outcome {
        Ok(status) => status,
        Err(Undone::Word(error)) => misread(rt, &error),
        Err(Undone::Refused(refusal)) => refused(rt, asked.is_verbose, &refusal),
    })
}

/// Says that a season may stand for what is lacking, where nothing of it is there.
fn tell_of_season(rt: &HostRuntime, words: &[&str], error: &clap::Error) {
    if error.kind() == ErrorKind::MissingRequiredArgument && lacks_horizon(words) {
        let _ = eprintln!(rt; "\n{SEASON}");
    }
}

/// Does what the command line asks for.
fn carry_out<'a, T: Threads + Wait + Clock + Sync + Copy + Send + 'static>(
    rt: &'a HostRuntime,
    threads: &T,
    meter: &Meter,
    asked: &CommandLine<'a>,
) -> Result<ExitCode, Undone> {
    match &asked.job {
        Job::Ladder => done(question_commands::ladder(rt)),
        Job::Check { set } => done(question_commands::check(rt, meter, set)),
        Job::Flights {
            set,
            first,
            days,
            shape,
        } => done(question_commands::flights(rt, meter, set, first, days, *shape)),
        Job::Cover(asked) => done(question_commands::cover(rt, threads, meter, asked)),
        Job::Rooms(asked) => done(question_commands::rooms(rt, threads, meter, asked)),
        Job::Loads(asked) => done(question_commands::loads(rt, threads, meter, asked)),
        Job::Run(asked) => done(journal_commands::run(rt, threads, meter, asked)),
        Job::Serve(asked) => served(rt, threads, asked),
        Job::Bookings(asked) => done(question_commands::bookings(rt, threads, meter, asked)),
        Job::Waiting(asked) => done(question_commands::waiting(rt, threads, meter, asked)),
        Job::Pickup(asked) => done(question_commands::pickup(rt, threads, meter, asked)),
        Job::History(asked) => done(question_commands::history(rt, threads, meter, asked)),
        Job::Avs(asked) => done(question_commands::avs(rt, threads, meter, asked)),
        Job::Reconcile(asked) => reconciled(rt, threads, meter, asked),
        Job::Changes(asked) => done(question_commands::changes(rt, threads, meter, asked)),
        Job::Compare(seasons) => season::compared(rt, threads, meter, seasons, asked.is_verbose),
        Job::Carry(seasons) => season::carried(rt, threads, meter, seasons, asked.is_verbose),
        Job::Route(asked) => done(question_commands::route(rt, meter, asked)),
        Job::Audit(asked) => done(audited(rt, threads, meter, asked)),
        Job::Seal { over, journal } => done(question_commands::seal(
            rt, threads, meter, over, journal,
        )),
        Job::Recover { over, cut, journal } => done(host_commands::recover(
            rt, over, *cut, journal,
        )),
        Job::Replies(asked) => done(question_commands::replies(rt, threads, meter, asked)),
        Job::Told(asked) => done(question_commands::told_of(rt, threads, meter, asked)),
        Job::Why {
            over,
            line,
            is_open,
            journal,
        } => done(question_commands::why(rt, threads, meter, over, line, *is_open, journal)),
        Job::Explain { code, numbers } => {
            explain::explain(rt, code, numbers.as_slice())?;
            Ok(ExitCode::SUCCESS)
        }
        Job::Season { set, limits } => seasoned(rt, set, limits),
    }
}

/// The meter of a command: none of one that is typed, or that stays open.
fn meter_for<T: Threads>(rt: &HostRuntime, threads: &T, asked: &CommandLine<'_>) -> Meter {
    match &asked.job {
        Job::Ladder
        | Job::Serve(_)
        | Job::Recover { .. }
        | Job::Route(_)
        | Job::Explain { .. }
        | Job::Season { .. } => Meter::none(),
        Job::Run(_) => meter_of(rt, threads, Stage::Booking, asked.is_quiet),
        _ => meter_of(rt, threads, Stage::Replaying, asked.is_quiet),
    }
}

/// A meter that stays for as long as the program runs, as the words do.
fn staying<'a>(alloc: Global, meter: Meter) -> Result<&'a Meter, AllocError> {
    let mut meters = Vec::new(alloc);
    meters.push(meter)?;
    let meters: &'a [Meter] = meters.leak();
    Ok(&meters[0])
}

fn done(outcome: Result<(), Refusal>) -> Result<ExitCode, Undone> {
    match outcome {
        Ok(()) => Ok(ExitCode::SUCCESS),
        Err(refusal) => Err(Undone::Refused(refusal)),
    }
}

/// A season file of a set and of limits that have a name.
fn seasoned(rt: &HostRuntime, set: &str, limits: &str) -> Result<ExitCode, Undone> {
    if limits.is_empty() {
        return Err(Undone::Word(wrong_value(rt.alloc(), NO_LIMITS)?));
    }
    done(question_commands::season(rt, set, limits))
}

/// A list against a journal, where the words say whose bookings it is to have.
fn reconciled<T: Threads + Sync>(
    rt: &HostRuntime,
    threads: &T,
    meter: &Meter,
    asked: &ReconcileJob<'_>,
) -> Result<ExitCode, Undone> {
    if asked.all && asked.session.is_some() {
        return Err(Undone::Word(words_in_conflict(rt.alloc(), BOTH)?));
    }
    if !asked.all && asked.session.is_none() {
        return Err(Undone::Word(wrong_value(rt.alloc(), WHOSE)?));
    }
    match question_commands::reconcile(rt, threads, meter, asked) {
        Ok(0) => Ok(ExitCode::SUCCESS),
        Ok(_) => Ok(ExitCode::from(DIFFERS)),
        Err(refusal) => Err(Undone::Refused(refusal)),
    }
}

/// A host, where its words say whom it serves.
fn served<'a, T: Threads + Wait + Clock + Copy + Send + 'static>(
    rt: &'a HostRuntime,
    threads: &T,
    asked: &ServeJob<'a>,
) -> Result<ExitCode, Undone> {
    if asked.desks.as_slice().is_empty() && asked.manager.is_none() && asked.feed.is_none() {
        return Err(Undone::Word(wrong_value(rt.alloc(), NOBODY)?));
    }
    done(host_commands::serve(rt, threads, asked))
}

/// The journals of hosts that have different flights, or one journal, with the scripts of its run or alone.
fn audited<T: Threads + Sync>(
    rt: &HostRuntime,
    threads: &T,
    meter: &Meter,
    asked: &AuditJob<'_>,
) -> Result<(), Refusal> {
    if asked.are_shards {
        return question_commands::audit_shards(rt, threads, meter, asked);
    }
    question_commands::audit(rt, threads, meter, asked)
}

/// The status of a command that was refused: its fault is one line on standard error, with one more where the words ask for it, or where
/// a run's journal is in its place and its replies are not out, and with what it means where standard error is a terminal; there it
/// is said too why a file may not be the journal's. Where the reader of standard output has gone away nothing is said.
pub fn refused(rt: &HostRuntime, is_verbose: bool, refusal: &Refusal) -> ExitCode {
    let fault = refusal.fault;
    if !refusal.is_unheard() {
        let behind = refusal.behind();
        let _ = eprintln!(rt; "seatdesk: {fault}{behind}");
        let is_shown = rt.stderr().is_terminal();
        if is_verbose || is_shown && refusal.is_barred() {
            refusal.tell_more(rt);
        }
        refusal.tell_put(rt);
        if is_shown {
            explain::tell(rt, &fault);
        }
    }
    ExitCode::from(fault.status())
}

/// The status of words that name no command. Help and version are clap's and no fault, unless standard output fails.
pub fn misread(rt: &HostRuntime, error: &clap::Error) -> ExitCode {
    if error.kind() == ErrorKind::OutOfMemory {
        return refused(rt, false, &Refusal::from(DeskFault::Memory));
    }
    let status = error.exit_code() as u8;
    match error.print(rt) {
        Err(reason) if status == 0 => refused(rt, false, &Refusal::unwritten(&reason)),
        _ => ExitCode::from(status),
    }
}
