//! What the command line asks for.
ghost use Rattle.std.specs.Prelude.{◌≡◌, [], IfOk, IfErr, IsSomeAnd, None, Some, codes, is_some, option_map, true, unwrap_or};
ghost use Rattle.clap.specs.Walk.{texts};
ghost use Rattle.clap.specs.Words.{FailsBy, all_of, fault_of, first_of, found_of, kind_of, matches_of, rows_of, subcommand_of, subcommand_rows_of, takes};
ghost use Rattle.clap.specs.declared.error.kind.ErrorKind.TheVariants.{ArgumentConflict, InvalidValue, OutOfMemory};
ghost use Rattle.seat_words.specs.CommandLine.{seatdesk_app};
ghost use Rattle.seat_words.specs.Jobs.{Asks, HasAny, IsOver, IsShaped, has_values, horizon_values, is_answerable, is_complete, is_flagged, is_quiet, is_switched, is_verbose, several_of, values_of, word_of};
ghost use Rattle.seat_words.specs.SeveralWords.{HasSeveral};
ghost use Rattle.seat_words.specs.declared.naming.Named.TheVariants as named;

use super::commands::seatdesk_command;
use super::naming::{Named, named_by};
use super::several::Several;
use super::work::{
    AuditJob, AvsJob, BookingsJob, CarryJob, ChangesJob, CompareJob, CoverJob, HistoryJob, Horizon,
    LoadsJob, PickupJob, ReconcileJob, RepliesJob, RoomsJob, RouteJob, RunJob, ServeJob, Shape,
    ToldJob, WaitingJob,
};
use clap::error::ErrorKind;
use clap::{ArgMatches, Error};
use std::alloc::{AllocError, Global};

/// One command of the program, with the values of its options as they were written.
#[derive(Drop)]
pub enum Job<'a> {
    /// `seatdesk ladder`
    Ladder,
    /// `seatdesk check SET`
    Check {
        set: &'a str,
    },
    /// `seatdesk flights --first DATE --days N [--csv] [--json] SET`
    Flights {
        set: &'a str,
        first: &'a str,
        days: &'a str,
        shape: Shape,
    },
    /// `seatdesk cover` over a horizon `[--csv] [--json]`
    Cover(CoverJob<'a>),
    /// `seatdesk rooms` over a horizon `[--day DATE] [--pair PAIR] [--bars] [--csv] [--json] [--open] [JOURNAL]`
    Rooms(RoomsJob<'a>),
    /// `seatdesk loads` over a horizon `[--flight FLIGHT] [--day DATE] [--pair PAIR] [--by BY] [--bars] [--csv] [--json] [--html]
    /// [--open] [--shards] [JOURNAL] [OTHER...]`
    Loads(LoadsJob<'a>),
    /// `seatdesk run` over a horizon `[--after JOURNAL] [--behind N] [--resume JOURNAL] --today DATE --journal OUT [--changes FILE]
    /// [--refused FILE] [--no-clobber] [--again] [SCRIPT...]`
    Run(RunJob<'a>),
    /// `seatdesk serve` over a horizon `[--today DATE] --journal JOURNAL [--desk DESK]... [--manager PIPES] [--status FILE]
    /// [--every SECONDS] [--feed FEED] [--behind N] [--close-departed]`
    Serve(ServeJob<'a>),
    /// `seatdesk route --shards N [--changes FILE] [SCRIPT...]`
    Route(RouteJob<'a>),
    /// `seatdesk bookings` over a horizon `[--locator LOCATOR]... [--flight FLIGHT] [--day DATE] [--csv] [--json] [--open] JOURNAL`
    Bookings(BookingsJob<'a>),
    /// `seatdesk waiting` over a horizon `[--flight FLIGHT] [--day DATE] [--csv] [--json] [--open] [--shards] JOURNAL [OTHER...]`
    Waiting(WaitingJob<'a>),
    /// `seatdesk pickup` over a horizon `[--behind N] [--since OLDER] [--flight FLIGHT] [--by BY] [--csv] [--json] [--open] JOURNAL`
    Pickup(PickupJob<'a>),
    /// `seatdesk history` over a horizon `[--locator LOCATOR] [--flight FLIGHT] [--day DATE] [--csv] [--json] [--open] JOURNAL`
    History(HistoryJob<'a>),
    /// `seatdesk avs` over a horizon `[--since OLDER] [--numeric] [--partner FILE] [--flight FLIGHT] [--day DATE] [--open] JOURNAL`
    Avs(AvsJob<'a>),
    /// `seatdesk reconcile` over a horizon `[--session N] [--all] [--open] THEIRS JOURNAL`
    Reconcile(ReconcileJob<'a>),
    /// `seatdesk compare --from SEASON --to SEASON [JOURNAL]`
    Compare(CompareJob<'a>),
    /// `seatdesk carry --from SEASON --to SEASON --today DATE --journal NEW [--protect FILE] [--order FILE] [--displace] [--fresh-limits]
    /// [--anew] [--shard H/M] [--dry-run] [--csv] [--json] JOURNAL [OTHER...]`
    Carry(CarryJob<'a>),
    /// `seatdesk changes` over a horizon `--to WANTED [--flight FLIGHT] [--day DATE] [--pair PAIR] [--open] JOURNAL`
    Changes(ChangesJob<'a>),
    /// `seatdesk audit` over a horizon `[--after JOURNAL] [--behind N] [--today DATE] [--refused FILE] [--sealed] [--open] [--shards]
    /// JOURNAL [SCRIPT...]`
    Audit(AuditJob<'a>),
    /// `seatdesk seal` over a horizon `JOURNAL`
    Seal {
        over: Horizon<'a>,
        journal: &'a str,
    },
    /// `seatdesk recover` over a horizon `[--cut] JOURNAL`
    Recover {
        over: Horizon<'a>,
        cut: bool,
        journal: &'a str,
    },
    /// `seatdesk replies` over a horizon `[--after JOURNAL] [--behind N] --today DATE [--refused FILE] [--session N] [--from LINE]
    /// [--csv] [--json] JOURNAL [SCRIPT...]`
    Replies(RepliesJob<'a>),
    /// `seatdesk told` over a horizon `--desk N [--from LINE] [--open] JOURNAL`
    Told(ToldJob<'a>),
    /// `seatdesk why` over a horizon `--line N [--open] JOURNAL`
    Why {
        over: Horizon<'a>,
        line: &'a str,
        is_open: bool,
        journal: &'a str,
    },
    /// `seatdesk explain CODE [NUMBER...]`
    Explain {
        code: &'a str,
        /// None or more.
        numbers: Several<'a>,
    },
    /// `seatdesk season SET LIMITS`
    Season {
        set: &'a str,
        limits: &'a str,
    },
}

/// A command line: the command that it names, and whether `-v` or `--verbose`, or `--quiet`, stands ahead of it or behind it.
#[derive(Drop)]
pub struct CommandLine<'a> {
    pub job: Job<'a>,
    pub is_verbose: bool,
    pub is_quiet: bool,
}

/// The command that the words name; the first word is the program's own name.
/// An error is clap's: its help, its version, a fault of the words, or want of memory.
pub fn read_words<'a>(alloc: Global, words: &'a [&'a str]) -> Result<CommandLine<'a>, Error>
    ensures asks { IfOk result (λ asked.
        IsSomeAnd (subcommand_of seatdesk_app (texts words.entry.now)) (Asks asked.job)) }
    ensures verbose { IfOk result (λ asked. is_verbose (matches_of seatdesk_app (texts words.entry.now))
        (subcommand_of seatdesk_app (texts words.entry.now)) ≡ asked.is_verbose) }
    ensures quiet { IfOk result (λ asked. is_quiet (matches_of seatdesk_app (texts words.entry.now))
        (subcommand_of seatdesk_app (texts words.entry.now)) ≡ asked.is_quiet) }
    ensures passes { IfErr result (λ e.
        takes seatdesk_app (texts words.entry.now) ≡ true → kind_of e ≡ OutOfMemory) }
    ensures kinds { FailsBy (fault_of seatdesk_app (texts words.entry.now)) result }
{
    match found_in(alloc, words) {
        Ok(matches) => {
            let line = line_of(alloc, &matches);
            drop(matches);
            line
        }
        Err(fault) => Err(fault),
    }
}

// What clap finds in the words: one of the commands, with each value that it asks for.
fn found_in<'a>(alloc: Global, words: &'a [&'a str]) -> Result<ArgMatches<'a>, Error>
    ensures matches { IfOk result (λ m.
        (matches_of seatdesk_app (texts words.entry.now) ≡ rows_of (found_of m))
        × (subcommand_of seatdesk_app (texts words.entry.now) ≡ subcommand_rows_of m)) }
    ensures answerable { IfOk result (λ m. is_answerable (subcommand_rows_of m) ≡ true) }
    ensures passes { IfErr result (λ e.
        takes seatdesk_app (texts words.entry.now) ≡ true → kind_of e ≡ OutOfMemory) }
    ensures kinds { FailsBy (fault_of seatdesk_app (texts words.entry.now)) result }
{
    let Ok(command) = seatdesk_command(alloc) else {
        return Err(Error::from(AllocError));
    };
    command.try_get_matches_from(words)
}

// The command line that clap found. An error is want of memory.
fn line_of<'a>(alloc: Global, matches: &ArgMatches<'a>) -> Result<CommandLine<'a>, Error>
    requires { is_answerable (subcommand_rows_of matches.now) ≡ true }
    ensures asks { IfOk result (λ asked. IsSomeAnd (subcommand_rows_of matches.now) (Asks asked.job)) }
    ensures verbose { IfOk result (λ asked.
        is_verbose (rows_of (found_of matches.now)) (subcommand_rows_of matches.now) ≡ asked.is_verbose) }
    ensures quiet { IfOk result (λ asked.
        is_quiet (rows_of (found_of matches.now)) (subcommand_rows_of matches.now) ≡ asked.is_quiet) }
    ensures memory { IfErr result (λ e. kind_of e ≡ OutOfMemory) }
{
    let Ok(job) = job_of(alloc, matches) else {
        return Err(Error::from(AllocError));
    };
    Ok(CommandLine {
        job,
        is_verbose: is_switched(matches, "verbose"),
        is_quiet: is_switched(matches, "quiet"),
    })
}

// Whether a switch stands ahead of the command or behind it.
fn is_switched(matches: &ArgMatches<'_>, id: &str) -> bool
    ensures { is_switched id.now (rows_of (found_of matches.now)) (subcommand_rows_of matches.now) ≡ result }
{
    match matches.subcommand() {
        Some((_, inner)) => flag_of(matches, id) || flag_of(inner, id),
        None => flag_of(matches, id),
    }
}

/// The fault of a word that is no value of its place, with the usage of the program. An error is want of memory.
pub fn wrong_value(alloc: Global, message: &str) -> Result<Error, AllocError>
    ensures { IfOk result (λ e. kind_of e ≡ InvalidValue) }
{
    fault_of_kind(alloc, ErrorKind::InvalidValue, message)
}

/// The fault of a word beside which another may not stand, with the usage of the program. An error is want of memory.
pub fn words_in_conflict(alloc: Global, message: &str) -> Result<Error, AllocError>
    ensures { IfOk result (λ e. kind_of e ≡ ArgumentConflict) }
{
    fault_of_kind(alloc, ErrorKind::ArgumentConflict, message)
}

fn fault_of_kind(alloc: Global, kind: ErrorKind, message: &str) -> Result<Error, AllocError>
    ensures { IfOk result (λ e. kind_of e ≡ kind) }
{
    let Ok(mut command) = seatdesk_command(alloc) else {
        return Err(AllocError);
    };
    let fault = command.error(kind, message);
    drop(command);
    fault
}

// The job of the command that was named. An error is want of memory.
#[tactic(auto, using(crate::proofs::Lines::nothing_found, crate::proofs::Lines::line_found, crate::proofs::Lines::asks_of_line))]
fn job_of<'a>(alloc: Global, matches: &ArgMatches<'a>) -> Result<Job<'a>, AllocError>
    requires { is_answerable (subcommand_rows_of matches.now) ≡ true }
    ensures { IfOk result (λ job. IsSomeAnd (subcommand_rows_of matches.now) (Asks job)) }
{
    let Some((name, inner)) = matches.subcommand() else {
        unreachable!()
    };
    let command = command_named(name, inner);
    let Ok(several) = several_of(alloc, command, inner) else {
        return Err(AllocError);
    };
    Ok(job_of_command(command, inner, several))
}

// The command of this name.
#[tactic(auto, using(crate::proofs::Lines::is_named))]
fn command_named(name: &str, matches: &ArgMatches<'_>) -> Named
    requires { is_complete (name.now, rows_of (found_of matches.now)) ≡ true }
    ensures word { word_of result ≡ name.now }
    ensures values { has_values (values_of result) (rows_of (found_of matches.now)) ≡ true }
{
    match named_by(name) {
        Some(command) => command,
        None => unreachable!(),
    }
}

// The job of a command, with the values that are there of it.
fn job_of_command<'a>(
    command: Named,
    matches: &ArgMatches<'a>,
    several: Option<Several<'a>>,
) -> Job<'a>
    requires values { has_values (values_of command) (rows_of (found_of matches.now)) ≡ true }
    requires several { HasSeveral (rows_of (found_of matches.now)) (several_of command) several }
    ensures { Asks result (word_of command, rows_of (found_of matches.now)) }
{
    match several {
        Some(several) => job_of_several(command, matches, several),
        None => job_of_single_values(command, matches),
    }
}

// The values of a command of which there may be more than one, if it may have some.
fn several_of<'a>(
    alloc: Global,
    command: Named,
    matches: &ArgMatches<'a>,
) -> Result<Option<Several<'a>>, AllocError>
    ensures { IfOk result (HasSeveral (rows_of (found_of matches.now)) (several_of command)) }
{
    let Some(id) = several_id(command) else {
        return Ok(None);
    };
    let Ok(several) = any_values_of(alloc, matches, id) else {
        return Err(AllocError);
    };
    Ok(Some(several))
}

// By which place or option a command may have several values, if it may.
fn several_id(command: Named) -> Option<&'static str>
    ensures { several_of command ≡ option_map (λ id. id.now) result }
{
    match command {
        Named::Loads | Named::Waiting | Named::Carry => Some("others"),
        Named::Run | Named::Route | Named::Audit | Named::Replies => Some("scripts"),
        Named::Serve => Some("desk"),
        Named::Bookings => Some("locator"),
        Named::Explain => Some("numbers"),
        _ => None,
    }
}

// The job of a command that has no several values.
fn job_of_single_values<'a>(command: Named, matches: &ArgMatches<'a>) -> Job<'a>
    requires values { has_values (values_of command) (rows_of (found_of matches.now)) ≡ true }
    requires single { HasSeveral (rows_of (found_of matches.now)) (several_of command) None }
    ensures { Asks result (word_of command, rows_of (found_of matches.now)) }
{
    match command {
        Named::Ladder => Job::Ladder,
        Named::Check => check_job(matches),
        Named::Flights => flights_job(matches),
        Named::Cover => cover_job(matches),
        Named::Rooms => rooms_job(matches),
        Named::Pickup => pickup_job(matches),
        Named::History => history_job(matches),
        Named::Avs => avs_job(matches),
        Named::Reconcile => reconcile_job(matches),
        Named::Compare => compare_job(matches),
        Named::Changes => changes_job(matches),
        Named::Seal => seal_job(matches),
        Named::Recover => recover_job(matches),
        Named::Told => told_job(matches),
        Named::Why => why_job(matches),
        Named::Season => season_job(matches),
        _ => unreachable!(),
    }
}

// The job of a command that may have several values, with these.
fn job_of_several<'a>(command: Named, matches: &ArgMatches<'a>, several: Several<'a>) -> Job<'a>
    requires values { has_values (values_of command) (rows_of (found_of matches.now)) ≡ true }
    requires several { HasSeveral (rows_of (found_of matches.now)) (several_of command) (Some several) }
    ensures { Asks result (word_of command, rows_of (found_of matches.now)) }
{
    match command {
        Named::Loads => loads_job(matches, several),
        Named::Run => run_job(matches, several),
        Named::Serve => serve_job(matches, several),
        Named::Route => route_job(matches, several),
        Named::Bookings => bookings_job(matches, several),
        Named::Waiting => waiting_job(matches, several),
        Named::Carry => carry_job(matches, several),
        Named::Audit => audit_job(matches, several),
        Named::Replies => replies_job(matches, several),
        Named::Explain => explain_job(matches, several),
        _ => unreachable!(),
    }
}

fn check_job<'a>(matches: &ArgMatches<'a>) -> Job<'a>
    requires { has_values (values_of named.Check) (rows_of (found_of matches.now)) ≡ true }
    ensures { Asks result (codes "check", rows_of (found_of matches.now)) }
{
    Job::Check {
        set: value_of(matches, "set"),
    }
}

fn flights_job<'a>(matches: &ArgMatches<'a>) -> Job<'a>
    requires { has_values (values_of named.Flights) (rows_of (found_of matches.now)) ≡ true }
    ensures { Asks result (codes "flights", rows_of (found_of matches.now)) }
{
    Job::Flights {
        set: value_of(matches, "set"),
        first: value_of(matches, "first"),
        days: value_of(matches, "days"),
        shape: shape_of(matches),
    }
}

fn seal_job<'a>(matches: &ArgMatches<'a>) -> Job<'a>
    requires { has_values (values_of named.Seal) (rows_of (found_of matches.now)) ≡ true }
    ensures { Asks result (codes "seal", rows_of (found_of matches.now)) }
{
    Job::Seal {
        over: horizon_of(matches),
        journal: value_of(matches, "journal"),
    }
}

fn recover_job<'a>(matches: &ArgMatches<'a>) -> Job<'a>
    requires { has_values (values_of named.Recover) (rows_of (found_of matches.now)) ≡ true }
    ensures { Asks result (codes "recover", rows_of (found_of matches.now)) }
{
    Job::Recover {
        over: horizon_of(matches),
        cut: flag_of(matches, "cut"),
        journal: value_of(matches, "journal"),
    }
}

fn why_job<'a>(matches: &ArgMatches<'a>) -> Job<'a>
    requires { has_values (values_of named.Why) (rows_of (found_of matches.now)) ≡ true }
    ensures { Asks result (codes "why", rows_of (found_of matches.now)) }
{
    Job::Why {
        over: horizon_of(matches),
        line: value_of(matches, "line"),
        is_open: flag_of(matches, "open"),
        journal: value_of(matches, "journal"),
    }
}

fn season_job<'a>(matches: &ArgMatches<'a>) -> Job<'a>
    requires { has_values (values_of named.Season) (rows_of (found_of matches.now)) ≡ true }
    ensures { Asks result (codes "season", rows_of (found_of matches.now)) }
{
    Job::Season {
        set: value_of(matches, "set"),
        limits: value_of(matches, "limits"),
    }
}

fn explain_job<'a>(matches: &ArgMatches<'a>, numbers: Several<'a>) -> Job<'a>
    requires values { has_values (values_of named.Explain) (rows_of (found_of matches.now)) ≡ true }
    requires several { HasAny (rows_of (found_of matches.now)) (codes "numbers") numbers }
    ensures { Asks result (codes "explain", rows_of (found_of matches.now)) }
{
    Job::Explain {
        code: value_of(matches, "code"),
        numbers,
    }
}

fn cover_job<'a>(matches: &ArgMatches<'a>) -> Job<'a>
    requires { has_values (values_of named.Cover) (rows_of (found_of matches.now)) ≡ true }
    ensures { Asks result (codes "cover", rows_of (found_of matches.now)) }
{
    Job::Cover(CoverJob {
        over: horizon_of(matches),
        shape: shape_of(matches),
    })
}

fn rooms_job<'a>(matches: &ArgMatches<'a>) -> Job<'a>
    requires { has_values (values_of named.Rooms) (rows_of (found_of matches.now)) ≡ true }
    ensures { Asks result (codes "rooms", rows_of (found_of matches.now)) }
{
    Job::Rooms(RoomsJob {
        over: horizon_of(matches),
        day: may_value_of(matches, "day"),
        pair: may_value_of(matches, "pair"),
        bars: flag_of(matches, "bars"),
        shape: shape_of(matches),
        is_open: flag_of(matches, "open"),
        journal: may_value_of(matches, "journal"),
    })
}

fn loads_job<'a>(matches: &ArgMatches<'a>, others: Several<'a>) -> Job<'a>
    requires values { has_values (values_of named.Loads) (rows_of (found_of matches.now)) ≡ true }
    requires several { HasAny (rows_of (found_of matches.now)) (codes "others") others }
    ensures { Asks result (codes "loads", rows_of (found_of matches.now)) }
{
    Job::Loads(LoadsJob {
        over: horizon_of(matches),
        flight: may_value_of(matches, "flight"),
        day: may_value_of(matches, "day"),
        pair: may_value_of(matches, "pair"),
        by: may_value_of(matches, "by"),
        bars: flag_of(matches, "bars"),
        shape: shape_of(matches),
        html: flag_of(matches, "html"),
        is_open: flag_of(matches, "open"),
        are_shards: flag_of(matches, "shards"),
        journal: may_value_of(matches, "journal"),
        others,
    })
}

fn run_job<'a>(matches: &ArgMatches<'a>, scripts: Several<'a>) -> Job<'a>
    requires values { has_values (values_of named.Run) (rows_of (found_of matches.now)) ≡ true }
    requires several { HasAny (rows_of (found_of matches.now)) (codes "scripts") scripts }
    ensures { Asks result (codes "run", rows_of (found_of matches.now)) }
{
    Job::Run(RunJob {
        over: horizon_of(matches),
        after: may_value_of(matches, "after"),
        behind: may_value_of(matches, "behind"),
        resume: may_value_of(matches, "resume"),
        today: value_of(matches, "today"),
        journal: value_of(matches, "journal"),
        changes: may_value_of(matches, "changes"),
        refused: may_value_of(matches, "refused"),
        no_clobber: flag_of(matches, "no-clobber"),
        again: flag_of(matches, "again"),
        scripts,
    })
}

fn serve_job<'a>(matches: &ArgMatches<'a>, desks: Several<'a>) -> Job<'a>
    requires values { has_values (values_of named.Serve) (rows_of (found_of matches.now)) ≡ true }
    requires several { HasAny (rows_of (found_of matches.now)) (codes "desk") desks }
    ensures { Asks result (codes "serve", rows_of (found_of matches.now)) }
{
    Job::Serve(ServeJob {
        over: horizon_of(matches),
        today: may_value_of(matches, "today"),
        journal: value_of(matches, "journal"),
        desks,
        manager: may_value_of(matches, "manager"),
        status: may_value_of(matches, "status"),
        every: may_value_of(matches, "every"),
        feed: may_value_of(matches, "feed"),
        behind: may_value_of(matches, "behind"),
        closes_departed: flag_of(matches, "close-departed"),
    })
}

fn route_job<'a>(matches: &ArgMatches<'a>, scripts: Several<'a>) -> Job<'a>
    requires values { has_values (values_of named.Route) (rows_of (found_of matches.now)) ≡ true }
    requires several { HasAny (rows_of (found_of matches.now)) (codes "scripts") scripts }
    ensures { Asks result (codes "route", rows_of (found_of matches.now)) }
{
    let changes = may_value_of(matches, "changes");
    Job::Route(RouteJob {
        shards: value_of(matches, "shards"),
        changes,
        scripts,
    })
}

fn bookings_job<'a>(matches: &ArgMatches<'a>, locators: Several<'a>) -> Job<'a>
    requires values { has_values (values_of named.Bookings) (rows_of (found_of matches.now)) ≡ true }
    requires several { HasAny (rows_of (found_of matches.now)) (codes "locator") locators }
    ensures { Asks result (codes "bookings", rows_of (found_of matches.now)) }
{
    Job::Bookings(BookingsJob {
        over: horizon_of(matches),
        locators,
        flight: may_value_of(matches, "flight"),
        day: may_value_of(matches, "day"),
        shape: shape_of(matches),
        is_open: flag_of(matches, "open"),
        journal: value_of(matches, "journal"),
    })
}

fn waiting_job<'a>(matches: &ArgMatches<'a>, others: Several<'a>) -> Job<'a>
    requires values { has_values (values_of named.Waiting) (rows_of (found_of matches.now)) ≡ true }
    requires several { HasAny (rows_of (found_of matches.now)) (codes "others") others }
    ensures { Asks result (codes "waiting", rows_of (found_of matches.now)) }
{
    Job::Waiting(WaitingJob {
        over: horizon_of(matches),
        flight: may_value_of(matches, "flight"),
        day: may_value_of(matches, "day"),
        shape: shape_of(matches),
        is_open: flag_of(matches, "open"),
        are_shards: flag_of(matches, "shards"),
        journal: value_of(matches, "journal"),
        others,
    })
}

fn pickup_job<'a>(matches: &ArgMatches<'a>) -> Job<'a>
    requires { has_values (values_of named.Pickup) (rows_of (found_of matches.now)) ≡ true }
    ensures { Asks result (codes "pickup", rows_of (found_of matches.now)) }
{
    Job::Pickup(PickupJob {
        over: horizon_of(matches),
        behind: may_value_of(matches, "behind"),
        since: may_value_of(matches, "since"),
        flight: may_value_of(matches, "flight"),
        by: may_value_of(matches, "by"),
        shape: shape_of(matches),
        is_open: flag_of(matches, "open"),
        journal: value_of(matches, "journal"),
    })
}

fn history_job<'a>(matches: &ArgMatches<'a>) -> Job<'a>
    requires { has_values (values_of named.History) (rows_of (found_of matches.now)) ≡ true }
    ensures { Asks result (codes "history", rows_of (found_of matches.now)) }
{
    Job::History(HistoryJob {
        over: horizon_of(matches),
        locator: may_value_of(matches, "locator"),
        flight: may_value_of(matches, "flight"),
        day: may_value_of(matches, "day"),
        shape: shape_of(matches),
        is_open: flag_of(matches, "open"),
        journal: value_of(matches, "journal"),
    })
}

fn avs_job<'a>(matches: &ArgMatches<'a>) -> Job<'a>
    requires { has_values (values_of named.Avs) (rows_of (found_of matches.now)) ≡ true }
    ensures { Asks result (codes "avs", rows_of (found_of matches.now)) }
{
    Job::Avs(AvsJob {
        horizon: horizon_of(matches),
        since: may_value_of(matches, "since"),
        numeric: flag_of(matches, "numeric"),
        partner: may_value_of(matches, "partner"),
        flight: may_value_of(matches, "flight"),
        day: may_value_of(matches, "day"),
        journal: value_of(matches, "journal"),
        is_open: flag_of(matches, "open"),
    })
}

fn reconcile_job<'a>(matches: &ArgMatches<'a>) -> Job<'a>
    requires { has_values (values_of named.Reconcile) (rows_of (found_of matches.now)) ≡ true }
    ensures { Asks result (codes "reconcile", rows_of (found_of matches.now)) }
{
    Job::Reconcile(ReconcileJob {
        horizon: horizon_of(matches),
        session: may_value_of(matches, "session"),
        all: flag_of(matches, "all"),
        theirs: value_of(matches, "theirs"),
        journal: value_of(matches, "journal"),
        is_open: flag_of(matches, "open"),
    })
}

fn compare_job<'a>(matches: &ArgMatches<'a>) -> Job<'a>
    requires { has_values (values_of named.Compare) (rows_of (found_of matches.now)) ≡ true }
    ensures { Asks result (codes "compare", rows_of (found_of matches.now)) }
{
    Job::Compare(CompareJob {
        from: value_of(matches, "from"),
        to: value_of(matches, "to"),
        journal: may_value_of(matches, "journal"),
    })
}

fn carry_job<'a>(matches: &ArgMatches<'a>, others: Several<'a>) -> Job<'a>
    requires values { has_values (values_of named.Carry) (rows_of (found_of matches.now)) ≡ true }
    requires several { HasAny (rows_of (found_of matches.now)) (codes "others") others }
    ensures { Asks result (codes "carry", rows_of (found_of matches.now)) }
{
    Job::Carry(CarryJob {
        from: value_of(matches, "from"),
        to: value_of(matches, "to"),
        today: value_of(matches, "today"),
        new: value_of(matches, "journal"),
        protections: may_value_of(matches, "protect"),
        order: may_value_of(matches, "order"),
        displaces: flag_of(matches, "displace"),
        fresh_limits: flag_of(matches, "fresh-limits"),
        anew: flag_of(matches, "anew"),
        shard: may_value_of(matches, "shard"),
        dry_run: flag_of(matches, "dry-run"),
        shape: shape_of(matches),
        journal: value_of(matches, "carried"),
        others,
    })
}

fn changes_job<'a>(matches: &ArgMatches<'a>) -> Job<'a>
    requires { has_values (values_of named.Changes) (rows_of (found_of matches.now)) ≡ true }
    ensures { Asks result (codes "changes", rows_of (found_of matches.now)) }
{
    Job::Changes(ChangesJob {
        over: horizon_of(matches),
        wanted: value_of(matches, "to"),
        flight: may_value_of(matches, "flight"),
        day: may_value_of(matches, "day"),
        pair: may_value_of(matches, "pair"),
        is_open: flag_of(matches, "open"),
        journal: value_of(matches, "journal"),
    })
}

fn audit_job<'a>(matches: &ArgMatches<'a>, scripts: Several<'a>) -> Job<'a>
    requires values { has_values (values_of named.Audit) (rows_of (found_of matches.now)) ≡ true }
    requires several { HasAny (rows_of (found_of matches.now)) (codes "scripts") scripts }
    ensures { Asks result (codes "audit", rows_of (found_of matches.now)) }
{
    Job::Audit(AuditJob {
        over: horizon_of(matches),
        after: may_value_of(matches, "after"),
        behind: may_value_of(matches, "behind"),
        today: may_value_of(matches, "today"),
        refused: may_value_of(matches, "refused"),
        sealed: flag_of(matches, "sealed"),
        is_open: flag_of(matches, "open"),
        are_shards: flag_of(matches, "shards"),
        journal: value_of(matches, "journal"),
        scripts,
    })
}

fn replies_job<'a>(matches: &ArgMatches<'a>, scripts: Several<'a>) -> Job<'a>
    requires values { has_values (values_of named.Replies) (rows_of (found_of matches.now)) ≡ true }
    requires several { HasAny (rows_of (found_of matches.now)) (codes "scripts") scripts }
    ensures { Asks result (codes "replies", rows_of (found_of matches.now)) }
{
    Job::Replies(RepliesJob {
        over: horizon_of(matches),
        after: may_value_of(matches, "after"),
        behind: may_value_of(matches, "behind"),
        today: value_of(matches, "today"),
        refused: may_value_of(matches, "refused"),
        session: may_value_of(matches, "session"),
        from: may_value_of(matches, "from"),
        shape: shape_of(matches),
        journal: value_of(matches, "journal"),
        scripts,
    })
}

fn told_job<'a>(matches: &ArgMatches<'a>) -> Job<'a>
    requires { has_values (values_of named.Told) (rows_of (found_of matches.now)) ≡ true }
    ensures { Asks result (codes "told", rows_of (found_of matches.now)) }
{
    Job::Told(ToldJob {
        over: horizon_of(matches),
        desk: value_of(matches, "desk"),
        from: may_value_of(matches, "from"),
        is_open: flag_of(matches, "open"),
        journal: value_of(matches, "journal"),
    })
}

fn shape_of(matches: &ArgMatches<'_>) -> Shape
    ensures { IsShaped (rows_of (found_of matches.now)) result }
{
    Shape {
        csv: flag_of(matches, "csv"),
        json: flag_of(matches, "json"),
    }
}

fn horizon_of<'a>(matches: &ArgMatches<'a>) -> Horizon<'a>
    requires { has_values horizon_values (rows_of (found_of matches.now)) ≡ true }
    ensures { IsOver (rows_of (found_of matches.now)) result }
{
    Horizon {
        set: value_of(matches, "set"),
        limits: value_of(matches, "limits"),
        first: value_of(matches, "first"),
        days: value_of(matches, "days"),
    }
}

#[tactic(auto, using(crate::proofs::Lines::some_text, crate::proofs::Lines::no_text))]
fn value_of<'a>(matches: &ArgMatches<'a>, id: &str) -> &'a str
    requires { is_some (first_of id.now (rows_of (found_of matches.now))) ≡ true }
    ensures { first_of id.now (rows_of (found_of matches.now)) ≡ Some result.now }
{
    match matches.get_str(id) {
        Some(text) => text,
        None => unreachable!(),
    }
}

#[tactic(auto, using(crate::proofs::Lines::may_text))]
fn may_value_of<'a>(matches: &ArgMatches<'a>, id: &str) -> Option<&'a str>
    ensures { first_of id.now (rows_of (found_of matches.now)) ≡ option_map (λ text. text.now) result }
{
    matches.get_str(id)
}

#[tactic(auto, using(crate::proofs::Lines::some_flag, crate::proofs::Lines::no_flag))]
fn flag_of(matches: &ArgMatches<'_>, id: &str) -> bool
    ensures { is_flagged id.now (rows_of (found_of matches.now)) ≡ result }
{
    match matches.get_str(id) {
        Some(text) => text == "true",
        None => false,
    }
}

#[tactic(auto, using(crate::proofs::Lines::any_texts, crate::proofs::Lines::none_of_texts))]
fn any_values_of<'a>(
    alloc: Global,
    matches: &ArgMatches<'a>,
    id: &str,
) -> Result<Several<'a>, AllocError>
    ensures { IfOk result (λ several. unwrap_or (all_of id.now (rows_of (found_of matches.now))) [] ≡ several) }
{
    match matches.get_strs(id) {
        Some(texts) => Several::of(alloc, texts),
        None => Several::of(alloc, &[]),
    }
}
