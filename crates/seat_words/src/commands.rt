//! The commands, as clap reads them and as their help shows them.
ghost use Rattle.std.specs.Prelude.{◌≡◌, IfOk};
ghost use Rattle.clap.specs.Words.{App};
ghost use Rattle.seat_words.specs.CommandLine.{IsBuiltAs, app_as, app_named, bare_app, named_app, seatdesk_app, with_command, with_commands, with_switches};

mod arguments;
mod controllers;
mod journals;
mod partners;
mod questions;
mod routes;
mod sales;
mod schedules;

use super::naming::{NAMES, Name, Named};
use arguments::{Described, described_command, flag, lettered_flag, with_argument};
use clap::Command;
use controllers::{CHANGES, CHANGES_MORE};
use journals::{AUDIT, AUDIT_MORE, REPLIES, REPLIES_MORE, TOLD, TOLD_MORE, WHY, WHY_MORE};
use partners::{AVS, AVS_MORE, RECONCILE, RECONCILE_MORE};
use questions::{
    BOOKINGS, BOOKINGS_MORE, HISTORY, HISTORY_MORE, LOADS, LOADS_MORE, PICKUP, PICKUP_MORE, ROOMS,
    ROOMS_MORE, WAITING, WAITING_MORE,
};
use routes::{ROUTE, ROUTE_MORE};
use sales::{
    CARRY, CARRY_MORE, RECOVER, RECOVER_MORE, RUN, RUN_MORE, SEAL, SEAL_MORE, SERVE, SERVE_MORE,
};
use schedules::{
    CHECK, CHECK_MORE, COMPARE, COMPARE_MORE, COVER, COVER_MORE, EXPLAIN, EXPLAIN_MORE, FLIGHTS,
    FLIGHTS_MORE, LADDER, LADDER_MORE, SEASON, SEASON_MORE,
};
use std::alloc::{AllocError, Global};

const VERSION: &str = "1.0.0";

const LONG_VERSION: &str = "1.0.0\nproved by Rattle, logic dac8208d650f15bf";

const STATUSES: &str =
    "Example: seatdesk check examples/summer.ssim\nEach command tells more: seatdesk help run\n\nExit status:\n  0  All is done\n  1  An input is refused, the journal is full, or reconcile finds a difference\n  2  The command line is wrong\n  3  A device failed, a file did not open, or memory was refused\n\nA fault is one line on standard error; seatdesk explain says what its code means.";

const VERBOSE_HELP: &str =
    "Names the file of a fault, and where in it the fault stands, or the system's reason";

const QUIET_HELP: &str = "Never says on a terminal how far a long command is";

/// The whole command line.
pub(crate) fn seatdesk_command<'a>(alloc: Global) -> Result<Command<'a>, AllocError>
    ensures { IfOk result (IsBuiltAs seatdesk_app) }
{
    with_commands(alloc, bare_command(alloc), NAMES)
}

// The program with the commands of these names, one after the other, if it could be made.
fn with_commands<'a>(
    alloc: Global,
    program: Result<Command<'a>, AllocError>,
    names: &[Name],
) -> Result<Command<'a>, AllocError>
    ensures { (a : App) → IfOk program.entry (IsBuiltAs a) → IfOk result (IsBuiltAs (with_commands a names.now)) }
{
    let [name, more @ ..] = names else {
        return program;
    };
    let command = described_command(alloc, described_by(name.named), more_of(name.named));
    let program = with_command(alloc, program, command);
    with_commands(alloc, program, more)
}

fn described_by(command: Named) -> &'static Described
    ensures { app_as result.now ≡ app_named command }
{
    match command {
        Named::Ladder => LADDER,
        Named::Check => CHECK,
        Named::Flights => FLIGHTS,
        Named::Cover => COVER,
        Named::Rooms => ROOMS,
        Named::Loads => LOADS,
        Named::Run => RUN,
        Named::Serve => SERVE,
        Named::Route => ROUTE,
        Named::Bookings => BOOKINGS,
        Named::Waiting => WAITING,
        Named::Pickup => PICKUP,
        Named::History => HISTORY,
        Named::Avs => AVS,
        Named::Reconcile => RECONCILE,
        Named::Compare => COMPARE,
        Named::Carry => CARRY,
        Named::Changes => CHANGES,
        Named::Audit => AUDIT,
        Named::Seal => SEAL,
        Named::Recover => RECOVER,
        Named::Replies => REPLIES,
        Named::Told => TOLD,
        Named::Why => WHY,
        Named::Explain => EXPLAIN,
        Named::Season => SEASON,
    }
}

// What the command's help says behind its arguments.
fn more_of(command: Named) -> &'static str {
    match command {
        Named::Ladder => LADDER_MORE,
        Named::Check => CHECK_MORE,
        Named::Flights => FLIGHTS_MORE,
        Named::Cover => COVER_MORE,
        Named::Rooms => ROOMS_MORE,
        Named::Loads => LOADS_MORE,
        Named::Run => RUN_MORE,
        Named::Serve => SERVE_MORE,
        Named::Route => ROUTE_MORE,
        Named::Bookings => BOOKINGS_MORE,
        Named::Waiting => WAITING_MORE,
        Named::Pickup => PICKUP_MORE,
        Named::History => HISTORY_MORE,
        Named::Avs => AVS_MORE,
        Named::Reconcile => RECONCILE_MORE,
        Named::Compare => COMPARE_MORE,
        Named::Carry => CARRY_MORE,
        Named::Changes => CHANGES_MORE,
        Named::Audit => AUDIT_MORE,
        Named::Seal => SEAL_MORE,
        Named::Recover => RECOVER_MORE,
        Named::Replies => REPLIES_MORE,
        Named::Told => TOLD_MORE,
        Named::Why => WHY_MORE,
        Named::Explain => EXPLAIN_MORE,
        Named::Season => SEASON_MORE,
    }
}

// The program with one more command, which has the switches too, if both could be made.
fn with_command<'a>(
    alloc: Global,
    program: Result<Command<'a>, AllocError>,
    command: Result<Command<'a>, AllocError>,
) -> Result<Command<'a>, AllocError>
    ensures { (a sub : App) → IfOk program.entry (IsBuiltAs a) → IfOk command.entry (IsBuiltAs sub)
        → IfOk result (IsBuiltAs (with_command a sub)) }
{
    let Ok(program) = program else {
        drop(command);
        return Err(AllocError);
    };
    let Ok(command) = with_switches(alloc, command) else {
        drop(program);
        return Err(AllocError);
    };
    program.subcommand(command)
}

// The program before its commands. The switches stand ahead of a command, or behind it.
fn bare_command<'a>(alloc: Global) -> Result<Command<'a>, AllocError>
    ensures { IfOk result (IsBuiltAs bare_app) }
{
    with_switches(alloc, named_program(alloc))
}

// The program or a command with its switches, if it could be made.
fn with_switches<'a>(
    alloc: Global,
    command: Result<Command<'a>, AllocError>,
) -> Result<Command<'a>, AllocError>
    ensures { (a : App) → IfOk command.entry (IsBuiltAs a) → IfOk result (IsBuiltAs (with_switches a)) }
{
    let command = with_argument(command, lettered_flag(alloc, "verbose", 'v', VERBOSE_HELP));
    with_argument(command, flag(alloc, "quiet", QUIET_HELP))
}

#[tactic(auto, unfolding(crate::specs::CommandLine::named_app))]
fn named_program<'a>(alloc: Global) -> Result<Command<'a>, AllocError>
    ensures { IfOk result (IsBuiltAs named_app) }
{
    Command::new(alloc, "seatdesk")
        .version(VERSION)
        .long_version(LONG_VERSION)
        .about("The seat inventory of an airline's reservations host")
        .after_help(STATUSES)
        .subcommand_required(true)
        .bin_name("seatdesk")
}
