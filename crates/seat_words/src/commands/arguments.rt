//! What a command is made of: its name, its help, its options and its other words.
ghost use Rattle.std.specs.Prelude.{◌≡◌, IfOk, IsOkAnd};
ghost use Rattle.clap.specs.Words.{AddsArg, App, Text, new_app};
ghost use Rattle.seat_words.specs.CommandLine.{IsBuiltAs, IsReadAs, app_as, before_its_own, flag, lettered_flag, optional, optional_several, optional_value, optional_values, trailing_values, required_option, required_value, rule_as, with_arguments};

use clap::{Arg, ArgAction, Command};
use std::alloc::{AllocError, Global};

pub(super) const SET_HELP: &str = "The data set of the schedule (SSIM chapter 7, a file)";

pub(super) const FIRST_HELP: &str = "The first day of departure, as 2024-06-01, from 2000 to 2099";

pub(super) const DAYS_HELP: &str = "How many days from the first on, 1 to 366";

pub(super) const TODAY_HELP: &str =
    "The day of the run, as 2024-06-01, from 2000 to 2099; it gives the requests their year";

pub(super) const JOURNAL_HELP: &str =
    "The journal to replay: a file that run wrote, or - for standard input";

pub(super) const SCRIPTS_HELP: &str =
    "The scripts of the sessions, up to 8 files of AIRIMP messages; 3=FILE is that of session 3";

pub(super) const CSV_HELP: &str = "Writes the rows as CSV, below a line of the columns' names";

pub(super) const JSON_HELP: &str = "Writes the rows as JSON, an object a line";

pub(super) const OPEN_HELP: &str =
    "Takes a JOURNAL that is still open: its whole lines count, and it needs no END line";

pub(super) const FLIGHT_HELP: &str = "The flights of this name alone, on all their days, as LZ601";

pub(super) const FROM_SEASON_HELP: &str = "The season that holds (a season file)";

pub(super) const TO_SEASON_HELP: &str = "The season that is to come in its place (a season file)";

const LIMITS_HELP: &str = "The booking limits of the legs, in seats from 0 to 999 (a file)";

const SEASON_HELP: &str =
    "A season file in place of --set, --limits, --first and --days; it may name the journal and the desks too";

/// One argument of a command: what it is called, what its value is called where it has one, and its help.
pub(super) enum Argument {
    /// An option whose value must be there.
    Wanted(&'static str, &'static str, &'static str),
    /// An option whose value may be left out.
    Optional(&'static str, &'static str, &'static str),
    /// An option whose value may be left out, or given more than once.
    Several(&'static str, &'static str, &'static str),
    /// An option without a value.
    Flag(&'static str, &'static str),
    /// A value by its place, which must be there.
    WantedWord(&'static str, &'static str, &'static str),
    /// A value by its place, which may be left out.
    OptionalWord(&'static str, &'static str, &'static str),
    /// A value by its place, of which there may be none or more.
    Words(&'static str, &'static str, &'static str),
    /// The same, where all behind its first word are words of it.
    Rest(&'static str, &'static str, &'static str),
}

/// The arguments of a command over the limits of the dated flights.
const HORIZON: &[Argument] = &[
    Argument::Wanted("set", "SET", SET_HELP),
    Argument::Wanted("limits", "LIMITS", LIMITS_HELP),
    Argument::Wanted("first", "DATE", FIRST_HELP),
    Argument::Wanted("days", "N", DAYS_HELP),
    Argument::Optional("season", "SEASON", SEASON_HELP),
];

/// One command: its name, what its help says before its arguments, and these.
pub(super) struct Described {
    pub(super) name: &'static str,
    pub(super) about: &'static str,
    /// Whether it works over a horizon, and so has the arguments of one.
    pub(super) over_horizon: bool,
    /// Its own arguments, behind those.
    pub(super) arguments: &'static [Argument],
}

// The command that is so described, with what its help says behind its arguments, if it could be made.
pub(super) fn described_command<'a>(
    alloc: Global,
    described: &Described,
    more: &'a str,
) -> Result<Command<'a>, AllocError>
    ensures { IfOk result (IsBuiltAs (app_as described.now)) }
{
    let command = named_command(alloc, described.name, described.about, more);
    let command = with_arguments(
        alloc,
        Ok(command),
        horizon_arguments(described.over_horizon),
    );
    with_arguments(alloc, command, described.arguments)
}

// The arguments of a horizon for a command that works over one, and else none.
#[tactic(auto, unfolding(crate::specs::CommandLine::horizon_app))]
fn horizon_arguments(over_horizon: bool) -> &'static [Argument]
    ensures { (name : Text) → with_arguments (new_app name) result.now ≡ before_its_own over_horizon name }
{
    if over_horizon { HORIZON } else { &[] }
}

// The command with these arguments, one after the other, if it could be made.
fn with_arguments<'a>(
    alloc: Global,
    command: Result<Command<'a>, AllocError>,
    arguments: &[Argument],
) -> Result<Command<'a>, AllocError>
    ensures { (a : App) → IfOk command.entry (IsBuiltAs a) → IfOk result (IsBuiltAs (with_arguments a arguments.now)) }
{
    let [argument, more @ ..] = arguments else {
        return command;
    };
    let command = with_argument(command, argument_of(alloc, argument));
    with_arguments(alloc, command, more)
}

fn argument_of<'a>(alloc: Global, argument: &Argument) -> Arg<'a>
    ensures { IsReadAs (rule_as argument.now) result }
{
    match *argument {
        Argument::Wanted(id, value, help) => wanted_option(alloc, id, value, help),
        Argument::Optional(id, value, help) => optional_option(alloc, id, value, help),
        Argument::Several(id, value, help) => several_option(alloc, id, value, help),
        Argument::Flag(id, help) => flag(alloc, id, help),
        Argument::WantedWord(id, value, help) => wanted_value(alloc, id, value, help),
        Argument::OptionalWord(id, value, help) => optional_value(alloc, id, value, help),
        Argument::Words(id, value, help) => optional_values(alloc, id, value, help),
        Argument::Rest(id, value, help) => trailing_values(alloc, id, value, help),
    }
}

// A command with what its help says before and behind its arguments.
fn named_command<'a>(alloc: Global, name: &'a str, about: &'a str, more: &'a str) -> Command<'a>
    ensures { IsBuiltAs (new_app name.entry.now) result }
{
    Command::new(alloc, name).about(about).after_help(more)
}

// The command with one more argument, if it could be made.
pub(super) fn with_argument<'a>(
    command: Result<Command<'a>, AllocError>,
    argument: Arg<'a>,
) -> Result<Command<'a>, AllocError>
    ensures { IfOk result (λ new. IsOkAnd command.entry (λ old. AddsArg old argument.entry new)) }
{
    let Ok(command) = command else {
        drop(argument);
        return Err(AllocError);
    };
    command.arg(argument)
}

// A value by its place, which must be there.
fn wanted_value<'a>(alloc: Global, id: &'a str, value: &'a str, help: &'a str) -> Arg<'a>
    ensures { IsReadAs (required_value id.entry.now) result }
{
    Arg::new(alloc, id)
        .value_name(value)
        .required(true)
        .help(help)
}

// An option whose value must be there.
fn wanted_option<'a>(alloc: Global, id: &'a str, value: &'a str, help: &'a str) -> Arg<'a>
    ensures { IsReadAs (required_option id.entry.now) result }
{
    wanted_value(alloc, id, value, help).long(id)
}

// An option whose value may be left out.
fn optional_option<'a>(alloc: Global, id: &'a str, value: &'a str, help: &'a str) -> Arg<'a>
    ensures { IsReadAs (optional id.entry.now) result }
{
    Arg::new(alloc, id).value_name(value).help(help).long(id)
}

// An option whose value may be left out, or given more than once.
fn several_option<'a>(alloc: Global, id: &'a str, value: &'a str, help: &'a str) -> Arg<'a>
    ensures { IsReadAs (optional_several id.entry.now) result }
{
    optional_option(alloc, id, value, help).action(ArgAction::Append)
}

// A value by its place, which may be left out.
fn optional_value<'a>(alloc: Global, id: &'a str, value: &'a str, help: &'a str) -> Arg<'a>
    ensures { IsReadAs (optional_value id.entry.now) result }
{
    Arg::new(alloc, id).value_name(value).help(help)
}

// A value by its place, of which there may be none or more.
fn optional_values<'a>(alloc: Global, id: &'a str, value: &'a str, help: &'a str) -> Arg<'a>
    ensures { IsReadAs (optional_values id.entry.now) result }
{
    optional_value(alloc, id, value, help).action(ArgAction::Append)
}

// The same, where all behind its first word are words of it, as those of a note that has an option in it.
fn trailing_values<'a>(alloc: Global, id: &'a str, value: &'a str, help: &'a str) -> Arg<'a>
    ensures { IsReadAs (trailing_values id.entry.now) result }
{
    optional_values(alloc, id, value, help).trailing_var_arg(true)
}

// An option without a value.
pub(super) fn flag<'a>(alloc: Global, id: &'a str, help: &'a str) -> Arg<'a>
    ensures { IsReadAs (flag id.entry.now) result }
{
    Arg::new(alloc, id)
        .help(help)
        .long(id)
        .action(ArgAction::SetTrue)
}

// An option without a value, which has a letter too.
pub(super) fn lettered_flag<'a>(alloc: Global, id: &'a str, letter: char, help: &'a str) -> Arg<'a>
    ensures { IsReadAs (lettered_flag id.entry.now letter) result }
{
    flag(alloc, id, help).short(letter)
}
