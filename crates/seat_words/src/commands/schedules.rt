//! The commands of a schedule, or of no file at all: what they are called, and what their help says.

use crate::commands::arguments::Argument::{Flag, OptionalWord, Rest, Wanted, WantedWord};
use crate::commands::arguments::{
    CSV_HELP, DAYS_HELP, Described, FIRST_HELP, FROM_SEASON_HELP, JSON_HELP, SET_HELP,
    TO_SEASON_HELP,
};

const SET_INPUT_HELP: &str =
    "The data set of the schedule (SSIM chapter 7, a file, or - for standard input)";

const COMPARED_HELP: &str =
    "The journal of the season of --from: a file that run wrote, or - for standard input";

const SEASON_LIMITS_HELP: &str =
    "The booking limits of the legs (a file, which is named and not read)";

const CODE_HELP: &str =
    "The code of a fault line, as Q2 of seatdesk: Q2 A5 1 2, the line itself, or US of a reply";

const NUMBERS_HELP: &str = "What stands behind it in the fault line";

pub(super) const LADDER: &Described = &Described {
    name: "ladder",
    about: "Sells the seats of one leg: its limits and requests from standard input",
    over_horizon: false,
    arguments: &[],
};

pub(super) const LADDER_MORE: &str = "Example: seatdesk ladder < examples/one-leg.txt";

pub(super) const CHECK: &Described = &Described {
    name: "check",
    about: "Reads a data set and writes one summary line",
    over_horizon: false,
    arguments: &[WantedWord("set", "SET", SET_INPUT_HELP)],
};

pub(super) const CHECK_MORE: &str = "Example: seatdesk check examples/summer.ssim";

pub(super) const FLIGHTS: &Described = &Described {
    name: "flights",
    about: "Writes one line for each dated flight",
    over_horizon: false,
    arguments: &[
        Wanted("first", "DATE", FIRST_HELP),
        Wanted("days", "N", DAYS_HELP),
        Flag("csv", CSV_HELP),
        Flag("json", JSON_HELP),
        WantedWord("set", "SET", SET_INPUT_HELP),
    ],
};

pub(super) const FLIGHTS_MORE: &str =
    "Example: seatdesk flights --first 2024-07-01 --days 31 examples/summer.ssim";

pub(super) const COVER: &Described = &Described {
    name: "cover",
    about: "Writes the limits that are for no leg, and the legs that have no limits",
    over_horizon: true,
    arguments: &[Flag("csv", CSV_HELP), Flag("json", JSON_HELP)],
};

pub(super) const COVER_MORE: &str =
    "Example: seatdesk cover --set examples/summer.ssim --limits examples/limits.txt --first 2024-07-01 --days 31";

pub(super) const COMPARE: &Described = &Described {
    name: "compare",
    about: "Writes what another season changes: flights added and gone, and other legs and limits",
    over_horizon: false,
    arguments: &[
        Wanted("from", "SEASON", FROM_SEASON_HELP),
        Wanted("to", "SEASON", TO_SEASON_HELP),
        OptionalWord("journal", "JOURNAL", COMPARED_HELP),
    ],
};

pub(super) const COMPARE_MORE: &str =
    "With JOURNAL each line has the seats that are held and that wait on the flight.\n\nExample: seatdesk compare --from examples/summer.toml --to examples/august.toml examples/journal.txt";

pub(super) const SEASON: &Described = &Described {
    name: "season",
    about: "Writes a season file of a set and its limits, with the set's own dates as a beginning",
    over_horizon: false,
    arguments: &[
        WantedWord("set", "SET", SET_HELP),
        WantedWord("limits", "LIMITS", SEASON_LIMITS_HELP),
    ],
};

pub(super) const SEASON_MORE: &str =
    "Save it in the folder in which the command is given: the names of files in it are relative to its own folder. Name it by --season\nin place of --set, --limits, --first and --days.\n\nExample: seatdesk season examples/summer.ssim examples/limits.txt";

pub(super) const EXPLAIN: &Described = &Described {
    name: "explain",
    about: "Says what a fault line means, or the code of a reply",
    over_horizon: false,
    arguments: &[
        WantedWord("code", "CODE", CODE_HELP),
        Rest("numbers", "NUMBER", NUMBERS_HELP),
    ],
};

pub(super) const EXPLAIN_MORE: &str =
    "Example: seatdesk explain Q2 A5 1 2\n\nAs it was printed: seatdesk explain seatdesk: Q2 A5 1 2";
