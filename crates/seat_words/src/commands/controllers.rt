//! The command for controllers: which changes bring the limits to those that are wanted.

use crate::commands::arguments::Argument::{Flag, Optional, Wanted, WantedWord};
use crate::commands::arguments::{Described, FLIGHT_HELP, JOURNAL_HELP, OPEN_HELP};

const WANTED_HELP: &str = "The limits that are wanted, in rows as those of LIMITS (a file)";

const CHANGED_DAY_HELP: &str = "The legs that depart on this day alone, as 2024-06-01";

const CHANGED_PAIR_HELP: &str = "The legs between these two stations alone, as LHRJFK";

pub(super) const CHANGES: &Described = &Described {
    name: "changes",
    about: "Writes the changes that bring the limits after a journal to those that are wanted",
    over_horizon: true,
    arguments: &[
        Wanted("to", "WANTED", WANTED_HELP),
        Optional("flight", "FLIGHT", FLIGHT_HELP),
        Optional("day", "DATE", CHANGED_DAY_HELP),
        Optional("pair", "PAIR", CHANGED_PAIR_HELP),
        Flag("open", OPEN_HELP),
        WantedWord("journal", "JOURNAL", JOURNAL_HELP),
    ],
};

pub(super) const CHANGES_MORE: &str =
    "What it writes is a file for run --changes, in an order in which each change is accepted. No limit is cut below the seats that are\nheld: a line on standard error, SHORT, says where more are held than are wanted. What WANTED doesn't name stays as it is.\n\nExample: seatdesk changes --set examples/summer.ssim --limits examples/limits.txt --first 2024-07-01 --days 31 --to examples/wanted.txt examples/journal.txt";
