//! The commands for partners: what they are to show as available, and where their lists differ.

use crate::commands::arguments::Argument::{Flag, Optional, WantedWord};
use crate::commands::arguments::{Described, FLIGHT_HELP, JOURNAL_HELP, OPEN_HELP};

const SINCE_HELP: &str = "An older JOURNAL (a file): only what changed behind its lines is written";

const NUMERIC_HELP: &str = "Writes the seats of a class that is open, up to 9";

const PARTNER_HELP: &str =
    "The thresholds of a partner (a file), each a class and its seats, as Q 4: where no more are left, the class is closed to it";

const SEGMENT_DAY_HELP: &str = "The segments that depart on this day alone, as 2024-06-01";

const SESSION_HELP: &str = "The session whose bookings THEIRS is to have, 0 to 8";

const ALL_HELP: &str = "THEIRS is to have all live bookings";

const THEIRS_HELP: &str = "The list of a partner or a desk, as bookings writes one (a file)";

pub(super) const AVS: &Described = &Described {
    name: "avs",
    about: "Writes what partners are to show as available: the status of each segment and class",
    over_horizon: true,
    arguments: &[
        Optional("since", "OLDER", SINCE_HELP),
        Flag("numeric", NUMERIC_HELP),
        Optional("partner", "FILE", PARTNER_HELP),
        Optional("flight", "FLIGHT", FLIGHT_HELP),
        Optional("day", "DATE", SEGMENT_DAY_HELP),
        Flag("open", OPEN_HELP),
        WantedWord("journal", "JOURNAL", JOURNAL_HELP),
    ],
};

pub(super) const AVS_MORE: &str =
    "Example: seatdesk avs --set examples/summer.ssim --limits examples/limits.txt --first 2024-07-01 --days 31 examples/journal.txt\n\nWhat a night changed: seatdesk avs --set examples/summer.ssim --limits examples/limits.txt --first 2024-07-01 --days 31 --since examples/journal.txt --numeric journal-2.txt";

pub(super) const RECONCILE: &Described = &Described {
    name: "reconcile",
    about: "Writes where the list of a partner or a desk differs from the bookings of a journal",
    over_horizon: true,
    arguments: &[
        Optional("session", "N", SESSION_HELP),
        Flag("all", ALL_HELP),
        Flag("open", OPEN_HELP),
        WantedWord("theirs", "THEIRS", THEIRS_HELP),
        WantedWord("journal", "JOURNAL", JOURNAL_HELP),
    ],
};

pub(super) const RECONCILE_MORE: &str =
    "One of --session and --all says whose bookings the list is to have. The status is 1 where anything differs.\n\nExample: seatdesk reconcile --set examples/summer.ssim --limits examples/limits.txt --first 2024-07-01 --days 31 --session 2 theirs.txt examples/journal.txt";
