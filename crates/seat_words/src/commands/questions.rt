//! The commands that ask what a journal comes to.

use crate::commands::arguments::Argument::{
    Flag, Optional, OptionalWord, Several, WantedWord, Words,
};
use crate::commands::arguments::{
    CSV_HELP, Described, FLIGHT_HELP, JOURNAL_HELP, JSON_HELP, OPEN_HELP,
};

const DAY_HELP: &str = "The places that depart on this day alone, as 2024-06-01";

const PAIR_HELP: &str = "The places between these two stations alone, as LHRJFK";

const BARS_HELP: &str = "Shows the seats held of each limit as a bar, behind each leg";

const HTML_HELP: &str =
    "Writes one page of HTML, which needs nothing else: flights down, days across, a section for each class";

const BY_HELP: &str = "What the loads are summed by: leg, flight, day, pair or class";

const PICKED_HELP: &str =
    "How many lines an older JOURNAL had, 0 to 999999; what stands behind them is picked up";

const SINCE_HELP: &str =
    "An older JOURNAL in place of --behind (a file): what stands behind its lines is picked up";

const PICKED_BY_HELP: &str = "What the rows are summed by: leg, flight, day, pair or class";

const LEG_DAY_HELP: &str = "The legs that depart on this day alone, as 2024-06-01";

const LEG_PAIR_HELP: &str = "The legs between these two stations alone, as LHRJFK";

const OPENING_LOADS_HELP: &str =
    "The journal to replay: a file that run wrote, or - for standard input; without it the loads before the first booking";

const SHARDS_HELP: &str =
    "Takes JOURNAL and the words behind it as journals of hosts that have different flights over this set, each as audit takes it";

const OTHER_HELP: &str = "With --shards the journals of the other hosts";

const OPENING_HELP: &str =
    "The journal to replay: a file that run wrote, or - for standard input; without it the rooms before the first booking";

const HISTORY_LOCATOR_HELP: &str = "The locator: six letters and digits, as W8Y3ZA";

const LOCATOR_HELP: &str =
    "The bookings of this locator alone: six letters and digits, as B3N6VC; more than once, those of any of these";

pub(super) const ROOMS: &Described = &Described {
    name: "rooms",
    about: "Writes the seats that are left on each place of a flight, by class",
    over_horizon: true,
    arguments: &[
        Optional("day", "DATE", DAY_HELP),
        Optional("pair", "PAIR", PAIR_HELP),
        Flag("bars", BARS_HELP),
        Flag("csv", CSV_HELP),
        Flag("json", JSON_HELP),
        Flag("open", OPEN_HELP),
        OptionalWord("journal", "JOURNAL", OPENING_HELP),
    ],
};

pub(super) const ROOMS_MORE: &str =
    "Example: seatdesk rooms --set examples/summer.ssim --limits examples/limits.txt --first 2024-07-01 --days 31 --day 2024-07-27 --pair LHRKEF examples/journal.txt";

pub(super) const LOADS: &Described = &Described {
    name: "loads",
    about: "Writes how full each dated leg is, by class, and what all of them come to",
    over_horizon: true,
    arguments: &[
        Optional("flight", "FLIGHT", FLIGHT_HELP),
        Optional("day", "DATE", LEG_DAY_HELP),
        Optional("pair", "PAIR", LEG_PAIR_HELP),
        Optional("by", "BY", BY_HELP),
        Flag("bars", BARS_HELP),
        Flag("csv", CSV_HELP),
        Flag("json", JSON_HELP),
        Flag("html", HTML_HELP),
        Flag("open", OPEN_HELP),
        Flag("shards", SHARDS_HELP),
        OptionalWord("journal", "JOURNAL", OPENING_LOADS_HELP),
        Words("others", "OTHER", OTHER_HELP),
    ],
};

pub(super) const LOADS_MORE: &str =
    "Example: seatdesk loads --set examples/summer.ssim --limits examples/limits.txt --first 2024-07-01 --days 31 --day 2024-07-27 examples/journal.txt\n\nOf several hosts: seatdesk loads --set examples/summer.ssim --limits examples/limits.txt --first 2024-07-01 --days 31 --shards examples/journal.txt journal-3.txt";

pub(super) const BOOKINGS: &Described = &Described {
    name: "bookings",
    about: "Writes live bookings, of locators or of a flight, in the codes of AIRIMP",
    over_horizon: true,
    arguments: &[
        Several("locator", "LOCATOR", LOCATOR_HELP),
        Optional("flight", "FLIGHT", FLIGHT_HELP),
        Optional("day", "DATE", DAY_HELP),
        Flag("csv", CSV_HELP),
        Flag("json", JSON_HELP),
        Flag("open", OPEN_HELP),
        WantedWord("journal", "JOURNAL", JOURNAL_HELP),
    ],
};

pub(super) const BOOKINGS_MORE: &str =
    "Example: seatdesk bookings --set examples/summer.ssim --limits examples/limits.txt --first 2024-07-01 --days 31 --locator B3N6VC examples/journal.txt";

pub(super) const WAITING: &Described = &Described {
    name: "waiting",
    about: "Writes who waits, in the order in which they would be confirmed, and the seats that they lack",
    over_horizon: true,
    arguments: &[
        Optional("flight", "FLIGHT", FLIGHT_HELP),
        Optional("day", "DATE", DAY_HELP),
        Flag("csv", CSV_HELP),
        Flag("json", JSON_HELP),
        Flag("open", OPEN_HELP),
        Flag("shards", SHARDS_HELP),
        WantedWord("journal", "JOURNAL", JOURNAL_HELP),
        Words("others", "OTHER", OTHER_HELP),
    ],
};

pub(super) const WAITING_MORE: &str =
    "Example: seatdesk waiting --set examples/summer.ssim --limits examples/limits.txt --first 2024-07-01 --days 31 --flight LZ601 --day 2024-07-27 examples/journal.txt\n\nOf several hosts: seatdesk waiting --set examples/summer.ssim --limits examples/limits.txt --first 2024-07-01 --days 31 --shards examples/journal.txt journal-3.txt";

pub(super) const PICKUP: &Described = &Described {
    name: "pickup",
    about: "Writes what was held, sold, cancelled and confirmed behind a line of a journal, by flight and class",
    over_horizon: true,
    arguments: &[
        Optional("behind", "N", PICKED_HELP),
        Optional("since", "OLDER", SINCE_HELP),
        Optional("flight", "FLIGHT", FLIGHT_HELP),
        Optional("by", "BY", PICKED_BY_HELP),
        Flag("csv", CSV_HELP),
        Flag("json", JSON_HELP),
        Flag("open", OPEN_HELP),
        WantedWord("journal", "JOURNAL", JOURNAL_HELP),
    ],
};

pub(super) const PICKUP_MORE: &str =
    "One of --behind and --since says what stands ahead.\n\nExample: seatdesk pickup --set examples/summer.ssim --limits examples/limits.txt --first 2024-07-01 --days 31 --behind 8 examples/journal.txt";

pub(super) const HISTORY: &Described = &Described {
    name: "history",
    about: "Writes what the lines of a journal did for a locator or on a flight, each with its reply",
    over_horizon: true,
    arguments: &[
        Optional("locator", "LOCATOR", HISTORY_LOCATOR_HELP),
        Optional("flight", "FLIGHT", FLIGHT_HELP),
        Optional("day", "DATE", DAY_HELP),
        Flag("csv", CSV_HELP),
        Flag("json", JSON_HELP),
        Flag("open", OPEN_HELP),
        WantedWord("journal", "JOURNAL", JOURNAL_HELP),
    ],
};

pub(super) const HISTORY_MORE: &str =
    "One of --locator and --flight says whose.\n\nExample: seatdesk history --set examples/summer.ssim --limits examples/limits.txt --first 2024-07-01 --days 31 --locator W8Y3ZA examples/journal.txt";
