//! The commands that look at a journal's lines: whether they are right, and whom they tell of what.

use crate::commands::arguments::Argument::{Flag, Optional, Wanted, WantedWord, Words};
use crate::commands::arguments::{
    CSV_HELP, Described, JOURNAL_HELP, JSON_HELP, OPEN_HELP, SCRIPTS_HELP, TODAY_HELP,
};

const OLDER_HELP: &str =
    "The journal that JOURNAL goes on from (a file); the scripts ask for the lines behind its own";

const REPLIED_HELP: &str =
    "The journal that JOURNAL goes on from (a file); the replies are those to the lines behind its own";

const BEHIND_HELP: &str =
    "How many lines JOURNAL began with, 0 to 999999, in place of --after; the scripts ask for the lines behind them";

const SESSION_HELP: &str = "The replies to this session alone, 1 to 8, or 0 for the manager";

const FROM_HELP: &str = "The replies to the lines of JOURNAL from this number on";

const DESK_HELP: &str = "The desk, by its session, 1 to 8, or 0 for the manager";

const TOLD_HELP: &str = "What the desk is told of the lines of JOURNAL from this number on";

const REFUSED_HELP: &str =
    "The file that run --refused wrote: the scripts are read without the lines that it lists, which must be all that are wrong";

const SEALED_HELP: &str = "Refuses a JOURNAL without a seal beside it";

const ASKED_HELP: &str =
    "The scripts that the journal must be of, up to 8 files of AIRIMP messages, as run has them; they need --today";

const OPEN_AUDIT_HELP: &str =
    "Takes a JOURNAL that is still open: its whole lines count, and it needs no END line; for a JOURNAL alone, without scripts";

const SHARDS_HELP: &str =
    "Takes JOURNAL and the words behind it as journals of hosts that have different flights over this set, and sums them up";

const LINE_HELP: &str = "The line of the journal, counted from 1";

pub(super) const AUDIT: &Described = &Described {
    name: "audit",
    about: "Replays a journal against its schedule and limits, and writes one summary line",
    over_horizon: true,
    arguments: &[
        Optional("after", "JOURNAL", OLDER_HELP),
        Optional("behind", "N", BEHIND_HELP),
        Optional("today", "DATE", TODAY_HELP),
        Optional("refused", "FILE", REFUSED_HELP),
        Flag("sealed", SEALED_HELP),
        Flag("open", OPEN_AUDIT_HELP),
        Flag("shards", SHARDS_HELP),
        WantedWord("journal", "JOURNAL", JOURNAL_HELP),
        Words("scripts", "SCRIPT", ASKED_HELP),
    ],
};

pub(super) const AUDIT_MORE: &str =
    "A journal belongs to its set, limits, first day and days. With the scripts audit sees whether they are those: over\nanother first day its lines are not what the scripts ask (P8). Where JOURNAL.seal stands beside JOURNAL, it is compared; --shards looks at no seal.\n\nExample: seatdesk audit --set examples/summer.ssim --limits examples/limits.txt --first 2024-07-01 --days 31 examples/journal.txt\n\nAgainst its scripts: seatdesk audit --set examples/summer.ssim --limits examples/limits.txt --first 2024-07-01 --days 31 --today 2024-06-20 examples/journal.txt examples/london.txt examples/lisbon.txt\n\nThe day after: seatdesk audit --set examples/summer.ssim --limits examples/limits.txt --first 2024-07-01 --days 31 --after examples/journal.txt --today 2024-06-21 journal-2.txt examples/london-2.txt\n\nOf several hosts: seatdesk audit --set examples/summer.ssim --limits examples/limits.txt --first 2024-07-01 --days 31 --shards examples/journal.txt journal-3.txt";

pub(super) const REPLIES: &Described = &Described {
    name: "replies",
    about: "Writes the replies of a run once more, from its journal and its scripts",
    over_horizon: true,
    arguments: &[
        Optional("after", "JOURNAL", REPLIED_HELP),
        Optional("behind", "N", BEHIND_HELP),
        Wanted("today", "DATE", TODAY_HELP),
        Optional("refused", "FILE", REFUSED_HELP),
        Optional("session", "N", SESSION_HELP),
        Optional("from", "LINE", FROM_HELP),
        Flag("csv", CSV_HELP),
        Flag("json", JSON_HELP),
        WantedWord("journal", "JOURNAL", JOURNAL_HELP),
        Words("scripts", "SCRIPT", SCRIPTS_HELP),
    ],
};

pub(super) const REPLIES_MORE: &str =
    "It writes what run wrote to standard output, and refuses what audit refuses with the same words.\n\nExample: seatdesk replies --set examples/summer.ssim --limits examples/limits.txt --first 2024-07-01 --days 31 --today 2024-06-20 examples/journal.txt examples/london.txt examples/lisbon.txt";

pub(super) const TOLD: &Described = &Described {
    name: "told",
    about: "Writes what a desk is told of a journal: the replies to its lines, and the advices to its bookings",
    over_horizon: true,
    arguments: &[
        Wanted("desk", "N", DESK_HELP),
        Optional("from", "LINE", TOLD_HELP),
        Flag("open", OPEN_HELP),
        WantedWord("journal", "JOURNAL", JOURNAL_HELP),
    ],
};

pub(super) const TOLD_MORE: &str =
    "A desk is told of its own alone, each under its own session and the number of the line that is told of.\n\nExample: seatdesk told --set examples/summer.ssim --limits examples/limits.txt --first 2024-07-01 --days 31 --desk 2 examples/journal.txt";

pub(super) const WHY: &Described = &Described {
    name: "why",
    about: "Writes the reason of one reply of a journal: what the limits left, and the right answer",
    over_horizon: true,
    arguments: &[
        Wanted("line", "N", LINE_HELP),
        Flag("open", OPEN_HELP),
        WantedWord("journal", "JOURNAL", JOURNAL_HELP),
    ],
};

pub(super) const WHY_MORE: &str =
    "Only the lines before it need be right, so it explains the line that audit refuses.\n\nExample: seatdesk why --set examples/summer.ssim --limits examples/limits.txt --first 2024-07-01 --days 31 --line 6 examples/journal.txt";
