//! The commands that write a journal or its seal.

use crate::commands::arguments::Argument::{Flag, Optional, Several, Wanted, WantedWord, Words};
use crate::commands::arguments::{
    CSV_HELP, Described, FROM_SEASON_HELP, JSON_HELP, SCRIPTS_HELP, TO_SEASON_HELP, TODAY_HELP,
};

const SERVED_DAY_HELP: &str =
    "The day of the host, as 2024-06-01, from 2000 to 2099, never earlier than before; it gives the requests their year, and may be left out beside a seal that has one";

const SERVED_HELP: &str =
    "The journal to go on from (a file, which is locked); it is made where it is not there";

const DESK_PLACE_HELP: &str =
    "Where a desk is: N=IN:OUT, its session and its two pipes, up to eight times, or - alone, for standard input and standard output as session 1";

const MANAGER_HELP: &str =
    "The two pipes of the manager, as IN:OUT, whom desks on pipes need; its lines change limits, and close and open classes";

const STATUS_HELP: &str =
    "The file that says how a host of desks on pipes, or of a feed, is doing: lines, groups, desks, seats sold. It is rewritten whole";

const FEED_HELP: &str =
    "Where one stream of lines for all desks comes from, in place of them: -, for standard input; it has its days in it, and what is told of it goes to standard output";

const FED_HELP: &str =
    "How many lines the journal had where the feed begins, 0 to 999999; 0 where nothing is said";

const CLOSE_DEPARTED_HELP: &str =
    "Closes each leg that departed before a day that the manager gives by ?DAY; without it nothing is closed but by the manager's rows";

const EVERY_HELP: &str = "How often that is said, 1 to 3600 seconds; 60 where nothing is said";

const OUT_HELP: &str =
    "The file that the journal is written to, which may be no input but the journal of --after or --resume";

const AFTER_HELP: &str =
    "The journal to go on from (a file that run wrote); its lines stand ahead of the new ones";

const BEGUN_HELP: &str =
    "How many lines the journal of --resume began with, 0 to 999999, in place of --after";

const RESUME_HELP: &str =
    "The journal that has what the scripts begin with (a file); what they ask beyond it is booked behind its lines";

const LEFT_JOURNAL_HELP: &str = "The journal that was left open: a regular file, which is locked";

const CUT_HELP: &str = "Cuts damage too: a whole line that is not right, and what stands behind it";

const SEALED_JOURNAL_HELP: &str = "The journal to seal: a file that run wrote";

const CHANGES_HELP: &str =
    "Changes of limits, and classes to be closed and opened, by rows AU, CLOSE and OPEN, made beside the sessions (a file); without it no limit changes and no class is closed";

const REFUSED_HELP: &str =
    "Passes over each wrong line of the scripts and lists it in this file, by its code, session and line; without it a wrong line refuses the run";

const NO_CLOBBER_HELP: &str = "Refuses an OUT that is there and is not empty";

const AGAIN_HELP: &str =
    "Books scripts once more that a run of the journal has booked, as its seal says";

const CARRIED_DAY_HELP: &str =
    "The day of the carry, as 2024-06-01, from 2000 to 2099; a booking that departed before it is not carried";

const NEW_HELP: &str =
    "The journal of the season of --to, which is made (a file); it may be no JOURNAL";

const PROTECT_HELP: &str =
    "Rows that say to which flights the bookings of others go, as LZ601 27JUL24 LHRKEF LZ603 28JUL24 Q=M (a file)";

const ORDER_HELP: &str =
    "Locators that keep their seats first, one a line (a file); the others follow by their numbers";

const DISPLACE_HELP: &str =
    "Where a leg has too few seats the bookings of the highest numbers lose theirs, those of --order last, and wait where they may; without it no file is written then";

const FRESH_LIMITS_HELP: &str =
    "The limits are those of the season of --to, without what changes and closings of JOURNAL set";

const ANEW_HELP: &str =
    "Takes the place of a carry of JOURNAL that did not end, and had another result";

const SHARD_HELP: &str =
    "Makes NEW the journal of shard H of M hosts with different flights, by the hash of route; NEW ends in .H then, and the same is sent for each H of 1 to M";

const DRY_RUN_HELP: &str = "Writes the report alone: neither NEW nor the seal of JOURNAL";

const CARRIED_HELP: &str =
    "The journal of the season of --from, whose live bookings are carried: a file that run or serve wrote, which is locked";

const OTHERS_CARRIED_HELP: &str =
    "Journals of other hosts over that season, whose live bookings are carried behind those of JOURNAL: no two journals may have a line of one flight";

pub(super) const RUN: &Described = &Described {
    name: "run",
    about: "Books the requests of scripts, one session on a thread for each script, and writes the replies",
    over_horizon: true,
    arguments: &[
        Optional("after", "JOURNAL", AFTER_HELP),
        Optional("behind", "N", BEGUN_HELP),
        Optional("resume", "JOURNAL", RESUME_HELP),
        Wanted("today", "DATE", TODAY_HELP),
        Wanted("journal", "OUT", OUT_HELP),
        Optional("changes", "FILE", CHANGES_HELP),
        Optional("refused", "FILE", REFUSED_HELP),
        Flag("no-clobber", NO_CLOBBER_HELP),
        Flag("again", AGAIN_HELP),
        Words("scripts", "SCRIPT", SCRIPTS_HELP),
    ],
};

pub(super) const RUN_MORE: &str =
    "OUT has its old bytes until the new journal is whole and takes its name; a refused run leaves it as it was.\nWhat it had is kept beside it, as OUT.kept-1, unless --after or --resume names OUT itself, as the daily command does.\nThe journal of --after belongs to its set, limits, first day and days: name the same ones.\n\nExample: seatdesk run --set examples/summer.ssim --limits examples/limits.txt --first 2024-07-01 --days 31 --today 2024-06-20 --journal journal.txt examples/london.txt examples/lisbon.txt\n\nWith changes of the limits: seatdesk run --set examples/summer.ssim --limits examples/limits.txt --first 2024-07-01 --days 31 --today 2024-06-20 --journal journal.txt --changes examples/changes.txt examples/london.txt examples/lisbon.txt\n\nChanges alone: seatdesk run --set examples/summer.ssim --limits examples/limits.txt --first 2024-07-01 --days 31 --today 2024-06-20 --journal journal.txt --changes examples/changes.txt\n\nDesks that keep their numbers, as sessions 1 and 3: seatdesk run --set examples/summer.ssim --limits examples/limits.txt --first 2024-07-01 --days 31 --today 2024-06-20 --journal journal.txt 1=examples/london.txt 3=examples/lisbon.txt\n\nThe day after: seatdesk run --set examples/summer.ssim --limits examples/limits.txt --first 2024-07-01 --days 31 --after examples/journal.txt --today 2024-06-21 --journal journal-2.txt examples/london-2.txt\n\nScripts to which requests were added: seatdesk run --set examples/summer.ssim --limits examples/limits.txt --first 2024-07-01 --days 31 --resume examples/journal.txt --today 2024-06-20 --journal journal.txt examples/london.txt examples/lisbon.txt\n\nA wrong line stops no desk: seatdesk run --set examples/summer.ssim --limits examples/limits.txt --first 2024-07-01 --days 31 --today 2024-06-20 --journal journal.txt --refused refused.txt examples/london.txt examples/lisbon.txt";

pub(super) const SERVE: &Described = &Described {
    name: "serve",
    about: "Stays open for desks: answers each line of a message once it is on the disk",
    over_horizon: true,
    arguments: &[
        Optional("today", "DATE", SERVED_DAY_HELP),
        Wanted("journal", "JOURNAL", SERVED_HELP),
        Several("desk", "DESK", DESK_PLACE_HELP),
        Optional("manager", "PIPES", MANAGER_HELP),
        Optional("status", "FILE", STATUS_HELP),
        Optional("every", "SECONDS", EVERY_HELP),
        Optional("feed", "FEED", FEED_HELP),
        Optional("behind", "N", FED_HELP),
        Flag("close-departed", CLOSE_DEPARTED_HELP),
    ],
};

pub(super) const SERVE_MORE: &str =
    "Type the lines of a message, as in a script: the reply to each segment line stands below it. ? LZ601Q27JUL LHRKEF shows the seats\nthat are left in a class. The end of the input, or ?BYE, ends the journal; a host that is killed loses no reply that it gave,\nand goes on from its journal when it is started again.\n\nExample: seatdesk serve --set examples/summer.ssim --limits examples/limits.txt --first 2024-07-01 --days 31 --today 2024-06-20 --journal journal.txt --desk -\n\nTwo desks and a manager on pipes: seatdesk serve --set examples/summer.ssim --limits examples/limits.txt --first 2024-07-01 --days 31 --today 2024-06-20 --journal journal.txt --desk 1=london.in:london.out --desk 2=lisbon.in:lisbon.out --manager m.in:m.out\n\nOne stream of lines for all desks: seatdesk serve --set examples/summer.ssim --limits examples/limits.txt --first 2024-07-01 --days 31 --journal journal.txt --feed -";

pub(super) const SEAL: &Described = &Described {
    name: "seal",
    about: "Writes the seal of a journal that audit accepts, which says what the journal belongs to",
    over_horizon: true,
    arguments: &[WantedWord("journal", "JOURNAL", SEALED_JOURNAL_HELP)],
};

pub(super) const SEAL_MORE: &str =
    "The seal is JOURNAL.seal beside JOURNAL. Every command that replays JOURNAL compares it, and audit --sealed wants it.\n\nExample: seatdesk seal --set examples/summer.ssim --limits examples/limits.txt --first 2024-07-01 --days 31 journal.txt";

pub(super) const RECOVER: &Described = &Described {
    name: "recover",
    about: "Cuts a journal that was left open back to its right lines, writes its END line, and says so",
    over_horizon: true,
    arguments: &[
        Flag("cut", CUT_HELP),
        WantedWord("journal", "JOURNAL", LEFT_JOURNAL_HELP),
    ],
};

pub(super) const RECOVER_MORE: &str =
    "A torn line behind the right ones is kept beside JOURNAL, as JOURNAL.torn-1, and cut. A whole line that is not right is refused\nas audit --open refuses it: it may be the wrong set or limits. With --cut it is kept and cut too, with all behind it, where\nthat is no more than a crash leaves: 4096 lines and 256 KiB.\n\nExample: seatdesk recover --set examples/summer.ssim --limits examples/limits.txt --first 2024-07-01 --days 31 journal.txt";

pub(super) const CARRY: &Described = &Described {
    name: "carry",
    about: "Carries the live bookings of a journal, or of several, to another season, into a new journal, and reports on each of them",
    over_horizon: false,
    arguments: &[
        Wanted("from", "SEASON", FROM_SEASON_HELP),
        Wanted("to", "SEASON", TO_SEASON_HELP),
        Wanted("today", "DATE", CARRIED_DAY_HELP),
        Wanted("journal", "NEW", NEW_HELP),
        Optional("protect", "FILE", PROTECT_HELP),
        Optional("order", "FILE", ORDER_HELP),
        Flag("displace", DISPLACE_HELP),
        Flag("fresh-limits", FRESH_LIMITS_HELP),
        Flag("anew", ANEW_HELP),
        Optional("shard", "H/M", SHARD_HELP),
        Flag("dry-run", DRY_RUN_HELP),
        Flag("csv", CSV_HELP),
        Flag("json", JSON_HELP),
        WantedWord("carried", "JOURNAL", CARRIED_HELP),
        Words("others", "OTHER", OTHERS_CARRIED_HELP),
    ],
};

pub(super) const CARRY_MORE: &str =
    "JOURNAL is sold from no more: its seal says that it was carried, ahead of the first byte of NEW. A carry that was killed between the\ntwo is finished by the same command, given again. Where a leg of the new season has fewer seats than are held no file is written, and\na line of standard output, OVER, says so of each such leg.\n\nExample: seatdesk carry --from examples/summer.toml --to examples/august.toml --today 2024-07-20 --journal august.txt journal.txt\n\nThe report alone, of who would lose seats: seatdesk carry --from examples/summer.toml --to examples/august.toml --today 2024-07-20 --journal august.txt --displace --dry-run journal.txt\n\nOthers go to another flight, and some keep their seats first: seatdesk carry --from examples/summer.toml --to examples/august.toml --today 2024-07-20 --journal august.txt --protect protected.txt --order first.txt --displace journal.txt\n\nJournals of hosts that have different flights, in this order: seatdesk carry --from examples/summer.toml --to examples/august.toml --today 2024-07-20 --journal august.txt journal-1.txt journal-2.txt\n\nThe journal of the first of four hosts that have different flights from now on; the others have august.2 to august.4: seatdesk carry --from examples/summer.toml --to examples/august.toml --today 2024-07-20 --journal august.1 --shard 1/4 journal.txt";
