//! What the words of a command line are refused with.
use std::fmt;

/// A word of the command line is not what it may be. Its text is `E2` and which word it is.
#[derive(Clone, Copy)]
pub enum WordFault {
    /// The first day is no day of 2000 to 2099.
    BadFirst,
    /// The number of days is not one of 1 to 366.
    BadDays,
    /// The day of reference is no day of 2000 to 2099, or it is missing.
    BadToday,
    /// There are no scripts where some are needed, or more than sessions.
    BadScripts,
    /// The day of departure is no day of 2000 to 2099.
    BadDay,
    /// The pair is not two stations of three letters each.
    BadPair,
    /// The flight is not an airline, a number of 1 to 9999 and a letter or none.
    BadFlight,
    /// The locator is not six characters of A to Z and 0 to 9.
    BadLocator,
    /// The number of a line is not one of 1 to 999999.
    BadLine,
    /// The number of lines that the journal began with is not one of 0 to 999999, or an older journal says it too.
    BadBehind,
    /// The session is not one of 0 to 8.
    BadSession,
    /// The desk is not one of 0 to 8, or its two pipes are not named as they must be.
    BadDesk,
    /// How often the status is said is not 1 to 3600 seconds, or its file is none that a host may rewrite, or there are no desks on pipes.
    BadStatus,
    /// The file of the journal is an input or that of the replies or of the report, is another run's, or may not be replaced.
    BadJournal,
    /// The file of the refused lines is an input, the journal or that of the replies, is another run's, or may not be replaced.
    BadRefused,
    /// What the loads are summed by is none of those that they may be.
    BadBy,
    /// Journals of several hosts are audited as they stand: ended, without scripts, older journals and seals. Or the number of shards is
    /// not one of 1 to 999.
    BadShards,
    /// The shard is not H of M hosts, as `2/4`, 1 ≤ H ≤ M ≤ 999, or the journal that is to be its own does not end in `.H`.
    BadShard,
    /// More than one form of the answer is asked for.
    BadForm,
    /// The page of the legs that are asked for has more than 30,000,000 bytes.
    LongPage,
    /// A word is not UTF-8.
    BadWords,
}

impl fmt::Display for WordFault {
    ghost use Rattle.std.specs.Prelude.{Some};
    ghost use Rattle.seat_words.specs.FaultText.{word_text};

    ghost output = { λ fault. Some (word_text fault) };

    /// The code, and which word it is of.
    fn fmt<W: fmt::Write>(&self, f: &mut fmt::Formatter<W>) -> fmt::Result {
        f.write_str(match self {
            WordFault::BadFirst => "E2 first",
            WordFault::BadDays => "E2 days",
            WordFault::BadToday => "E2 today",
            WordFault::BadScripts => "E2 script",
            WordFault::BadDay => "E2 day",
            WordFault::BadPair => "E2 pair",
            WordFault::BadFlight => "E2 flight",
            WordFault::BadLocator => "E2 locator",
            WordFault::BadLine => "E2 line",
            WordFault::BadBehind => "E2 behind",
            WordFault::BadSession => "E2 session",
            WordFault::BadDesk => "E2 desk",
            WordFault::BadStatus => "E2 status",
            WordFault::BadJournal => "E2 journal",
            WordFault::BadRefused => "E2 refused",
            WordFault::BadBy => "E2 by",
            WordFault::BadShards => "E2 shards",
            WordFault::BadShard => "E2 shard",
            WordFault::BadForm => "E2 form",
            WordFault::LongPage => "E2 html",
            WordFault::BadWords => "E2 words",
        })
    }
}
