//! The laws of the definitions, each the contract of a function that does nothing.
ghost use Rattle.seat_scripts.specs.Against.{AuditsBehindNoLines, UnaskedIsNotAudited};
ghost use Rattle.seat_scripts.specs.Audits.{RunsAreAudited, RunsAreAuditedAgainst};
ghost use Rattle.seat_scripts.specs.First.{RunsFromNoLines};
ghost use Rattle.seat_scripts.specs.KnownAgain.{ChangesAreKnown, ScriptsAreKnown};
ghost use Rattle.seat_scripts.specs.Replying.{RepliesAreThoseOfTheRun};
ghost use Rattle.seat_scripts.specs.Resumed.{ResumedAgainIsTheSame, ResumedIsOfTheWhole, ResumedRunIsTheSame};
ghost use Rattle.seat_scripts.specs.Resuming.{NothingIsLeft};
ghost use Rattle.seat_scripts.specs.Taken.{OneIsTaken};

/// What `run` writes as a journal, `audit` accepts: over the same set, limits and days it finds no fault in it, it is not too
/// large, and the one line that answers it has the totals of the receipts. Only memory or a device can stop it.
pub fn runs_are_audited()
    ensures { RunsAreAudited }
{}

/// With its scripts, and behind the journal that it went on from, `audit` accepts it too: the lines behind the older ones are what
/// the scripts ask, there is no fault, no input is too large, and the one line has the totals of the history.
pub fn runs_are_audited_against()
    ensures { RunsAreAuditedAgainst }
{}

/// A run behind a journal without lines, as [`NO_LINES`](seat_desk::NO_LINES) is one, has no line but what the scripts and the
/// changes ask, and answers them all.
pub fn runs_from_no_lines()
    ensures { RunsFromNoLines }
{}

/// What `audit` with scripts refuses as unasked has no line: the journal that differs from the older one, or behind its lines from
/// the scripts, is none that goes on from the one with just what the others ask.
pub fn unasked_is_not_audited()
    ensures { UnaskedIsNotAudited }
{}

/// Behind a journal without lines `audit` with scripts is that of one journal: the lines of each session behind so many of its own are
/// the very requests of its script.
pub fn audits_behind_no_lines()
    ensures { AuditsBehindNoLines }
{}

/// Scripts that were booked whole leave nothing to ask: to go on with the very same scripts once more books nothing.
pub fn nothing_is_left()
    ensures { NothingIsLeft }
{}

/// What `run` wrote to standard output are the replies that [`desk_replies`](crate::desk_replies) words from its journal, with its
/// scripts and behind the journal that it went on from.
pub fn replies_are_those_of_the_run()
    ensures { RepliesAreThoseOfTheRun }
{}

/// The journal of a run that goes on with scripts is that of the whole scripts: behind the lines that were there before them `audit`
/// accepts it with them, whatever part of them was booked at once.
pub fn resumed_is_of_the_whole()
    ensures { ResumedIsOfTheWhole }
{}

/// The same command twice books nothing the second time: the journal is the same, byte for byte, and there is no reply.
pub fn resumed_again_is_the_same()
    ensures { ResumedAgainIsTheSame }
{}

/// To go on with the scripts and the changes of a run, none of which has grown, books nothing either.
pub fn resumed_run_is_the_same()
    ensures { ResumedRunIsTheSame }
{}

/// No two numbers of lines are taken of a journal with what stands beside it, ahead of its scripts.
pub fn one_number_is_taken()
    ensures { OneIsTaken }
{}

/// What a run had is known by the seal of its journal: each of its scripts, itself and with more behind it, where it has a byte.
pub fn scripts_are_known()
    ensures { ScriptsAreKnown }
{}

/// And its changes.
pub fn changes_are_known()
    ensures { ChangesAreKnown }
{}
