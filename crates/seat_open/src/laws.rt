//! The law of open journals, the contract of a function that does nothing.
ghost use Rattle.seat_open.specs.Laws.{EndedIsJournal, JournalIsFound};

use seat_journal::entries_are_their_lines;

/// `audit --open`, the other questions with `--open` and `recover` mean the same journal: where no damage stands behind the lines that
/// `audit --open` sums up and `recover` ends, a question is asked of the text of their journal, and nowhere else of a journal's.
pub fn open_journals_are_one()
    ensures ended { EndedIsJournal }
    ensures found { JournalIsFound }
{
    // For the prover alone: how lines are read.
    entries_are_their_lines();
}
