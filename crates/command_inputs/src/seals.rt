//! What stands beside the journals that a command reads, and behind how many of their lines the scripts stand.
use seat_files::{Input, Refusal, SealFile};
use seat_scripts::Besides;
use seat_words::{WordFault, behind_word};

/// What stands beside an older journal, and beside the journal that goes on from it.
pub struct Seals {
    pub older: SealFile,
    pub journal: SealFile,
}

impl Drop for Seals {
    fn drop(self) {
        let Seals {
            older: _older,
            journal: _journal,
        } = self;
    }
}

impl Seals {
    pub fn as_besides(&self) -> Besides<'_> {
        Besides {
            older: self.older.as_beside(),
            journal: self.journal.as_beside(),
        }
    }

    /// What stands beside the journal that a run goes on from.
    pub fn gone_on_from(&self, is_resumed: bool) -> &SealFile {
        if is_resumed {
            &self.journal
        } else {
            &self.older
        }
    }
}

/// What stands beside both, once they are open. Beside the journal there may have to be a seal.
pub fn seals_of(
    rt: &HostRuntime,
    after: &Input,
    journal: &Input,
    is_sealed: bool,
) -> Result<Seals, Refusal> {
    let older = SealFile::beside(rt, after, false)?;
    let journal = SealFile::beside(rt, journal, is_sealed)?;
    Ok(Seals { older, journal })
}

/// How many lines the past has behind those of an older journal, where that is said: `--behind` stands in place of
/// `--after`. Without both the journal's seal says it.
pub fn lines_behind(after: Option<&str>, behind: Option<&str>) -> Result<Option<u32>, WordFault> {
    let Some(word) = behind else {
        return Ok(if after.is_some() { Some(0) } else { None });
    };
    if after.is_some() {
        return Err(WordFault::BadBehind);
    }
    match behind_word(word) {
        Some(more) => Ok(Some(more)),
        None => Err(WordFault::BadBehind),
    }
}
