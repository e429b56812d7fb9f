//! What the commands that sell say on standard error where nothing is wrong: what OUT had, what could not be compared, and what may not
//! be meant so.
//! It knows names and seals, and nothing of what was booked.
use seat_desk::NO_LINES;
use seat_files::{
    Content, JournalFile, KEPT_BEFORE, Kept, SEAL, SealFile, SealOut, Shown, is_one_file,
};
use seat_seal::{Script, Seal, SealEntry, Sealed, read_seal};
use std::fs;

/// Says that nothing stands beside a journal, so that it could not be compared, or that what stands there knows no run.
pub fn tell_unsealed(rt: &HostRuntime, name: &str, seal: &SealFile) {
    let file = Shown { name };
    let Some(text) = seal.as_beside().text else {
        let _ = eprintln!(rt;
            "seatdesk: note: {file} has no seal beside it, and was not compared with what is given"
        );
        return;
    };
    if is_without_runs(text) {
        let _ = eprintln!(rt;
            "seatdesk: note: {file} has a seal that knows no run, so nothing says which scripts it has"
        );
    } else if has_lines_ahead(text) {
        let _ = eprintln!(rt;
            "seatdesk: note: {file} has a seal that knows no run of its first lines, so nothing says which scripts they have"
        );
    }
}

/// Says that nothing stood beside a journal that has lines and was found without it, so that its new seal knows no run.
pub fn tell_found_unsealed(rt: &HostRuntime, name: &str) {
    let file = Shown { name };
    let _ = eprintln!(rt;
        "seatdesk: note: {file} had no seal beside it, so its new one knows no run"
    );
}

/// Whether the file at this path, which is a whole journal, has a line: it is longer than one without. Where it can't be looked at it may have.
pub fn may_have_lines(rt: &HostRuntime, path: &str) -> bool {
    match fs::metadata(rt, path) {
        Ok(file) => file.len() > NO_LINES.len() as u64,
        Err(_) => true,
    }
}

/// Whether no entry of a seal has a run, and one is of a journal that may have lines. What is no seal has no entry.
pub fn is_without_runs(text: &[u8]) -> bool {
    match read_seal(text) {
        Some(seal) => !has_run(&seal) && is_of_lines(&seal),
        None => false,
    }
}

/// Whether an entry of a seal has a run.
pub fn has_run(seal: &Seal) -> bool {
    let has_second = match &seal.second {
        Some(second) => knows_run(second),
        None => false,
    };
    has_second || knows_run(&seal.first)
}

/// Whether a journal has lines ahead of each run that its seal names, those of runs that were forgotten too. Of two entries it is the new
/// journal's.
fn has_lines_ahead(text: &[u8]) -> bool {
    match read_seal(text) {
        Some(seal) => match &seal.second {
            Some(second) => is_behind_lines(second),
            None => is_behind_lines(&seal.first),
        },
        None => false,
    }
}

fn is_behind_lines(entry: &SealEntry) -> bool {
    match entry {
        SealEntry::Sealed(entry) => {
            let runs = entry.runs.as_slice();
            !runs.is_empty() && runs.iter().all(|run| run.behind > 0)
        }
        SealEntry::Other(_) => false,
    }
}

fn knows_run(entry: &SealEntry) -> bool {
    match entry {
        SealEntry::Sealed(entry) => !entry.runs.as_slice().is_empty(),
        SealEntry::Other(_) => false,
    }
}

fn is_of_lines(seal: &Seal) -> bool {
    let has_second = match &seal.second {
        Some(second) => has_lines(second),
        None => false,
    };
    has_second || has_lines(&seal.first)
}

fn has_lines(entry: &SealEntry) -> bool {
    match entry {
        SealEntry::Sealed(entry) => entry.journal.lines > 0,
        SealEntry::Other(_) => true,
    }
}

/// Says which two sessions of the run whose seal this is were given the same bytes, as two copies of a file.
pub fn tell_copies(rt: &HostRuntime, seal: &SealOut) {
    let Ok(Some(text)) = seal.text() else {
        return;
    };
    if let Some((one, other)) = copies_in(&text) {
        let _ = eprintln!(rt;
            "seatdesk: note: sessions {one} and {other} have the same script, and each books it"
        );
    }
}

fn copies_in(text: &[u8]) -> Option<(u8, u8)> {
    let entry = last_entry(text)?;
    let run = entry.runs.as_slice().last()?;
    let scripts = run.scripts.as_slice();
    for at in 0..scripts.len() {
        if let Some(other) = copy_among(&scripts[at], &scripts[at + 1..]) {
            return Some((scripts[at].session, other));
        }
    }
    None
}

fn copy_among(script: &Script, others: &[Script]) -> Option<u8> {
    for other in others {
        if script.imprint == other.imprint {
            return Some(other.session);
        }
    }
    None
}

/// What the last entry of a seal says, which is that of the new journal.
pub fn last_entry(text: &[u8]) -> Option<Sealed> {
    let seal = read_seal(text)?;
    let last = match seal.second {
        Some(second) => second,
        None => seal.first,
    };
    match last {
        SealEntry::Sealed(entry) => Some(entry),
        SealEntry::Other(_) => None,
    }
}

/// Says under which name OUT's old bytes are kept, and how a run goes on from a journal. A seal that is kept without a journal is told too.
pub fn tell_kept(rt: &HostRuntime, journal: &JournalFile, seal: &SealOut) {
    if !journal.is_put() {
        return;
    }
    let name = journal.name();
    match (journal.kept(), seal.kept()) {
        (Some(kept), seal) => tell_one(rt, name, "", kept, seal.is_some()),
        (None, Some(kept)) => tell_one(rt, name, SEAL, kept, false),
        (None, None) => {}
    }
}

fn tell_one(rt: &HostRuntime, name: &str, ending: &str, kept: &Kept, has_seal: bool) {
    let path = kept.path.as_str();
    match format!(in rt.alloc(); "{name}{KEPT_BEFORE}{}{ending}", kept.number) {
        Ok(near) if is_one_file(rt, near.as_str(), path) => tell_content(
            rt,
            near.as_str(),
            kept.content,
            has_seal,
        ),
        _ => tell_content(rt, path, kept.content, has_seal),
    }
}

fn tell_content(rt: &HostRuntime, path: &str, content: Content, has_seal: bool) {
    let path = Shown { name: path };
    let _ = match content {
        Content::Journal { lines } => {
            eprintln!(rt; "seatdesk: kept {path} {lines} lines, to go on from it: --after")
        }
        Content::Unended { lines } if has_seal => {
            eprintln!(rt;
                "seatdesk: kept {path} {lines} lines and no END, to end a copy of it and its seal: recover"
            )
        }
        Content::Unended { lines } => {
            eprintln!(rt;
                "seatdesk: kept {path} {lines} lines and no END, to end a copy of it: recover"
            )
        }
        Content::Other { bytes } => eprintln!(rt; "seatdesk: kept {path} {bytes} bytes"),
    };
}
