//! A file that is replaced whole, crashed at each call of the replacement.
use airline_base::Failures;
use memory_disk::{Folder, Fuse};
use seat_disk::{Replaced, replace_whole};
use std::alloc::{AllocError, Global};
use std::test::Fail;

const OLD: [u8; 3] = *b"old";

const NEW: [u8; 5] = *b"newer";

/// A file that has these bytes.
pub fn folder(alloc: Global, bytes: &[u8]) -> Result<Folder, AllocError> {
    let bytes = Vec::from_slice(alloc, bytes)?;
    Ok(Folder::over(alloc, bytes))
}

// A replacement that keeps what the name has passes six calls on: begin, append, sync, keep, rename, sync of the folder.
/// Behind how many calls it crashes, whether that takes the renaming back, and whether the new file is left.
const CRASHES: [(u64, bool, bool); 10] = [
    (0, false, false),
    (1, false, false),
    (2, false, false),
    (3, false, false),
    (4, false, false),
    (4, true, false),
    (5, false, true),
    (5, true, false),
    (6, false, true),
    (6, true, true),
];

/// Whether the old or the new file is left and what the name had is kept, behind so many calls.
fn leaves(alloc: Global, calls: u64, goes_back: bool, is_new: bool) -> Result<bool, AllocError> {
    let mut fused = Fuse::new(folder(alloc, &OLD)?, calls);
    let is_whole = replace_whole(&mut fused, &NEW, true).is_ok();
    let is_told = is_whole == (calls == 6) && fused.failures() == u64::from(!is_whole);
    let mut file = fused.into_inner();
    file.crash(goes_back, b"torn");
    let left = if is_new { NEW.as_slice() } else { &OLD };
    Ok(is_told && file.bytes() == left && keeps(&file, &OLD, calls >= 4))
}

/// Whether a folder keeps one file, of these bytes, or none.
pub fn keeps(folder: &Folder, bytes: &[u8], is_kept: bool) -> bool {
    let number = usize::from(is_kept);
    folder.kept_count() == number && (!is_kept || folder.kept_bytes(0) == Some(bytes))
}

#[test]
fn leaves_the_old_or_the_new(rt: HostRuntime) -> Result<(), Fail> {
    for (calls, goes_back, is_new) in CRASHES {
        let is_right = leaves(rt.alloc(), calls, goes_back, is_new)?;
        assert!(rt; is_right, "behind {calls} calls");
    }
    Ok(())
}

/// Whether the crash takes the renaming back, what it leaves of the new file, and what the name has then.
struct Torn(bool, &'static [u8], &'static [u8]);

const TEARINGS: &[Torn] = &[
    Torn(false, b"torn for good", b"torn "),
    Torn(false, b"", b""),
    Torn(false, b"ne", b"ne"),
    Torn(true, b"torn", b"old"),
];

/// Whether the new file is there once it is renamed, and torn behind a crash.
fn is_torn(alloc: Global, row: &Torn) -> Result<bool, AllocError> {
    let mut file = folder(alloc, &OLD)?;
    let is_renamed = file.begin().is_ok() && file.append(&NEW).is_ok() && file.rename().is_ok();
    let is_there = is_renamed && file.bytes() == NEW.as_slice();
    file.crash(row.0, row.1);
    Ok(is_there && file.bytes() == row.2)
}

// What was not synced is torn, whole as it may look before the crash.
#[test]
fn tears_a_file_that_was_not_synced(rt: HostRuntime) -> Result<(), Fail> {
    for at in 0..TEARINGS.len() {
        let is_right = is_torn(rt.alloc(), &TEARINGS[at])?;
        assert!(rt; is_right, "row {at}");
    }
    Ok(())
}
