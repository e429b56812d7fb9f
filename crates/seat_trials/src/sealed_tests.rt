//! A journal and its seal, crashed at each call of their replacement. The digests of the texts are those of sha256sum.
ghost use Rattle.std.specs.Prelude.{◌≡◌, IsTrue};
ghost use Rattle.seat_seal.specs.Imprints.{imprint_of};
ghost use Rattle.seat_seal.specs.Fronts.{front_of};

use crate::replaced_tests::{folder, keeps};
use airline_base::Failures;
use memory_disk::{Folder, Fuse};
use seat_seal::{
    Date, Era, JournalState, Run, Runs, Script, Scripts, Sealed, SealedJournal, digest_of,
    front_of, imprint_of, read_seal,
};
use seat_sealing::{may_be_sealed, older_entry, replace_sealed};
use std::alloc::{AllocError, Global};
use std::test::Fail;

const OLD: &[u8] = b"SEATJOURNAL 2
1 1 1 K7M2QP 11.0.0 J NN 2 KK 0
END 1
";

const NEW: &[u8] = b"SEATJOURNAL 2
1 1 1 R4T8WX 66.0.1 Y NN 1 KK 0
2 2 1 ABCDEF 11.0.0 J NN 3 KK 0
END 2
";

// The older journal's seal, and the newer one's.
const OF_OLD: &[u8] = b"SEATSEAL 4
set 6ee0eb490ff832101cf82a3d387c35f29e4230be786978f7acf9e811febf6723
limits 8a46fd6fc3d79d419361a7043d0365b6dfeb6b92da9e376450898ff88d9cea00
first 2024-07-01
days 31
journal 1f17ec36ae2eb204de74df9b6e615bee04d4a02b213a24f56ad1d37674f93bad lines 1 bytes 46 closed
run behind 0 today 2024-06-19
script 1 d618fb157a4b382e92fcd4a830c5fa8adef45a809543c524f7904e38f867dac8 bytes 6
END
digest 16373e29da74688b0a7dea922a9e022517ec843d9ecfcb51208cbbe9e0dcfd5c
";

const OF_NEW: &[u8] = b"SEATSEAL 4
set 6ee0eb490ff832101cf82a3d387c35f29e4230be786978f7acf9e811febf6723
limits 8a46fd6fc3d79d419361a7043d0365b6dfeb6b92da9e376450898ff88d9cea00
first 2024-07-01
days 31
journal 3f65600df3ab236180aba5bfb426671abb6a57b71e08abc5ead200e0514f802d lines 2 bytes 78 closed
run behind 0 today 2024-06-20
script 1 d78d1a3f3bcf22d7b74f7e559090240cc8d0bc88470a8a23383a8e4f3328bf8a bytes 7
END
digest a0d97da1f14476cd655874b3cf00ab2dd9d0a1d5f694f14e184461503690322c
";

// The newer one's entry behind that of the older journal; behind one that knows nothing of it; and behind one of an empty file.
const OF_BOTH: &[u8] = b"SEATSEAL 4
set 6ee0eb490ff832101cf82a3d387c35f29e4230be786978f7acf9e811febf6723
limits 8a46fd6fc3d79d419361a7043d0365b6dfeb6b92da9e376450898ff88d9cea00
first 2024-07-01
days 31
journal 1f17ec36ae2eb204de74df9b6e615bee04d4a02b213a24f56ad1d37674f93bad lines 1 bytes 46 closed
run behind 0 today 2024-06-19
script 1 d618fb157a4b382e92fcd4a830c5fa8adef45a809543c524f7904e38f867dac8 bytes 6
END
set 6ee0eb490ff832101cf82a3d387c35f29e4230be786978f7acf9e811febf6723
limits 8a46fd6fc3d79d419361a7043d0365b6dfeb6b92da9e376450898ff88d9cea00
first 2024-07-01
days 31
journal 3f65600df3ab236180aba5bfb426671abb6a57b71e08abc5ead200e0514f802d lines 2 bytes 78 closed
run behind 0 today 2024-06-20
script 1 d78d1a3f3bcf22d7b74f7e559090240cc8d0bc88470a8a23383a8e4f3328bf8a bytes 7
END
digest 60ade5cf51788103159eab2fd66585e8f7f53075e46f942f30480e5b6569cb37
";

const BEHIND_OTHER: &[u8] = b"SEATSEAL 4
other 60659c24df7654c66455c9984dfdddd72126c2efbbbdc452912e1445d223680b bytes 52
END
set 6ee0eb490ff832101cf82a3d387c35f29e4230be786978f7acf9e811febf6723
limits 8a46fd6fc3d79d419361a7043d0365b6dfeb6b92da9e376450898ff88d9cea00
first 2024-07-01
days 31
journal 3f65600df3ab236180aba5bfb426671abb6a57b71e08abc5ead200e0514f802d lines 2 bytes 78 closed
run behind 0 today 2024-06-20
script 1 d78d1a3f3bcf22d7b74f7e559090240cc8d0bc88470a8a23383a8e4f3328bf8a bytes 7
END
digest e94605d3b0242a24ba53958a653858eee9c96813de3671bdc573b892e48557f9
";

const BEHIND_NONE: &[u8] = b"SEATSEAL 4
other e3b0c44298fc1c149afbf4c8996fb92427ae41e4649b934ca495991b7852b855 bytes 0
END
set 6ee0eb490ff832101cf82a3d387c35f29e4230be786978f7acf9e811febf6723
limits 8a46fd6fc3d79d419361a7043d0365b6dfeb6b92da9e376450898ff88d9cea00
first 2024-07-01
days 31
journal 3f65600df3ab236180aba5bfb426671abb6a57b71e08abc5ead200e0514f802d lines 2 bytes 78 closed
run behind 0 today 2024-06-20
script 1 d78d1a3f3bcf22d7b74f7e559090240cc8d0bc88470a8a23383a8e4f3328bf8a bytes 7
END
digest a2043feccf97ee765190001f905748f197d9f476b5128d0a2cd44ffcda45aad5
";

/// The journal and the seal that stand there, and the seal that names this journal and the newer one.
struct Row(&'static [u8], &'static [u8], &'static [u8]);

/// A journal and its seal, one that had none, and an empty file.
const ROWS: &[Row] = &[
    Row(OLD, OF_OLD, OF_BOTH),
    Row(OLD, b"", BEHIND_OTHER),
    Row(b"", b"", BEHIND_NONE),
];

// A run of one script.
fn runs() -> Runs {
    let mut scripts = Scripts::new();
    scripts.push(Script {
        session: 1,
        imprint: imprint_of(b"tuesday"),
    });
    let mut runs = Runs::new();
    runs.push(Run {
        behind: 0,
        today: day(6, 20),
        scripts,
        changes: None,
    });
    runs
}

fn day(month: u8, day: u8) -> Date {
    Date {
        year: 2024,
        month,
        day,
    }
}

// What the newer seal says of its journal, of two lines.
fn newer(text: &[u8]) -> Sealed
    ensures { result.journal.imprint ≡ imprint_of (front_of text.now) }
{
    Sealed {
        set: digest_of(b"set"),
        limits: digest_of(b"limits"),
        first: day(7, 1),
        days: 31,
        era: Era::first(),
        journal: SealedJournal {
            imprint: imprint_of(front_of(text)),
            lines: 2,
            state: JournalState::Closed,
        },
        runs: runs(),
    }
}

// A replacement that keeps what the names have passes 17 calls on: six of the seal (begin, append, sync, keep, rename, sync of the
// folder), the same six of the journal, and five of the seal, which keeps nothing then.
/// Where the crash comes: behind how many calls, and whether it takes the journal's renaming back, and the seal's, where it may.
type Crash = (u64, bool, bool);

fn seal_calls(calls: u64) -> u64 {
    if calls > 12 { calls - 6 } else { calls.min(6) }
}

fn fused(alloc: Global, bytes: &[u8], calls: u64) -> Result<Fuse<Folder>, AllocError> {
    let folder = folder(alloc, bytes)?;
    Ok(Fuse::new(folder, calls))
}

fn crashed(fused: Fuse<Folder>, goes_back: bool) -> Folder {
    let mut folder = fused.into_inner();
    folder.crash(goes_back, b"torn");
    folder
}

/// Whether both are replaced, or one failure is counted.
fn is_told(row: &Row, calls: u64, journal: &mut Fuse<Folder>, seal: &mut Fuse<Folder>) -> bool {
    let older = older_entry(read_seal(row.1), row.0);
    let newer = newer(NEW);
    if !may_be_sealed(&older, &newer) {
        return false;
    }
    let is_whole = replace_sealed(journal, seal, older, newer, NEW, true).is_ok();
    let failures = journal.failures().saturating_add(seal.failures());
    is_whole == (calls == 17) && failures == u64::from(!is_whole)
}

/// Whether each name has what it must have, and what it had is kept once the call that keeps it has passed.
fn are_left(row: &Row, crash: Crash, journal: &Folder, seal: &Folder) -> bool {
    let (calls, journal_back, seal_back) = crash;
    let text = if calls < 11 || (calls == 11 && journal_back) {
        row.0
    } else {
        NEW
    };
    let sealed = if calls < 5 || (calls == 5 && seal_back) {
        row.1
    } else if calls < 16 || (calls == 16 && seal_back) {
        row.2
    } else {
        OF_NEW
    };
    journal.bytes() == text
        && seal.bytes() == sealed
        && keeps(seal, row.1, calls >= 4)
        && keeps(journal, row.0, calls >= 10)
}

fn leaves(alloc: Global, row: &Row, crash: Crash) -> Result<bool, AllocError> {
    let (calls, journal_back, seal_back) = crash;
    let mut journal = fused(alloc, row.0, calls.saturating_sub(6).min(6))?;
    let mut seal = fused(alloc, row.1, seal_calls(calls))?;
    let is_told = is_told(row, calls, &mut journal, &mut seal);
    let journal = crashed(journal, journal_back);
    let seal = crashed(seal, seal_back);
    Ok(is_told && are_left(row, crash, &journal, &seal))
}

/// Behind how many calls a crash leaves something else.
fn first_wrong(alloc: Global, row: &Row) -> Result<Option<u64>, AllocError> {
    for n in 0..72u64 {
        let crash = (n / 4, n % 4 > 1, n % 2 > 0);
        if !leaves(alloc, row, crash)? {
            return Ok(Some(crash.0));
        }
    }
    Ok(None)
}

#[test]
fn leaves_no_journal_that_its_seal_denies(rt: HostRuntime) -> Result<(), Fail> {
    for at in 0..ROWS.len() {
        let wrong = first_wrong(rt.alloc(), &ROWS[at])?;
        assert!(rt; wrong.is_none(), "row {at}: {wrong:?}");
    }
    Ok(())
}
