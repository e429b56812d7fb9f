//! A file that is appended to, crashed at each call and torn at its end.
use airline_base::Failures;
use memory_disk::{Fuse, TornTape};
use seat_disk::{Tape, keep};
use std::alloc::{AllocError, Global};
use std::test::Fail;

const KEPT: [u8; 4] = *b"1 a\n";

const LINE: [u8; 4] = *b"2 b\n";

/// Behind how many calls the file fails, what a crash leaves of what was on its way, and what the file has then.
struct Crash(u64, &'static [u8], &'static [u8]);

const CRASHES: &[Crash] = &[
    Crash(0, b"torn", b"1 a\n"),
    Crash(1, b"", b"1 a\n"),
    Crash(1, b"2", b"1 a\n2"),
    Crash(1, b"\n2 b", b"1 a\n\n2 b"),
    Crash(1, b"2 b\n3 c\n", b"1 a\n2 b\n"),
    Crash(2, b"torn", b"1 a\n2 b\n"),
    Crash(9, b"", b"1 a\n2 b\n"),
];

/// Whether each call behind a blown fuse fails and is counted, and changes nothing.
fn passes_nothing(fused: &mut Fuse<TornTape>, alloc: Global) -> bool {
    fused.sync().is_err()
        && fused.append(&LINE).is_err()
        && fused.cut(0).is_err()
        && fused.read_all(alloc, 9).is_err()
        && fused.failures() == 5
}

/// Whether a line is kept where both calls pass, append and sync, and else a failure is counted, behind which only a file that lost no
/// sync may be used, and no call is passed on; and what a crash leaves then.
fn is_kept(alloc: Global, row: &Crash) -> Result<bool, AllocError> {
    let bytes = Vec::from_slice(alloc, &KEPT)?;
    let mut fused = Fuse::new(TornTape::over(bytes), row.0);
    let is_kept = keep(&mut fused, &LINE).is_ok();
    let is_told = is_kept == (row.0 >= 2) && fused.may_be_used() == (row.0 != 1);
    let is_counted = fused.failures() == u64::from(!is_kept);
    let is_blown = is_kept || passes_nothing(&mut fused, alloc);
    let mut file = fused.into_inner();
    file.crash(row.1);
    Ok(is_told && is_counted && is_blown && file.bytes() == row.2)
}

#[test]
fn keeps_what_was_told(rt: HostRuntime) -> Result<(), Fail> {
    for at in 0..CRASHES.len() {
        let is_right = is_kept(rt.alloc(), &CRASHES[at])?;
        assert!(rt; is_right, "row {at}");
    }
    Ok(())
}
