//! A file that is replaced whole, with how far it was where it failed.
//! It knows of files only what `Replaced` says.
ghost use Rattle.std.specs.Prelude.{◌≡◌, ◌⊎◌, IfErr, IsTrue, OnErr, OnOk};
ghost use Rattle.seat_disk.specs.Counts.{NotesCall};
ghost use Rattle.seat_disk.specs.Keeping.{KeepsNoMore};
ghost use Rattle.seat_disk.specs.Leaving.{OldOr, OnlyKnown, Within, WithinEither, replaced_by};
ghost use Rattle.seat_disk.specs.Syncs.{AllSynced, NoneUnsynced, SameNames, kept_name, renamed};
ghost use Rattle.hand_steps.specs.Steps.{HasFailed, HasFailedAhead, IsReplaced};

use airline_base::WriteFault;
use seat_disk::{Replaced, replace_whole};
use std::io;

/// How far a file was that was to be replaced whole, and failed.
#[derive(Clone, Copy)]
pub(crate) enum NotPut {
    /// Its name has what it had.
    Ahead,
    /// It was about to take its name, and may have it.
    Behind,
}

/// Puts these bytes in place of what the file has, on the disk, and keeps nothing of that.
#[tactic(auto, using(crate::proofs::Puts::replaced, crate::proofs::Puts::failed))]
pub fn put<F: Replaced>(file: &mut F, bytes: &[u8]) -> Result<(), WriteFault>
    ensures ok { OnOk result (IsReplaced F.failure_count F.named F.may_leave bytes.now file.old file.new) }
    ensures failed { OnErr result (HasFailed F.failure_count F.named bytes.now file.old file.new) }
    ensures crash { OldOr bytes.now (F.may_leave file.old) (F.may_leave file.new) }
    ensures only { KeepsNoMore (F.kept_may_leave file.old) (F.kept_may_leave file.new) }
    ensures synced { OnOk result (AllSynced (F.synced file.new)) }
    ensures ahead { NoneUnsynced (F.synced file.old) (F.synced file.new) }
{
    match replace_whole(file, bytes, false) {
        Ok(()) => Ok(()),
        Err(_) => Err(WriteFault::Device),
    }
}

/// Puts these bytes in place of what the file has, and says where it failed whether the name has that certainly still.
#[tactic(auto, using(crate::proofs::Puts::replaced, crate::proofs::Puts::failed, crate::proofs::Puts::failed_ahead, seat_disk::proofs::Keeping::no_more_on))]
pub(crate) fn put_telling<F: Replaced>(file: &mut F, bytes: &[u8]) -> Result<(), NotPut>
    ensures ok { OnOk result (IsReplaced F.failure_count F.named F.may_leave bytes.now file.old file.new) }
    ensures ahead { IfErr result (λ f. f ≡ NotPut.Ahead → HasFailedAhead F.failure_count F.named F.may_leave file.old file.new) }
    ensures same { IfErr result (λ f. f ≡ NotPut.Ahead → SameNames (F.synced file.old) (F.synced file.new)) }
    ensures behind { IfErr result (λ f. f ≡ NotPut.Behind → HasFailed F.failure_count F.named bytes.now file.old file.new) }
    ensures crash { OldOr bytes.now (F.may_leave file.old) (F.may_leave file.new) }
    ensures only { KeepsNoMore (F.kept_may_leave file.old) (F.kept_may_leave file.new) }
    ensures synced { OnOk result (AllSynced (F.synced file.new)) }
    ensures unsynced { NoneUnsynced (F.synced file.old) (F.synced file.new) }
{
    if write_beside(file, bytes).is_err() {
        return Err(NotPut::Ahead);
    }
    if take_name(file).is_err() {
        return Err(NotPut::Behind);
    }
    Ok(())
}

/// Writes a new file beside the name, and brings it to the disk.
#[tactic(auto, using(seat_disk::proofs::Keeping::no_more_on))]
fn write_beside<F: Replaced>(file: &mut F, bytes: &[u8]) -> io::Result<()>
    ensures ok { OnOk result (F.beside file.new ≡ replaced_by (F.named file.old) bytes.now) }
    ensures kept { OnOk result (OnlyKnown (F.beside file.new) (F.beside_may_leave file.new)) }
    ensures named { F.named file.new ≡ F.named file.old }
    ensures crash { Within (F.may_leave file.new) (F.may_leave file.old) }
    ensures only { KeepsNoMore (F.kept_may_leave file.old) (F.kept_may_leave file.new) }
    ensures synced { OnOk result (IsTrue (F.synced file.new).beside) }
    ensures names { SameNames (F.synced file.old) (F.synced file.new) }
    ensures notes { NotesCall (F.failure_count file.old) (F.failure_count file.new) result }
{
    file.begin()?;
    file.append(bytes)?;
    file.sync()
}

/// Gives the name to the file beside it, and brings that to the disk.
#[tactic(auto, using(seat_disk::proofs::Keeping::no_more_on))]
fn take_name<F: Replaced>(file: &mut F) -> io::Result<()>
    ensures ok { OnOk result (F.named file.new ≡ F.beside file.old) }
    ensures kept { OnOk result (Within (F.may_leave file.new) (F.beside_may_leave file.old)) }
    ensures crash { WithinEither (F.may_leave file.new) (F.may_leave file.old) (F.beside_may_leave file.old) }
    ensures either { OnErr result ((F.named file.new ≡ F.named file.old) ⊎ (F.named file.new ≡ F.beside file.old)) }
    ensures only { KeepsNoMore (F.kept_may_leave file.old) (F.kept_may_leave file.new) }
    ensures synced { OnOk result (F.synced file.new ≡ kept_name (renamed (F.synced file.old))) }
    ensures either_file { OnErr result (((F.synced file.new).file ≡ (F.synced file.old).file) ⊎ ((F.synced file.new).file ≡ (F.synced file.old).beside)) }
    ensures notes { NotesCall (F.failure_count file.old) (F.failure_count file.new) result }
{
    file.rename()?;
    file.sync_folder()
}
