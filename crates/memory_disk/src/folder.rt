//! A folder in memory with a name and a file beside it, which a crash tears.
ghost use Rattle.std.specs.Prelude.{◌≡◌, ◌⊎◌, ℕ, Option, Some, None, List, length, take, if◌then◌else◌, ◌&&◌, true, false, IfOk, OnOk, OnErr, IsTrue, option_map, slice_get};
ghost use Rattle.std.specs.Io.KnownBytes.{append_known};
ghost use Rattle.airline_base.specs.Noting.{noted};
ghost use Rattle.seat_disk.specs.Counts.{NotesCall};
ghost use Rattle.seat_disk.specs.Leaving.{Within, WithinEither, Only, OldOr, OnlyKnown, IsLeft, emptied, replaced_by};
ghost use Rattle.seat_disk.specs.Keeping.{AreKept, IsKept, KeepsFiles, KeepsNoMore, KeepsOneMore, KeepsOnly, LosesNothing};
ghost use Rattle.memory_disk.specs.Folders.{are_left, crashed_bytes, torn_content, named_bytes, beside_bytes, named_leaves, beside_leaves, folder_leaves, folder_keeps, folder_synced, kept_files};
ghost use Rattle.seat_disk.specs.Syncs.{AllSynced, NoneUnsynced, SameNames, changed, kept_beside, renamed, kept_name};

use crate::failing::{failed, tear};
use airline_base::Failures;
use seat_disk::{Replaced, Synced};
use std::alloc::{AllocError, Global};
use std::io;
use std::mem::{replace, swap};

// A file in memory, and whether it was synced since it was last written.
#[derive(Drop)]
struct Content {
    bytes: Vec<u8>,
    is_synced: bool,
}

impl Content {
    // A copy of these bytes that is on the disk.
    fn kept(alloc: Global, bytes: &[u8]) -> Result<Content, AllocError>
        ensures { IfOk result (λ content. content.bytes.items ≡ bytes.now) }
    {
        Ok(Content {
            bytes: Vec::from_slice(alloc, bytes)?,
            is_synced: true,
        })
    }

    // A crash leaves of a file that was not synced as many of `torn` as it has bytes.
    fn tear(&mut self, torn: &[u8])
        ensures value { self.new.bytes.items ≡ torn_content self.old.is_synced self.old.bytes.items torn.now }
        ensures left { IsLeft self.old.is_synced self.old.bytes.items self.new.bytes.items }
        ensures synced { IsTrue self.new.is_synced }
    {
        if !self.is_synced {
            tear(&mut self.bytes, 0, torn);
        }
        self.is_synced = true;
    }
}

#[tactic(auto, using(seat_disk::proofs::Keeping::keeps_all, crate::proofs::Kept::keeps_more, crate::proofs::Kept::keeps_last, crate::proofs::Kept::one_more, crate::proofs::Kept::one_at_most))]
fn keep_content(kept: &mut Vec<Content>, content: Content) -> Result<(), AllocError>
    ensures ok { OnOk result (AreKept content.bytes.items (are_left kept.new.items)) }
    ensures files { KeepsFiles (are_left kept.old.items) (are_left kept.new.items) }
    ensures only { KeepsOneMore content.bytes.items (are_left kept.old.items) (are_left kept.new.items) }
{
    match kept.push(content) {
        Ok(()) => Ok(()),
        Err(_) => Err(AllocError),
    }
}

/// A folder in memory, with a name and a file beside it, and what was kept. A crash may leave all that `Replaced` allows of the last
/// renaming, and leaves each file that was kept.
#[derive(Drop)]
pub struct Folder {
    named: Content,
    beside: Content,
    // The file that had the name, which a crash may give back as long as the folder is not synced.
    older: Content,
    is_renamed: bool,
    has_beside: bool,
    kept: Vec<Content>,
    count: u64,
}

impl Folder {
    /// The name leads to a file with these bytes, which is on the disk.
    pub fn over(alloc: Global, bytes: Vec<u8>) -> Folder
        ensures named { named_bytes result ≡ bytes.items }
        ensures settled { Only bytes.items (folder_leaves result) }
    {
        Folder {
            named: Content {
                bytes,
                is_synced: true,
            },
            beside: Content {
                bytes: Vec::new(alloc),
                is_synced: false,
            },
            older: Content {
                bytes: Vec::new(alloc),
                is_synced: false,
            },
            is_renamed: false,
            has_beside: false,
            kept: Vec::new(alloc),
            count: 0,
        }
    }

    /// What a read of the name gives.
    pub fn bytes(&self) -> &[u8]
        ensures { result.now ≡ named_bytes self.now }
    {
        &self.named.bytes
    }

    /// How many files were kept.
    pub fn kept_count(&self) -> usize
        ensures { result ≡ length (kept_files self.now) }
    {
        self.kept.len()
    }

    /// The bytes of the file that was kept behind so many others.
    pub fn kept_bytes(&self, place: usize) -> Option<&[u8]>
        ensures { option_map (λ bytes. bytes.now) result ≡ slice_get (kept_files self.now) place }
    {
        match self.kept.get(place) {
            Some(file) => Some(&file.bytes),
            None => None,
        }
    }

    /// A crash. It takes the last renaming back where it may and `goes_back` says so, and leaves `torn` of what was not synced.
    pub fn crash(&mut self, goes_back: bool, torn: &[u8])
        ensures value { named_bytes self.new ≡ crashed_bytes self.old goes_back torn.now }
        ensures left { folder_leaves self.old (named_bytes self.new) }
        ensures settled { Only (named_bytes self.new) (folder_leaves self.new) }
        ensures kept { kept_files self.new ≡ kept_files self.old }
    {
        if goes_back && self.is_renamed {
            swap(&mut self.named, &mut self.older);
        }
        self.is_renamed = false;
        self.named.tear(torn);
    }
}

impl Failures for Folder {
    ghost failure_count = { λ f. f.count };

    fn failures(&self) -> u64 {
        self.count
    }
}

impl Replaced for Folder {
    ghost named = { λ f. Some (named_bytes f) };

    ghost beside = { λ f. Some (beside_bytes f) };

    ghost may_leave = { folder_leaves };

    ghost named_may_leave = { named_leaves };

    ghost beside_may_leave = { beside_leaves };

    ghost kept_may_leave = { folder_keeps };

    ghost synced = { folder_synced };

    fn begin(&mut self) -> io::Result<()> {
        self.beside.bytes.clear();
        self.beside.is_synced = false;
        self.has_beside = true;
        Ok(())
    }

    fn append(&mut self, bytes: &[u8]) -> io::Result<()> {
        self.beside.is_synced = false;
        if !self.has_beside || self.beside.bytes.extend_from_slice(bytes).is_err() {
            return failed(&mut self.count);
        }
        Ok(())
    }

    fn sync(&mut self) -> io::Result<()> {
        self.beside.is_synced = true;
        Ok(())
    }

    #[tactic(auto, using(seat_disk::proofs::Keeping::keeps_all, crate::proofs::Kept::one_at_most, crate::proofs::Kept::one_as))]
    fn keep_named(&mut self) -> io::Result<()> {
        let alloc = *self.named.bytes.allocator();
        let Ok(content) = Content::kept(alloc, &self.named.bytes) else {
            return failed(&mut self.count);
        };
        match keep_content(&mut self.kept, content) {
            Ok(()) => Ok(()),
            Err(_) => failed(&mut self.count),
        }
    }

    fn rename(&mut self) -> io::Result<()> {
        if !self.has_beside {
            return failed(&mut self.count);
        }
        let empty = Content {
            bytes: Vec::new(*self.named.bytes.allocator()),
            is_synced: false,
        };
        let new = replace(&mut self.beside, empty);
        self.older = replace(&mut self.named, new);
        self.is_renamed = true;
        self.has_beside = false;
        Ok(())
    }

    fn sync_folder(&mut self) -> io::Result<()> {
        self.is_renamed = false;
        Ok(())
    }
}
