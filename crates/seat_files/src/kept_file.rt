//! What a file has, kept beside it under a name of its own before another file takes its name.
ghost use Rattle.std.specs.Prelude.{◌≡◌, ◌+◌, ◌≤◌, IfOk, length};

use crate::journal_file::UNFINISHED;
use crate::seal_file::SEAL;
use std::fs::File;
use std::io::Read;
use std::{fs, io};

/// What stands ahead of the number in the name of a file that was kept.
pub const KEPT_BEFORE: &str = ".kept-";

/// How a journal's first line begins, in each version.
const JOURNAL_HEAD: &[u8] = b"SEATJOURNAL ";

/// How a journal's last line begins.
const END: &[u8; 4] = b"END ";

/// How many bytes are looked at at once.
const PIECE: usize = 65536;

/// A file that was kept: its name ends with the number.
#[derive(Drop)]
pub struct Kept {
    pub path: String,
    pub number: u32,
    pub content: Content,
}

/// What a file has, as far as it is told.
#[derive(Clone, Copy)]
pub enum Content {
    /// A journal with so many lines, its head and its END line left out.
    Journal { lines: u64 },
    /// The beginning of one, with so many whole lines behind its head, as a host that was killed leaves it.
    Unended { lines: u64 },
    Other { bytes: u64 },
}

/// The number of the first names `PATH.kept-N` and `PATH.kept-N.seal` for what the file at the path has and for what stands beside it
/// at the other: each is free, or has the same bytes already. No seal may stand beside a journal kept under a free name without it. A
/// name is free where nothing has it, be it a link that leads nowhere.
pub fn kept_number(rt: &HostRuntime, path: &str, seal: &str) -> io::Result<u32> {
    let has_seal = fs::exists(rt, seal)?;
    for number in 1..u32::MAX {
        let kept = kept_path(rt, path, number, "")?;
        let kept_seal = kept_path(rt, path, number, SEAL)?;
        if may_be_kept(rt, path, seal, has_seal, kept.as_str(), kept_seal.as_str())? {
            return Ok(number);
        }
    }
    Err(io::Error::other("no name is free"))
}

/// Whether these names are free for the file and its seal, or have the same bytes already.
fn may_be_kept(
    rt: &HostRuntime,
    path: &str,
    seal: &str,
    has_seal: bool,
    kept: &str,
    kept_seal: &str,
) -> io::Result<bool> {
    let is_kept = is_there(rt, kept)?;
    if is_kept && !has_same_bytes(rt, path, kept)? {
        return Ok(false);
    }
    if !is_there(rt, kept_seal)? {
        return Ok(true);
    }
    if has_seal {
        has_same_bytes(rt, seal, kept_seal)
    } else {
        Ok(is_kept)
    }
}

/// The name under which a file is kept, or its seal, which has an ending more.
fn kept_path(rt: &HostRuntime, path: &str, number: u32, ending: &str) -> io::Result<String> {
    Ok(format!(in rt.alloc(); "{path}{KEPT_BEFORE}{number}{ending}")?)
}

/// Keeps what the file at the path has, which is open here too, under the name of this number. One that is empty is not kept.
pub fn keep_beside(
    rt: &HostRuntime,
    path: &str,
    file: &File,
    number: u32,
) -> io::Result<Option<Kept>> {
    if file.metadata()?.len() == 0 {
        return Ok(None);
    }
    file.sync_all()?;
    let kept = kept_path(rt, path, number, "")?;
    keep_as(rt, path, kept.as_str())?;
    kept_as(rt, kept, number)
}

/// Keeps the seal of the file at the path, where there is one, under the name of this number.
pub fn keep_seal(
    rt: &HostRuntime,
    path: &str,
    seal: &str,
    number: u32,
) -> io::Result<Option<Kept>> {
    if !fs::exists(rt, seal)? {
        return Ok(None);
    }
    fs::open(rt, seal)?.sync_all()?;
    let kept = kept_path(rt, path, number, SEAL)?;
    keep_as(rt, seal, kept.as_str())?;
    kept_as(rt, kept, number)
}

/// A link of this name, or a copy where the file system knows no links. What is there already has the same bytes.
fn keep_as(rt: &HostRuntime, path: &str, kept: &str) -> io::Result<()> {
    if is_there(rt, kept)? {
        if has_same_bytes(rt, path, kept)? {
            return fs::open(rt, kept)?.sync_all();
        }
        return Err(io::Error::from(io::ErrorKind::AlreadyExists));
    }
    match fs::hard_link(rt, path, kept) {
        Err(error) if error.kind() != io::ErrorKind::AlreadyExists => copy_to(rt, path, kept),
        answer => answer,
    }
}

fn kept_as(rt: &HostRuntime, path: String, number: u32) -> io::Result<Option<Kept>> {
    let content = content_of(rt, path.as_str())?;
    Ok(Some(Kept {
        path,
        number,
        content,
    }))
}

/// A copy under a name of its own, which is the kept one's once it is whole and on its disk.
fn copy_to(rt: &HostRuntime, path: &str, kept: &str) -> io::Result<()> {
    let part = format!(in rt.alloc(); "{kept}{UNFINISHED}")?;
    match copy_whole(rt, path, part.as_str()) {
        Ok(()) => fs::rename(rt, part.as_str(), kept),
        Err(error) => {
            let _ = fs::remove_file(rt, part.as_str());
            Err(error)
        }
    }
}

fn copy_whole(rt: &HostRuntime, path: &str, part: &str) -> io::Result<()> {
    let mut from = fs::open(rt, path)?;
    let mut to = fs::create(rt, part)?;
    let _ = io::copy(&mut from, &mut to)?;
    to.set_permissions(from.metadata()?.permissions())?;
    to.sync_all()
}

/// Whether something has the name, which may be a link that leads nowhere.
fn is_there(rt: &HostRuntime, path: &str) -> io::Result<bool> {
    match fs::symlink_metadata(rt, path) {
        Ok(_) => Ok(true),
        Err(error) if error.kind() == io::ErrorKind::NotFound => Ok(false),
        Err(error) => Err(error),
    }
}

/// Whether the file has the bytes of another that was kept. Something else than a regular file has others, a link to one too, which may lead
/// to the very file whose name another is to take.
fn has_same_bytes(rt: &HostRuntime, one: &str, other: &str) -> io::Result<bool> {
    let ours = fs::metadata(rt, one)?;
    let theirs = match fs::symlink_metadata(rt, other) {
        Ok(theirs) => theirs,
        Err(_) => return Ok(false),
    };
    if !theirs.is_file() || ours.len() != theirs.len() {
        return Ok(false);
    }
    let mut one = fs::open(rt, one)?;
    let mut other = match fs::open(rt, other) {
        Ok(other) => other,
        Err(_) => return Ok(false),
    };
    are_alike(rt, &mut one, &mut other)
}

fn are_alike(rt: &HostRuntime, one: &mut File, other: &mut File) -> io::Result<bool> {
    let mut ours = vec![in rt.alloc(); 0u8; PIECE]?;
    let mut theirs = vec![in rt.alloc(); 0u8; PIECE]?;
    go_on_alike(one, &mut ours, other, &mut theirs)
}

/// The same from where both stand on, piece by piece.
fn go_on_alike(
    one: &mut File,
    ours: &mut [u8],
    other: &mut File,
    theirs: &mut [u8],
) -> io::Result<bool> {
    for _ in 0..u64::MAX {
        let n = fill(one, ours)?;
        let m = fill(other, theirs)?;
        if n != m || ours[..n] != theirs[..m] {
            return Ok(false);
        }
        if n == 0 {
            break;
        }
    }
    Ok(true)
}

fn content_of(rt: &HostRuntime, path: &str) -> io::Result<Content> {
    content_in(rt, &mut fs::open(rt, path)?)
}

/// What a file has from where it stands on.
pub fn content_in(rt: &HostRuntime, file: &mut File) -> io::Result<Content> {
    let bytes = file.metadata()?.len();
    let mut piece = vec![in rt.alloc(); 0u8; PIECE]?;
    let heard = heard_in(file, &mut piece)?;
    if !heard.is_journal {
        return Ok(Content::Other { bytes });
    }
    if heard.line.is_end() {
        return Ok(Content::Journal {
            lines: heard.ends.saturating_sub(2),
        });
    }
    Ok(Content::Unended {
        lines: heard.ends.saturating_sub(1),
    })
}

/// What was heard of a file: whether it begins as a journal does, how many lines it has, and how the last one begins.
#[derive(Drop)]
struct Heard {
    is_journal: bool,
    ends: u64,
    line: LastLine,
}

/// Hears a file to its end, piece by piece.
fn heard_in(file: &mut File, piece: &mut [u8]) -> io::Result<Heard> {
    let mut heard = Heard {
        is_journal: false,
        ends: 0,
        line: LastLine::new(),
    };
    for turn in 0..u64::MAX {
        let n = fill(file, piece)?;
        if turn == 0 {
            heard.is_journal = piece[..n].starts_with(JOURNAL_HEAD);
        }
        if n == 0 {
            break;
        }
        let ends = piece[..n].iter().filter(|byte| **byte == b'\n').count();
        heard.ends = heard.ends.saturating_add(ends as u64);
        heard.line.hear(&piece[..n]);
    }
    Ok(heard)
}

/// How the last line begins that was heard of a file, and whether it is whole.
#[derive(Drop)]
struct LastLine {
    front: [u8; 4],
    count: usize,
    is_whole: bool,
}

impl LastLine {
    fn new() -> Self {
        LastLine {
            front: [0; 4],
            count: 0,
            is_whole: false,
        }
    }

    fn hear(&mut self, bytes: &[u8]) {
        for byte in bytes {
            self.hear_one(*byte);
        }
    }

    fn hear_one(&mut self, byte: u8) {
        if self.is_whole {
            self.count = 0;
        }
        if self.count < 4 {
            self.front[self.count] = byte;
            self.count += 1;
        }
        self.is_whole = byte == b'\n';
    }

    /// Whether it is an END line.
    fn is_end(&self) -> bool {
        self.is_whole && self.front == *END
    }
}

/// As many bytes as fit, or as there are.
fn fill(file: &mut File, piece: &mut [u8]) -> io::Result<usize>
    ensures bound { IfOk result (λ n. n ≤ length piece.new) }
    ensures length { length piece.new ≡ length piece.old }
{
    let mut filled = 0;
    while filled < piece.len() {
        let n = read_behind(file, piece, filled)?;
        if n == 0 {
            break;
        }
        filled += n;
    }
    Ok(filled)
}

/// Reads behind so many bytes, and says how many came.
fn read_behind(file: &mut File, piece: &mut [u8], filled: usize) -> io::Result<usize>
    requires { filled ≤ length piece.old }
    ensures bound { IfOk result (λ n. filled + n ≤ length piece.new) }
    ensures length { length piece.new ≡ length piece.old }
{
    file.read(&mut piece[filled..])
}
