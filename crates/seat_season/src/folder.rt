//! The folder that a file lies in, by the file's name.
ghost use Rattle.std.specs.Option.{MatchOption};
ghost use Rattle.seat_season.specs.Folders.{HasNoSlash, IsFolderOf};

/// What stands ahead of the last slash of the name, where it has one.
pub fn folder_of(file: &str) -> Option<&str>
    ensures { MatchOption result (HasNoSlash file.now) (λ folder. IsFolderOf file.now folder.now) }
{
    match file.rsplit_once('/') {
        Some((folder, _)) => Some(folder),
        None => None,
    }
}
