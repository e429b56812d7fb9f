//! A season's names of files, as words of the command line.
ghost use Rattle.std.specs.Prelude.{◌≡◌, IfOk, option_map, string_bytes};
ghost use Rattle.seat_season.specs.Folders.{begins_with, guarded, in_folder, path_in};

use std::alloc::{AllocError, Global};

/// The path of a file that a season names, which lies in this folder: relative names are relative to it, and none reads as an option.
pub fn path_of(alloc: Global, folder: Option<&str>, name: &str) -> Result<String, AllocError>
    ensures { IfOk result (λ path. string_bytes path ≡ path_in (option_map (λ f. f.now) folder.entry) name.now) }
{
    if begins_with(b'/', name) {
        return String::from_str(alloc, name);
    }
    let Ok(path) = in_folder(alloc, folder, name) else {
        return Err(AllocError);
    };
    guarded(alloc, path)
}

fn in_folder(alloc: Global, folder: Option<&str>, name: &str) -> Result<String, AllocError>
    ensures { IfOk result (λ path. string_bytes path ≡ in_folder (option_map (λ f. f.now) folder.entry) name.now) }
{
    let Some(folder) = folder else {
        return String::from_str(alloc, name);
    };
    let Ok(mut path) = String::from_str(alloc, folder) else {
        return Err(AllocError);
    };
    let Ok(()) = path.push_str("/") else {
        return Err(AllocError);
    };
    let Ok(()) = path.push_str(name) else {
        return Err(AllocError);
    };
    Ok(path)
}

/// The path with `./` ahead of it, where it would read as an option.
fn guarded(alloc: Global, path: String) -> Result<String, AllocError>
    ensures { IfOk result (λ guarded_path. string_bytes guarded_path ≡ guarded (string_bytes path)) }
{
    if !begins_with(b'-', path.as_str()) {
        return Ok(path);
    }
    let Ok(mut guarded) = String::from_str(alloc, "./") else {
        return Err(AllocError);
    };
    let Ok(()) = guarded.push_str(path.as_str()) else {
        return Err(AllocError);
    };
    Ok(guarded)
}

fn begins_with(byte: u8, name: &str) -> bool
    ensures { result ≡ begins_with byte name.now }
{
    match name.as_bytes() {
        [first, ..] => *first == byte,
        [] => false,
    }
}
