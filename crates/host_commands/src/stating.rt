//! What a host of desks on pipes, or of a feed, says of itself while it runs: on a terminal, or in a file of its own.
//! It knows how often and where that is said, and nothing of what is counted.
use desk_status::{MOST_STATUS, Sayer, is_status};
use seat_files::{Refusal, Shown, StatusFile};
use seat_words::every_word;
use std::fs::File;
use std::io;
use std::io::{IsTerminal, Read};
use std::time::Duration;

/// How many seconds pass from one line to the next where the words don't say it.
const MINUTE: u16 = 60;

/// Where the status goes.
#[derive(Drop)]
enum Place {
    Terminal,
    File(StatusFile),
}

/// Says a host's status.
#[derive(Drop)]
pub struct Status {
    rt: HostRuntime,
    place: Place,
    /// Whether the line before could not be written.
    has_failed: bool,
}

impl Status {
    /// In the file, or on standard error where that is a terminal. Else it is not said.
    pub fn of(rt: &HostRuntime, file: Option<StatusFile>) -> Option<Status> {
        let place = match file {
            Some(file) => Place::File(file),
            None if rt.stderr().is_terminal() => Place::Terminal,
            None => return None,
        };
        Some(Status {
            rt: *rt,
            place,
            has_failed: false,
        })
    }
}

impl Sayer for Status {
    fn say(&mut self, line: &[u8]) {
        let rt = &self.rt;
        match &self.place {
            Place::Terminal => {
                if let Ok(line) = str::from_utf8(line) {
                    let _ = eprint!(rt; "seatdesk: {line}");
                }
            }
            Place::File(file) => match file.put(rt, line) {
                Ok(()) => self.has_failed = false,
                Err(error) => {
                    if !self.has_failed {
                        let name = Shown { name: file.path() };
                        let _ = eprintln!(rt; "seatdesk: note: no status in {name}: {error}");
                    }
                    self.has_failed = true;
                }
            },
        }
    }
}

/// Refuses a file that has something else than a status of a host: it would be lost. One that is empty or is not there has nothing.
pub fn pass_status(rt: &HostRuntime, path: &str) -> Result<(), Refusal> {
    match has_status_alone(rt, path) {
        Ok(true) => Ok(()),
        Ok(false) => Err(Refusal::unsaid(path, "Is there, and is no status of a host")),
        Err(error) if error.kind() == io::ErrorKind::NotFound => Ok(()),
        Err(_) => Err(Refusal::unsaid(path, "Is there, and can't be read")),
    }
}

/// Whether a file has a status of a host and nothing behind it, or is empty.
fn has_status_alone(rt: &HostRuntime, path: &str) -> io::Result<bool> {
    let mut file = File::open(rt, path)?;
    let mut bytes = [0u8; MOST_STATUS];
    let count = file.read(&mut bytes)?;
    let mut more = [0u8; 1];
    if file.read(&mut more)? > 0 {
        return Ok(false);
    }
    Ok(count == 0 || is_status(&bytes[..count]))
}

/// How often it is said.
pub fn interval_asked(every: Option<&str>) -> Result<Duration, Refusal> {
    let seconds = match every {
        None => MINUTE,
        Some(word) => match every_word(word) {
            Some(seconds) => seconds,
            None => return Err(Refusal::unsaid(word, "Is no number of 1 to 3600 seconds")),
        },
    };
    Ok(Duration::from_secs(u64::from(seconds)))
}
