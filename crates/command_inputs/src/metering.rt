//! The line on standard error that says how far a command is, and the inputs that are counted for it.
//! It knows terminals and inputs, and nothing of what a command does with what it reads.
ghost use Rattle.std.specs.Prelude.{◌≡◌, length};

use progress_meter::{Lines, Meter, Screen, Stage, Tally};
use seat_desk::Inputs;
use seat_files::Input;
use std::io::{IsTerminal, Write};
use std::thread::Threads;
use std::{env, fs};

/// The name of standard input among inputs.
const STANDARD_INPUT: &str = "standard input";

/// Where the system says which processes a terminal listens to.
const PROCESS: &str = "/proc/self/stat";

/// Standard error, which is a terminal.
#[derive(Drop)]
struct Terminal {
    rt: HostRuntime,
}

impl Screen for Terminal {
    fn show(&mut self, text: &[u8]) {
        let rt = &self.rt;
        if is_in_front(rt) {
            let _ = rt.stderr().write_all(text);
        }
    }
}

/// A meter on standard error, of a command that does this work once all is read: where standard error is a terminal on which a line can
/// be taken away, and the words don't ask for quiet.
pub fn meter_of<T: Threads>(rt: &HostRuntime, threads: &T, work: Stage, is_quiet: bool) -> Meter {
    if is_quiet || !rt.stderr().is_terminal() || !can_erase(rt) {
        return Meter::none();
    }
    Meter::start(threads, rt, rt.alloc(), work, Terminal { rt: *rt })
}

/// Whether the terminal is one that takes a line away: it has a name, and not that of one that can't.
fn can_erase(rt: &HostRuntime) -> bool {
    match env::var(rt, "TERM") {
        Ok(name) => !name.is_empty() && name.as_str() != "dumb",
        Err(_) => false,
    }
}

/// Whether the terminal listens to this process. What runs behind another writes nothing on it. Where the system doesn't say, it does.
fn is_in_front(rt: &HostRuntime) -> bool {
    match fs::read_to_string(rt, PROCESS) {
        Ok(told) => is_listened_to(told.as_str()),
        Err(_) => true,
    }
}

/// Behind the command's name in brackets stand the state, the parent, the process group, the session, the terminal, and the group that
/// the terminal listens to, which is -1 without a terminal (proc(5)).
fn is_listened_to(told: &str) -> bool {
    let Some((_, behind)) = told.rsplit_once(')') else {
        return true;
    };
    let mut words = behind.split_ascii_whitespace();
    let group = words.nth(2);
    let front = words.nth(2);
    match front {
        Some(front) => front.starts_with('-') || front == "0" || group == Some(front),
        None => true,
    }
}

/// What an input gives is counted from here on: the lines of a journal too. A text of the program's own isn't, nor one that is held. Where an input is typed the
/// meter ends, which would stand in the midst of what is typed.
pub fn meter_input(rt: &HostRuntime, meter: &Meter, input: &mut Input, lines: Lines) {
    if input.name().is_empty() || input.held().is_some() {
        return;
    }
    input.count_by(Tally::new(meter, size_of(input), lines));
    if input.name() == STANDARD_INPUT && rt.stdin().is_terminal() {
        meter.end(rt);
    }
}

/// How many bytes there are to read of a regular file.
fn size_of(input: &Input) -> Option<u64> {
    match input.metadata() {
        Ok(Some(file)) if file.is_file() => Some(file.len()),
        _ => None,
    }
}

/// The set and the limits are counted.
pub fn meter_inputs(rt: &HostRuntime, meter: &Meter, inputs: &mut Inputs<Input, Input>)
    ensures first { inputs.new.first ≡ inputs.old.first }
    ensures days { inputs.new.days ≡ inputs.old.days }
{
    meter_input(rt, meter, &mut inputs.set, Lines::Uncounted);
    meter_input(rt, meter, &mut inputs.limits, Lines::Uncounted);
}

/// Scripts or journals are counted.
pub fn meter_each(rt: &HostRuntime, meter: &Meter, inputs: &mut Vec<Input>, lines: Lines)
    ensures { length inputs.new.items ≡ length inputs.old.items }
{
    for input in inputs.iter_mut() {
        meter_input(rt, meter, input, lines);
    }
}
