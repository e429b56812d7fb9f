//! What fault lines, replies and notes mean: the command `explain`, and what stands below a fault on a terminal.
use crate::meaning::{Meaning, meaning_of};
use crate::undone::Undone;
use airline_base::{WriteFault, put_all};
use seat_desk::DeskFault;
use seat_files::{Fault, Refusal, standard_output};
use seat_words::wrong_value;
use std::alloc::AllocError;

/// The word that calls this command.
const COMMAND: &str = "explain";

/// What stands ahead of a fault of no line.
const DASH: &str = "-";

/// The same, where it is one word with the fault.
const DASH_AND_BLANK: &str = "- ";

/// Writes what a fault line means, or what a reply or a note says.
pub fn explain(rt: &HostRuntime, code: &str, behind: &[&str]) -> Result<(), Undone> {
    let text = match meaning_of(rt.alloc(), code, behind)? {
        Meaning::Found(text) => text,
        Meaning::Unknown(word) => return Err(unknown(rt, word)?),
    };
    write(rt, &text)
}

/// Adds a word of the command line. What a feed is told of no line is explained as it was printed, as `- FAULT H7 - 17` in one word too: its dash is then a word
/// of its own, since one that begins with a dash and goes on would be an option.
pub fn add_word<'a>(words: &mut Vec<&'a str>, word: &'a str) -> Result<(), AllocError> {
    match word.strip_prefix(DASH_AND_BLANK) {
        Some(fault) if is_explained(words) => {
            words.push(DASH)?;
            words.push(fault)?;
        }
        _ => words.push(word)?,
    }
    Ok(())
}

/// Whether the words, of which the first is the program's own name, call this command: it is the first of them that begins with no dash.
fn is_explained(words: &[&str]) -> bool {
    for word in words.iter().skip(1) {
        if !word.starts_with(DASH) {
            return *word == COMMAND;
        }
    }
    false
}

/// Says on standard error what a fault means, below its line. Where memory is refused for that, nothing is said.
pub fn tell(rt: &HostRuntime, fault: &Fault) {
    if let Ok(text) = text_of(rt, fault) {
        let _ = eprint!(rt; "{text}");
    }
}

fn text_of(rt: &HostRuntime, fault: &Fault) -> Result<String, AllocError> {
    let printed = format!(in rt.alloc(); "{fault}")?;
    match meaning_of(rt.alloc(), &printed, &[])? {
        Meaning::Found(text) => Ok(text),
        Meaning::Unknown(_) => Ok(String::new(rt.alloc())),
    }
}

fn unknown(rt: &HostRuntime, word: &str) -> Result<Undone, AllocError> {
    let mut message = String::new(rt.alloc());
    message.push_str("invalid value '")?;
    message.push_str(word)?;
    message.push_str("' for a fault line")?;
    Ok(Undone::Word(wrong_value(rt.alloc(), message.as_str())?))
}

fn write(rt: &HostRuntime, text: &str) -> Result<(), Undone> {
    let mut out = standard_output(rt);
    match put_all(&mut out, text.as_bytes()) {
        Ok(()) => Ok(()),
        Err(WriteFault::Device) => Err(Undone::Refused(Refusal::from(
            DeskFault::Device,
        ).noting_output(&out))),
    }
}
