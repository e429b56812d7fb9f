//! The scripts of a command, one for each session. It knows which word a session has, and nothing of what is in a script.
ghost use Rattle.std.specs.Prelude.{◌≡◌, IfOk, length};

use seat_desk::DeskFault;
use seat_files::{Input, Output, Refusal, opened};
use seat_words::session_file;

/// The script of each session, open. A session without a word has an empty one.
pub fn scripts_opened(
    rt: &HostRuntime,
    words: &[&str],
    sessions: usize,
) -> Result<Vec<Input>, Refusal>
    ensures { IfOk result (λ files. length files.items ≡ sessions) }
{
    let mut files = Vec::new(rt.alloc());
    for place in 0..sessions {
        let file = script_opened(rt, session_file(words, place + 1))?;
        if files.push(file).is_err() {
            return Err(Refusal::from(DeskFault::Memory));
        }
    }
    Ok(files)
}

fn script_opened(rt: &HostRuntime, path: Option<&str>) -> Result<Input, Refusal> {
    match path {
        Some(path) => opened(rt, path),
        None => Ok(Input::of_text(Vec::new(rt.alloc()))),
    }
}

/// The refusal of a command that reads scripts behind its other inputs, and more behind those.
pub fn behind(
    outcome: Result<(), Refusal>,
    scripts: &[Input],
    more: &[&Input],
    outputs: &[&Output],
) -> Result<(), Refusal> {
    match outcome {
        Ok(()) => Ok(()),
        Err(refusal) => Err(
            refusal
                .noting_each(scripts)
                .noting_all(more)
                .noting_outputs(outputs),
        ),
    }
}
