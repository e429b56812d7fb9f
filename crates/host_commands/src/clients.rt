//! Whom a host serves: a desk or a feed on standard input, or desks on pipes.
//! It knows which words name which, and nothing of how they are served.
use crate::feeding::{Fed, feed_asked};
use crate::piping::{Pipes, desks_named};
use crate::stating::{Status, pass_status};
use seat_desk::Inputs;
use seat_files::{Input, Refusal, StatusFile};
use seat_words::ServeJob;

/// Whom a host serves. Of a feed it is known how it is read, or only how it is asked for.
#[derive(Drop)]
pub enum Clients<F> {
    /// A desk on standard input and standard output.
    Desk,
    /// One stream of lines for all desks.
    Feed(F),
    /// Desks and a manager on pipes.
    Pipes(Pipes),
}

/// Those that the words name; pipes are open.
pub fn clients_named(rt: &HostRuntime, asked: &ServeJob<'_>) -> Result<Clients<Fed>, Refusal> {
    if asked.closes_departed && asked.manager.is_none() {
        return Err(Refusal::unfit("--close-departed", "Needs a manager, who gives the days"));
    }
    if let Some(fed) = feed_asked(asked)? {
        return Ok(Clients::Feed(fed));
    }
    match desks_named(rt, asked)? {
        Some(pipes) => Ok(Clients::Pipes(pipes)),
        None => Ok(Clients::Desk),
    }
}

impl Clients<Fed> {
    /// They say their host's status so.
    pub fn place(&mut self, rt: &HostRuntime, file: Option<StatusFile>) {
        match self {
            Clients::Desk => {}
            Clients::Feed(fed) => fed.status = Status::of(rt, file),
            Clients::Pipes(pipes) => pipes.status = Status::of(rt, file),
        }
    }
}

/// The file of the host's status, where the words name one. It may not be an input or the journal, which is there, nor have anything but a status.
pub fn status_named(
    rt: &HostRuntime,
    asked: &ServeJob<'_>,
    inputs: &Inputs<Input, Input>,
) -> Result<Option<StatusFile>, Refusal> {
    let Some(path) = asked.status else {
        return Ok(None);
    };
    let file = StatusFile::of(rt, path, inputs, asked.journal)?;
    pass_status(rt, path)?;
    Ok(Some(file))
}
