//! How far a feed has come in a journal.
//! It knows whose each line is.
ghost use Rattle.std.specs.Prelude.{◌≡◌, ◌≤◌, ◌<◌, length, IfNone, IfSome};
ghost use Rattle.seat_rules.specs.Journal.{calls_of};
ghost use Rattle.desk_feed.specs.Progress.{all_calls, kind_of, start, HasPassed, IsKind, IsProgress};

use seat_journal::Entry;

/// What the number of a call is to its session.
#[derive(Clone, Copy)]
pub enum CallKind {
    /// It is that of the next call.
    Next,
    /// The session has that call, or it is 0.
    There,
    /// It is beyond the next.
    Beyond,
}

/// How many lines of a journal a feed has come to, and how many calls the manager (0) and each session (1 to 8) have in them.
#[derive(Clone, Copy)]
pub struct Progress {
    pub lines: u32,
    pub calls: [u32; 9],
}

impl Progress {
    /// Ahead of the first line of any journal.
    pub fn start() -> Progress
        ensures { result ≡ start }
    {
        Progress {
            lines: 0,
            calls: [0; 9],
        }
    }

    /// Behind the first `lines` of a journal. `None` where it has fewer.
    pub fn behind(journal: &[Entry], lines: u32) -> Option<Progress>
        requires few { length journal.now ≤ 999999 }
        ensures behind { IfSome result (IsProgress journal.now) }
        ensures lines { IfSome result (λ p. p.lines ≡ lines) }
        ensures none { IfNone result (length journal.now < lines) }
    {
        let count = lines as usize;
        if count > journal.len() {
            return None;
        }
        let front = &journal[..count];
        Some(Progress {
            lines,
            calls: calls_in(front),
        })
    }

    /// What a number is to a session, 0 to 8.
    pub fn kind_of(&self, session: u8, number: u32) -> CallKind
        requires session { session ≤ 8 }
        ensures kind { IsKind self.now session number result }
    {
        kind_of(self.calls[usize::from(session)], number)
    }

    /// Comes to a line more, of this session, 0 to 8.
    pub fn pass(&mut self, session: u8)
        requires session { session ≤ 8 }
        ensures passed { HasPassed self.old self.new session }
    {
        let place = usize::from(session);
        self.calls[place] = self.calls[place].saturating_add(1);
        self.lines = self.lines.saturating_add(1);
    }
}

fn kind_of(calls: u32, number: u32) -> CallKind
    ensures { result ≡ kind_of calls number }
{
    if number <= calls {
        return CallKind::There;
    }
    if number - calls == 1 {
        return CallKind::Next;
    }
    CallKind::Beyond
}

// How many of these lines each has.
fn calls_in(lines: &[Entry]) -> [u32; 9]
    requires few { length lines.now ≤ 999999 }
    ensures { result ≡ all_calls lines.now }
{
    [
        calls_of(lines, 0),
        calls_of(lines, 1),
        calls_of(lines, 2),
        calls_of(lines, 3),
        calls_of(lines, 4),
        calls_of(lines, 5),
        calls_of(lines, 6),
        calls_of(lines, 7),
        calls_of(lines, 8),
    ]
}

fn calls_of(lines: &[Entry], session: u8) -> u32
    requires few { length lines.now ≤ 999999 }
    ensures { result ≡ calls_of lines.now session }
{
    lines.iter().filter(|e| e.session == session).count() as u32
}
