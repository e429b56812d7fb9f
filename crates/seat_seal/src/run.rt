//! The runs that a seal names.
ghost use Rattle.std.specs.Prelude.{◌≡◌, ◌+◌, ◌-◌, ◌<◌, ◌≤◌, ◌++◌, ◌∷◌, [], drop, filter, length};
ghost use Rattle.seat_seal.specs.Closing.{runs_within};
ghost use Rattle.seat_seal.specs.Runs.{is_elsewhere, lines_behind, runs_with};
ghost use Rattle.seat_seal.specs.Text.{most_runs};

use crate::date::Date;
use crate::imprint::Imprint;
use crate::scripts::Scripts;
use arrayvec::ArrayVec;
use std::marker::Model;

/// What a run booked, by imprints, and behind how many lines.
#[derive(Drop)]
pub struct Run {
    /// How many lines stand ahead of its scripts, 0 where none does.
    pub behind: u32,
    pub today: Date,
    pub scripts: Scripts,
    /// Of the change rows' bytes, where there are any.
    pub changes: Option<Imprint>,
}

impl Default for Run {
    fn default() -> Self {
        Run {
            behind: 0,
            today: Date {
                year: 0,
                month: 0,
                day: 0,
            },
            scripts: Scripts::new(),
            changes: None,
        }
    }
}

/// At most 128 runs, which a contract sees as their list.
#[derive(Drop)]
pub struct Runs {
    items: ArrayVec<Run, 128>,
}

impl Model for Runs {
    ghost use Rattle.std.specs.Prelude.{List};
    ghost use Rattle.seat_seal.specs.declared.run.Run.{Run};

    ghost Value = { List Run };

    ghost view = { λ r. r.items.items };
}

impl Runs {
    pub fn new() -> Self
        ensures { result ≡ [] }
    {
        Runs {
            items: ArrayVec::new(),
        }
    }

    pub fn as_slice(&self) -> &[Run]
        ensures value { result.now ≡ self.now }
        ensures few { length result.now ≤ most_runs }
    {
        self.items.as_slice()
    }

    /// Adds a run at the end.
    pub fn push(&mut self, run: Run)
        requires { length self.old < most_runs }
        ensures { self.new ≡ self.old ++ run ∷ [] }
    {
        self.items.push(run);
    }

    /// Adds a run at the end, in place of those that began behind as many lines. Where that is one more than a seal says, the oldest goes.
    #[tactic(auto, using(crate::proofs::Newest::newest))]
    pub fn add(&mut self, run: Run)
        ensures { self.new ≡ runs_with self.old run }
    {
        keep_elsewhere(&mut self.items, &run);
        make_room(&mut self.items);
        self.items.push(run);
    }

    /// Leaves the runs that began behind no more than so many lines.
    pub fn keep_within(&mut self, lines: u32)
        ensures { self.new ≡ runs_within lines self.old }
    {
        keep_within(&mut self.items, lines);
    }
}

fn keep_elsewhere(runs: &mut ArrayVec<Run, 128>, run: &Run)
    ensures { runs.new.items ≡ filter (is_elsewhere run.now) runs.old.items }
{
    runs.retain(|other| is_elsewhere(run, other));
}

// For one more.
fn make_room(runs: &mut ArrayVec<Run, 128>)
    ensures items { runs.new.items ≡ drop (length runs.old.items + 1 - most_runs) runs.old.items }
    ensures room { length runs.new.items < most_runs }
    ensures few { length runs.old.items ≤ most_runs }
{
    if runs.is_full() {
        let _oldest = runs.remove(0);
    }
}

fn keep_within(runs: &mut ArrayVec<Run, 128>, lines: u32)
    ensures { runs.new.items ≡ runs_within lines runs.old.items }
{
    runs.retain(|run| run.behind <= lines);
}

/// How many lines stand ahead of the last run's scripts, 0 where there is no run.
pub fn lines_behind(runs: &[Run]) -> u32
    ensures { result ≡ lines_behind runs.now }
{
    match runs {
        [] => 0,
        [run] => run.behind,
        [_, more @ ..] => lines_behind(more),
    }
}

/// Whether a run began behind another number of lines.
fn is_elsewhere(run: &Run, other: &Run) -> bool
    ensures { result ≡ is_elsewhere run.now other.now }
{
    run.behind != other.behind
}
