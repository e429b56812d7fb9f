//! Stretches between edges, each with a row: they are given from the last row to the first, and the first to come stays.
ghost use Rattle.std.specs.Prelude.{◌≡◌, ◌≤◌, ◌<◌, Some, None, length, replicate, slice_set, IfOk};
ghost use Rattle.row_stretches.specs.Painting.{IsNext, Paints, Skips};

use airline_base::Memory;
use std::alloc::Global;

/// The row of each stretch, if it has one.
#[derive(Drop)]
pub struct Stretches {
    pub rows: Vec<Option<u32>>,
    /// From each stretch one at or behind it, where all between have a row.
    pub skips: Vec<usize>,
}

impl Stretches {
    /// So many stretches without a row.
    #[tactic(auto, using(crate::proofs::Painting::skip_none_more, crate::proofs::Painting::skips_at_first))]
    pub fn new(alloc: Global, count: usize) -> Result<Stretches, Memory>
        ensures rows { IfOk result (λ s. s.rows.items ≡ replicate count None) }
        ensures skips { IfOk result (λ s. Skips s.rows.items s.skips.items) }
    {
        let Ok(rows) = vec![in alloc; None; count] else {
            return Err(Memory);
        };
        let mut skips = Vec::new(alloc);
        for i in 0..count {
            let Ok(()) = skips.push(i) else {
                return Err(Memory);
            };
        }
        let Ok(()) = skips.push(count) else {
            return Err(Memory);
        };
        Ok(Stretches { rows, skips })
    }

    /// Gives a row to those stretches of a range that have none.
    #[tactic(auto, using(crate::proofs::Painting::paint_start, crate::proofs::Painting::paint_more, crate::proofs::Painting::paint_end))]
    pub fn paint(&mut self, from: usize, to: usize, row: u32)
        requires skips { Skips self.old.rows.items self.old.skips.items }
        requires from { from ≤ length self.old.rows.items }
        requires to { to ≤ length self.old.rows.items }
        ensures skips { Skips self.new.rows.items self.new.skips.items }
        ensures painted { Paints self.old.rows.items self.new.rows.items from to row }
    {
        let mut at = self.open_from(from);
        while at < to {
            self.paint_one(at, row);
            at = self.open_from(at + 1);
        }
    }

    #[tactic(auto, using(crate::proofs::Painting::skips_closed))]
    fn paint_one(&mut self, at: usize, row: u32)
        requires skips { Skips self.old.rows.items self.old.skips.items }
        requires inside { at < length self.old.rows.items }
        ensures skips { Skips self.new.rows.items self.new.skips.items }
        ensures painted { self.new.rows.items ≡ slice_set self.old.rows.items at (Some row) }
    {
        self.rows[at] = Some(row);
        self.skips[at] = at + 1;
    }

    /// The first stretch from this one on that has no row, or the number of stretches.
    #[tactic(auto, using(crate::proofs::Painting::skips_twice))]
    fn open_from(&mut self, from: usize) -> usize
        requires skips { Skips self.old.rows.items self.old.skips.items }
        requires inside { from ≤ length self.old.rows.items }
        ensures rows { self.new.rows.items ≡ self.old.rows.items }
        ensures skips { Skips self.new.rows.items self.new.skips.items }
        ensures next { IsNext self.old.rows.items from result }
    {
        let mut at = from;
        while self.skips[at] > at {
            let next = self.skips[at];
            let behind = self.skips[next];
            self.skips[at] = behind;
            at = behind;
        }
        at
    }
}
