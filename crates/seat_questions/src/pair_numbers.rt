//! A number for each flight and city pair that has limit rows.
ghost use Rattle.std.specs.Prelude.{◌≡◌, ◌<◌, length, IfOk, OnOk};
ghost use Rattle.seat_limits.specs.Authorised.{PutsRow, row_pair};
ghost use Rattle.seat_questions.specs.PairNumbers.{AreNumbered, number_of};

use airline_base::Memory;
use seat_limits::{LimitRow, Pair};
use std::alloc::Global;
use std::collections::HashMap;

/// The number of each pair that has a row: the place of its last one.
#[derive(Drop)]
pub struct PairNumbers {
    pub last: HashMap<Pair, usize>,
    pub count: usize,
}

impl PairNumbers {
    pub fn new(alloc: Global, rows: &[LimitRow]) -> Result<PairNumbers, Memory>
        ensures numbered { IfOk result (λ n. AreNumbered n.last rows.now (length rows.now)) }
        ensures count { IfOk result (λ n. n.count ≡ length rows.now) }
    {
        let mut last = HashMap::new(alloc);
        for i in 0..rows.len() {
            put(&mut last, pair_of(&rows[i]), i)?;
        }
        Ok(PairNumbers {
            last,
            count: rows.len(),
        })
    }

    /// The number of a pair. Those without rows share one that no row's pair has.
    pub fn of(&self, pair: Pair) -> usize
        ensures { result ≡ number_of self.now.last self.now.count pair }
    {
        match self.last.get(&pair) {
            Some(number) => *number,
            None => self.count,
        }
    }
}

/// Gives a pair this number.
fn put(last: &mut HashMap<Pair, usize>, pair: Pair, number: usize) -> Result<(), Memory>
    ensures { OnOk result (PutsRow last.old last.new pair number) }
{
    let _ = last.insert(pair, number)?;
    Ok(())
}

/// The pair of a row.
pub fn pair_of(row: &LimitRow) -> Pair
    ensures { result ≡ row_pair row.now }
{
    Pair {
        airline: row.airline,
        number: row.number,
        suffix: row.suffix,
        board: row.board,
        off: row.off,
    }
}
