// Laying out the memo as a whole.
ghost use Rattle.std.specs.Prelude.{◌≡◌, ◌≤◌, length, take, replicate};
ghost use Rattle.rules.specs.Rows.{memo};
ghost use Rattle.rules.specs.Skips.{skips};
ghost use Rattle.skips.specs.Vectors.{written};
ghost use Rattle.memo.specs.Layout.{held, SameLists, OneLength, Room, laid, LaidOut};

use super::lent::Memo;
use fill::lay_rows;
use rows::tally::Tally;
use rules::refusal::{Reason, Refusal};
use skips::fill_vectors;

// How many rows and skip cells have been laid out.
#[derive(Clone, Copy)]
pub struct Laid {
    pub rows: u64,
    pub cells: u64,
}

// Writes the skip vectors of all sizes, in memo order; `sets` begins with the sets of all rows.
fn lay_skips(tally: &Tally, sets: &[u64], out: &mut [u64])
    requires sets { take (length (memo tally.now.graph.now)) sets.now ≡ memo tally.now.graph.now }
    requires room { length (skips tally.now.graph.now) ≤ length out.old }
    ensures { out.new ≡ written out.old 0 (skips tally.now.graph.now) }
{
    let graph = tally.graph;
    let mut from = 0usize;
    let mut at = 0usize;
    for k in 0..graph.rows.len() {
        let count = tally.counts[k + 1];
        fill_vectors(sets, from, from + count, k + 1, out, at);
        from += count;
        at += count * (k + 1);
    }
}

// Writes every column and the skip cells; `count` is the number of the rows.
fn lay_columns(tally: &Tally, count: usize, lent: &mut Memo)
    requires one_length { OneLength (held lent.old) }
    requires room { Room tally.now.graph.now (held lent.old) }
    requires count { count ≡ length (memo tally.now.graph.now) }
    ensures same { SameLists lent.old lent.new }
    ensures laid { held lent.new ≡ laid tally.now.graph.now (held lent.old) }
{
    let sets = &mut *lent.sets;
    let estimates = &mut *lent.estimates;
    lay_rows(tally, sets, estimates);
    let costs = &mut *lent.costs;
    costs[..count].fill(0);
    let outers = &mut *lent.outers;
    outers[..count].fill(0);
    let methods = &mut *lent.methods;
    methods[..count].fill(0);
    let skips = &mut *lent.skips;
    lay_skips(tally, sets, skips);
}

// Lays out the memo, or answers refusal 13 or 14 where a lent list is too short; nothing is written before both counts have passed.
pub fn lay_out(tally: &Tally, lent: &mut Memo) -> Result<Laid, Refusal>
    requires { OneLength (held lent.old) }
    ensures same { SameLists lent.old lent.new }
    ensures laid { LaidOut tally.now.graph.now (held lent.old) (held lent.new) result }
{
    let rows = tally.rows();
    if lent.sets.len() < rows {
        return Err(Reason::MemoRows.at(0));
    }
    let cells = tally.cells();
    if lent.skips.len() < cells {
        return Err(Reason::SkipCells.at(0));
    }
    lay_columns(tally, rows, lent);
    Ok(Laid {
        rows: rows as u64,
        cells: cells as u64,
    })
}
