// Where the rows and the skip cells of each size begin.
#![tactic(auto)]

ghost use Rattle.std.specs.Prelude.{◌≡◌, ◌+◌, ◌≤◌, length};
ghost use Rattle.rules.specs.Query.{table_count};
ghost use Rattle.skips.specs.Vectors.{written};
ghost use Rattle.starts.specs.Starts.{starts, cell_starts};

use rows::tally::Tally;

// Writes where the rows and the skip cells of each size begin: into cell k, how many rows and how many cells have sizes below k.
pub fn lay_starts(tally: &Tally, firsts: &mut [usize], cells: &mut [usize])
    requires { (table_count tally.now.graph.now + 2 ≤ length firsts.old) × (table_count tally.now.graph.now + 2 ≤ length cells.old) }
    ensures firsts { firsts.new ≡ written firsts.old 0 (starts tally.now.graph.now) }
    ensures cells { cells.new ≡ written cells.old 0 (cell_starts tally.now.graph.now) }
{
    let graph = tally.graph;
    let tables = graph.rows.len();
    let mut row = 0usize;
    let mut cell = 0usize;
    for k in 0..tables {
        firsts[k + 1] = row;
        cells[k + 1] = cell;
        let count = tally.counts[k + 1];
        row += count;
        cell += count * (k + 1);
    }
    firsts[tables + 1] = row;
    cells[tables + 1] = cell;
    firsts[0] = 0;
    cells[0] = 0;
}
