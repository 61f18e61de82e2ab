// A plan's joins from the memo's rows: "For each join its outer part's joins, then its inner part's, then its own."
ghost use Rattle.std.specs.Prelude.{◌≡◌, ℕ, ◌≤◌, ◌<◌, ◌^◌, length, get_or};
ghost use Rattle.rules.specs.Query.{Query};
ghost use Rattle.rules.specs.Trees.{Tree, tables_of, step_of, Picked};
ghost use Rattle.rules.specs.Writing.{join_lines};
ghost use Rattle.digits.specs.Put.{Put};
ghost use Rattle.writer.specs.Plans.{Rooted, Kept, ToPut};

use super::lines::put_join;
use digits::Line;
use rules::{JoinStep, Step};
use sets::lowest_table;

// The memo of a plan of so many tables, as planning left it: a column for each field of a row.
#[derive(Clone, Copy)]
pub struct Memo<'a> {
    pub tables: u64,
    pub sets: &'a [u64],
    pub estimates: &'a [u64],
    pub costs: &'a [u64],
    pub outers: &'a [u64],
    pub methods: &'a [u64],
}

// The row of a set that has one.
fn row_of(sets: &[u64], set: u64) -> usize
    requires { (j : ℕ) × (j < length sets.now) × (get_or sets.now j 0 ≡ set) }
    ensures { (result < length sets.now) × (get_or sets.now result 0 ≡ set) }
{
    let Some(row) = sets.iter().position(|&s| s == set) else {
        // The clause says that the set has a row.
        unreachable!()
    };
    row
}

// What a row says: a scan where it has no outer part, or a join.
fn step_of(set: u64, outer: u64, method: u64) -> Step
    requires { (0 < set) × (set < 2 ^ 32) × (outer ≤ set) }
    ensures { (t : Tree) → Rooted t set outer method → result ≡ step_of t }
{
    if outer == 0 {
        return Step::Scan(lowest_table(set));
    }
    Step::Join(JoinStep {
        outer,
        inner: set - outer,
        method,
    })
}

// The lines of the joins of `set`'s plan.
pub fn put_joins(line: &mut Line, set: u64, memo: &Memo)
    requires { (q : Query) × Kept q memo.now × ToPut q set line.old }
    ensures { (q : Query) → Kept q memo.now → (t : Tree) → Picked q t → tables_of t ≡ set → Put line.old line.new (join_lines q t) }
{
    let row = row_of(memo.sets, set);
    match step_of(set, memo.outers[row], memo.methods[row]) {
        Step::Scan(_) => (),
        Step::Join(join) => {
            put_joins(line, join.outer, memo);
            put_joins(line, join.inner, memo);
            put_join(
                line,
                memo.tables,
                join,
                memo.estimates[row],
                memo.costs[row],
            );
        }
    }
}
