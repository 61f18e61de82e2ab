// What each table brings to an estimate, in one array: the cell of t and t has the rows of t, that of t and u the divisor of their edge.
#![tactic(auto)]

ghost use Rattle.std.specs.Prelude.{◌≡◌, ◌+◌, ◌-◌, ◌*◌, ◌≤◌, min, max, length, get_or};
ghost use Rattle.rules.specs.Limits.{max_tables, max_rows, max_estimate};
ghost use Rattle.rules.specs.Query.{edge_count};
ghost use Rattle.parts.specs.Parts.{cell_of, Own, Parts, Divides, by_parts};

use query::graph::Graph;
use sets::{lowest_table, single};

// "Then cut to 1,000,000,000,000 if larger."
const MAX_ESTIMATE: u64 = 1_000_000_000_000;

// The cell of the tables `t` and `u`.
// Two tables' place in one list: theorems name it so.
fn cell(t: u64, u: u64) -> usize
    requires { (1 ≤ t) × (t ≤ max_tables) × (1 ≤ u) × (u ≤ max_tables) }
    ensures { result ≡ cell_of t u }
{
    ((t - 1) * 16 + (u - 1)) as usize
}

// The rows of each table, where 0 counts as 1.
// An array: the library has no heap.
fn own_parts(rows: &[u64]) -> [u64; 256]
    requires { length rows.now ≤ max_tables }
    ensures { Own rows.now (length rows.now) result }
{
    let mut parts = [0u64; 256];
    for k in 0..rows.len() {
        parts[k * 16 + k] = rows[k].max(1);
    }
    parts
}

// And the divisor of each edge, either way round.
pub fn table_parts(graph: &Graph) -> [u64; 256]
    ensures { Parts graph.now (edge_count graph.now) result }
{
    let mut parts = own_parts(graph.rows);
    for i in 0..graph.left.len() {
        let a = graph.left[i];
        let b = graph.right[i];
        let d = graph.divisors[i];
        parts[cell(a, b)] = d;
        parts[cell(b, a)] = d;
    }
    parts
}

// `e` divided by the edges between `t` and the tables of `linked`, ascending.
fn by_linked(parts: &[u64; 256], t: u64, linked: u64, e: u64) -> u64
    requires { Divides parts.now t linked }
    ensures { result ≡ by_parts parts.now linked t (t - 1) e }
{
    let mut r = e;
    let mut left = linked;
    // No `for`: the tables are bits of a number, and are taken off it one after another.
    while left != 0 {
        let u = lowest_table(left);
        r = (r / parts[cell(t, u)]).max(1);
        left -= single(u);
    }
    r
}

// Table `t` more, above the tables of `linked`, which have edges to it: times its rows, its divisions, and the cut.
pub fn with_part(parts: &[u64; 256], t: u64, linked: u64, e: u64) -> u64
    requires divides { Divides parts.now t linked }
    requires limits { (e ≤ max_estimate) × (get_or parts.now (cell_of t t) 0 ≤ max_rows) }
    ensures { result ≡ min max_estimate (by_parts parts.now linked t (t - 1) (e * get_or parts.now (cell_of t t) 0)) }
{
    let product = e * parts[cell(t, t)];
    let r = by_linked(parts, t, linked, product);
    // No `min`: the edit estimate_cut_early turns what this test looks at.
    if r > MAX_ESTIMATE {
        return MAX_ESTIMATE;
    }
    r
}
