// Whether an edge runs between two sets of tables.
ghost use Rattle.std.specs.Prelude.{◌≡◌, ◌&&◌, ◌||◌, ◌≤◌};
ghost use Rattle.rules.specs.Limits.{max_tables};
ghost use Rattle.rules.specs.Lists.{is_yes};
ghost use Rattle.rules.specs.Sets.{has};
ghost use Rattle.rules.specs.laws.Decide.{between?};
ghost use Rattle.query.specs.Lists.{is_pair, same_pair};

use super::graph::Graph;
use sets::has_table;

// Whether `x` and `y` are `a` and `b`, in this order.
fn is_pair(x: u64, y: u64, a: u64, b: u64) -> bool
    ensures { result ≡ is_pair x y a b }
{
    x == a && y == b
}

// Whether `x` and `y` are `a` and `b`, whichever way round.
pub fn same_pair(x: u64, y: u64, a: u64, b: u64) -> bool
    ensures { result ≡ same_pair x y a b }
{
    is_pair(x, y, a, b) || is_pair(x, y, b, a)
}

// Whether table `a` stands in `x` and table `b` in `y`.
pub fn both_stand(x: u64, a: u64, y: u64, b: u64) -> bool
    requires { (1 ≤ a) × (a ≤ max_tables) × (1 ≤ b) × (b ≤ max_tables) }
    ensures { result ≡ (has x a && has y b) }
{
    has_table(x, a) && has_table(y, b)
}

// Whether an edge of the tables `a` and `b` runs between `x` and `y`, whichever way round it is written.
fn crosses(x: u64, y: u64, a: u64, b: u64) -> bool
    requires { (1 ≤ a) × (a ≤ max_tables) × (1 ≤ b) × (b ≤ max_tables) }
    ensures { result ≡ ((has x a && has y b) || (has x b && has y a)) }
{
    both_stand(x, a, y, b) || both_stand(x, b, y, a)
}

// Whether an edge runs between `x` and `y`: from a table of the one to a table of the other. Most edges have their left table in neither,
// and one test is enough for them.
pub fn edge_between(graph: &Graph, x: u64, y: u64) -> bool
    ensures { result ≡ is_yes (between? graph.now x y) }
{
    let either = x | y;
    // By index, as in every loop over edges: a chain would zip lists that only the invariant holds to one length.
    for i in 0..graph.left.len() {
        if has_table(either, graph.left[i]) && crosses(x, y, graph.left[i], graph.right[i]) {
            return true;
        }
    }
    false
}
