// Whether a set of tables is connected: a part grows from one table until it is the set, or no edge leads on.
ghost use Rattle.std.specs.Prelude.{◌≡◌, ◌-◌, ◌≤◌};
ghost use Rattle.rules.specs.Limits.{max_tables};
ghost use Rattle.rules.specs.Lists.{is_yes};
ghost use Rattle.rules.specs.laws.Decide.{between_in, connected?};
ghost use Rattle.query.specs.ConnectedLaws.{grow, Part, Grown};

use super::edges::both_stand;
use super::graph::Graph;
use sets::{lowest_table, single};

// A part of `s`, with the far table of an edge of the tables `a` and `b` where the edge leads from the part to the rest.
fn grow(s: u64, part: u64, a: u64, b: u64) -> u64
    requires { (1 ≤ a) × (a ≤ max_tables) × (1 ≤ b) × (b ≤ max_tables) × (part ≤ s) }
    ensures { result ≡ grow s part a b }
{
    let rest = s - part;
    if both_stand(part, a, rest, b) {
        return part + single(b);
    }
    if both_stand(part, b, rest, a) {
        return part + single(a);
    }
    part
}

// A connected part of `s`, grown along each edge once; it stays as it was only where no edge leads on.
fn reach(graph: &Graph, s: u64, part: u64) -> u64
    requires { Part graph.now s part }
    ensures { Grown graph.now s part (between_in graph.now.left graph.now.right part (s - part)) result }
{
    let mut grown = part;
    for i in 0..graph.left.len() {
        grown = grow(s, grown, graph.left[i], graph.right[i]);
    }
    grown
}

// Whether `s` is connected; no set with an unknown table is, nor the empty one.
pub fn connected(graph: &Graph, s: u64) -> bool
    ensures { result ≡ is_yes (connected? graph.now s) }
{
    if s == 0 {
        return false;
    }
    if s >> graph.rows.len() != 0 {
        return false;
    }
    let mut part = single(lowest_table(s));
    // No `for`: how often the part grows is not known.
    while part != s {
        let next = reach(graph, s, part);
        if next == part {
            return false;
        }
        part = next;
    }
    true
}
