// The tables next to each table, as sets; and what they say of some chosen tables.
ghost use Rattle.std.specs.Prelude.{◌≡◌, ◌+◌, ◌≤◌, ◌<◌};
ghost use Rattle.rules.specs.Limits.{max_tables};
ghost use Rattle.rules.specs.Sets.{Disjoint};
ghost use Rattle.rules.specs.Query.{table_count, edge_count};
ghost use Rattle.rules.specs.Checked.{GoodGraph};
ghost use Rattle.rules.specs.laws.Connected.{Within};
ghost use Rattle.graph.specs.Near.{far_of, NextTo, Near, Told};
ghost use Rattle.graph.specs.Node.{Grows, Stuck};

use super::chosen::Chosen;
use query::graph::Graph;
use sets::{lowest_table, overlap, single};

// The other table of an edge of the tables `a` and `b`, as a set, where one of them is `t`.
// Tables are plain numbers with their range, as in sets: a type of its own would be taken apart for each bit.
fn far_table(a: u64, b: u64, t: u64) -> u64
    requires { (1 ≤ a) × (a ≤ max_tables) × (1 ≤ b) × (b ≤ max_tables) }
    ensures { result ≡ far_of a b t }
{
    if a == t {
        return single(b);
    }
    if b == t {
        return single(a);
    }
    0
}

// The tables that an edge joins to `t`.
fn next_to(graph: &Graph, t: u64) -> u64
    ensures { NextTo graph.now t (edge_count graph.now) result }
{
    let mut r = 0u64;
    for i in 0..graph.left.len() {
        r |= far_table(graph.left[i], graph.right[i], t);
    }
    r
}

// The tables next to each table, as sets, and how many tables there are: table t's neighbours stand at t - 1.
#[derive(Drop)]
pub struct Neighbours {
    pub of: [u64; 16],
    pub tables: u64,
}

impl Neighbours {
    pub fn new(graph: &Graph) -> Neighbours
        ensures good { GoodGraph graph.now }
        ensures near { Near graph.now result.of }
        ensures count { result.tables ≡ table_count graph.now }
    {
        let mut of = [0u64; 16];
        for k in 0..graph.rows.len() {
            of[k] = next_to(graph, k as u64 + 1);
        }
        Neighbours {
            of,
            tables: graph.rows.len() as u64,
        }
    }

    // Whether a flood inside a set, from the lowest table of `goal`, reaches all of `goal`.
    fn joins(&self, inside: u64, goal: u64) -> bool
        requires { (0 < goal) × (inside < 65536) × Within goal inside }
        ensures { Told self.now.of inside goal result }
    {
        let mut seen = single(lowest_table(goal));
        let mut todo = seen;
        // No `for`: the flood takes tables off one number and puts others in.
        while overlap(goal, inside - seen) {
            if todo == 0 {
                return false;
            }
            let t = lowest_table(todo);
            let fresh = self.of[(t - 1) as usize] & (inside - seen);
            seen += fresh;
            todo = todo - single(t) + fresh;
        }
        true
    }

    // Whether the chosen tables and `bit`, one more, are connected.
    pub fn grows(&self, chosen: &Chosen, bit: u64) -> bool
        requires { chosen.now.set + bit < 65536 }
        ensures { Grows self.now.of chosen.now bit result }
    {
        if chosen.set == 0 {
            return true;
        }
        if !overlap(chosen.around, bit) {
            return false;
        }
        if chosen.joined {
            return true;
        }
        self.joins(chosen.set + bit, chosen.set + bit)
    }

    // Whether the chosen tables can be joined no more by tables of `rest`: true only where no connected set adds some to them.
    pub fn stuck(&self, chosen: &Chosen, rest: u64) -> bool
        requires { Disjoint chosen.now.set rest × (chosen.now.set + rest < 65536) }
        ensures { Stuck self.now.of chosen.now rest result }
    {
        if chosen.set == 0 {
            return false;
        }
        if !overlap(chosen.around, rest) {
            return true;
        }
        if chosen.joined {
            return false;
        }
        !self.joins(chosen.set + rest, chosen.set)
    }
}
