// How many rows of each size the memo has: one walk counts them all.
ghost use Rattle.std.specs.Prelude.{◌≡◌, cond, ◌+◌, ◌≤◌, length};
ghost use Rattle.rules.specs.Query.{Graph};
ghost use Rattle.rules.specs.Rows.{memo};
ghost use Rattle.rules.specs.Skips.{skips};
ghost use Rattle.graph.specs.Node.{Node};
ghost use Rattle.rows.specs.Tally.{Tallied, Counting, Tally as IsTally};

use graph::chosen::{Chosen, NONE};
use graph::near::Neighbours;
use query::graph::Graph;
use sets::single;

// Room for a number of each size: sizes 0 to N, of at most 16 tables. Arrays here and above are fixed: the library has no heap.
pub const SIZES: usize = 17;

// A graph with how many rows of each size its memo has: size k's number stands at k.
#[derive(Clone, Copy)]
pub struct Tally<'a> {
    pub graph: &'a Graph<'a>,
    pub counts: &'a [usize],
    ghost good: { IsTally graph.now counts.now },
}

impl Tally<'_> {
    // How many rows there are.
    pub fn rows(&self) -> usize
        ensures { result ≡ length (memo self.now.graph.now) }
    {
        let graph = self.graph;
        self.counts[1..=graph.rows.len()].iter().sum()
    }

    // How many cells the skip vectors have: one for each table of each row.
    pub fn cells(&self) -> usize
        ensures { result ≡ length (skips self.now.graph.now) }
    {
        // No chain: each count is taken as often as its size.
        let graph = self.graph;
        let mut sum = 0usize;
        for k in 0..graph.rows.len() {
            sum += (k + 1) * self.counts[k + 1];
        }
        sum
    }
}

// Counts the rows of each size.
pub fn count_rows(graph: &Graph) -> [usize; SIZES]
    ensures counts { IsTally graph.now result }
    ensures long { length result ≡ 17 }
{
    let near = Neighbours::new(graph);
    let mut counts = [0usize; SIZES];
    tally_from(&near, 1, &NONE, &mut counts);
    counts
}

// Counts, by size, the connected sets that add some of the tables from `t` on to the chosen ones: table `t` is taken, then left.
fn tally_from(near: &Neighbours, t: u64, chosen: &Chosen, counts: &mut [usize])
    requires { Counting near.now.of near.now.tables t chosen.now counts.old }
    ensures { (g : Graph) → Node g near.now.of near.now.tables t chosen.now → Tallied g near.now.tables t chosen.now.set chosen.now.size counts.old counts.new }
{
    if t > near.tables {
        return;
    }
    let bit = single(t);
    let rest = single(near.tables + 1) - bit;
    if near.stuck(chosen, rest) {
        return;
    }
    let row = near.grows(chosen, bit);
    let with = Chosen {
        set: chosen.set + bit,
        size: chosen.size + 1,
        around: chosen.around | near.of[(t - 1) as usize],
        joined: row,
    };
    counts[with.size] += usize::from(row);
    tally_from(near, t + 1, &with, counts);
    tally_from(near, t + 1, chosen, counts);
}
