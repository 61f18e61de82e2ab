// What candidates are met on.
ghost use Rattle.rules.specs.Checked.{GoodGraph};
ghost use Rattle.pairs.specs.Places.{Ground};

use query::graph::Graph;

// A good graph, its memo as laying out leaves it, and where the rows and the skip cells of each size begin.
#[derive(Clone, Copy)]
pub struct Footing<'a> {
    pub graph: &'a Graph<'a>,
    pub sets: &'a [u64],
    pub skips: &'a [u64],
    pub starts: &'a [usize],
    pub cells: &'a [usize],
    pub ghost good: { GoodGraph graph.now },
    pub ghost laid: { Ground graph.now sets.now skips.now starts.now cells.now },
}
