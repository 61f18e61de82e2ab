// A graph that has passed the checks.
use std::marker::Model;

// The lent lists of a graph's tables and edges, which are good.
#[derive(Drop)]
pub struct Graph<'a> {
    pub rows: &'a [u64],
    pub left: &'a [u64],
    pub right: &'a [u64],
    pub divisors: &'a [u64],
}

impl<'a> Model for Graph<'a> {
    ghost use Rattle.rules.specs.Query.{graph_of, Graph};
    ghost use Rattle.rules.specs.Checked.{GoodGraph};

    ghost Value = { Graph };

    ghost view = { λ g. graph_of g.rows.now g.left.now g.right.now g.divisors.now };

    ghost invariant = { λ g. GoodGraph (graph_of g.rows.now g.left.now g.right.now g.divisors.now) };
}
