// All connected sets in memo order with estimate, cost, outer set and method, and the skip values, from document 01's sentences. Up to
// seven tables a cost is the least over all trees, by recursion over all splits with no memo; from eight on, by splits.
ghost use Rattle.std.specs.Prelude.{◌<◌, ◌≤◌, length};

use super::by_set::BySet;
use super::group::{Group, MOST_TABLES};
use super::input::{Method, Query};
use std::alloc::{AllocError, Global};

// Most tables of which a cost is found by all trees.
const ALL_TREES: usize = 7;

const MOST_ESTIMATE: u64 = 1_000_000_000_000;

// A join that reaches a cost: the lower cost is better, then the lower outer set, then the lower method.
#[derive(Clone, Copy, PartialEq, Eq, PartialOrd, Ord)]
pub struct Join {
    pub cost: u64,
    pub outer: u64,
    pub method: u64,
}

// The lower of what is found so far and what is found next.
pub fn lower<T: Ord + Copy>(so_far: Option<T>, next: T) -> T {
    match so_far {
        Some(least) => least.min(next),
        None => next,
    }
}

// A connected set as one side of a join.
#[derive(Clone, Copy)]
pub struct Side {
    pub set: u64,
    pub estimate: u64,
}

#[derive(Clone, Copy)]
pub struct Row {
    pub group: Group,
    pub size: usize,
    pub set: u64,
    pub estimate: u64,
    pub cost: u64,
    // Of the best join, or 0 for one table.
    pub outer: u64,
    pub method: u64,
}

impl Row {
    pub fn side(&self) -> Side {
        Side {
            set: self.set,
            estimate: self.estimate,
        }
    }
}

#[derive(Drop)]
pub struct Memo {
    pub query: Query,
    estimates: BySet,
    costs: BySet,
    pub rows: Vec<Row>,
    pub skips: Vec<u64>,
}

// What a join by a method costs itself.
fn own_cost(method: &Method, outer: u64, inner: u64, joined: u64) -> u64 {
    method
        .fixed
        .saturating_add(method.outer.saturating_mul(outer))
        .saturating_add(method.inner.saturating_mul(inner))
        .saturating_add(method.result.saturating_mul(joined))
}

// The query's connected sets, size after size, and in a size with the first table as the highest digit, counted down: so sets of a
// size ascend.
fn connected_sets(alloc: Global, query: &Query) -> Result<Vec<Group>, AllocError> {
    let n = query.tables.len();
    let mut sets = Vec::new(alloc);
    for size in 1..=n {
        for digits in (0..1u64 << n).rev() {
            let group = Group::from_top(n, digits);
            if group.count() == size && query.divisors.connect(&group, n) {
                sets.push(group)?;
            }
        }
    }
    Ok(sets)
}

// "for each lower table of the set that has an edge to it, ascending": "divide by the divisor, rounding down, and raise to 1 if 0"
fn divided(query: &Query, group: &Group, t: usize, estimate: u64) -> u64
    requires { t < 16 }
{
    let mut e = estimate;
    for u in 0..t {
        if group.has(u)
            && let Some(divisor) = query.divisors.of(u, t)
        {
            e = e.checked_div(divisor).unwrap_or(e).max(1);
        }
    }
    e
}

// "multiply by its rows (0 counts as 1)", divide, "then cut"
fn estimate(query: &Query, group: &Group) -> u64 {
    let mut e = 1u64;
    for (t, table) in query.tables.iter().enumerate() {
        if group.has(t) {
            let grown = e.saturating_mul(table.rows.max(1));
            e = divided(query, group, t, grown).min(MOST_ESTIMATE);
        }
    }
    e
}

impl Memo {
    pub fn of(alloc: Global, query: Query) -> Result<Memo, AllocError> {
        let sets = connected_sets(alloc, &query)?;
        let estimates = BySet::none(alloc, &query)?;
        let costs = BySet::none(alloc, &query)?;
        let mut memo = Memo {
            query,
            estimates,
            costs,
            rows: Vec::with_capacity(alloc, sets.len())?,
            skips: Vec::new(alloc),
        };
        for group in sets.iter() {
            let rows = estimate(&memo.query, group);
            memo.estimates.put(group.number(), rows);
        }
        for group in sets.iter() {
            memo.add_row(group)?;
        }
        memo.skips = memo.skip_values(alloc)?;
        Ok(memo)
    }

    // The best join of two disjoint sets, either of them as the outer one, where they together cost `parts`.
    pub fn priced(&self, x: Side, y: Side, parts: u64) -> Option<Join> {
        let joined = self.estimates.of(x.set | y.set)?;
        let mut best = None;
        for (k, method) in self.query.methods.iter().enumerate() {
            for (outer, inner) in [(x, y), (y, x)] {
                let own = own_cost(method, outer.estimate, inner.estimate, joined);
                let join = Join {
                    cost: parts.saturating_add(own),
                    outer: outer.set,
                    method: k as u64 + 1,
                };
                best = Some(lower(best, join));
            }
        }
        best
    }

    fn side(&self, group: &Group) -> Option<Side> {
        let set = group.number();
        let estimate = self.estimates.of(set)?;
        Some(Side { set, estimate })
    }

    // Two parts of a group as the sides of a join, where they make a step of a tree.
    fn sides(&self, a: &Group, b: &Group) -> Option<(Side, Side)> {
        let x = self.side(a)?;
        let y = self.side(b)?;
        if self.query.divisors.join(a, b) {
            Some((x, y))
        } else {
            None
        }
    }

    // The scan of a group's only table.
    fn scan(&self, group: &Group) -> Option<u64> {
        if group.count() != 1 {
            return None;
        }
        for (t, table) in self.query.tables.iter().enumerate() {
            if group.has(t) {
                return Some(table.scan);
            }
        }
        None
    }

    // The best join of two parts of a group, where a part costs what `cost` says.
    fn best_join<F: Fn(&Group) -> Option<u64>>(&self, group: &Group, cost: F) -> Option<Join>
        requires { F.IsAlwaysCallable cost }
    {
        let mut best = None;
        for digits in 1..group.half() {
            let (a, b) = group.split(digits);
            if let Some((x, y)) = self.sides(&a, &b) {
                let parts = cost(&a)?.saturating_add(cost(&b)?);
                best = Some(lower(best, self.priced(x, y, parts)?));
            }
        }
        best
    }

    // The least cost over all trees of a group of at most `fuel` tables.
    fn cheapest(&self, group: &Group, fuel: usize) -> Option<u64> {
        if fuel == 0 {
            return None;
        }
        if let Some(scan) = self.scan(group) {
            return Some(scan);
        }
        let fewer = fuel - 1;
        let join = self.best_join(group, |part| self.cheapest(part, fewer))?;
        Some(join.cost)
    }

    // A row's cost: of one table its scan; by all trees; or by splits.
    fn cost(&self, group: &Group, join: Option<Join>) -> Option<u64> {
        match join {
            Some(join) if self.query.tables.len() > ALL_TREES => Some(join.cost),
            _ => self.cheapest(group, ALL_TREES),
        }
    }

    // The row of a connected set; those of its parts stand before it.
    fn row(&self, group: &Group) -> Option<Row> {
        let Side { set, estimate } = self.side(group)?;
        let join = self.best_join(group, |part| self.costs.of(part.number()));
        Some(Row {
            group: *group,
            size: group.count(),
            set,
            estimate,
            cost: self.cost(group, join)?,
            outer: join.map_or(0, |join| join.outer),
            method: join.map_or(0, |join| join.method),
        })
    }

    fn add_row(&mut self, group: &Group) -> Result<(), AllocError> {
        if let Some(row) = self.row(group) {
            self.costs.put(row.set, row.cost);
            self.rows.push(row)?;
        }
        Ok(())
    }

    // The rows of a size.
    pub fn of_size(&self, size: usize) -> &[Row] {
        let rows = self.rows.as_slice();
        let start = rows.partition_point(|row| row.size < size);
        let rest = &rows[start..];
        &rest[..rest.partition_point(|row| row.size == size)]
    }

    // The best cost of all tables, which is the last row's.
    pub fn best(&self) -> u64 {
        self.rows.last().map_or(0, |row| row.cost)
    }

    // The skip values of all rows, of the tables of each.
    fn skip_values(&self, alloc: Global) -> Result<Vec<u64>, AllocError> {
        let mut skips = Vec::new(alloc);
        for size in 1..=self.query.tables.len() {
            let rows = self.of_size(size);
            for (i, row) in rows.iter().enumerate() {
                for t in 0..MOST_TABLES {
                    if row.group.has(t) {
                        skips.push(1 + lacking(rows, t, i + 1) as u64)?;
                    }
                }
            }
        }
        Ok(skips)
    }
}

// The first row of a size from `from` on that lacks a table, or the number of its rows.
fn lacking(rows: &[Row], t: usize, from: usize) -> usize
    requires { t < 16 }
    ensures { result ≤ length rows.now }
{
    for k in from..rows.len() {
        if !rows[k].group.has(t) {
            return k;
        }
    }
    rows.len()
}
