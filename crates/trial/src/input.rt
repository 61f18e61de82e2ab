// What is planned: a query with the divisors between its tables, and a crew.
ghost use Rattle.std.specs.Prelude.{◌<◌, ◌≤◌, vec_len};

use super::group::{Group, MOST_TABLES};

#[derive(Clone, Copy, Default)]
pub struct Table {
    pub rows: u64,
    pub scan: u64,
}

#[derive(Clone, Copy, Default)]
pub struct Method {
    pub fixed: u64,
    pub outer: u64,
    pub inner: u64,
    pub result: u64,
}

#[derive(Clone, Copy)]
pub struct Edge {
    pub left: usize,
    pub right: usize,
    pub divisor: u64,
    ghost left_known: { left < 16 },
    ghost right_known: { right < 16 },
}

#[derive(Drop)]
pub struct Query {
    pub tables: Vec<Table>,
    pub methods: Vec<Method>,
    pub edges: Vec<Edge>,
    pub divisors: Divisors,
    ghost few: { vec_len tables ≤ 16 },
}

// The divisor of any two tables that have an edge.
#[derive(Clone, Copy)]
pub struct Divisors {
    cells: [[Option<u64>; MOST_TABLES]; MOST_TABLES],
}

impl Divisors {
    pub fn new(edges: &[Edge]) -> Divisors {
        let mut cells = [[None; MOST_TABLES]; MOST_TABLES];
        for edge in edges {
            cells[edge.left][edge.right] = Some(edge.divisor);
            cells[edge.right][edge.left] = Some(edge.divisor);
        }
        Divisors { cells }
    }

    pub fn of(&self, a: usize, b: usize) -> Option<u64>
        requires a { a < 16 }
        requires b { b < 16 }
    {
        self.cells[a][b]
    }

    // Whether a table has an edge to a group.
    pub fn link(&self, table: usize, group: &Group) -> bool
        requires { table < 16 }
    {
        for u in 0..MOST_TABLES {
            if group.has(u) && self.of(table, u).is_some() {
                return true;
            }
        }
        false
    }

    // Whether two groups are disjoint and an edge runs between them.
    pub fn join(&self, a: &Group, b: &Group) -> bool {
        if !a.disjoint(b) {
            return false;
        }
        for t in 0..MOST_TABLES {
            if a.has(t) && self.link(t, b) {
                return true;
            }
        }
        false
    }

    // Whether all of a group is reached from its first table, in as many rounds as there are tables.
    pub fn connect(&self, group: &Group, rounds: usize) -> bool {
        let mut reached = group.part(1);
        for _ in 0..rounds {
            for t in 0..MOST_TABLES {
                if group.has(t) && self.link(t, &reached) {
                    reached.add(t);
                }
            }
        }
        reached == *group
    }
}

#[derive(Clone, Copy)]
pub enum Scheme {
    CutCandidates = 1,
    CutRows,
    DealRows,
    DealInner,
}

// No TryFrom: any number that is drawn names one.
impl Scheme {
    pub fn numbered(n: u64) -> Scheme {
        match n % 4 {
            0 => Scheme::CutCandidates,
            1 => Scheme::CutRows,
            2 => Scheme::DealRows,
            _ => Scheme::DealInner,
        }
    }
}

// The list of turns may name those workers too that have no pair left.
#[derive(Drop)]
pub struct Crew {
    pub workers: u64,
    pub scheme: Scheme,
    pub turns: Vec<u64>,
}
