// Queries and crews, drawn by a generator with a seed.
ghost use Rattle.std.specs.Prelude.{◌<◌, ◌≤◌};
ghost use Rattle.std.specs.List.{All};

use super::group::MOST_TABLES;
use super::input::{Crew, Divisors, Edge, Method, Query, Scheme, Table};
use super::random::Random;
use std::alloc::{AllocError, Global};

// The limits of rows, of scans and fixed costs, of coefficients, and of divisors less one.
const MOST_ROWS: u64 = 1_000_000;

const MOST_COST: u64 = 1_000_000_000;

const MOST_COEFFICIENT: u64 = 1_000;

const MOST_DIVISOR: u64 = 999_999;

// How large a number is: so small that many costs tie; 0; small; any; the limit.
#[derive(Clone, Copy)]
enum Kind {
    Tie,
    Zero,
    Small,
    Any,
    Limit,
}

// No TryFrom, here and below: any number that is drawn names one.
impl Kind {
    fn numbered(n: u64) -> Kind {
        match n {
            0 => Kind::Tie,
            1 => Kind::Zero,
            2 => Kind::Small,
            3 => Kind::Any,
            _ => Kind::Limit,
        }
    }

    // A number up to `most`, made of any.
    fn number(self, any: u64, most: u64) -> u64
        requires { any ≤ most }
        ensures { result ≤ most }
    {
        match self {
            Kind::Tie => any % 3,
            Kind::Zero => 0,
            Kind::Small => any % 100,
            Kind::Any => any,
            Kind::Limit => most,
        }
    }
}

// One kind for all of a list, or none: each number has its own.
fn draw_kind(random: &mut Random) -> Option<Kind> {
    match random.draw(6) {
        5 => None,
        n => Some(Kind::numbered(n)),
    }
}

fn draw_number(random: &mut Random, kind: Option<Kind>, most: u64) -> u64
    ensures { result ≤ most }
{
    let own = Kind::numbered(random.draw(5));
    let any = random.up_to(most);
    kind.unwrap_or(own).number(any, most)
}

// Sets a number of each of a list's records.
fn draw_each<T, F: Fn(&mut T, u64)>(random: &mut Random, list: &mut [T], most: u64, set: F)
    requires { F.IsAlwaysCallable set }
{
    let kind = draw_kind(random);
    for record in list {
        set(record, draw_number(random, kind, most));
    }
}

#[derive(Clone, Copy)]
enum Graph {
    Chain,
    Cycle,
    Star,
    Clique,
    Tree,
    Any,
}

impl Graph {
    // Large graphs are thin.
    fn numbered(n: u64, tables: usize) -> Graph {
        let kinds = match tables {
            0..=9 => 6,
            10 => 3,
            _ => 2,
        };
        match n % kinds {
            0 => Graph::Chain,
            1 => Graph::Cycle,
            2 => Graph::Star,
            3 => Graph::Clique,
            4 => Graph::Tree,
            _ => Graph::Any,
        }
    }

    // Whether the graph has an edge from place i to an earlier place j.
    fn links(self, i: usize, j: usize, tables: usize, parent: usize, some: bool) -> bool
        requires earlier { j < i }
        requires table { i < tables }
    {
        let next = j + 1 == i;
        match self {
            Graph::Chain => next,
            Graph::Cycle => next || (j == 0 && i + 1 == tables),
            Graph::Star => j == 0,
            Graph::Clique => true,
            Graph::Tree => j == parent,
            Graph::Any => j == parent || some,
        }
    }
}

// Here `n` is a plain number: the query, whose ghost field bounds it, is made last of all.

// The first `n` tables in any order.
fn shuffled(random: &mut Random, n: usize) -> [usize; MOST_TABLES]
    requires { n ≤ 16 }
    ensures { All (λ t. t < 16) result }
{
    let mut order = [0, 1, 2, 3, 4, 5, 6, 7, 8, 9, 10, 11, 12, 13, 14, 15];
    for i in 0..n {
        order.swap(i, random.up_to(i as u64) as usize);
    }
    order
}

// The edges of any graph with any kind of divisors, over the tables in any order, each either way round.
fn draw_edges(alloc: Global, random: &mut Random, n: usize) -> Result<Vec<Edge>, AllocError>
    requires { n ≤ 16 }
{
    let order = shuffled(random, n);
    let graph = Graph::numbered(random.draw(6), n);
    let kind = draw_kind(random);
    let mut edges = Vec::new(alloc);
    for i in 0..n {
        let parent = random.draw(i as u64) as usize;
        for j in 0..i {
            let some = random.draw(3) == 0;
            let divisor = 1 + draw_number(random, kind, MOST_DIVISOR);
            if graph.links(i, j, n, parent, some) {
                let turned = random.draw(2) == 0;
                let (a, b) = if turned { (j, i) } else { (i, j) };
                edges.push(Edge {
                    left: order[a],
                    right: order[b],
                    divisor,
                })?;
            }
        }
    }
    Ok(edges)
}

pub fn draw_query(alloc: Global, random: &mut Random, n: usize) -> Result<Query, AllocError>
    requires { n ≤ 16 }
{
    let ways = random.draw(4) as usize + 1;
    let mut tables = vec![in alloc; Table::default(); n]?;
    let mut methods = vec![in alloc; Method::default(); ways]?;
    draw_each(
        random,
        &mut tables,
        MOST_ROWS,
        |table, rows| table.rows = rows,
    );
    draw_each(
        random,
        &mut tables,
        MOST_COST,
        |table, scan| table.scan = scan,
    );
    draw_each(
        random,
        &mut methods,
        MOST_COST,
        |method, fixed| method.fixed = fixed,
    );
    draw_each(
        random,
        &mut methods,
        MOST_COEFFICIENT,
        |method, outer| method.outer = outer,
    );
    draw_each(
        random,
        &mut methods,
        MOST_COEFFICIENT,
        |method, inner| method.inner = inner,
    );
    draw_each(
        random,
        &mut methods,
        MOST_COEFFICIENT,
        |method, per_row| method.result = per_row,
    );
    let edges = draw_edges(alloc, random, n)?;
    let divisors = Divisors::new(&edges);
    Ok(Query {
        tables,
        methods,
        edges,
        divisors,
    })
}

// A crew with a list of turns, each any worker's.
pub fn draw_crew(
    alloc: Global,
    random: &mut Random,
    workers: u64,
    scheme: Scheme,
    listed: usize,
) -> Result<Crew, AllocError> {
    let mut turns = Vec::with_capacity(alloc, listed)?;
    for _ in 0..listed {
        turns.push(random.draw(workers))?;
    }
    Ok(Crew {
        workers,
        scheme,
        turns,
    })
}

// An empty list of turns, a short one, one that often ends within a size, and one that is often longer than the work.
pub fn listed(kind: u64, longest: usize) -> usize {
    match kind % 4 {
        0 => 0,
        1 => 3,
        2 => 40,
        _ => longest,
    }
}
