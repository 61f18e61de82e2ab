// Plans a query under a crew in memory that holds marks, and keeps what planning answered and left.
use super::input::{Crew, Query};
use planner::{Answer, plan};
use rules::refusal::{Reason, Refusal};
use std::alloc::{AllocError, Global};

// What stands in lent memory before.
pub const MARK: u64 = 77;

// How many rows, skip cells and log entries are lent.
#[derive(Clone, Copy)]
pub struct Lent {
    pub rows: usize,
    pub cells: usize,
    pub log: usize,
}

// An answer as it is compared, number by number: refusal, place, best cost, rows, skip cells, pairs; and the pairs of each worker.
#[derive(Clone, Copy)]
pub struct Numbers {
    pub shared: [u64; 6],
    pub counts: [u64; 8],
}

// Memory lent to planning. Not shared with `cases`, which lends likewise: this program stands by itself.
#[derive(Drop)]
pub struct Memory {
    pub sets: Vec<u64>,
    pub estimates: Vec<u64>,
    pub costs: Vec<u64>,
    pub outers: Vec<u64>,
    pub methods: Vec<u64>,
    pub skips: Vec<u64>,
    pub log_workers: Vec<u64>,
    pub log_driving: Vec<u64>,
    pub log_inner: Vec<u64>,
    pub log_costs: Vec<u64>,
}

// What planning answered and left.
#[derive(Drop)]
pub struct Kept {
    pub answer: Numbers,
    pub memory: Memory,
}

impl Memory {
    fn marked(alloc: Global, lent: Lent) -> Result<Memory, AllocError> {
        Ok(Memory {
            sets: vec![in alloc; MARK; lent.rows]?,
            estimates: vec![in alloc; MARK; lent.rows]?,
            costs: vec![in alloc; MARK; lent.rows]?,
            outers: vec![in alloc; MARK; lent.rows]?,
            methods: vec![in alloc; MARK; lent.rows]?,
            skips: vec![in alloc; MARK; lent.cells]?,
            log_workers: vec![in alloc; MARK; lent.log]?,
            log_driving: vec![in alloc; MARK; lent.log]?,
            log_inner: vec![in alloc; MARK; lent.log]?,
            log_costs: vec![in alloc; MARK; lent.log]?,
        })
    }
}

// Stands for a refusal that none of these queries has.
const OTHER: u64 = 99;

// The numbers of the two refusals of too little memory, told here and not by the planner's own table.
fn number_of(reason: Reason) -> u64 {
    match reason {
        Reason::MemoRows => 13,
        Reason::SkipCells => 14,
        _ => OTHER,
    }
}

// What planning answered. What it must have answered is put together apart, in `hold`.
fn numbers_of(answer: Result<Answer, Refusal>) -> Numbers {
    match answer {
        Ok(a) => {
            let counts = a.counts;
            Numbers {
                shared: [0, 0, a.best, a.rows, a.cells, a.pairs],
                counts,
            }
        }
        Err(r) => Numbers {
            shared: [number_of(r.reason), r.place, 0, 0, 0, 0],
            counts: [0; 8],
        },
    }
}

// A number of each record.
fn column<T, F: Fn(&T) -> u64>(
    alloc: Global,
    records: &[T],
    number: F,
) -> Result<Vec<u64>, AllocError>
    requires { F.IsAlwaysCallable number }
{
    let mut column = Vec::with_capacity(alloc, records.len())?;
    for record in records {
        column.push(number(record))?;
    }
    Ok(column)
}

pub fn plan_kept(
    alloc: Global,
    query: &Query,
    crew: &Crew,
    lent: Lent,
) -> Result<Kept, AllocError> {
    let rows = column(alloc, &query.tables, |table| table.rows)?;
    let scans = column(alloc, &query.tables, |table| table.scan)?;
    let left = column(alloc, &query.edges, |edge| edge.left as u64 + 1)?;
    let right = column(alloc, &query.edges, |edge| edge.right as u64 + 1)?;
    let divisors = column(alloc, &query.edges, |edge| edge.divisor)?;
    let fixed = column(alloc, &query.methods, |method| method.fixed)?;
    let outer = column(alloc, &query.methods, |method| method.outer)?;
    let inner = column(alloc, &query.methods, |method| method.inner)?;
    let per_row = column(alloc, &query.methods, |method| method.result)?;
    let mut memory = Memory::marked(alloc, lent)?;
    let answer = plan(
        &rows,
        &scans,
        &left,
        &right,
        &divisors,
        &fixed,
        &outer,
        &inner,
        &per_row,
        crew.workers,
        crew.scheme as u64,
        &crew.turns,
        &mut memory.sets,
        &mut memory.estimates,
        &mut memory.costs,
        &mut memory.outers,
        &mut memory.methods,
        &mut memory.skips,
        &mut memory.log_workers,
        &mut memory.log_driving,
        &mut memory.log_inner,
        &mut memory.log_costs,
    );
    Ok(Kept {
        answer: numbers_of(answer),
        memory,
    })
}
