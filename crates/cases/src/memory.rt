// What is lent to planning, marked, and how it prints after.
use crate::shown::Spaced;
use sets::shown::Tables;
use sets::size;
use std::io;

// What stands in lent memory before.
pub const MARK: u64 = 77;

// Room for the largest of these queries, a chain of sixteen tables, and some to spare; no more is lent.
pub const MOST_ROWS: usize = 140;

pub const MOST_CELLS: usize = 820;

pub const MOST_ENTRIES: usize = 8;

// The memo's columns, the skip cells, and the log's columns, as they are lent.
#[derive(Drop)]
pub struct Memory<'a> {
    pub sets: &'a mut [u64],
    pub estimates: &'a mut [u64],
    pub costs: &'a mut [u64],
    pub outers: &'a mut [u64],
    pub methods: &'a mut [u64],
    pub skips: &'a mut [u64],
    pub log_workers: &'a mut [u64],
    pub log_driving: &'a mut [u64],
    pub log_inner: &'a mut [u64],
    pub log_costs: &'a mut [u64],
}

// So many of the cells, or all where that is more.
pub fn lent(cells: &mut [u64], length: u64) -> &mut [u64] {
    let count = cells.len().min(length as usize);
    &mut cells[..count]
}

// A cell of a column; behind what was lent of it, a mark.
fn cell(column: &[u64], i: usize) -> u64 {
    column.get(i).copied().unwrap_or(MARK)
}

// A row of the memo.
#[derive(Clone, Copy)]
struct Row {
    set: u64,
    estimate: u64,
    cost: u64,
    outer: u64,
    method: u64,
}

// An entry of the log.
#[derive(Clone, Copy)]
struct Entry {
    worker: u64,
    driving: u64,
    inner: u64,
    cost: u64,
}

impl Memory<'_> {
    fn row(&self, i: usize) -> Row {
        Row {
            set: cell(self.sets, i),
            estimate: cell(self.estimates, i),
            cost: cell(self.costs, i),
            outer: cell(self.outers, i),
            method: cell(self.methods, i),
        }
    }

    fn entry(&self, i: usize) -> Entry {
        Entry {
            worker: cell(self.log_workers, i),
            driving: cell(self.log_driving, i),
            inner: cell(self.log_inner, i),
            cost: cell(self.log_costs, i),
        }
    }

    // The filled rows as document 01 orders their fields, each with its skip vector, which has a cell for each table of the set; then the
    // spare rows, which planning leaves as they were, as plain numbers.
    pub fn print_rows(&self, rt: &impl Print, filled: usize) -> io::Result<()> {
        // By index: a column may be lent too short, and then has marks there.
        let mut skips: &[u64] = self.skips;
        for i in 0..self.sets.len() {
            let row = self.row(i);
            if i < filled {
                let (cells, rest) = skips.split_at(skips.len().min(size(row.set) as usize));
                skips = rest;
                println!(rt;
                    "{} {} {} {} {}:{}",
                    Tables(row.set),
                    row.estimate,
                    row.cost,
                    Tables(row.outer),
                    row.method,
                    Spaced(cells)
                )?;
            } else {
                println!(rt;
                    "spare row {} {} {} {} {}",
                    row.set, row.estimate, row.cost, row.outer, row.method
                )?;
            }
        }
        Ok(())
    }

    // The skip cells behind those that planning filled.
    pub fn print_spare_cells(&self, rt: &impl Print, filled: usize) -> io::Result<()> {
        println!(rt;
            "spare cells{}",
            Spaced(self.skips.get(filled..).unwrap_or(&[]))
        )
    }

    // The log's entries, and then the spare ones, as plain numbers.
    pub fn print_log(&self, rt: &impl Print, logged: usize) -> io::Result<()> {
        // By index, as above.
        for i in 0..self.log_workers.len() {
            let entry = self.entry(i);
            if i < logged {
                println!(rt;
                    "worker {} joins {} {}: {}",
                    entry.worker,
                    Tables(entry.driving),
                    Tables(entry.inner),
                    entry.cost
                )?;
            } else {
                println!(rt;
                    "spare entry {} {} {} {}",
                    entry.worker, entry.driving, entry.inner, entry.cost
                )?;
            }
        }
        Ok(())
    }
}
