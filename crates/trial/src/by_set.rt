// A number for each set of a query's tables that has one, by the set's number.
use super::input::Query;
use std::alloc::{AllocError, Global};

#[derive(Drop)]
pub struct BySet {
    cells: Vec<Option<u64>>,
}

impl BySet {
    pub fn none(alloc: Global, query: &Query) -> Result<BySet, AllocError> {
        Ok(BySet {
            cells: vec![in alloc; None; 1usize << query.tables.len()]?,
        })
    }

    pub fn of(&self, set: u64) -> Option<u64> {
        self.cells.get(set as usize).copied().flatten()
    }

    pub fn put(&mut self, set: u64, number: u64) {
        if let Some(cell) = self.cells.get_mut(set as usize) {
            *cell = Some(number);
        }
    }
}
