// Comparisons cell by cell, and their counts.
use super::plan_in::MARK;
use std::fmt;

// What is compared.
#[derive(Clone, Copy)]
pub enum Compared {
    Answers,
    Sets,
    Estimates,
    Costs,
    Outers,
    Methods,
    SkipCells,
    LogWorkers,
    LogDriving,
    LogInner,
    LogCosts,
}

pub const ALL_COMPARED: [Compared; 11] = [
    Compared::Answers,
    Compared::Sets,
    Compared::Estimates,
    Compared::Costs,
    Compared::Outers,
    Compared::Methods,
    Compared::SkipCells,
    Compared::LogWorkers,
    Compared::LogDriving,
    Compared::LogInner,
    Compared::LogCosts,
];

impl fmt::Display for Compared {
    fn fmt<W: fmt::Write>(&self, f: &mut fmt::Formatter<W>) -> fmt::Result {
        f.write_str(match self {
            Compared::Answers => "answers",
            Compared::Sets => "sets",
            Compared::Estimates => "estimates",
            Compared::Costs => "costs",
            Compared::Outers => "outers",
            Compared::Methods => "methods",
            Compared::SkipCells => "skip cells",
            Compared::LogWorkers => "log workers",
            Compared::LogDriving => "log driving sets",
            Compared::LogInner => "log inner sets",
            Compared::LogCosts => "log costs",
        })
    }
}

#[derive(Clone, Copy, Default)]
pub struct Tally {
    pub queries: u64,
    pub plans: u64,
    pub refused: u64,
    pub comparisons: u64,
    pub differences: u64,
    compared: [u64; 11],
}

impl Tally {
    pub fn of(&self, what: Compared) -> u64 {
        self.compared[what as usize]
    }

    // Counts the comparisons of a column.
    pub fn hold<T, F: Fn(&T) -> u64>(
        &mut self,
        what: Compared,
        column: &[u64],
        records: &[T],
        number: F,
    )
        requires { F.IsAlwaysCallable number }
    {
        let cells = column.len() as u64;
        self.compared[what as usize] = self.compared[what as usize].saturating_add(cells);
        self.comparisons = self.comparisons.saturating_add(cells);
        self.differences = self
            .differences
            .saturating_add(apart(column, records, number));
    }
}

// In how many cells a column differs from what must be in it: a number of each record, and then marks.
pub fn apart<T, F: Fn(&T) -> u64>(column: &[u64], records: &[T], number: F) -> u64
    requires { F.IsAlwaysCallable number }
{
    let mut found = 0u64;
    for (i, cell) in column.iter().enumerate() {
        let expected = match records.get(i) {
            Some(record) => number(record),
            None => MARK,
        };
        if *cell != expected {
            found = found.saturating_add(1);
        }
    }
    found
}
