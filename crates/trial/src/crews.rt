// Queries that are planned by twelve crews each. The first crew is one worker with no list of turns: answer, memo and skip vectors of
// each crew are held to its, and each log to the turns that are played.
use super::compare::apart;
use super::generate::{draw_crew, listed};
use super::hold::Enumerated;
use super::input::{Crew, Scheme};
use super::plan_in::{Kept, Lent, plan_kept};
use super::play::{Entry, counts};
use super::random::Random;
use std::alloc::{AllocError, Global};

const QUERIES: u64 = 200;

const CREWS: u64 = 12;

// All crews are lent as much: seven tables have 127 sets, 448 cells and 966 pairs.
const LENT: Lent = Lent {
    rows: 128,
    cells: 456,
    log: 1024,
};

#[derive(Clone, Copy, Default)]
pub struct Tally {
    pub queries: u64,
    pub plans: u64,
    pub comparisons: u64,
    pub differences: u64,
    pub entries: u64,
    pub faults: u64,
}

impl Tally {
    // Holds a column to the first crew's.
    fn hold(&mut self, column: &[u64], first: &[u64]) {
        self.comparisons = self.comparisons.saturating_add(column.len() as u64);
        self.differences = self
            .differences
            .saturating_add(apart(column, first, |cell| *cell));
    }

    fn hold_to_first(&mut self, kept: &Kept, first: &Kept) {
        self.hold(&kept.answer.shared, &first.answer.shared);
        self.hold(&kept.memory.sets, &first.memory.sets);
        self.hold(&kept.memory.estimates, &first.memory.estimates);
        self.hold(&kept.memory.costs, &first.memory.costs);
        self.hold(&kept.memory.outers, &first.memory.outers);
        self.hold(&kept.memory.methods, &first.memory.methods);
        self.hold(&kept.memory.skips, &first.memory.skips);
    }

    fn find_faults(&mut self, found: u64) {
        self.faults = self.faults.saturating_add(found);
    }

    // Holds a log and the counts of its workers to the turns that were played, spare cells too.
    fn test_log(&mut self, kept: &Kept, log: &[Entry]) {
        self.entries = self.entries.saturating_add(log.len() as u64);
        self.find_faults(apart(&kept.answer.counts, &counts(log), |count| *count));
        self.find_faults(apart(&kept.memory.log_workers, log, |entry| entry.worker));
        self.find_faults(apart(&kept.memory.log_driving, log, |entry| entry.driving));
        self.find_faults(apart(&kept.memory.log_inner, log, |entry| entry.inner));
        self.find_faults(apart(&kept.memory.log_costs, log, |entry| entry.cost));
    }
}

// Crew k of a query. Over the queries each number of workers meets each scheme and each length of list.
fn crew_of(alloc: Global, random: &mut Random, number: u64, k: u64) -> Result<Crew, AllocError> {
    if k == 0 {
        return draw_crew(alloc, random, 1, Scheme::CutCandidates, 0);
    }
    let workers = number.saturating_add(k) % 8 + 1;
    let scheme = Scheme::numbered((number >> 3).saturating_add(k));
    let turns = listed((number / 3).saturating_add(k >> 1), 1_200);
    draw_crew(alloc, random, workers, scheme, turns)
}

fn one_crew(
    alloc: Global,
    tally: &mut Tally,
    query: &Enumerated,
    crew: &Crew,
) -> Result<Kept, AllocError> {
    let log = query.play(alloc, crew)?;
    let kept = plan_kept(alloc, &query.memo.query, crew, LENT)?;
    tally.plans = tally.plans.saturating_add(1);
    tally.test_log(&kept, &log);
    Ok(kept)
}

// Query `number`: two tables to seven.
fn one_query(
    alloc: Global,
    random: &mut Random,
    tally: &mut Tally,
    number: u64,
) -> Result<(), AllocError> {
    let query = Enumerated::drawn(alloc, random, (number % 6) as usize + 2)?;
    tally.queries = tally.queries.saturating_add(1);
    let first = one_crew(alloc, tally, &query, &crew_of(alloc, random, number, 0)?)?;
    for k in 1..CREWS {
        let kept = one_crew(alloc, tally, &query, &crew_of(alloc, random, number, k)?)?;
        tally.hold_to_first(&kept, &first);
    }
    Ok(())
}

pub fn all_queries(alloc: Global, random: &mut Random) -> Result<Tally, AllocError> {
    let mut tally = Tally::default();
    for number in 0..QUERIES {
        one_query(alloc, random, &mut tally, number)?;
    }
    Ok(tally)
}
