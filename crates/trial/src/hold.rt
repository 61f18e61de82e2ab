// Plans each query under its crews and holds what planning left to the enumeration.
ghost use Rattle.std.specs.Prelude.{◌<◌, ◌≤◌};

use super::compare::{Compared, Tally};
use super::enumerate::{Memo, Row};
use super::generate::{draw_crew, draw_query, listed};
use super::input::{Crew, Scheme};
use super::plan_in::{Kept, Lent, Memory, Numbers, plan_kept};
use super::play::{Candidates, Entry, counts, play};
use super::random::Random;
use std::alloc::{AllocError, Global};

const QUERIES: u64 = 20_480;

const CREWS: u64 = 3;

// Rows, skip cells and log entries that are lent at most.
const MOST_LENT: Lent = Lent {
    rows: 1024,
    cells: 3072,
    log: 2048,
};

// The refusals of too little memory.
#[derive(Clone, Copy)]
enum Refused {
    Rows = 13,
    Cells = 14,
}

// What planning must leave: nothing where it refuses.
#[derive(Clone, Copy)]
struct Expected<'a> {
    answer: Numbers,
    rows: &'a [Row],
    skips: &'a [u64],
    log: &'a [Entry],
}

fn planned<'a>(memo: &'a Memo, log: &'a [Entry]) -> Expected<'a> {
    let rows = memo.rows.as_slice();
    let skips = memo.skips.as_slice();
    let counts = counts(log);
    Expected {
        answer: Numbers {
            shared: [
                0,
                0,
                memo.best(),
                rows.len() as u64,
                skips.len() as u64,
                log.len() as u64,
            ],
            counts,
        },
        rows,
        skips,
        log,
    }
}

fn refused_plan<'a>(refusal: Refused) -> Expected<'a> {
    Expected {
        answer: Numbers {
            shared: [refusal as u64, 0, 0, 0, 0, 0],
            counts: [0; 8],
        },
        rows: &[],
        skips: &[],
        log: &[],
    }
}

// The refusal of what is lent.
fn refusal(memo: &Memo, lent: Lent) -> Option<Refused> {
    if lent.rows < memo.rows.len() {
        Some(Refused::Rows)
    } else if lent.cells < memo.skips.len() {
        Some(Refused::Cells)
    } else {
        None
    }
}

fn hold_answer(tally: &mut Tally, kept: &Numbers, expected: &Numbers) {
    tally.hold(
        Compared::Answers,
        &kept.shared,
        &expected.shared,
        |number| *number,
    );
    tally.hold(
        Compared::Answers,
        &kept.counts,
        &expected.counts,
        |count| *count,
    );
}

fn hold_rows(tally: &mut Tally, kept: &Memory, rows: &[Row]) {
    tally.hold(Compared::Sets, &kept.sets, rows, |row| row.set);
    tally.hold(
        Compared::Estimates,
        &kept.estimates,
        rows,
        |row| row.estimate,
    );
    tally.hold(Compared::Costs, &kept.costs, rows, |row| row.cost);
    tally.hold(Compared::Outers, &kept.outers, rows, |row| row.outer);
    tally.hold(Compared::Methods, &kept.methods, rows, |row| row.method);
}

fn hold_log(tally: &mut Tally, kept: &Memory, log: &[Entry]) {
    tally.hold(
        Compared::LogWorkers,
        &kept.log_workers,
        log,
        |entry| entry.worker,
    );
    tally.hold(
        Compared::LogDriving,
        &kept.log_driving,
        log,
        |entry| entry.driving,
    );
    tally.hold(
        Compared::LogInner,
        &kept.log_inner,
        log,
        |entry| entry.inner,
    );
    tally.hold(Compared::LogCosts, &kept.log_costs, log, |entry| entry.cost);
}

fn hold_all(tally: &mut Tally, kept: &Kept, expected: &Expected) {
    hold_answer(tally, &kept.answer, &expected.answer);
    hold_rows(tally, &kept.memory, expected.rows);
    tally.hold(
        Compared::SkipCells,
        &kept.memory.skips,
        expected.skips,
        |skip| *skip,
    );
    hold_log(tally, &kept.memory, expected.log);
}

// One table to six, seven in one of 40, eight to twelve in one of 400.
fn tables_of(number: u64) -> usize
    ensures { result ≤ 16 }
{
    if number % 400 == 399 {
        return 8 + (number / 400 % 5) as usize;
    }
    if number % 40 == 39 {
        return 7;
    }
    match number % 16 {
        0 => 1,
        1..=2 => 2,
        3..=5 => 3,
        6..=9 => 4,
        10..=12 => 5,
        _ => 6,
    }
}

fn any_crew(alloc: Global, random: &mut Random) -> Result<Crew, AllocError> {
    let workers = random.draw(8) + 1;
    let scheme = Scheme::numbered(random.draw(4));
    let turns = listed(random.draw(4), 400);
    draw_crew(alloc, random, workers, scheme, turns)
}

// As much as is needed and a few more, or one too little.
fn lent_for(needed: usize, short: bool, more: usize, most: usize) -> usize {
    let lent = if short {
        needed.saturating_sub(1)
    } else {
        needed.saturating_add(more)
    };
    lent.min(most)
}

// Rows and cells that just suffice, a few more, or rarely one too few; a log of any length.
fn draw_lent(random: &mut Random, memo: &Memo, pairs: usize) -> Lent {
    let more = random.draw(4) as usize;
    let rare = random.draw(64);
    let short = random.up_to(pairs as u64) as usize;
    let more_log = random.draw(4) as usize;
    let log = match random.draw(4) {
        0 => short,
        _ => pairs.saturating_add(more_log),
    };
    Lent {
        rows: lent_for(memo.rows.len(), rare == 0, more, MOST_LENT.rows),
        cells: lent_for(memo.skips.len(), rare < 2, more, MOST_LENT.cells),
        log: log.min(MOST_LENT.log),
    }
}

// A query with its enumeration, and the candidates of its sizes from two on.
#[derive(Drop)]
pub struct Enumerated {
    pub memo: Memo,
    pub sizes: Vec<Candidates>,
}

impl Enumerated {
    pub fn drawn(
        alloc: Global,
        random: &mut Random,
        tables: usize,
    ) -> Result<Enumerated, AllocError>
        requires { tables ≤ 16 }
    {
        let memo = Memo::of(alloc, draw_query(alloc, random, tables)?)?;
        let mut sizes = Vec::new(alloc);
        for size in 2..=tables {
            sizes.push(Candidates::of(alloc, &memo, size)?)?;
        }
        Ok(Enumerated { memo, sizes })
    }

    pub fn play(&self, alloc: Global, crew: &Crew) -> Result<Vec<Entry>, AllocError> {
        play(alloc, &self.memo.query, &self.sizes, crew)
    }
}

// Plans under a crew.
fn one_crew(
    alloc: Global,
    random: &mut Random,
    tally: &mut Tally,
    query: &Enumerated,
) -> Result<(), AllocError> {
    let crew = any_crew(alloc, random)?;
    let log = query.play(alloc, &crew)?;
    let lent = draw_lent(random, &query.memo, log.len());
    let kept = plan_kept(alloc, &query.memo.query, &crew, lent)?;
    tally.plans = tally.plans.saturating_add(1);
    match refusal(&query.memo, lent) {
        Some(refusal) => {
            tally.refused = tally.refused.saturating_add(1);
            hold_all(tally, &kept, &refused_plan(refusal));
        }
        None => hold_all(tally, &kept, &planned(&query.memo, &log)),
    }
    Ok(())
}

pub fn all_queries(alloc: Global, random: &mut Random) -> Result<Tally, AllocError> {
    let mut tally = Tally::default();
    for number in 0..QUERIES {
        let query = Enumerated::drawn(alloc, random, tables_of(number))?;
        tally.queries = tally.queries.saturating_add(1);
        for _ in 0..CREWS {
            one_crew(alloc, random, &mut tally, &query)?;
        }
    }
    Ok(tally)
}
