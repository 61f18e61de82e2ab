// The library's entry: checks, laying out, the turns in a row, the answer.
#![tactic(auto)]

ghost use Rattle.rules.specs.Answers.{Planned};
ghost use Rattle.query.specs.Lists.{query_of};
ghost use Rattle.planner.specs.Plans.{memory_of, input_of, outcome_of};

use crew::log::Log;
use memo::layout::lay_out;
use memo::lent::Memo;
use query::graph::Graph;
use query::lists::Query;
use refusals::{Lengths, check};
use results::keep::Columns;
use results::price::Rates;
use rows::tally::{Tally, count_rows};
use rules::refusal::Refusal;
use runs::search::search;

// "The answer gives best cost, number of memo rows, of skip cells, of joinable pairs, and eight per-worker pair counts".
#[derive(Clone, Copy)]
pub struct Answer {
    pub best: u64,
    pub rows: u64,
    pub cells: u64,
    pub pairs: u64,
    pub counts: [u64; 8],
}

// Its lists stay apart, since C lends them so and their order is fixed. Plans a query in lent memory, or refuses it with a number and a place and nothing changed.
pub fn plan<'q, 'm, 'l>(
    rows: &'q [u64],
    scans: &'q [u64],
    left: &'q [u64],
    right: &'q [u64],
    divisors: &'q [u64],
    fixed: &'q [u64],
    per_outer: &'q [u64],
    per_inner: &'q [u64],
    per_result: &'q [u64],
    workers: u64,
    scheme: u64,
    turns: &[u64],
    sets: &'m mut [u64],
    estimates: &'m mut [u64],
    costs: &'m mut [u64],
    outers: &'m mut [u64],
    methods: &'m mut [u64],
    skips: &'m mut [u64],
    log_workers: &'l mut [u64],
    log_driving: &'l mut [u64],
    log_inner: &'l mut [u64],
    log_costs: &'l mut [u64],
) -> Result<Answer, Refusal>
    ensures { Planned (input_of (query_of rows.now scans.now left.now right.now divisors.now fixed.now per_outer.now per_inner.now per_result.now) workers scheme turns.now (memory_of sets.old estimates.old costs.old outers.old methods.old skips.old log_workers.old log_driving.old log_inner.old log_costs.old)) (outcome_of result (memory_of sets.new estimates.new costs.new outers.new methods.new skips.new log_workers.new log_driving.new log_inner.new log_costs.new)) }
{
    let query = Query {
        rows,
        scans,
        left,
        right,
        divisors,
        fixed,
        per_outer,
        per_inner,
        per_result,
    };
    let lengths = Lengths {
        memo: [
            sets.len(),
            estimates.len(),
            costs.len(),
            outers.len(),
            methods.len(),
        ],
        log: [
            log_workers.len(),
            log_driving.len(),
            log_inner.len(),
            log_costs.len(),
        ],
    };
    let crew = check(&query, workers, scheme, turns, &lengths)?;
    let graph = Graph {
        rows,
        left,
        right,
        divisors,
    };
    let counts = count_rows(&graph);
    let tally = Tally {
        graph: &graph,
        counts: &counts,
    };
    let mut memo = Memo {
        sets: &mut *sets,
        estimates: &mut *estimates,
        costs: &mut *costs,
        outers: &mut *outers,
        methods: &mut *methods,
        skips: &mut *skips,
    };
    let laid = lay_out(&tally, &mut memo)?;
    let rates = Rates {
        fixed,
        outer: per_outer,
        inner: per_inner,
        res: per_result,
    };
    let mut columns = Columns {
        costs,
        outers,
        methods,
    };
    let mut log = Log {
        workers: log_workers,
        driving: log_driving,
        inner: log_inner,
        costs: log_costs,
    };
    let found = search(
        &tally,
        scans,
        &rates,
        crew,
        turns,
        sets,
        estimates,
        skips,
        &mut columns,
        &mut log,
    );
    let best = columns.costs[laid.rows as usize - 1];
    let counts = found.counts;
    Ok(Answer {
        best,
        rows: laid.rows,
        cells: laid.cells,
        pairs: found.pairs as u64,
        counts,
    })
}
