// The library's entry from C, and laying out alone; for tests and benchmarks only, not shipped.
#![tactic(auto)]

ghost use Rattle.std.specs.Prelude.{◌≡◌, length};
ghost use Rattle.query.specs.Lists.{query_of};
ghost use Rattle.planner.specs.Plans.{memory_of, input_of};
ghost use Rattle.memo.specs.Layout.{lent};
ghost use Rattle.harness.specs.Columns.{numbers_of, Handed, lay_input, Laying};

use memo::layout::lay_out;
use memo::lent::Memo;
use planner::{Answer, plan};
use query::graph::Graph;
use query::lists::Query;
use refusals::{Lengths, check};
use rows::tally::{Tally, count_rows};
use rules::refusal::Refusal;

// How many numbers an answer has.
const NUMBERS: usize = 14;

// The answer's fourteen numbers; a refusal has its number, its place and zeros.
fn numbers(planned: Result<Answer, Refusal>) -> [u64; NUMBERS]
    ensures { (result ≡ numbers_of planned) × (length result ≡ 14) }
{
    match planned {
        Ok(answer) => {
            let counts = answer.counts;
            [
                0,
                0,
                answer.best,
                answer.rows,
                answer.cells,
                answer.pairs,
                counts[0],
                counts[1],
                counts[2],
                counts[3],
                counts[4],
                counts[5],
                counts[6],
                counts[7],
            ]
        }
        Err(refusal) => {
            let mut told = [0; NUMBERS];
            told[0] = refusal.reason.number();
            told[1] = refusal.place;
            told
        }
    }
}

// Lists stay apart here and below: C lends them so. Plans as `plan` does, and puts the answer's numbers into the first cells of `answer`; where they do not fit, nothing is done.
#[unsafe(no_mangle)]
pub extern "C" fn plan_columns(
    rows: &[u64],
    scans: &[u64],
    left: &[u64],
    right: &[u64],
    divisors: &[u64],
    fixed: &[u64],
    per_outer: &[u64],
    per_inner: &[u64],
    per_result: &[u64],
    workers: u64,
    scheme: u64,
    turns: &[u64],
    sets: &mut [u64],
    estimates: &mut [u64],
    costs: &mut [u64],
    outers: &mut [u64],
    methods: &mut [u64],
    skips: &mut [u64],
    log_workers: &mut [u64],
    log_driving: &mut [u64],
    log_inner: &mut [u64],
    log_costs: &mut [u64],
    answer: &mut [u64],
) -> usize
    ensures { Handed (input_of (query_of rows.now scans.now left.now right.now divisors.now fixed.now per_outer.now per_inner.now per_result.now) workers scheme turns.now (memory_of sets.old estimates.old costs.old outers.old methods.old skips.old log_workers.old log_driving.old log_inner.old log_costs.old)) answer.old (memory_of sets.new estimates.new costs.new outers.new methods.new skips.new log_workers.new log_driving.new log_inner.new log_costs.new) answer.new result }
{
    if answer.len() < NUMBERS {
        return 0;
    }
    let planned = plan(
        rows,
        scans,
        left,
        right,
        divisors,
        fixed,
        per_outer,
        per_inner,
        per_result,
        workers,
        scheme,
        turns,
        sets,
        estimates,
        costs,
        outers,
        methods,
        skips,
        log_workers,
        log_driving,
        log_inner,
        log_costs,
    );
    answer[..NUMBERS].copy_from_slice(&numbers(planned));
    NUMBERS
}

// Lays out as `plan` does, for a query of these tables and edges: the number of its refusal, or 0 with every column laid out.
#[unsafe(no_mangle)]
pub extern "C" fn lay_columns(
    rows: &[u64],
    left: &[u64],
    right: &[u64],
    divisors: &[u64],
    sets: &mut [u64],
    estimates: &mut [u64],
    costs: &mut [u64],
    outers: &mut [u64],
    methods: &mut [u64],
    skips: &mut [u64],
) -> u64
    ensures { Laying (lay_input rows.now left.now right.now divisors.now sets.old estimates.old costs.old outers.old methods.old skips.old) (lent sets.new estimates.new costs.new outers.new methods.new skips.new) result }
{
    let query = Query {
        rows,
        scans: rows,
        left,
        right,
        divisors,
        fixed: &[0],
        per_outer: &[0],
        per_inner: &[0],
        per_result: &[0],
    };
    let lengths = Lengths {
        memo: [
            sets.len(),
            estimates.len(),
            costs.len(),
            outers.len(),
            methods.len(),
        ],
        log: [0; 4],
    };
    if let Err(refusal) = check(&query, 1, 1, &[], &lengths) {
        return refusal.reason.number();
    }
    let graph = Graph {
        rows,
        left,
        right,
        divisors,
    };
    let counts = count_rows(&graph);
    let tally = Tally {
        graph: &graph,
        counts: &counts,
    };
    let mut memo = Memo {
        sets,
        estimates,
        costs,
        outers,
        methods,
        skips,
    };
    match lay_out(&tally, &mut memo) {
        Ok(_) => 0,
        Err(refusal) => refusal.reason.number(),
    }
}
