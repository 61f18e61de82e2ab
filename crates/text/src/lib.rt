// The text entry's work: a text's bytes to the bytes of its answer.
#![tactic(auto)]

ghost use Rattle.std.specs.Prelude.{◌≡◌, ◌≤◌, ◌+◌, length};
ghost use Rattle.rules.specs.Limits.{answer_room};
ghost use Rattle.rules.specs.Lists.{over};
ghost use Rattle.rules.specs.Refusals.{Input, verdict};
ghost use Rattle.rules.specs.Verdict.{told};
ghost use Rattle.rules.specs.Text.{text_input, input_of, text_verdict, Written};
ghost use Rattle.rules.specs.Writing.{refusal_line};
ghost use Rattle.query.specs.Lists.{query_in};
ghost use Rattle.digits.specs.Put.{Put};
ghost use Rattle.text.specs.Composing.{Answered, Composed};

use digits::Line;
use planner::{Answer, plan};
use query::lists::Query;
use reader::columns::Columns;
use reader::reading::read;
use rules::refusal::Refusal;
use sets::single;
use writer::joins::{Memo, put_joins};
use writer::lines::{put_plan, put_refusal};

// One list to the start of another. No `copy_from_slice`: that is memmove, which an archive for C would need from outside.
fn copy(from: &[u8], to: &mut [u8])
    requires { length from.now ≤ length to.old }
    ensures { to.new ≡ over from.now to.old }
{
    for i in 0..from.len() {
        to[i] = from[i];
    }
}

// That a line has room stands in a clause, here and in digits and writer: what it is room for differs.
// The X line of a refusal.
fn put_refused(line: &mut Line, refusal: Refusal)
    requires { line.old.at + answer_room ≤ length line.old.out.now }
    ensures { Put line.old line.new (refusal_line (told refusal)) }
{
    put_refusal(line, refusal.reason.number(), refusal.place);
}

// Writes what planning answered: an X line, or a P line and the joins that stand in the memo.
fn put_answer(line: &mut Line, planned: Result<Answer, Refusal>, memo: &Memo)
    requires room { line.old.at + answer_room ≤ length line.old.out.now }
    requires answered { (i : Input) × Answered i planned memo.now }
    ensures { (i : Input) → Answered i planned memo.now → Composed (verdict i) i line.old line.new }
{
    match planned {
        Ok(answer) => {
            put_plan(line, answer.best, answer.pairs);
            put_joins(line, single(memo.tables + 1) - 1, memo);
        }
        Err(refusal) => put_refused(line, refusal),
    }
}

// Plans what was read, in memory of its own, and writes the answer.
fn plan_read(line: &mut Line, query: &Query, workers: u64, scheme: u64)
    requires { line.old.at + answer_room ≤ length line.old.out.now }
    ensures { Composed (verdict (text_input (query_in query.now) workers scheme)) (text_input (query_in query.now) workers scheme) line.old line.new }
{
    let mut sets = [0u64; 1023];
    let mut estimates = [0u64; 1023];
    let mut costs = [0u64; 1023];
    let mut outers = [0u64; 1023];
    let mut methods = [0u64; 1023];
    let planned = plan(
        query.rows,
        query.scans,
        query.left,
        query.right,
        query.divisors,
        query.fixed,
        query.per_outer,
        query.per_inner,
        query.per_result,
        workers,
        scheme,
        &[],
        &mut sets,
        &mut estimates,
        &mut costs,
        &mut outers,
        &mut methods,
        &mut [0u64; 5120],
        &mut [],
        &mut [],
        &mut [],
        &mut [],
    );
    let tables = query.rows.len() as u64;
    let memo = Memo {
        tables,
        sets: &sets,
        estimates: &estimates,
        costs: &costs,
        outers: &outers,
        methods: &methods,
    };
    put_answer(line, planned, &memo);
}

// The answer to a text, where any answer fits.
fn compose(text: &[u8], line: &mut Line)
    requires { line.old.at + answer_room ≤ length line.old.out.now }
    ensures { Composed (text_verdict text.now) (input_of text.now) line.old line.new }
{
    let mut columns = Columns {
        rows: &mut [0u64; 16],
        scans: &mut [0u64; 16],
        left: &mut [0u64; 120],
        right: &mut [0u64; 120],
        divisors: &mut [0u64; 120],
        fixed: &mut [0u64; 4],
        per_outer: &mut [0u64; 4],
        per_inner: &mut [0u64; 4],
        per_result: &mut [0u64; 4],
    };
    match read(text, &mut columns) {
        Ok(progress) => {
            let Columns {
                rows,
                scans,
                left,
                right,
                divisors,
                fixed,
                per_outer,
                per_inner,
                per_result,
                ..
            } = columns;
            let tables = progress.tables;
            let edges = progress.edges;
            let methods = progress.methods;
            let query = Query {
                rows: &rows[..tables],
                scans: &scans[..tables],
                left: &left[..edges],
                right: &right[..edges],
                divisors: &divisors[..edges],
                fixed: &fixed[..methods],
                per_outer: &per_outer[..methods],
                per_inner: &per_inner[..methods],
                per_result: &per_result[..methods],
            };
            plan_read(line, &query, progress.workers, progress.scheme);
        }
        Err(stopped) => put_refused(line, stopped.refusal),
    }
}

// Plans the query of a text, and writes the answer to the start of a lent buffer: its length, or 0 and nothing written where it
// does not fit.
pub fn plan_bytes(query: &[u8], answer: &mut [u8]) -> usize
    ensures { Written query.now answer.old answer.new result }
{
    let room = answer.len();
    // No Vec: the library has no heap.
    let mut lines = [0u8; 4096];
    let mut line = Line {
        out: &mut lines,
        at: 0,
    };
    compose(query, &mut line);
    let length = line.at;
    if room < length {
        return 0;
    }
    copy(&line.out[..length], answer);
    length
}
