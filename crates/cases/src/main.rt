// Inputs through the library's entry, each under its name: document 01's cases C1 to C12 and some more with the answer, the memo with
// its skip vectors, the log, and what stands in the spare part of all that was lent; then both sides of every limit of checks 1 to 12
// with number and place.
// The inputs stand in `stdin`. What it must print was worked out from document 01 apart from this code, and stands in `stdout`.
#![tactic(auto)]

mod input;
mod memory;
mod shown;

use input::{Input, Line, numbers};
use memory::{MARK, MOST_CELLS, MOST_ENTRIES, MOST_ROWS, Memory, lent};
use planner::{Answer, plan};
use rules::refusal::Refusal;
use shown::Spaced;
use std::io;
use std::io::Read;

// So many bytes of the input are read, and the rest is passed over.
const ROOM: usize = 16384;

// Plans an input in lent memory.
fn plan_in(input: &Input, memory: &mut Memory) -> Result<Answer, Refusal> {
    plan(
        input.rows.as_slice(),
        input.scans.as_slice(),
        input.left.as_slice(),
        input.right.as_slice(),
        input.divisors.as_slice(),
        input.fixed.as_slice(),
        input.outer.as_slice(),
        input.inner.as_slice(),
        input.result.as_slice(),
        input.workers,
        input.scheme,
        input.turns.as_slice(),
        &mut *memory.sets,
        &mut *memory.estimates,
        &mut *memory.costs,
        &mut *memory.outers,
        &mut *memory.methods,
        &mut *memory.skips,
        &mut *memory.log_workers,
        &mut *memory.log_driving,
        &mut *memory.log_inner,
        &mut *memory.log_costs,
    )
}

// The answer's numbers; a refusal has zeros for those of a plan, and a plan has zeros for those of a refusal.
fn print_answer(rt: &impl Print, answer: &Result<Answer, Refusal>) -> io::Result<()> {
    match answer {
        Ok(answer) => println!(rt;
            "refusal 0 place 0 best {} rows {} cells {} pairs {} counts{}",
            answer.best,
            answer.rows,
            answer.cells,
            answer.pairs,
            Spaced(&answer.counts)
        ),
        Err(refusal) => println!(rt;
            "refusal {} place {} best 0 rows 0 cells 0 pairs 0 counts{}",
            refusal.reason.number(),
            refusal.place,
            Spaced(&[0; 8])
        ),
    }
}

// The answer, then what was lent: the part that planning fills, and the spare part.
fn show(
    rt: &impl Print,
    name: &[u8],
    answer: &Result<Answer, Refusal>,
    memory: &Memory,
) -> io::Result<()> {
    let (rows, cells, pairs) = match answer {
        Ok(answer) => (answer.rows, answer.cells, answer.pairs),
        Err(_) => (0, 0, 0),
    };
    rt.write_all(name)?;
    println!(rt; "")?;
    print_answer(rt, answer)?;
    memory.print_rows(rt, rows as usize)?;
    memory.print_spare_cells(rt, cells as usize)?;
    memory.print_log(rt, pairs as usize)
}

// Number and place alone; 0 and 0 for a plan.
fn judge(rt: &impl Print, name: &[u8], answer: &Result<Answer, Refusal>) -> io::Result<()> {
    let (number, place) = match answer {
        Ok(_) => (0, 0),
        Err(refusal) => (refusal.reason.number(), refusal.place),
    };
    rt.write_all(name)?;
    println!(rt; ": {number} {place}")
}

// Plans an input in marked memory, and shows all of it, or judges it. Arrays and no Vec: this program takes no memory that may be refused.
fn run(rt: &impl Print, name: &[u8], input: &Input, full: bool) -> io::Result<()> {
    let mut sets = [MARK; MOST_ROWS];
    let mut estimates = [MARK; MOST_ROWS];
    let mut costs = [MARK; MOST_ROWS];
    let mut outers = [MARK; MOST_ROWS];
    let mut methods = [MARK; MOST_ROWS];
    let mut skips = [MARK; MOST_CELLS];
    let mut log_workers = [MARK; MOST_ENTRIES];
    let mut log_driving = [MARK; MOST_ENTRIES];
    let mut log_inner = [MARK; MOST_ENTRIES];
    let mut log_costs = [MARK; MOST_ENTRIES];
    let mut memory = Memory {
        sets: lent(&mut sets, input.lent.sets),
        estimates: lent(&mut estimates, input.lent.estimates),
        costs: lent(&mut costs, input.lent.costs),
        outers: lent(&mut outers, input.lent.outers),
        methods: lent(&mut methods, input.lent.methods),
        skips: lent(&mut skips, input.lent.skips),
        log_workers: lent(&mut log_workers, input.lent.log_workers),
        log_driving: lent(&mut log_driving, input.lent.log_driving),
        log_inner: lent(&mut log_inner, input.lent.log_inner),
        log_costs: lent(&mut log_costs, input.lent.log_costs),
    };
    let answer = plan_in(input, &mut memory);
    if full {
        show(rt, name, &answer, &memory)
    } else {
        judge(rt, name, &answer)
    }
}

// A letter's line sets its list, `=` keeps all lists for the inputs that follow, `!` and `?` plan, and what was kept stands again.
fn main(rt: HostRuntime) -> io::Result<()> {
    let mut text = [0u8; ROOM];
    let mut length = 0usize;
    let mut reader = rt.reader();
    // A read may give less than there is, and gives nothing at the end or where the room is used up.
    for _ in 0..ROOM {
        let more = reader.read(&mut text[length..])?;
        if more == 0 {
            break;
        }
        length += more;
    }
    let mut kept = Input::new();
    let mut input = Input::new();
    for line in text[..length].split(|b| *b == b'\n') {
        match Line::from(line) {
            Line::Empty => (),
            Line::Keep => kept = input,
            Line::Show(name) => {
                run(&rt, name, &input, true)?;
                input = kept;
            }
            Line::Judge(name) => {
                run(&rt, name, &input, false)?;
                input = kept;
            }
            Line::List(letter, text) => input.set(letter, numbers(text)),
        }
    }
    Ok(())
}
