// Document 01's query turn by turn, under the four schemes with 1, 2, 3 and 8 workers: prints places, pairs and standing costs.
// What it must print was worked out from document 01 apart from this code, and stands in `stdout`.
#![tactic(auto)]

ghost use Rattle.std.specs.Prelude.{◌≡◌, IfOk, ℕ, ◌+◌, ◌-◌, ◌≤◌, ◌<◌, length, map, take};
ghost use Rattle.rules.specs.declared.Shape.TheVariants.{Bushy};
ghost use Rattle.rules.specs.Schedule.{by_size};
ghost use Rattle.rules.specs.Query.{table_count};
ghost use Rattle.rules.specs.Rows.{memo};
ghost use Rattle.rules.specs.Estimate.{estimate};
ghost use Rattle.results.specs.Kept.{SameColumns};
ghost use Rattle.turns.specs.Standing.{Work};
ghost use Rattle.turns.specs.Taken.{columns_of};
ghost use Rattle.crew.specs.Workers.{worker_at};
ghost use Rattle.rounds.specs.Rounds.{query_at, query_by, Shown, Between, Within, Started};

use crew::whose::{entries_on, lowest, whose_turn};
use crew::{Handed, Worker, nobody};
use memo::layout::lay_out;
use memo::lent::Memo;
use opening::open;
use pairs::footing::Footing;
use query::graph::Graph;
use query::lists::Query;
use refusals::{Lengths, check};
use results::keep::Columns;
use results::price::Rates;
use rows::tally::{Tally, count_rows};
use rules::{Crew, Group, Scheme};
use sets::shown::Tables;
use starts::lay_starts;
use std::io;
use turns::scans::lay_scans;
use turns::setting::Setting;
use turns::turn::turn;

// Where a worker waits: the number of its next joinable pair, and the pair.
fn print_place(rt: &impl Print, sets: &[u64], worker: Worker) -> io::Result<()>
    requires { Shown sets.now worker }
{
    let number = worker.place.number;
    match worker.place.pair {
        None => println!(rt; "{} waits at {number}: none", worker.share.worker),
        Some(spot) => println!(rt;
            "{} waits at {number}: {} {}",
            worker.share.worker,
            Tables(sets[spot.row]),
            Tables(sets[spot.inner])
        ),
    }
}

// What a turn of worker `w` handed, and the cost in the result's row after it.
fn print_pair(rt: &impl Print, w: usize, pair: Option<Handed>) -> io::Result<()> {
    match pair {
        None => println!(rt; "{w} joins none"),
        Some(pair) => println!(rt;
            "{w} joins {} {}: {}",
            Tables(pair.driving),
            Tables(pair.inner),
            pair.cost
        ),
    }
}

// A size as it is opened; under scheme 1 with the workers' shares, which are cuts of its candidates.
fn print_size(
    rt: &impl Print,
    sets: &[u64],
    size: usize,
    scheme: Scheme,
    workers: &[Worker],
) -> io::Result<()>
    requires { (w : ℕ) → w < length workers.now → Shown sets.now (worker_at workers.now w) }
{
    println!(rt; "size {size}")?;
    if scheme == Scheme::CutCandidates {
        for worker in workers {
            let share = worker.share;
            println!(rt; "{} has {}", share.worker, share.to - share.from)?;
        }
    }
    for worker in workers {
        print_place(rt, sets, *worker)?;
    }
    Ok(())
}

// Turns of group `k` until no worker has a pair left: first the entries of the list, of which `used` are used up, then the lowest-numbered
// worker. How many entries are used up then. On a failed print too the columns are the same, of their lengths. The scan costs are named in
// the promise alone.
fn take_turns(
    rt: &impl Print,
    setting: &Setting,
    scans: &[u64],
    columns: &mut Columns,
    k: usize,
    crew: Crew,
    turns: &[u64],
    workers: &mut [Worker; 8],
    used: usize,
) -> io::Result<usize>
    requires group { (1 ≤ k) × (k ≤ table_count setting.now.footing.graph.now - 1) × Work (query_by setting.now scans.now) crew (by_size Bushy) turns.now }
    requires within { Within (query_by setting.now scans.now) crew k workers.old (columns_of columns.old) }
    ensures between { IfOk result (λ _. Between (query_by setting.now scans.now) crew (k + 1) workers.new (columns_of columns.new)) }
    ensures lengths { (length columns.new.costs.now ≡ length columns.old.costs.now) × (length columns.new.outers.now ≡ length columns.old.outers.now) × (length columns.new.methods.now ≡ length columns.old.methods.now) }
    ensures same_columns { SameColumns columns.new columns.old }
{
    let group = Group::by_size(k);
    let mut used = used;
    while let Some(low) = lowest(&workers[..crew.workers as usize]) {
        let w = whose_turn(turns, used, low);
        used = entries_on(turns.len(), used);
        let pair = turn(setting, columns, group, workers, w);
        print_pair(rt, w, pair)?;
    }
    Ok(used)
}

// Opens the group of each size, prints where its workers wait, and takes its turns.
fn run_sizes<'a>(
    rt: &impl Print,
    footing: &Footing<'a>,
    rates: &Rates<'a>,
    estimates: &'a [u64],
    scans: &[u64],
    columns: &mut Columns,
    crew: Crew,
    turns: &[u64],
) -> io::Result<()>
    requires estimated { take (length (memo footing.now.graph.now)) estimates.now ≡ map (estimate footing.now.graph.now) (memo footing.now.graph.now) }
    requires started { Started (query_at footing.now.graph.now scans.now rates.now) crew turns.now (columns_of columns.old) }
{
    let setting = Setting {
        footing: *footing,
        rates: *rates,
        estimates,
    };
    let graph = footing.graph;
    let tables = graph.rows.len();
    let mut workers = [nobody(); 8];
    let mut used = 0;
    for k in 1..tables {
        open(footing, Group::by_size(k), crew, &mut workers);
        print_size(
            rt,
            footing.sets,
            k + 1,
            crew.scheme,
            &workers[..crew.workers as usize],
        )?;
        used = take_turns(
            rt,
            &setting,
            scans,
            columns,
            k,
            crew,
            turns,
            &mut workers,
            used,
        )?;
    }
    Ok(())
}

// Room for where the rows of each size begin: sizes 0 to N + 1, of at most 16 tables.
const SIZES: usize = 18;

// Document 01's query under a scheme with so many workers and so many turns of worker 1 listed: checks query and crew, lays out the memo
// with the scan costs, and takes the turns of its sizes.
fn run(rt: &impl Print, scheme: Scheme, workers: u64, listed: usize) -> io::Result<()>
    requires { listed ≤ 2 }
{
    let rows = [100, 10, 1000];
    let scans = [100, 10, 1000];
    let left = [1, 2];
    let right = [2, 3];
    let divisors = [10, 100];
    let fixed = [5, 50];
    let per_outer = [1, 1];
    let per_inner = [2, 1];
    let per_result = [1, 1];
    let query = Query {
        rows: &rows,
        scans: &scans,
        left: &left,
        right: &right,
        divisors: &divisors,
        fixed: &fixed,
        per_outer: &per_outer,
        per_inner: &per_inner,
        per_result: &per_result,
    };
    let ones = [1u64; 2];
    let turns = &ones[..listed];
    let mut sets = [0u64; 6];
    let mut estimates = [0u64; 6];
    let mut costs = [0u64; 6];
    let mut outers = [0u64; 6];
    let mut methods = [0u64; 6];
    let mut skips = [0u64; 10];
    let lengths = Lengths {
        memo: [6; 5],
        log: [0; 4],
    };
    let Ok(crew) = check(&query, workers, u64::from(scheme), turns, &lengths) else {
        return Ok(());
    };
    let graph = Graph {
        rows: &rows,
        left: &left,
        right: &right,
        divisors: &divisors,
    };
    let counts = count_rows(&graph);
    let tally = Tally {
        graph: &graph,
        counts: &counts,
    };
    let mut memo = Memo {
        sets: &mut sets,
        estimates: &mut estimates,
        costs: &mut costs,
        outers: &mut outers,
        methods: &mut methods,
        skips: &mut skips,
    };
    if lay_out(&tally, &mut memo).is_err() {
        return Ok(());
    }
    let mut starts = [0usize; SIZES];
    let mut cells = [0usize; SIZES];
    lay_starts(&tally, &mut starts, &mut cells);
    let Memo {
        sets,
        estimates,
        costs,
        outers,
        methods,
        skips,
    } = memo;
    lay_scans(&scans, costs);
    let sets: &[u64] = sets;
    let skips: &[u64] = skips;
    let footing = Footing {
        graph: &graph,
        sets,
        skips,
        starts: &starts,
        cells: &cells,
    };
    let rates = Rates {
        fixed: &fixed,
        outer: &per_outer,
        inner: &per_inner,
        res: &per_result,
    };
    let mut columns = Columns {
        costs,
        outers,
        methods,
    };
    run_sizes(
        rt,
        &footing,
        &rates,
        estimates,
        &scans,
        &mut columns,
        crew,
        turns,
    )
}

fn run_named(rt: &impl Print, scheme: Scheme, workers: u64, listed: usize) -> io::Result<()>
    requires { listed ≤ 2 }
{
    println!(rt; "scheme {} workers {workers}", u64::from(scheme))?;
    run(rt, scheme, workers, listed)
}

// A scheme's four crews, the second with a list of turns.
fn crews(rt: &impl Print, scheme: Scheme, listed: usize) -> io::Result<()>
    requires { listed ≤ 2 }
{
    run_named(rt, scheme, 1, 0)?;
    run_named(rt, scheme, 2, listed)?;
    run_named(rt, scheme, 3, 0)?;
    run_named(rt, scheme, 8, 0)
}

// C5's crew, two workers under scheme 3, has the list of turns 1,1.
fn main(rt: HostRuntime) -> io::Result<()> {
    let rt = &rt;
    crews(rt, Scheme::CutCandidates, 0)?;
    crews(rt, Scheme::CutRows, 0)?;
    crews(rt, Scheme::DealRows, 2)?;
    crews(rt, Scheme::DealInner, 0)
}
