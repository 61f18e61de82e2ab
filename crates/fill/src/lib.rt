// Writing the rows of all sizes in one walk: each size has a place in the columns, and a row is written at its size's.
#![tactic(auto)]

ghost use Rattle.std.specs.Prelude.{◌≡◌, true, cond, map, ◌+◌, ◌≤◌, ◌<◌, length, set};
ghost use Rattle.std.proofs.lemmas.List.Edits.{sets};
ghost use Rattle.rules.specs.Query.{Graph};
ghost use Rattle.rules.specs.Estimate.{estimate};
ghost use Rattle.rules.specs.Rows.{memo};
ghost use Rattle.fill.specs.Fill.{Filling, Filled};

use graph::chosen::{Chosen, NONE};
use graph::near::Neighbours;
use parts::{table_parts, with_part};
use rows::tally::{SIZES, Tally};
use sets::single;

// Writes a set and its estimate where it is a row; the place after it.
fn put(row: bool, s: u64, e: u64, out: &mut [u64], estimates: &mut [u64], at: usize) -> usize
    requires { row ≡ true → (at < length out.old) × (at < length estimates.old) }
    ensures next { result ≡ cond row (at + 1) at }
    ensures wrote { out.new ≡ cond row (set out.old at s) out.old }
    ensures valued { estimates.new ≡ cond row (set estimates.old at e) estimates.old }
{
    if row {
        out[at] = s;
        estimates[at] = e;
        return at + 1;
    }
    at
}

// Writes, each at its size's place, the connected sets that add some of the tables from `t` on to the chosen ones, whose estimate is `e`; moves the places on.
// It is a walk beside that of rows' `tally_from`: it carries an estimate down, and a walk for both would be a trait whose laws restate both proofs.
// The three lists stay slices: a struct of them would need clauses that they are the same lists, as long as before.
fn fill_from(
    near: &Neighbours,
    parts: &[u64; 256],
    t: u64,
    chosen: &Chosen,
    e: u64,
    starts: &mut [usize],
    out: &mut [u64],
    estimates: &mut [u64],
)
    requires { (g : Graph) × Filling g near.now.of parts.now near.now.tables t chosen.now e starts.old out.old estimates.old }
    ensures { (g : Graph) → Filling g near.now.of parts.now near.now.tables t chosen.now e starts.old out.old estimates.old → Filled g near.now.tables t chosen.now.set chosen.now.size starts.old starts.new out.old out.new estimates.old estimates.new }
{
    if t > near.tables {
        return;
    }
    let bit = single(t);
    let rest = single(near.tables + 1) - bit;
    if near.stuck(chosen, rest) {
        return;
    }
    let row = near.grows(chosen, bit);
    let beside = near.of[(t - 1) as usize];
    let with = Chosen {
        set: chosen.set + bit,
        size: chosen.size + 1,
        around: chosen.around | beside,
        joined: row,
    };
    let more = with_part(parts, t, chosen.set & beside, e);
    starts[with.size] = put(row, with.set, more, out, estimates, starts[with.size]);
    fill_from(near, parts, t + 1, &with, more, starts, out, estimates);
    fill_from(near, parts, t + 1, chosen, e, starts, out, estimates);
}

// Writes the sets and the estimates of all rows, in memo order.
pub fn lay_rows(tally: &Tally, out: &mut [u64], estimates: &mut [u64])
    requires room { (length (memo tally.now.graph.now) ≤ length out.old) × (length (memo tally.now.graph.now) ≤ length estimates.old) }
    ensures out { out.new ≡ sets out.old 0 (memo tally.now.graph.now) }
    ensures estimates { estimates.new ≡ sets estimates.old 0 (map (estimate tally.now.graph.now) (memo tally.now.graph.now)) }
{
    let graph = tally.graph;
    let near = Neighbours::new(graph);
    let parts = table_parts(graph);
    let mut starts = [0usize; SIZES];
    let mut at = 0usize;
    for k in 0..graph.rows.len() {
        starts[k + 1] = at;
        at += tally.counts[k + 1];
    }
    fill_from(&near, &parts, 1, &NONE, 1, &mut starts, out, estimates);
}
