// The skip vectors of one size, built backwards from the last row: a row's value is the next row's number or the next row's value.
#![tactic(auto)]

ghost use Rattle.std.specs.Prelude.{◌≡◌, map, ◌+◌, ◌-◌, ◌*◌, ◌^◌, ◌<◌, ◌≤◌, length};
ghost use Rattle.std.proofs.Math.Seq.{slice};
ghost use Rattle.rules.specs.Sets.{size, tables};
ghost use Rattle.rules.specs.Skips.{vectors_from};
ghost use Rattle.skips.specs.SizeRows.{SizeRows};
ghost use Rattle.skips.specs.Vectors.{written, value_of};

use sets::{has_table, lowest_table, rank_of, single, size};

// The value of table `t` for the row before the row `number`, whose set is `next` and whose cells begin at `at`.
fn next_cell(next: u64, number: u64, t: u64, cells: &[u64], at: usize) -> u64
    requires { (1 ≤ t) × (t ≤ 32) × (at + size next ≤ length cells.now) }
    ensures { result ≡ value_of next number cells.now at t }
{
    if has_table(next, t) {
        return cells[at + rank_of(next, t) as usize];
    }
    number
}

// Writes the cells of the row of `set` from `at` on; those of the next row, whose set is `next`, stand behind them.
fn fill_row(set: u64, next: u64, number: u64, out: &mut [u64], at: usize)
    requires { (set < 2 ^ 32) × (at + size set + size next ≤ length out.old) }
    ensures { out.new ≡ written out.old at (map (value_of next number out.old (at + size set)) (tables 32 set)) }
{
    let behind = at + size(set) as usize;
    let mut left = set;
    // The cell is counted beside the tables: it is theirs in this order.
    let mut i = at;
    // No `for`: the tables are bits of a number, and are taken off it one after another.
    while left != 0 {
        let t = lowest_table(left);
        out[i] = next_cell(next, number, t, out, behind);
        left -= single(t);
        i += 1;
    }
}

// Writes the skip vectors of the rows `from` to `to`, which have `k` tables each, from `at` on.
pub fn fill_vectors(sets: &[u64], from: usize, to: usize, k: usize, out: &mut [u64], at: usize)
    requires { SizeRows sets.now from to k 32 × (at + (to - from) * k ≤ length out.old) }
    ensures { out.new ≡ written out.old at (vectors_from 32 1 (slice from to sets.now)) }
{
    // Behind the last row stands none: the empty set lacks every table.
    let mut next = 0;
    for i in (0..to - from).rev() {
        let set = sets[from + i];
        fill_row(set, next, i as u64 + 2, out, at + i * k);
        next = set;
    }
}
