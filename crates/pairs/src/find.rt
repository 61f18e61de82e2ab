// A worker's next joinable pair. Overlaps are jumped by the skip value of a table that both rows hold.
ghost use Rattle.std.specs.Prelude.{◌≡◌, true, ℕ, ◌+◌, ◌*◌, ◌-◌, ◌/◌, ◌≤◌, ◌<◌, length, get_or};
ghost use Rattle.rules.specs.Schedule.{inner_at};
ghost use Rattle.rules.specs.Sets.{holds, Lowest};
ghost use Rattle.shares.specs.Shares.{few, ShareOf, Aligned};
ghost use Rattle.pairs.specs.Places.{first_of, Fit, Hops, RowCells, Onward, SpanCells, Along, RowFrom, At, NextFrom, own_at, Countable, count_to};
ghost use Rattle.pairs.specs.Joinable.{is_joinable};

use super::footing::Footing;
use query::edges::edge_between;
use query::graph::Graph;
use rules::Group;
use sets::{lowest_table, rank_of};
use shares::places::{Place, Spot, nowhere};
use shares::{Share, Span, span_of, span_on};

// Made in two places: a function would promise each of its five fields.
// The rows of one inner size, `wide`, in the memo: `base` is the first of them and `cell` its first skip cell.
#[derive(Clone, Copy)]
pub struct InnerRows<'a> {
    pub sets: &'a [u64],
    pub skips: &'a [u64],
    pub base: usize,
    pub cell: usize,
    pub wide: usize,
}

// Whether two sets do not overlap and an edge runs between them.
fn joinable(graph: &Graph, x: u64, y: u64) -> bool
    ensures { result ≡ is_joinable graph.now x y }
{
    x & y == 0 && edge_between(graph, x, y)
}

// The inner size that a group joins to driving size `size`.
#[tactic(auto, unfolding(rules::specs::Schedule::inner_at))]
pub fn inner_at(group: Group, size: usize) -> usize
    requires { (1 ≤ size) × (size ≤ inner_at group size) }
    ensures { result ≡ inner_at group size }
{
    if group.falling {
        group.base - size
    } else {
        group.base
    }
}

// The first inner row of driving row `row` of size `size`, whose inner rows are of size `wide`.
fn first_of(starts: &[usize], wide: usize, size: usize, row: usize) -> usize
    requires { (wide < length starts.now) × (row ≤ few) }
    ensures { result ≡ first_of starts.now wide size row }
{
    if size == wide { row + 1 } else { starts[wide] }
}

// Past the row `inner` to the next row that lacks the lowest table of `both`, which the row holds.
fn hop(rows: &InnerRows, inner: usize, both: u64) -> usize
    requires row_cells { RowCells rows.now.sets.now rows.now.skips.now rows.now.base rows.now.cell rows.now.wide inner }
    requires shared { (0 < both) × ((t : ℕ) → holds both t ≡ 1 → holds (get_or rows.now.sets.now inner 0) t ≡ 1) }
    ensures { (t : ℕ) → Lowest both t → Hops rows.now.sets.now inner t result }
{
    let t = lowest_table(both);
    let rank = rank_of(rows.sets[inner], t) as usize;
    let next = rows.skips[rows.cell + (inner - rows.base) * rows.wide + rank] as usize;
    rows.base + next - 1
}

// The first of inner, inner + step, .. that is not before `to`.
fn aligned(inner: usize, to: usize, step: usize) -> usize
    requires { (inner < to) × (to ≤ few) × (1 ≤ step) × (step ≤ few) }
    ensures { Aligned inner to step result }
{
    if step == 1 {
        return to;
    }
    if to <= inner + step {
        return inner + step;
    }
    // No `div_ceil`, which takes the rest as well: this is in the search's inmost loop.
    inner + (to - inner + step - 1) / step * step
}

// The next inner row of a worker's stride after `inner`; rows that overlap `x` as `inner` does are jumped.
fn onward(rows: &InnerRows, x: u64, inner: usize, step: usize) -> usize
    requires row_cells { RowCells rows.now.sets.now rows.now.skips.now rows.now.base rows.now.cell rows.now.wide inner }
    requires stride { (1 ≤ step) × (step ≤ few) }
    ensures { Onward rows.now.sets.now x inner step result }
{
    let both = x & rows.sets[inner];
    if both == 0 {
        return inner + step;
    }
    aligned(inner, hop(rows, inner, both), step)
}

// The first row of a span that may be joined with `x`, or one not before its end.
pub fn along(graph: &Graph, rows: &InnerRows, x: u64, own: Span) -> usize
    requires { SpanCells rows.now.sets.now rows.now.skips.now rows.now.base rows.now.cell rows.now.wide own }
    ensures { Along graph.now rows.now.sets.now x own result }
{
    let mut inner = own.from;
    // No `for`: the skip cells say how far a step goes.
    while inner < own.end {
        if joinable(graph, x, rows.sets[inner]) {
            break;
        }
        inner = onward(rows, x, inner, own.step);
    }
    inner
}

// From a driving row on, before which `ahead` candidates come, the worker's next joinable pair, or none: candidates are met smaller
// size first, then driving row, then inner row.
// Group and share are no struct with the footing: a share stands in the table of workers, and a struct of all three would be made anew each turn.
pub fn find(
    footing: &Footing,
    group: Group,
    share: Share,
    size: usize,
    row: usize,
    ahead: usize,
) -> Place
    requires share_of { ShareOf footing.now.graph.now group share }
    requires row_from { RowFrom footing.now.graph.now group size row ahead }
    ensures { NextFrom footing.now.graph.now group share ahead result }
{
    let starts = footing.starts;
    let mut place = nowhere(share.total);
    let mut number = ahead;
    let mut from = row;
    'find: for d in size..group.last + 1 {
        let wide = inner_at(group, d);
        let end = starts[wide + 1];
        let rows_from = starts[d];
        let rows_to = starts[d + 1];
        let rows = InnerRows {
            sets: footing.sets,
            skips: footing.skips,
            base: starts[wide],
            cell: footing.cells[wide],
            wide,
        };
        for i in from..rows_to {
            let x = footing.sets[i];
            let first = first_of(starts, wide, d, i);
            let own = span_of(
                share,
                number,
                rows_to - rows_from,
                i - rows_from,
                first,
                end,
            );
            let mut inner = own.from;
            // Not `along`: document 01 wants the loop over inner rows here, and all three left by a label.
            while inner < own.end {
                if joinable(footing.graph, x, footing.sets[inner]) {
                    place = Place {
                        number: number + (inner - first),
                        pair: Some(Spot {
                            size: d,
                            row: i,
                            inner,
                        }),
                    };
                    break 'find;
                }
                inner = onward(&rows, x, inner, own.step);
            }
            number += end - first;
        }
        from = rows_to;
    }
    place
}

// The worker's first joinable pair of a group, or none.
pub fn first_pair(footing: &Footing, group: Group, share: Share) -> Place
    requires { ShareOf footing.now.graph.now group share × Fit footing.now.graph.now group }
    ensures { NextFrom footing.now.graph.now group share 0 result }
{
    find(footing, group, share, 1, footing.starts[1], 0)
}

// The worker's next joinable pair after the one at `spot`, which has number `number`, or none: in its driving row first.
pub fn next_pair(footing: &Footing, group: Group, share: Share, number: usize, spot: Spot) -> Place
    requires share_of { ShareOf footing.now.graph.now group share × Fit footing.now.graph.now group }
    requires at { At footing.now.graph.now group number spot × (own_at footing.now.graph.now group share number ≡ true) }
    ensures { NextFrom footing.now.graph.now group share (number + 1) result }
{
    let wide = inner_at(group, spot.size);
    let end = footing.starts[wide + 1];
    let own = span_on(share, number, spot.inner, end);
    let rows = InnerRows {
        sets: footing.sets,
        skips: footing.skips,
        base: footing.starts[wide],
        cell: footing.cells[wide],
        wide,
    };
    let next = along(footing.graph, &rows, footing.sets[spot.row], own);
    if next < own.end {
        return Place {
            number: number + (next - spot.inner),
            pair: Some(Spot {
                size: spot.size,
                row: spot.row,
                inner: next,
            }),
        };
    }
    find(
        footing,
        group,
        share,
        spot.size,
        spot.row + 1,
        number + (end - spot.inner),
    )
}

// How many candidates a group has.
pub fn count_candidates(starts: &[usize], group: Group) -> usize
    requires { Countable starts.now group }
    ensures { result ≡ count_to starts.now group group.last }
{
    let mut count = 0usize;
    for d in 1..group.last + 1 {
        let wide = inner_at(group, d);
        let driving = starts[d + 1] - starts[d];
        let inner = starts[wide + 1] - starts[wide];
        count += if d == wide {
            (driving * driving - driving) / 2
        } else {
            driving * inner
        };
    }
    count
}
