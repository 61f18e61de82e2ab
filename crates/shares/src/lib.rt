// Shares of a group's candidates, "before any test": which inner rows of a driving row a worker has.
#![tactic(auto)]

ghost use Rattle.std.specs.Prelude.{◌≡◌, ◌+◌, ◌-◌, ◌≤◌, ◌<◌};
ghost use Rattle.rules.specs.Limits.{max_workers};
ghost use Rattle.rules.specs.Shares.{cut, in_cut};
ghost use Rattle.shares.specs.Shares.{few, ShareFits, span_of, on_span, all_span, clipped, share_of};

use rules::{Crew, Scheme};

pub mod places;

// A worker's share of one group: the scheme, how many workers, which of them, how many candidates, and its cut of them.
#[derive(Clone, Copy)]
pub struct Share {
    pub scheme: Scheme,
    pub workers: usize,
    pub worker: usize,
    pub total: usize,
    pub from: usize,
    pub to: usize,
}

// The inner rows that a worker has of a driving row: every `step`-th one from `from`, below `end`.
#[derive(Clone, Copy)]
pub struct Span {
    pub from: usize,
    pub end: usize,
    pub step: usize,
}

#[tactic(auto, unfolding(rules::specs::Shares::cut))]
fn cut(total: usize, workers: usize, worker: usize) -> usize
    requires { (1 ≤ workers) × (worker ≤ max_workers) × (total ≤ few) }
    ensures { result ≡ cut total workers worker }
{
    worker * total / workers
}

// Whether row `row` of `rows` is in a worker's cut of them.
fn in_cut(rows: usize, workers: usize, worker: usize, row: usize) -> bool
    requires { (1 ≤ workers) × (worker < workers) × (workers ≤ max_workers) × (rows ≤ few) }
    ensures { result ≡ in_cut rows workers worker row }
{
    cut(rows, workers, worker) <= row && row < cut(rows, workers, worker + 1)
}

// A worker's share of a group of `total` candidates.
pub fn share_of(crew: Crew, worker: usize, total: usize) -> Share
    requires { (1 ≤ crew.workers) × (worker < crew.workers) × (crew.workers ≤ max_workers) × (total ≤ few) }
    ensures { result ≡ share_of crew worker total }
{
    let workers = crew.workers as usize;
    Share {
        scheme: crew.scheme,
        workers,
        worker,
        total,
        from: cut(total, workers, worker),
        to: cut(total, workers, worker + 1),
    }
}

// All inner rows of a driving row, or none.
fn all_or_none(all: bool, first: usize, end: usize) -> Span
    ensures { result ≡ all_span all first end }
{
    let from = if all { first } else { end };
    Span { from, end, step: 1 }
}

// The inner rows whose numbers are `from` to `to`; the first one has number `ahead`.
fn clip(from: usize, to: usize, ahead: usize, first: usize, end: usize) -> Span
    requires { (from ≤ few) × (to ≤ few) × (ahead ≤ few + 1) × (first ≤ end) × (end ≤ few) }
    ensures { result ≡ clipped from to ahead first end }
{
    Span {
        from: first + from.saturating_sub(ahead),
        end: end.min(first + to.saturating_sub(ahead)),
        step: 1,
    }
}

// What a worker has of driving row `row` of `rows`, whose inner rows are `first` to `end` and whose first candidate has number `ahead`.
#[tactic(auto, unfolding(crate::specs::Shares::span_by))]
pub fn span_of(
    share: Share,
    ahead: usize,
    rows: usize,
    row: usize,
    first: usize,
    end: usize,
) -> Span
    requires { ShareFits share × (ahead ≤ few) × (rows ≤ few) × (first ≤ end) × (end ≤ few) }
    ensures { result ≡ span_of share ahead rows row first end }
{
    let workers = share.workers;
    let worker = share.worker;
    // No closure for each way of sharing: they are an enum's four.
    match share.scheme {
        Scheme::CutCandidates => clip(share.from, share.to, ahead, first, end),
        Scheme::CutRows => all_or_none(in_cut(rows, workers, worker, row), first, end),
        Scheme::DealRows => all_or_none(row % workers == worker, first, end),
        Scheme::DealInner => Span {
            from: first + worker,
            end,
            step: workers,
        },
    }
}

// What a worker has of a driving row after the inner row `inner`, which is its own and has number `number`.
#[tactic(auto, unfolding(crate::specs::Shares::on_by))]
pub fn span_on(share: Share, number: usize, inner: usize, end: usize) -> Span
    requires { ShareFits share × (number ≤ few) × (inner < end) × (end ≤ few) }
    ensures { result ≡ on_span share number inner end }
{
    match share.scheme {
        Scheme::CutCandidates => clip(share.from, share.to, number + 1, inner + 1, end),
        Scheme::CutRows | Scheme::DealRows => Span {
            from: inner + 1,
            end,
            step: 1,
        },
        Scheme::DealInner => Span {
            from: inner + share.workers,
            end,
            step: share.workers,
        },
    }
}
