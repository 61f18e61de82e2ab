// The turns, played on lists of all joinable pairs of a size with their workers.
use super::by_set::BySet;
use super::enumerate::{Memo, Row, lower};
use super::input::{Crew, Query, Scheme};
use std::alloc::{AllocError, Global};
use std::slice;

// A joinable pair of two rows, and what it costs at best.
#[derive(Clone, Copy)]
pub struct Pair {
    pub driving: u64,
    pub inner: u64,
    pub cost: u64,
    // Its number among the candidates of its size.
    number: u64,
    // The driving row's number among the rows of its size, and how many those are.
    row: u64,
    rows: u64,
    // Its number among the driving row's candidates.
    place: u64,
}

#[derive(Drop)]
pub struct Candidates {
    pub count: u64,
    pub joinable: Vec<Pair>,
}

#[derive(Clone, Copy)]
pub struct Entry {
    pub worker: u64,
    pub driving: u64,
    pub inner: u64,
    pub cost: u64,
}

// "worker w has those from wT/m up to, not including, (w+1)T/m, rounded down"
fn cut(x: u64, total: u64, workers: u64) -> Option<u64> {
    for w in 0..workers {
        if x < (w + 1).saturating_mul(total) / workers {
            return Some(w);
        }
    }
    None
}

impl Candidates {
    // Those of a size: each driving row with the inner rows of as many tables as are left, behind it.
    pub fn of(alloc: Global, memo: &Memo, size: usize) -> Result<Candidates, AllocError> {
        let mut found = Candidates {
            count: 0,
            joinable: Vec::new(alloc),
        };
        for small in 1..=size / 2 {
            let rows = memo.of_size(small);
            for (i, driving) in rows.iter().enumerate() {
                let inner = if 2 * small == size {
                    &rows[i + 1..]
                } else {
                    memo.of_size(size - small)
                };
                found.add(memo, driving, i as u64, rows.len() as u64, inner)?;
            }
        }
        Ok(found)
    }

    // Those of a driving row, with its number and the number of all driving rows of its size.
    fn add(
        &mut self,
        memo: &Memo,
        driving: &Row,
        row: u64,
        rows: u64,
        inner_rows: &[Row],
    ) -> Result<(), AllocError> {
        for (place, inner) in inner_rows.iter().enumerate() {
            if memo.query.divisors.join(&driving.group, &inner.group) {
                let parts = driving.cost.saturating_add(inner.cost);
                if let Some(join) = memo.priced(driving.side(), inner.side(), parts) {
                    self.joinable.push(Pair {
                        driving: driving.set,
                        inner: inner.set,
                        cost: join.cost,
                        number: self.count,
                        row,
                        rows,
                        place: place as u64,
                    })?;
                }
            }
            self.count = self.count.saturating_add(1);
        }
        Ok(())
    }

    // Whose a pair is.
    fn worker(&self, crew: &Crew, pair: &Pair) -> Option<u64> {
        match crew.scheme {
            Scheme::CutCandidates => cut(pair.number, self.count, crew.workers),
            Scheme::CutRows => cut(pair.row, pair.rows, crew.workers),
            Scheme::DealRows => pair.row.checked_rem(crew.workers),
            Scheme::DealInner => pair.place.checked_rem(crew.workers),
        }
    }
}

// The pairs of each worker, the next one last.
fn dealt(
    alloc: Global,
    candidates: &Candidates,
    crew: &Crew,
) -> Result<Vec<Vec<Pair>>, AllocError> {
    let mut hands = Vec::new(alloc);
    for _ in 0..crew.workers {
        hands.push(Vec::new(alloc))?;
    }
    for pair in candidates.joinable.iter().rev() {
        if let Some(worker) = candidates.worker(crew, pair)
            && let Some(hand) = hands.get_mut(worker as usize)
        {
            hand.push(*pair)?;
        }
    }
    Ok(hands)
}

#[derive(Drop)]
struct Game<'a> {
    turns: slice::Iter<'a, u64>,
    // By a result's set: the least cost of its pairs so far.
    standing: BySet,
    log: Vec<Entry>,
}

impl Game<'_> {
    // Who has the turn: the next of the list, or at its end the lowest worker that has a pair left.
    fn next_worker(&mut self, lowest: usize) -> usize {
        match self.turns.next() {
            Some(worker) => *worker as usize,
            None => lowest,
        }
    }

    fn take(&mut self, worker: usize, pair: Pair) -> Result<(), AllocError> {
        let set = pair.driving | pair.inner;
        let cost = lower(self.standing.of(set), pair.cost);
        self.standing.put(set, cost);
        self.log.push(Entry {
            worker: worker as u64,
            driving: pair.driving,
            inner: pair.inner,
            cost,
        })?;
        Ok(())
    }

    // One size, until no pair is left.
    fn play(
        &mut self,
        alloc: Global,
        candidates: &Candidates,
        crew: &Crew,
    ) -> Result<(), AllocError> {
        let mut hands = dealt(alloc, candidates, crew)?;
        for _ in 0..crew.turns.len().saturating_add(candidates.joinable.len()) {
            let Some(lowest) = hands.iter().position(|hand| !hand.is_empty()) else {
                break;
            };
            let worker = self.next_worker(lowest);
            if let Some(hand) = hands.get_mut(worker)
                && let Some(pair) = hand.pop()
            {
                self.take(worker, pair)?;
            }
        }
        Ok(())
    }
}

// The log of all turns, over the candidates of the sizes from two on.
pub fn play(
    alloc: Global,
    query: &Query,
    sizes: &[Candidates],
    crew: &Crew,
) -> Result<Vec<Entry>, AllocError> {
    let mut game = Game {
        standing: BySet::none(alloc, query)?,
        log: Vec::new(alloc),
        turns: crew.turns.iter(),
    };
    for candidates in sizes {
        game.play(alloc, candidates, crew)?;
    }
    Ok(game.log)
}

// The pairs of each worker.
pub fn counts(log: &[Entry]) -> [u64; 8] {
    let mut counts = [0u64; 8];
    for w in 0..8 {
        counts[w] = log.iter().filter(|entry| entry.worker == w as u64).count() as u64;
    }
    counts
}
