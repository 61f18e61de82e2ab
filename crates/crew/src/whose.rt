// Whose turn it is: "Each entry of the list is one turn"; "When the list is used up, the lowest-numbered worker with a pair left has the
// turn".
ghost use Rattle.std.specs.Prelude.{◌≡◌, length};
ghost use Rattle.crew.specs.Whose.{Lowest, whose, entries_on};

use super::Worker;

// The lowest of the lent workers with a pair left.
pub fn lowest(workers: &[Worker]) -> Option<usize>
    ensures { Lowest workers.now (length workers.now) result }
{
    workers
        .iter()
        .position(|worker| worker.place.pair.is_some())
}

// The worker that entry `at` of the list names, or, where the list is used up, `low`.
pub fn whose_turn(turns: &[u64], at: usize, low: usize) -> usize
    ensures { result ≡ whose turns.now at low }
{
    if at < turns.len() {
        turns[at] as usize
    } else {
        low
    }
}

// How many of `count` entries are used after one more turn.
pub fn entries_on(count: usize, at: usize) -> usize
    ensures { result ≡ entries_on count at }
{
    if at < count { at + 1 } else { at }
}
