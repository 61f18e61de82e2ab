// The crew between turns: its table of workers, whose turn it is, the log, and how many pairs each worker was handed.
#![tactic(auto)]

ghost use Rattle.std.specs.Prelude.{◌≡◌};
ghost use Rattle.crew.specs.Workers.{nobody, counts_of};

use rules::Scheme;
use shares::Share;
use shares::places::{Place, nowhere};

pub mod log;
pub mod whose;

// A worker of the table: its share of the group, its place, the memo row of its last result
// (0 where it has none: any row is right to seek from), how many pairs it was handed.
#[derive(Clone, Copy)]
pub struct Worker {
    pub share: Share,
    pub place: Place,
    pub last: usize,
    pub handed: u64,
}

// The pair that a turn handed, and the cost in its result's row after the turn.
#[derive(Clone, Copy)]
pub struct Handed {
    pub driving: u64,
    pub inner: u64,
    pub cost: u64,
}

// A worker that is not there.
pub fn nobody() -> Worker
    ensures { result ≡ nobody }
{
    Worker {
        share: Share {
            scheme: Scheme::CutCandidates,
            workers: 0,
            worker: 0,
            total: 0,
            from: 0,
            to: 0,
        },
        place: nowhere(0),
        last: 0,
        handed: 0,
    }
}

// How many pairs each of eight workers was handed.
pub fn counts_of(workers: &[Worker; 8]) -> [u64; 8]
    ensures { result ≡ counts_of workers.now }
{
    workers.map(|worker| worker.handed)
}
