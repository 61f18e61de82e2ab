// The log: "It holds the first pairs that fit".
ghost use Rattle.std.specs.Prelude.{◌≡◌, ◌^◌, ◌<◌};
ghost use Rattle.crew.specs.Logs.{log_of, LogFits};

use super::Handed;

// The four columns of a log, which have one length.
#[derive(Drop)]
pub struct Log<'a> {
    pub workers: &'a mut [u64],
    pub driving: &'a mut [u64],
    pub inner: &'a mut [u64],
    pub costs: &'a mut [u64],
    ghost fits: { LogFits (log_of workers.now driving.now inner.now costs.now) },
}

impl<'a> Log<'a> {
    ghost use Rattle.crew.specs.Logs.{noted_if, count_if};
    ghost use Rattle.crew.specs.Lent.{memory_of, SameColumns};

    // Notes a turn's pair as entry `at` where one was handed and the log has room for it; how many pairs are handed then.
    pub fn note(&mut self, at: usize, worker: usize, pair: Option<Handed>) -> usize
        requires { at < 2 ^ 63 }
        ensures count { result ≡ count_if at pair }
        ensures log { memory_of self.new ≡ noted_if (memory_of self.old) at worker pair }
        ensures same_columns { SameColumns self.new self.old }
    {
        let Some(pair) = pair else {
            return at;
        };
        if at < self.workers.len() {
            self.workers[at] = worker as u64;
            self.driving[at] = pair.driving;
            self.inner[at] = pair.inner;
            self.costs[at] = pair.cost;
        }
        at + 1
    }
}
