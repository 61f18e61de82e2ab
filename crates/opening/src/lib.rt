// Opening a group: every worker at its first joinable pair.
#![tactic(auto)]

ghost use Rattle.std.specs.Prelude.{◌≤◌};
ghost use Rattle.rules.specs.Limits.{max_workers};
ghost use Rattle.pairs.specs.Places.{Fit};
ghost use Rattle.opening.specs.Opening.{Opened};

use crew::Worker;
use pairs::find::{count_candidates, first_pair};
use pairs::footing::Footing;
use rules::{Crew, Group};
use shares::share_of;

// Places each worker of the crew at its first joinable pair of the group, with its share of it.
pub fn open(footing: &Footing, group: Group, crew: Crew, workers: &mut [Worker; 8])
    requires { Fit footing.now.graph.now group × (1 ≤ crew.workers) × (crew.workers ≤ max_workers) }
    ensures { Opened footing.now.graph.now group crew workers.old workers.new }
{
    let total = count_candidates(footing.starts, group);
    for w in 0..crew.workers as usize {
        let share = share_of(crew, w, total);
        workers[w] = Worker {
            share,
            place: first_pair(footing, group, share),
            last: 0,
            handed: workers[w].handed,
        };
    }
}
