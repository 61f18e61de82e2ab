// "A turn hands its worker that worker's next joinable pair; with none left it changes nothing."
ghost use Rattle.std.specs.Prelude.{◌≡◌, ◌<◌};
ghost use Rattle.crew.specs.Workers.{worker_at};
ghost use Rattle.results.specs.Kept.{SameColumns};
ghost use Rattle.turns.specs.Standing.{Open, Ready};
ghost use Rattle.turns.specs.Taken.{columns_of, StepBy, TurnBy};

use super::setting::Setting;
use crew::{Handed, Worker};
use lookup::Search;
use pairs::find::{inner_at, next_pair};
use results::keep::Columns;
use results::price::Part;
use rules::Group;

// One worker's turn: the pair at its place is priced, its result's row keeps the better, and the worker goes on to its next pair. The
// pair handed.
pub fn step(
    setting: &Setting,
    columns: &mut Columns,
    group: Group,
    worker: &mut Worker,
) -> Option<Handed>
    requires open { Open setting.now.footing.graph.now group (columns_of columns.old) }
    requires ready { Ready setting.now.footing.graph.now group worker.old }
    ensures taken { StepBy setting.now group worker.old worker.new columns.old columns.new result }
    ensures same_columns { SameColumns columns.new columns.old }
{
    let place = worker.place;
    let Some(spot) = place.pair else {
        return None;
    };
    let footing = &setting.footing;
    let x = Part {
        set: footing.sets[spot.row],
        estimate: setting.estimates[spot.row],
    };
    let y = Part {
        set: footing.sets[spot.inner],
        estimate: setting.estimates[spot.inner],
    };
    let z = spot.size + inner_at(group, spot.size);
    let sought = Search {
        sets: footing.sets,
        from: footing.starts[z],
        to: footing.starts[z + 1],
        set: x.set + y.set,
    };
    let row = sought.seek(worker.last);
    let base = columns.costs[spot.row] + columns.costs[spot.inner];
    let choice = setting
        .rates
        .price(group.both, x, y, setting.estimates[row], base);
    let cost = columns.keep(row, choice);
    let next = next_pair(footing, group, worker.share, place.number, spot);
    worker.place = next;
    worker.last = row;
    worker.handed += 1;
    Some(Handed {
        driving: x.set,
        inner: y.set,
        cost,
    })
}

// The turn of worker `w`: no other worker moves.
pub fn turn(
    setting: &Setting,
    columns: &mut Columns,
    group: Group,
    workers: &mut [Worker; 8],
    w: usize,
) -> Option<Handed>
    requires open { Open setting.now.footing.graph.now group (columns_of columns.old) }
    requires ready { (w < 8) × Ready setting.now.footing.graph.now group (worker_at workers.old w) }
    ensures taken { TurnBy setting.now group w workers.old workers.new columns.old columns.new result }
    ensures same_columns { SameColumns columns.new columns.old }
{
    step(setting, columns, group, &mut workers[w])
}
