// The turns in a row, group after group.
ghost use Rattle.rules.specs.declared.Shape.TheVariants.{Bushy};
ghost use Rattle.rules.specs.Schedule.{by_size};
ghost use Rattle.crew.specs.Lent.{memory_of};
ghost use Rattle.turns.specs.Taken.{columns_of};
ghost use Rattle.runs.specs.Runs.{SearchReady, SearchDone};
ghost use Rattle.runs.specs.Views.{query_by, SameLists};

use crew::log::Log;
use crew::whose::{entries_on, lowest, whose_turn};
use crew::{counts_of, nobody};
use opening::open;
use pairs::footing::Footing;
use results::keep::Columns;
use results::price::Rates;
use rows::tally::Tally;
use rules::{Crew, Group};
use starts::lay_starts;
use turns::scans::lay_scans;
use turns::setting::Setting;
use turns::turn::turn;

// How many pairs the turns handed, and how many to each worker.
#[derive(Clone, Copy)]
pub struct Searched {
    pub pairs: usize,
    pub counts: [u64; 8],
}

// Room for where the rows of each size begin: sizes 0 to N + 1, of at most 16 tables.
// Not shared with rounds: each is room for one table of its own.
const SIZES: usize = 18;

// Fills the memo, whose rows `tally` tells, by turns, group after group, and notes them in the log.
pub fn search<'a>(
    tally: &Tally<'a>,
    scans: &[u64],
    rates: &Rates<'a>,
    crew: Crew,
    turns: &[u64],
    sets: &'a [u64],
    estimates: &'a [u64],
    skips: &'a [u64],
    columns: &mut Columns,
    log: &mut Log,
) -> Searched
    requires { SearchReady (query_by tally.now.graph.now scans.now rates.now) crew turns.now sets.now estimates.now skips.now (columns_of columns.old) (memory_of log.old) }
    ensures done { SearchDone (query_by tally.now.graph.now scans.now rates.now) crew (by_size Bushy) turns.now (columns_of columns.old) (columns_of columns.new) (memory_of log.old) (memory_of log.new) result.pairs result.counts }
    ensures same { SameLists columns.new columns.old log.new log.old }
{
    let graph = tally.graph;
    let tables = graph.rows.len();
    let mut starts = [0usize; SIZES];
    let mut cells = [0usize; SIZES];
    lay_starts(tally, &mut starts, &mut cells);
    lay_scans(scans, &mut *columns.costs);
    let setting = Setting {
        footing: Footing {
            graph,
            sets,
            skips,
            starts: &starts,
            cells: &cells,
        },
        rates: *rates,
        estimates,
    };
    let count = crew.workers as usize;
    let mut workers = [nobody(); 8];
    let mut at = 0usize;
    let mut pairs = 0usize;
    for k in 1..tables {
        let group = Group::by_size(k);
        open(&setting.footing, group, crew, &mut workers);
        // Where the worker that had the turn has a pair left, the lowest one with a pair left is who it was.
        let mut low = lowest(&workers[..count]);
        while let Some(first) = low {
            let w = whose_turn(turns, at, first);
            let pair = turn(&setting, columns, group, &mut workers, w);
            pairs = log.note(pairs, w, pair);
            at = entries_on(turns.len(), at);
            if workers[w].place.pair.is_none() {
                low = lowest(&workers[..count]);
            }
        }
    }
    Searched {
        pairs,
        counts: counts_of(&workers),
    }
}
