// What turns go by.
ghost use Rattle.std.specs.Prelude.{◌≡◌, length, map, take};
ghost use Rattle.rules.specs.Estimate.{estimate};
ghost use Rattle.rules.specs.Rows.{memo};

use pairs::footing::Footing;
use results::price::Rates;

// What no turn changes: where candidates are met, what the methods cost, and the estimates of the memo's rows.
#[derive(Clone, Copy)]
pub struct Setting<'a> {
    pub footing: Footing<'a>,
    pub rates: Rates<'a>,
    pub estimates: &'a [u64],
    pub ghost estimated: { take (length (memo footing.graph.now)) estimates.now ≡ map (estimate footing.graph.now) (memo footing.graph.now) },
}
