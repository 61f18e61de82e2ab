// The row of a set among the rows of its size, which stand in memo order: by halves, or from a row near which it is likely to be.
#![tactic(auto)]

ghost use Rattle.std.specs.Prelude.{◌^◌, ◌<◌};
ghost use Rattle.rules.specs.Sets.{size};
ghost use Rattle.skips.specs.SizeRows.{SizeRows, InOrder};

use sets::comes_first;

// A set, and the rows `from` to `to`, which are those of its size, in memo order.
#[derive(Clone, Copy)]
pub struct Search<'a> {
    pub sets: &'a [u64],
    pub from: usize,
    pub to: usize,
    pub set: u64,
    ghost rows: { SizeRows sets.now from to (size set) 32 × InOrder sets.now from to × (set < 2 ^ 32) },
}

impl<'a> Search<'a> {
    ghost use Rattle.std.specs.Prelude.{◌≡◌, ℕ, ◌≤◌};
    ghost use Rattle.lookup.specs.Search.{StandsAt};

    // The set's row, where it has one: half of the rows fall away with each look.
    pub fn by_halves(&self) -> usize
        ensures { (p : ℕ) → StandsAt self.now p → result ≡ p }
    {
        let mut low = self.from;
        let mut high = self.to;
        // No `partition_point`: that wants a test of any two numbers, and `comes_first` is one of two sets of one size.
        while low < high {
            let middle = low + (high - low) / 2;
            if comes_first(self.sets[middle], self.set) {
                low = middle + 1;
            } else {
                high = middle;
            }
        }
        low
    }

    // A row from which on the set stands: `last` where that is one, else the first.
    fn begin(&self, last: usize) -> usize
        ensures { (self.now.from ≤ result) × (result ≤ self.now.to) × ((p : ℕ) → StandsAt self.now p → result ≤ p) }
    {
        if self.from <= last && last < self.to && !comes_first(self.set, self.sets[last]) {
            last
        } else {
            self.from
        }
    }

    // The set's row, where it has one: in steps that double from `last` on, if that is not behind it, and then by halves.
    pub fn seek(&self, last: usize) -> usize
        ensures { (p : ℕ) → StandsAt self.now p → result ≡ p }
    {
        let mut low = self.begin(last);
        let mut high = low;
        let mut stride = 1;
        // No `for`: the steps double.
        while high < self.to {
            if self.sets[high] == self.set {
                return high;
            }
            if !comes_first(self.sets[high], self.set) {
                break;
            }
            low = high + 1;
            high += stride;
            stride += stride;
        }
        let rest = Search {
            sets: self.sets,
            from: low,
            to: high.min(self.to),
            set: self.set,
        };
        rest.by_halves()
    }
}
