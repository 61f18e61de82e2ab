// What a memo row keeps of the choices for it.
ghost use Rattle.std.specs.Prelude.{◌≡◌, ◌<◌, length};
ghost use Rattle.rules.specs.laws.Choice.{kept};
ghost use Rattle.results.specs.Prices.{choice_of};
ghost use Rattle.results.specs.Kept.{held_at, Holds, SameColumns};

use super::price::{Choice, sooner};

// The three columns of the memo that turns write, a row's choice in each row.
#[derive(Drop)]
pub struct Columns<'a> {
    pub costs: &'a mut [u64],
    pub outers: &'a mut [u64],
    pub methods: &'a mut [u64],
}

impl<'a> Columns<'a> {
    // An outer set 0, and no Option, is what the lent columns say of such a row. The row keeps the better of what it holds and `choice`; a row without an outer set holds nothing yet. The cost that it then has.
    pub fn keep(&mut self, row: usize, choice: Choice) -> u64
        requires { (row < length self.old.costs.now) × (row < length self.old.outers.now) × (row < length self.old.methods.now) }
        ensures cost { result ≡ (kept (held_at self.old row) (choice_of choice)).cost }
        ensures row { Holds self.old row (kept (held_at self.old row) (choice_of choice)) self.new }
        ensures same_columns { SameColumns self.new self.old }
    {
        let held = Choice {
            cost: self.costs[row],
            outer: self.outers[row],
            method: self.methods[row],
        };
        if held.outer != 0 && sooner(held, choice) {
            return held.cost;
        }
        self.costs[row] = choice.cost;
        self.outers[row] = choice.outer;
        self.methods[row] = choice.method;
        choice.cost
    }
}
