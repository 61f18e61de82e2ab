// Numbers and sets in decimal.
#![tactic(auto)]

ghost use Rattle.std.specs.Prelude.{◌≤◌, ◌<◌, ◌+◌, ◌∷◌, [], length, ltb};
ghost use Rattle.rules.specs.Writing.{digits_of, set_text};
ghost use Rattle.digits.specs.Put.{Put};
ghost use Rattle.digits.specs.SetText.{table_text};

use sets::has_table;

// Lent bytes, and the place of the next one.
// Its numbers and sets are put by hand and not by `write!`, which may fail: no clause of std says that it does not where there is room.
#[derive(Drop)]
pub struct Line<'a> {
    pub out: &'a mut [u8],
    pub at: usize,
}

impl Line<'_> {
    // One byte.
    pub fn put_byte(&mut self, b: u8)
        requires { self.old.at + 1 ≤ length self.old.out.now }
        ensures { Put self.old self.new (b ∷ []) }
    {
        self.out[self.at] = b;
        self.at += 1;
    }

    // A number's digits.
    pub fn put_number(&mut self, n: u64)
        requires { self.old.at + length (digits_of n) ≤ length self.old.out.now }
        ensures { Put self.old self.new (digits_of n) }
    {
        if n >= 10 {
            self.put_number(n / 10);
        }
        self.put_byte(b'0' + (n % 10) as u8);
    }

    // Table `t` of a set whose lower tables stand from `start` on.
    fn put_table(&mut self, start: usize, set: u64, t: u64)
        requires { (1 ≤ t) × (t ≤ 32) × (self.old.at + length (table_text set t (ltb start self.old.at)) ≤ length self.old.out.now) }
        ensures { Put self.old self.new (table_text set t (ltb start self.old.at)) }
    {
        if !has_table(set, t) {
            return;
        }
        if self.at > start {
            self.put_byte(b',');
        }
        self.put_number(t);
    }

    // The tables of a set, ascending, with commas.
    pub fn put_set(&mut self, n: u64, set: u64)
        requires { (self.old.at + length (set_text n set) ≤ length self.old.out.now) × (n ≤ 32) }
        ensures { Put self.old self.new (set_text n set) }
    {
        let start = self.at;
        for t in 1..=n {
            self.put_table(start, set, t);
        }
    }
}
