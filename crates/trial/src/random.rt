// A generator of numbers with a seed.
ghost use Rattle.std.specs.Prelude.{◌<◌, ◌≤◌};

#[derive(Drop)]
pub struct Random {
    seed: u64,
}

// A round of xorshift, and a sum against its linearity.
fn stir(x: u64) -> u64 {
    let a = x ^ (x << 13);
    let b = a ^ (a >> 7);
    let c = b ^ (b << 17);
    c.wrapping_add(11_400_714_819_323_198_485)
}

impl Random {
    pub fn new(seed: u64) -> Random {
        Random { seed }
    }

    // A number below `below`, or 0 where there is none.
    pub fn draw(&mut self, below: u64) -> u64
        ensures { 0 < below → result < below }
    {
        self.seed = stir(self.seed);
        (stir(self.seed) >> 20).checked_rem(below).unwrap_or(0)
    }

    pub fn up_to(&mut self, most: u64) -> u64
        ensures { result ≤ most }
    {
        self.draw(most.saturating_add(1))
    }
}
