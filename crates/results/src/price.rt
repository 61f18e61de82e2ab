// The price of a pair: "Both outer choices and all methods of a joinable pair are priced in one turn."
ghost use Rattle.std.specs.Prelude.{◌≡◌, ◌+◌, ◌<◌, length};
ghost use Rattle.rules.specs.Limits.{cost_bound};
ghost use Rattle.rules.specs.laws.Choice.{Best, sooner};
ghost use Rattle.results.specs.Prices.{Methods, Estimates, choice_of};

// One way to join a pair: its cost, the outer set, the method. Choices are in order of these three.
#[derive(Clone, Copy, PartialEq, Eq, PartialOrd, Ord)]
pub struct Choice {
    pub cost: u64,
    pub outer: u64,
    pub method: u64,
}

// Whether `a` stands no later than `b`, in that order. A function, so that pricing and keeping settle equal costs in one place.
pub fn sooner(a: Choice, b: Choice) -> bool
    ensures { result ≡ sooner (choice_of a) (choice_of b) }
{
    a <= b
}

// One of the two sets that are joined, and its estimate.
#[derive(Clone, Copy)]
pub struct Part {
    pub set: u64,
    pub estimate: u64,
}

// The estimates of a join's outer part, of its inner part and of its result.
#[derive(Clone, Copy)]
struct Join {
    outer: u64,
    inner: u64,
    res: u64,
    ghost fits: { Estimates outer inner res },
}

// What the methods of a query cost, each at its place: a fixed part, and a part for each unit of the outer, the inner and the result's
// estimate.
#[derive(Clone, Copy)]
pub struct Rates<'a> {
    pub fixed: &'a [u64],
    pub outer: &'a [u64],
    pub inner: &'a [u64],
    pub res: &'a [u64],
    pub ghost methods: { Methods fixed.now outer.now inner.now res.now },
}

// More than there are methods: a price and a method's number stand in one number, which is the less the less the price is, then the
// method: so two methods are compared at once, without a branch.
const SHIFT: u64 = 8;

impl<'a> Rates<'a> {
    ghost use Rattle.results.specs.Rates.{packed_of, CheapestBy, Joins};

    // The price and the number, in one number, of the method at place `k`.
    fn pack(&self, k: usize, join: Join) -> u64
        requires { k < length self.now.fixed.now }
        ensures { result ≡ packed_of self.now join k }
    {
        let price = self.fixed[k]
            + self.outer[k] * join.outer
            + self.inner[k] * join.inner
            + self.res[k] * join.res;
        price * SHIFT + (k as u64 + 1)
    }

    // The least of them. There are at most four, written out: of a loop over them LLVM makes vector code, which is slower.
    fn cheapest(&self, join: Join) -> u64
        ensures { CheapestBy self.now join result }
    {
        let best = self.pack(0, join);
        if self.fixed.len() == 1 {
            return best;
        }
        let second = best.min(self.pack(1, join));
        if self.fixed.len() == 2 {
            return second;
        }
        let third = second.min(self.pack(2, join));
        if self.fixed.len() == 3 {
            return third;
        }
        third.min(self.pack(3, join))
    }

    // The best way to join two sets, either as the outer one, or only `y` if not `both`; `er` is their result's estimate, `base` what the
    // two cost.
    pub fn price(&self, both: bool, x: Part, y: Part, er: u64, base: u64) -> Choice
        requires estimates { Estimates x.estimate y.estimate er }
        requires base_bound { base < cost_bound + cost_bound }
        requires different { x.set ≡ y.set → ⊥ }
        ensures { Best (Joins self.now both x y er base) (choice_of result) }
    {
        let turned = self.cheapest(Join {
            outer: y.estimate,
            inner: x.estimate,
            res: er,
        });
        let second = Choice {
            cost: base + turned / SHIFT,
            outer: y.set,
            method: turned % SHIFT,
        };
        if !both {
            return second;
        }
        let driving = self.cheapest(Join {
            outer: x.estimate,
            inner: y.estimate,
            res: er,
        });
        let first = Choice {
            cost: base + driving / SHIFT,
            outer: x.set,
            method: driving % SHIFT,
        };
        if sooner(first, second) { first } else { second }
    }
}
