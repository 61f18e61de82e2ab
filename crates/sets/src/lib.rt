// Sets of tables as numbers, where table t is digit t - 1: each function is a definition of rules.
// Tables and sets are plain numbers with their range in the clause: a type of either would be taken apart in every bit operation.
#![tactic(auto)]

ghost use Rattle.std.specs.Prelude.{◌≡◌, not, ◌+◌, ◌^◌, ◌<◌, ◌≤◌};
ghost use Rattle.rules.specs.Sets.{has, Disjoint, disjoint, size, single, tables, rank, Lowest};
ghost use Rattle.rules.specs.Rows.{before};

pub mod shown;

// Whether table `t` stands in `s`.
pub fn has_table(s: u64, t: u64) -> bool
    requires { (1 ≤ t) × (t ≤ 32) }
    ensures { result ≡ has s t }
{
    (s >> (t - 1)) % 2 == 1
}

// Whether some table stands in both.
pub fn overlap(x: u64, y: u64) -> bool
    ensures { result ≡ not (disjoint x y) }
{
    x & y != 0
}

// The union of two sets that do not overlap is their sum.
pub fn union(x: u64, y: u64) -> u64
    requires { Disjoint x y × (x < 2 ^ 32) × (y < 2 ^ 32) }
    ensures { result ≡ x + y }
{
    x + y
}

// How many tables `s` has.
pub fn size(s: u64) -> u64
    ensures { result ≡ size s }
{
    u64::count_ones(s) as u64
}

// The lowest table of `s`.
pub fn lowest_table(s: u64) -> u64
    requires { (0 < s) × (s < 2 ^ 32) }
    ensures { Lowest s result }
{
    u64::trailing_zeros(s) as u64 + 1
}

// The set of table `t` alone.
pub fn single(t: u64) -> u64
    requires { (1 ≤ t) × (t ≤ 32) }
    ensures { result ≡ single t }
{
    1u64 << (t - 1)
}

// How many tables of `s` are lower than `t`.
pub fn rank_of(s: u64, t: u64) -> u64
    requires { (1 ≤ t) × (t ≤ 32) }
    ensures { result ≡ rank s t }
{
    size(s % single(t))
}

// No Ord: this is the order of memo rows, of sets of one size alone. Whether, of two sets of one size, `a` stands before `b` in memo order: the lowest table in which they differ is a's.
pub fn comes_first(a: u64, b: u64) -> bool
    requires { (size a ≡ size b) × (a < 2 ^ 32) × (b < 2 ^ 32) }
    ensures { result ≡ before (tables 32 a) (tables 32 b) }
{
    if a == b {
        return false;
    }
    let t = u64::trailing_zeros(a ^ b);
    (a >> t) % 2 == 1
}
