// A set of tables as sixteen flags; tables are counted from 0 here.
ghost use Rattle.std.specs.Prelude.{◌<◌, ◌≤◌};

pub const MOST_TABLES: usize = 16;

#[derive(Clone, Copy, PartialEq, Eq)]
pub struct Group {
    flags: [bool; MOST_TABLES],
}

// No type for a table's number below 16: `for t in 0..MOST_TABLES` gives just that, and a type would be made and opened at each use.
impl Group {
    pub fn has(&self, table: usize) -> bool
        requires { table < 16 }
    {
        self.flags[table]
    }

    pub fn add(&mut self, table: usize)
        requires { table < 16 }
    {
        self.flags[table] = true;
    }

    pub fn count(&self) -> usize
        ensures { result ≤ 16 }
    {
        self.flags.iter().filter(|flag| **flag).count()
    }

    // The sum of 2^t over the tables t.
    pub fn number(&self) -> u64 {
        self.flags
            .iter()
            .rev()
            .fold(0u64, |number, flag| number << 1 | u64::from(*flag))
    }

    // The part whose members, counted upwards, stand where the digits of `digits` are 1.
    pub fn part(&self, digits: u64) -> Group {
        let mut flags = [false; MOST_TABLES];
        let mut rest = digits;
        for t in 0..MOST_TABLES {
            if self.flags[t] {
                flags[t] = rest % 2 == 1;
                rest /= 2;
            }
        }
        Group { flags }
    }

    // Two parts that make up the group.
    pub fn split(&self, digits: u64) -> (Group, Group) {
        (self.part(digits), self.part(!digits))
    }

    // Half of the number of a group's parts: as many splits, less one, each once, have the last table in the second part.
    pub fn half(&self) -> u64 {
        (1u64 << self.count()) >> 1
    }

    // Of `n` tables those at which the last digits of `digits` are 1, the first table having the highest digit.
    pub fn from_top(n: usize, digits: u64) -> Group
        requires { n ≤ 16 }
    {
        let mut flags = [false; MOST_TABLES];
        for t in 0..n {
            flags[t] = (digits >> (n - 1 - t)) % 2 == 1;
        }
        Group { flags }
    }

    pub fn disjoint(&self, other: &Group) -> bool {
        (0..MOST_TABLES).all(|t| !(self.flags[t] && other.flags[t]))
    }
}
