// What the text of document 01 is made of: kinds of lines, and numbers.

// "T lines first ..; then M, E, and one W."
#[derive(Clone, Copy, Debug, PartialEq, Eq)]
pub enum Kind {
    Table,
    Method,
    Edge,
    Crew,
}

// What a letter says of its line: its kind, and how many numbers follow.
#[derive(Clone, Copy)]
pub struct Form {
    pub kind: Kind,
    pub numbers: usize,
}

// "A number is 1 to 10 digits, no leading zero unless it is 0, at most 1,000,000,000."
pub const MAX_DIGITS: usize = 10;

pub const MAX_NUMBER: u64 = 1_000_000_000;
