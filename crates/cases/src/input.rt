// An input, and the lines that say it.

// So many numbers a list may hold.
const MOST: usize = 31;

// The numbers of a list. No Vec: this program takes no memory that may be refused.
#[derive(Clone, Copy)]
pub struct List {
    cells: [u64; MOST],
    count: usize,
}

impl List {
    fn new() -> List {
        List {
            cells: [0; MOST],
            count: 0,
        }
    }

    pub fn as_slice(&self) -> &[u64] {
        &self.cells[..self.count.min(MOST)]
    }

    // Where the list is full, the next number stands in the place of its last.
    fn push(&mut self, number: u64) {
        self.cells[self.count.min(MOST - 1)] = number;
        self.count = self.count.saturating_add(1).min(MOST);
    }
}

// How many cells are lent for each of the memo's columns, for the skip vectors and for each of the log's columns.
#[derive(Clone, Copy, Default)]
pub struct Lent {
    pub sets: u64,
    pub estimates: u64,
    pub costs: u64,
    pub outers: u64,
    pub methods: u64,
    pub skips: u64,
    pub log_workers: u64,
    pub log_driving: u64,
    pub log_inner: u64,
    pub log_costs: u64,
}

// The lists and numbers of an input, and what is lent to it.
#[derive(Clone, Copy)]
pub struct Input {
    pub rows: List,
    pub scans: List,
    pub left: List,
    pub right: List,
    pub divisors: List,
    pub fixed: List,
    pub outer: List,
    pub inner: List,
    pub result: List,
    pub turns: List,
    pub workers: u64,
    pub scheme: u64,
    pub lent: Lent,
}

impl Input {
    // Nothing in any list, and nothing lent.
    pub fn new() -> Input {
        Input {
            rows: List::new(),
            scans: List::new(),
            left: List::new(),
            right: List::new(),
            divisors: List::new(),
            fixed: List::new(),
            outer: List::new(),
            inner: List::new(),
            result: List::new(),
            turns: List::new(),
            workers: 0,
            scheme: 0,
            lent: Lent::default(),
        }
    }

    // Puts the numbers of a line into the list of its letter, or each into its place, where those left out stay as they were; a line with
    // another letter is a remark.
    pub fn set(&mut self, letter: u8, numbers: List) {
        let named = |i: usize, before: u64| numbers.as_slice().get(i).copied().unwrap_or(before);
        match letter {
            b'w' => {
                self.workers = named(0, self.workers);
                self.scheme = named(1, self.scheme);
            }
            b'm' => {
                self.lent.sets = named(0, self.lent.sets);
                self.lent.estimates = named(1, self.lent.estimates);
                self.lent.costs = named(2, self.lent.costs);
                self.lent.outers = named(3, self.lent.outers);
                self.lent.methods = named(4, self.lent.methods);
            }
            b'c' => self.lent.skips = named(0, self.lent.skips),
            b'g' => {
                self.lent.log_workers = named(0, self.lent.log_workers);
                self.lent.log_driving = named(1, self.lent.log_driving);
                self.lent.log_inner = named(2, self.lent.log_inner);
                self.lent.log_costs = named(3, self.lent.log_costs);
            }
            b'r' => self.rows = numbers,
            b's' => self.scans = numbers,
            b'a' => self.left = numbers,
            b'b' => self.right = numbers,
            b'd' => self.divisors = numbers,
            b'f' => self.fixed = numbers,
            b'o' => self.outer = numbers,
            b'i' => self.inner = numbers,
            b'e' => self.result = numbers,
            b't' => self.turns = numbers,
            _ => (),
        }
    }
}

// What a line says, by its first byte.
#[derive(Clone, Copy)]
pub enum Line<'a> {
    Empty,
    // A letter, and numbers.
    List(u8, &'a [u8]),
    // All lists as they stand are kept for the inputs that follow.
    Keep,
    // An input's name: it is planned, and all is shown.
    Show(&'a [u8]),
    // An input's name: it is planned, and number and place are shown.
    Judge(&'a [u8]),
}

impl<'a> From<&'a [u8]> for Line<'a> {
    fn from(line: &'a [u8]) -> Line<'a> {
        match line {
            [] => Line::Empty,
            [b'=', ..] => Line::Keep,
            [b'!', name @ ..] => Line::Show(name),
            [b'?', name @ ..] => Line::Judge(name),
            [letter, text @ ..] => Line::List(*letter, text),
        }
    }
}

// A number with one more digit. Any byte is taken for a digit, and what is too large wraps.
fn with_digit(number: u64, byte: u8) -> u64 {
    number
        .wrapping_mul(10)
        .wrapping_add((byte as u64).wrapping_sub(b'0' as u64))
}

// The numbers of a line, a blank before each.
pub fn numbers(text: &[u8]) -> List {
    let mut numbers = List::new();
    for digits in text.split(|b| *b == b' ').skip(1) {
        numbers.push(digits.iter().fold(0, |n, b| with_digit(n, *b)));
    }
    numbers
}
