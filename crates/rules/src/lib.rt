// The types of document 01, each with its limits, and constructors that refuse over them.
// What every name of a contract means stands in specs/.
#![tactic(auto)]

ghost use Rattle.std.specs.Prelude.{◌≡◌, ◌≤◌};
ghost use Rattle.rules.specs.Limits.{max_tables, in_range, tables_fit, methods_fit};
ghost use Rattle.rules.specs.declared.Shape.TheVariants.{Bushy};
ghost use Rattle.rules.specs.Schedule.{by_size};
ghost use Rattle.rules.specs.Kinds.{new_table, new_edge, new_method, new_crew, Names, scheme_number};

pub mod forms;
pub mod refusal;

// Low to high, both included.
fn in_range(low: u64, high: u64, n: u64) -> bool
    ensures { result ≡ in_range low high n }
{
    (low..=high).contains(&n)
}

#[derive(Clone, Copy)]
pub struct Table {
    pub rows: u64,
    pub scan: u64,
}

impl Table {
    pub const MAX_COUNT: u64 = 16;

    pub const MAX_ROWS: u64 = 1_000_000;

    pub const MAX_SCAN: u64 = 1_000_000_000;

    // None where one of the two is over its limit.
    pub fn new(rows: u64, scan: u64) -> Option<Table>
        ensures { result ≡ new_table rows scan }
    {
        if rows > Table::MAX_ROWS || scan > Table::MAX_SCAN {
            return None;
        }
        Some(Table { rows, scan })
    }

    // A query may have this many tables.
    pub fn count_fits(count: u64) -> bool
        ensures { result ≡ tables_fit count }
    {
        in_range(1, Table::MAX_COUNT, count)
    }
}

#[derive(Clone, Copy)]
pub struct Edge {
    pub left: u64,
    pub right: u64,
    pub divisor: u64,
}

// What is wrong with an edge, in the order of refusals 6, 7 and 8.
#[derive(Clone, Copy, Debug, PartialEq, Eq)]
pub enum EdgeFault {
    Outside,
    Itself,
    Divisor,
}

impl Edge {
    pub const MAX_DIVISOR: u64 = 1_000_000;

    // A text has at most this many E lines: one for each pair of tables.
    pub const MAX_LINES: u64 = 120;

    // An edge of a query of `count` tables.
    pub fn new(count: u64, left: u64, right: u64, divisor: u64) -> Result<Edge, EdgeFault>
        ensures { result ≡ new_edge count left right divisor }
    {
        if !in_range(1, count, left) || !in_range(1, count, right) {
            return Err(EdgeFault::Outside);
        }
        if left == right {
            return Err(EdgeFault::Itself);
        }
        if !in_range(1, Edge::MAX_DIVISOR, divisor) {
            return Err(EdgeFault::Divisor);
        }
        Ok(Edge {
            left,
            right,
            divisor,
        })
    }
}

#[derive(Clone, Copy)]
pub struct Method {
    pub fixed: u64,
    pub outer: u64,
    pub inner: u64,
    pub result: u64,
}

impl Method {
    pub const MAX_COUNT: u64 = 4;

    pub const MAX_FIXED: u64 = 1_000_000_000;

    pub const MAX_COEFFICIENT: u64 = 1_000;

    // None where one of the four is over its limit.
    pub fn new(fixed: u64, outer: u64, inner: u64, res: u64) -> Option<Method>
        ensures { result ≡ new_method fixed outer inner res }
    {
        if fixed > Method::MAX_FIXED
            || outer > Method::MAX_COEFFICIENT
            || inner > Method::MAX_COEFFICIENT
            || res > Method::MAX_COEFFICIENT
        {
            return None;
        }
        Some(Method {
            fixed,
            outer,
            inner,
            result: res,
        })
    }

    // A query may have this many methods.
    pub fn count_fits(count: u64) -> bool
        ensures { result ≡ methods_fit count }
    {
        in_range(1, Method::MAX_COUNT, count)
    }
}

// The four ways of sharing candidates among workers.
#[derive(Clone, Copy, Debug, PartialEq, Eq)]
pub enum Scheme {
    CutCandidates,
    CutRows,
    DealRows,
    DealInner,
}

// A number that names no scheme.
#[derive(Clone, Copy, Debug, PartialEq, Eq)]
pub struct UnknownScheme(pub u64);

impl TryFrom<u64> for Scheme {
    type Error = UnknownScheme;

    ghost try_from_gives = { Names };

    fn try_from(number: u64) -> Result<Scheme, UnknownScheme> {
        match number {
            1 => Ok(Scheme::CutCandidates),
            2 => Ok(Scheme::CutRows),
            3 => Ok(Scheme::DealRows),
            4 => Ok(Scheme::DealInner),
            _ => Err(UnknownScheme(number)),
        }
    }
}

impl From<Scheme> for u64 {
    ghost from_gives = { λ scheme number. number ≡ scheme_number scheme };

    fn from(scheme: Scheme) -> u64 {
        match scheme {
            Scheme::CutCandidates => 1,
            Scheme::CutRows => 2,
            Scheme::DealRows => 3,
            Scheme::DealInner => 4,
        }
    }
}

// The workers of a plan and how they share.
#[derive(Clone, Copy)]
pub struct Crew {
    pub workers: u64,
    pub scheme: Scheme,
}

impl Crew {
    pub const MAX_WORKERS: u64 = 8;

    // The fields stay public, so that a range is asked for where one is needed: theorems name a crew of any numbers.
    // None where either is out of its range.
    pub fn new(workers: u64, scheme: u64) -> Option<Crew>
        ensures { result ≡ new_crew workers scheme }
    {
        if !in_range(1, Crew::MAX_WORKERS, workers) {
            return None;
        }
        match Scheme::try_from(scheme) {
            Ok(scheme) => Some(Crew { workers, scheme }),
            Err(_) => None,
        }
    }
}

// The shapes of a plan: any, or the inner part of each join is a single table.
#[derive(Clone, Copy)]
pub enum Shape {
    Bushy,
    Single,
}

// A group of candidates that are met and shared together: driving sizes 1 to `last`, each with one inner size, which is `base` less the
// driving size where it falls, and else `base`; and whether both outer choices of its pairs are priced, or only the inner set as the
// outer one. A group says all that the search needs to know of the order of work and of the shape.
#[derive(Clone, Copy)]
pub struct Group {
    pub last: usize,
    pub base: usize,
    pub falling: bool,
    pub both: bool,
}

impl Group {
    // Group `k` of document 01's order of work, for bushy plans: the candidates whose result has k + 1 tables.
    pub fn by_size(k: usize) -> Group
        requires { k ≤ max_tables }
        ensures { result ≡ by_size Bushy k }
    {
        let size = k + 1;
        Group {
            last: size / 2,
            base: size,
            falling: true,
            both: true,
        }
    }
}

// What a join of a plan is: its two parts and how they are joined.
#[derive(Clone, Copy)]
pub struct JoinStep {
    pub outer: u64,
    pub inner: u64,
    pub method: u64,
}

// "A step of a plan is a scan of one table or a join."
#[derive(Clone, Copy)]
pub enum Step {
    Scan(u64),
    Join(JoinStep),
}
