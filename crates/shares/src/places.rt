// Places among the candidates of a group.
ghost use Rattle.std.specs.Prelude.{◌≡◌};
ghost use Rattle.shares.specs.Nowhere.{nowhere};

// Where a candidate stands: the size of its driving set, and its driving row and inner row, both as rows of the memo.
#[derive(Clone, Copy)]
pub struct Spot {
    pub size: usize,
    pub row: usize,
    pub inner: usize,
}

// Where a worker stands: its next joinable pair and that candidate's number, or, with no pair left, the number of the group's candidates.
#[derive(Clone, Copy)]
pub struct Place {
    pub number: usize,
    pub pair: Option<Spot>,
}

// With no pair left, of `total` candidates.
pub fn nowhere(total: usize) -> Place
    ensures { result ≡ nowhere total }
{
    Place {
        number: total,
        pair: None,
    }
}
