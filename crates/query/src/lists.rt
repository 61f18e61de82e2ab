// A query as it is lent: lists that hold fields of the same records, with nothing asked of them.

#[derive(Clone, Copy)]
pub struct Query<'a> {
    // Tables.
    pub rows: &'a [u64],
    pub scans: &'a [u64],
    // Edges.
    pub left: &'a [u64],
    pub right: &'a [u64],
    pub divisors: &'a [u64],
    // Methods.
    pub fixed: &'a [u64],
    pub per_outer: &'a [u64],
    pub per_inner: &'a [u64],
    pub per_result: &'a [u64],
}
