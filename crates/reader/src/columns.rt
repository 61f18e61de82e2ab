// What a text's records are read into.
ghost use Rattle.reader.specs.Lists.{lists, Room};

// Nine lent columns with room for all records that a text may have.
#[derive(Drop)]
pub struct Columns<'a> {
    pub rows: &'a mut [u64],
    pub scans: &'a mut [u64],
    pub left: &'a mut [u64],
    pub right: &'a mut [u64],
    pub divisors: &'a mut [u64],
    pub fixed: &'a mut [u64],
    pub per_outer: &'a mut [u64],
    pub per_inner: &'a mut [u64],
    pub per_result: &'a mut [u64],
    ghost room: { Room (lists rows.now scans.now left.now right.now divisors.now fixed.now per_outer.now per_inner.now per_result.now) },
}
