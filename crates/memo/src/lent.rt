// The memo as it is lent.

// The memo's columns and the skip cells.
#[derive(Drop)]
pub struct Memo<'a> {
    pub sets: &'a mut [u64],
    pub estimates: &'a mut [u64],
    pub costs: &'a mut [u64],
    pub outers: &'a mut [u64],
    pub methods: &'a mut [u64],
    pub skips: &'a mut [u64],
}
