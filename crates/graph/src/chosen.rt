// Some chosen tables.

// Chosen tables as a set, how many they are, the tables next to them, and whether they are connected.
#[derive(Drop, Clone, Copy)]
pub struct Chosen {
    pub set: u64,
    pub size: usize,
    pub around: u64,
    pub joined: bool,
}

// No table.
pub const NONE: Chosen = Chosen {
    set: 0,
    size: 0,
    around: 0,
    joined: false,
};
