// The numbers that admission reckons with.

/// Who asks for room: an operation that adds, or one that removes and may use what is kept back for removals.
#[derive(Clone, Copy, Debug, PartialEq, Eq)]
pub enum Class {
    Ordinary,
    Removal,
}

/// What an operation asks for: credits for pages, and bytes and nodes of its own group.
#[derive(Clone, Copy, Debug, PartialEq, Eq)]
pub struct Need {
    pub credits: u64,
    pub bytes: u64,
    pub nodes: u64,
    pub class: Class,
}

/// What a store has: bytes of live leaves and of leaves that are obsolete but not synced, credits that are granted,
/// empty LEBs, LEBs of the index, the index's weight, and the LEBs of the main area.
#[derive(Clone, Copy, Debug, PartialEq, Eq)]
pub struct Space {
    pub used: u64,
    pub held: u64,
    pub credits: u64,
    pub empty: u32,
    pub index: u32,
    pub weight: u64,
    pub main: u32,
}

/// What was granted to the next group: the bytes of its nodes, each rounded up to 8, and their number.
#[derive(Clone, Copy, Debug, PartialEq, Eq)]
pub struct Grant {
    pub bytes: u64,
    pub nodes: u64,
}
