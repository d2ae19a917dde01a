// Named points: a byte store of saved fields, its records and the three calls on it as definitions (specs/), and where a record stands.
// (Snapshots of a network state under names.)
#![tactic(auto)]

// Where a record stands in a store.
#[derive(Clone, Copy)]
pub struct Spot {
    pub at: usize,
    pub size: usize,
}

// What finding a name answers: the refusal, or 0 and where its record stands; 0 and 0 beside a refusal.
#[repr(C)]
#[derive(Clone, Copy)]
pub struct FoundPoint {
    pub refusal: u32,
    pub at: usize,
    pub size: usize,
}
