// The rules of one node (specs/), and its record: document 01's module values and the waking edge, WIDTH numbers. Edges, weights and identity are edge numbers, 65535 for none.
#![tactic(auto)]

pub const WIDTH: usize = 10;

// A node's status.
pub const ASLEEP: u16 = 0;

pub const FIND: u16 = 1;

pub const FOUND: u16 = 2;

// A node's mark for an own edge: a byte, as a field holds it and 31 asks about it.
pub const BASIC: u8 = 0;

pub const BRANCH: u8 = 1;

pub const REJECTED: u8 = 2;

// Each value is a number, a status too, and none is 65535: a field's cells may hold any numbers, and refusal 31 asks about them as they are
// (`field_items::values_listed`).
#[derive(Clone, Copy)]
pub struct Node {
    // SN: 0 asleep, 1 Find, 2 Found
    pub status: u16,
    // LN
    pub level: u16,
    // FN: the fragment's core edge
    pub identity: u16,
    // best-wt: the edge whose weight it is
    pub weight: u16,
    // best-edge
    pub best: u16,
    // test-edge
    pub test: u16,
    // in-branch
    pub branch: u16,
    // find-count
    pub count: u16,
    // 1 once the procedure ended here
    pub halted: u16,
    // the edge whose message woke it (its parent edge in the wake-up forest): none for a sleeper, and for one woken by a wake step
    pub waking: u16,
}
