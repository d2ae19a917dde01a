// Cues: the record that a console lends for each module, what a delivery answers, and both calls as definitions (specs/). A cue goes from its
// sender over the finished tree, branch by branch. (A broadcast over the tree.)
#![tactic(auto)]

use base::MAX_MODULES;

// A module's cue record, as the console lends it: document 02's four values, any numbers.
#[repr(C)]
#[derive(Clone, Copy, PartialEq, Eq)]
pub struct Cue {
    // 1 if the module has heard the cue, else 0
    pub heard: u8,
    pub cue: u16,
    // the link that it came by, none at the sender
    pub link: u16,
    // from the sender
    pub hops: u16,
}

// The first records by value, as many as a plan can have modules.
pub type Row = [Cue; MAX_MODULES as usize];

// What a delivery that is not refused comes to: no copy waits there, or it is heard.
#[derive(Clone, Copy)]
pub enum Arrival {
    Idle,
    Heard,
}
