// The field, its steps and refusal 31 as definitions (specs/), and its record. That is its plan, WIDTH cells for each module, a mark for each end of each
// link, the sent count.
// (A network state; the messages under way lie in words that the caller lends.)
#![tactic(auto)]

use base::{MAX_ENDS, MAX_MODULES};
use node::WIDTH;
use plan::Plan;

pub const CELLS: usize = MAX_MODULES as usize * WIDTH;

pub type Cells = [u16; CELLS];

pub type Marks = [u8; MAX_ENDS];

#[repr(C)]
#[derive(Drop)]
pub struct Field {
    // "The field holds its plan."
    pub plan: Plan,
    // module v's values, in document 01's order, from v * WIDTH on
    pub cells: Cells,
    // link k's mark at its lower module at 2 * k, at its higher at 2 * k + 1
    pub marks: Marks,
    pub sent: u32,
}
