// A preview of a step: its answer and the words that it would send, without taking it, as definitions (specs/), and what it answers.
#![tactic(auto)]

// What C gets. refusal: its number, or 0. count: the messages that the step would send, 0 beside a refusal.
#[repr(C)]
#[derive(Clone, Copy)]
pub struct Previewed {
    pub refusal: u32,
    pub count: u32,
}
