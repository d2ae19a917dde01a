// Cues from C: a cue is started, a copy is delivered. The records are lent as a slice.
#![tactic(auto)]

ghost use Rattle.std.specs.Prelude.{◌≡◌};
ghost use Rattle.cue.specs.Calls.{start_cue};
ghost use Rattle.cue.specs.Delivery.{delivery_of};
ghost use Rattle.library_cue.specs.Answered.{in_numbers, deliver_in_numbers};

use cue::{Arrival, Cue};
use field::Field;
use refusal::{Refusal, refusal_in};

// A cue from module `sender`: 31, 71 to 73, or 0.
#[unsafe(no_mangle)]
pub extern "C" fn muruapy_cue_start_value(
    f: Field,
    words: &[u64],
    cues: &mut [Cue],
    sender: u16,
    cue: u16,
) -> u32
    ensures { record { refusal = result; state = cues.new }
        ≡ start_cue (record { field = f; words = words.now }) cues.old sender cue }
{
    refusal_in(host_cue::start(&f, words, cues, sender, cue))
}

// What a delivery answers: the refusal or 0, and 1 if the copy was heard.
#[repr(C)]
#[derive(Clone, Copy)]
pub struct Answered {
    pub refusal: u32,
    pub heard: u32,
}

// The answer as these two numbers.
fn in_numbers(a: Result<Arrival, Refusal>) -> Answered
    ensures { result ≡ in_numbers (delivery_of a) }
{
    match a {
        Ok(arrival) => Answered {
            refusal: 0,
            heard: u32::from(matches!(arrival, Arrival::Heard)),
        },
        Err(refusal) => Answered {
            refusal: refusal.number(),
            heard: 0,
        },
    }
}

// The copy that waits on directed link d arrives: 31, 71, 73, 42, or 0.
#[unsafe(no_mangle)]
pub extern "C" fn muruapy_cue_deliver_value(
    f: Field,
    words: &[u64],
    cues: &mut [Cue],
    d: u16,
) -> Answered
    ensures { record { answered = result; cues = cues.new }
        ≡ deliver_in_numbers (record { field = f; words = words.now }) cues.old d }
{
    in_numbers(host_cue::deliver(&f, words, cues, d))
}
