// The schedule reader: the lent bytes and a place in them, the number of the step that is read next.
// The work is in the functions on bytes; `open`, `left` and `next` take the struct apart.
#![tactic(auto)]

ghost use Rattle.std.specs.Prelude.{◌≡◌};
ghost use Rattle.host_reader.specs.Reader.{left_from, step_from, place_after, opened, left_of, read_of};

use field_calls::Step;

#[derive(Clone, Copy)]
pub struct Schedule<'a> {
    pub bytes: &'a [u8],
    pub at: usize,
}

// How many steps stand from a place on.
pub fn left_from(bytes: &[u8], at: usize) -> usize
    ensures { result ≡ left_from bytes.now at }
{
    if bytes.len() < 3 {
        return 0;
    }
    let n = (bytes.len() - 3) / 3;
    if n < at {
        return 0;
    }
    n - at
}

// The step at a place. Kind 0 is no step: there is none at that place.
pub fn step_from(bytes: &[u8], at: usize) -> Step
    ensures { result ≡ step_from bytes.now at }
{
    if left_from(bytes, at) == 0 {
        return Step { kind: 0, number: 0 };
    }
    let kind = host_schedule::kind(bytes, at);
    let number = host_schedule::number(bytes, at);
    Step { kind, number }
}

// The place after a place.
pub fn place_after(bytes: &[u8], at: usize) -> usize
    ensures { result ≡ place_after bytes.now at }
{
    if left_from(bytes, at) == 0 {
        return at;
    }
    at + 1
}

// The reader before the first step.
pub fn open<'a>(bytes: &'a [u8]) -> Schedule<'a>
    ensures { result ≡ opened bytes.entry }
{
    Schedule { bytes, at: 0 }
}

// How many steps it has not read.
pub fn left<'a>(s: Schedule<'a>) -> usize
    ensures { result ≡ left_of s.entry }
{
    left_from(s.bytes, s.at)
}

// Reads a step, and moves on.
pub fn next<'s, 'a>(s: &'s mut Schedule<'a>) -> Step
    ensures { record { step = result; reader = s.new } ≡ read_of s.old }
{
    let bytes = s.bytes;
    let at = s.at;
    let step = step_from(bytes, at);
    s.at = place_after(bytes, at);
    step
}
