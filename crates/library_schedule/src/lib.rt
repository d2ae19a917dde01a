// Schedules from C: the check of any bytes, how many steps they have, the step at any place.
#![tactic(auto)]

ghost use Rattle.std.specs.Prelude.{◌≡◌};
ghost use Rattle.field_calls.specs.Schedule.{schedule_refusal};
ghost use Rattle.host_reader.specs.Reader.{left_from, step_from, place_after, opened, left_of};
ghost use Rattle.library_schedule.specs.Found.{found_by};

use field_calls::Step;
use host_reader::Schedule;
use refusal::refusal_in;

// The check of a schedule's bytes: 51 to 54, or 0.
#[unsafe(no_mangle)]
pub extern "C" fn muruapy_schedule_check(bytes: &[u8]) -> u32
    ensures { result ≡ schedule_refusal bytes.now }
{
    refusal_in(host_schedule::check(bytes))
}

// How many steps the bytes have: what a reader has left that is opened on them.
#[unsafe(no_mangle)]
pub extern "C" fn muruapy_schedule_steps(bytes: &[u8]) -> usize
    ensures { result ≡ left_of (opened bytes.entry) }
{
    host_reader::left(host_reader::open(bytes))
}

// What a reader at a place finds: how many steps are left, the step there, its place after that.
#[derive(Clone, Copy)]
pub struct Found {
    pub left: usize,
    pub step: Step,
    pub place: usize,
}

// A reader is made at a place, asked, and reads a step.
fn read_at(bytes: &[u8], at: usize) -> Found
    ensures { result ≡ found_by (record { bytes = bytes.entry; at = at }) }
{
    let mut s = Schedule { bytes, at };
    let left = host_reader::left(s);
    let step = host_reader::next(&mut s);
    let place = s.at;
    Found { left, step, place }
}

// The reader at a place: answers how many steps stand from there on; the step there goes into `kind` and `number`, the place
// after it into `next`.
#[unsafe(no_mangle)]
pub extern "C" fn muruapy_schedule_read(
    bytes: &[u8],
    at: usize,
    kind: &mut u8,
    number: &mut u16,
    next: &mut usize,
) -> usize
    ensures { (result ≡ left_from bytes.now at)
        × (record { kind = kind.exit.now; number = number.new } ≡ step_from bytes.now at)
        × (next.new ≡ place_after bytes.now at) }
{
    let found = read_at(bytes, at);
    let step = found.step;
    *kind = step.kind;
    *number = step.number;
    *next = found.place;
    found.left
}
