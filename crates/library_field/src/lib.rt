// Fields for C: setup, 31 by itself, a step, a run of a schedule, a run of rounds. A field is lent in its parts; the inline functions of
// include/muruapy.h pass them. library_field_c exports these functions.
#![tactic(auto)]

ghost use Rattle.std.specs.Prelude.{◌≡◌, cond, length};
ghost use Rattle.field.specs.Held.{valid, step_alone, field_from, held_from};
ghost use Rattle.field.specs.Valid.{waiting_in};
ghost use Rattle.field_calls.specs.Call.{run_bytes, run_rounds};
ghost use Rattle.library_field.specs.Lent.{set_up_into};

use field::{Cells, Field, Marks};
use plan::Plan;
use refusal::{Refusal, refusal_in};

// The field of these parts.
pub fn field_of(plan: &Plan, cells: &Cells, marks: &Marks, sent: u32) -> Field
    ensures { result ≡ field_from plan.now cells.now marks.now sent }
{
    Field {
        plan: *plan,
        cells: *cells,
        marks: *marks,
        sent,
    }
}

// The parts that a call on a field may have changed, handed back.
pub fn hand_back(f: &Field, cells: &mut Cells, marks: &mut Marks, sent: &mut u32)
    ensures { (cells.new ≡ f.now.cells) × (marks.new ≡ f.now.marks) × (sent.new ≡ f.now.sent) }
{
    *cells = f.cells;
    *marks = f.marks;
    *sent = f.sent;
}

// Setup: 14 to 18, then 21. `held` is the plan's place in the field.
pub fn muruapy_setup_parts(
    plan: &Plan,
    held: &mut Plan,
    cells: &mut Cells,
    marks: &mut Marks,
    sent: &mut u32,
    words: &mut [u64],
) -> u32
    ensures { record { refusal = result; state = held_from held.new cells.new marks.new sent.new words.new }
        ≡ set_up_into plan.now (held_from held.old cells.old marks.old sent.old words.old) }
{
    match host_setup::setup(plan, words) {
        Ok(f) => {
            *held = f.plan;
            hand_back(&f, cells, marks, sent);
            0
        }
        Err(refusal) => refusal.number(),
    }
}

// 31 by itself.
pub fn muruapy_field_check_parts<'a>(
    plan: &'a Plan,
    cells: &'a Cells,
    marks: &'a Marks,
    sent: u32,
    words: &[u64],
) -> u32
    ensures { result ≡ cond (valid (held_from plan.now cells.now marks.now sent words.now)) 0 31 }
{
    match field_check::check(plan, cells, marks, sent, words) {
        Ok(_) => 0,
        Err(r) => Refusal::from(r).number(),
    }
}

// How many words wait.
pub fn muruapy_waiting(words: &[u64]) -> usize
    ensures { result ≡ length (waiting_in words.now) }
{
    field_check::waiting(words)
}

// A step given alone.
pub fn muruapy_step_parts(
    plan: &Plan,
    cells: &mut Cells,
    marks: &mut Marks,
    sent: &mut u32,
    words: &mut [u64],
    kind: u8,
    number: u16,
) -> u32
    ensures { record { refusal = result; state = held_from plan.now cells.new marks.new sent.new words.new }
        ≡ step_alone kind number (held_from plan.now cells.old marks.old sent.old words.old) }
{
    let mut f = field_of(plan, cells, marks, *sent);
    let answer = host_run::step(&mut f, words, kind, number);
    hand_back(&f, cells, marks, sent);
    refusal_in(answer)
}

// A run of a schedule; `steps` gets the steps done.
pub fn muruapy_run_parts(
    plan: &Plan,
    cells: &mut Cells,
    marks: &mut Marks,
    sent: &mut u32,
    words: &mut [u64],
    bytes: &[u8],
    steps: &mut usize,
) -> u32
    ensures { record { done = steps.new; refusal = result; state = held_from plan.now cells.new marks.new sent.new words.new }
        ≡ run_bytes bytes.now (held_from plan.now cells.old marks.old sent.old words.old) }
{
    let mut f = field_of(plan, cells, marks, *sent);
    let run = host_run::run(&mut f, words, bytes);
    hand_back(&f, cells, marks, sent);
    *steps = run.done;
    refusal_in(run.ended)
}

// A run of rounds; `rounds` gets the rounds completed.
pub fn muruapy_rounds_parts(
    plan: &Plan,
    cells: &mut Cells,
    marks: &mut Marks,
    sent: &mut u32,
    words: &mut [u64],
    limit: u16,
    rounds: &mut u16,
) -> u32
    ensures { record { done = rounds.new; refusal = result; state = held_from plan.now cells.new marks.new sent.new words.new }
        ≡ run_rounds limit (held_from plan.now cells.old marks.old sent.old words.old) }
{
    let mut f = field_of(plan, cells, marks, *sent);
    let run = host_rounds::run(&mut f, words, limit);
    hand_back(&f, cells, marks, sent);
    *rounds = run.done;
    refusal_in(run.ended)
}
