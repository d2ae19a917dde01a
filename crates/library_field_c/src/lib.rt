// Fields for C: the functions of library_field, each with its clauses again. Today a library exports nothing, so this crate does.
#![tactic(auto)]

ghost use Rattle.std.specs.Prelude.{◌≡◌, cond, length};
ghost use Rattle.field.specs.Held.{valid, step_alone, held_from};
ghost use Rattle.field.specs.Valid.{waiting_in};
ghost use Rattle.field_calls.specs.Call.{run_bytes, run_rounds};
ghost use Rattle.library_field.specs.Lent.{set_up_into};

use field::{Cells, Marks};
use plan::Plan;

// Setup: 14 to 18, then 21. `held` is the plan's place in the field.
#[unsafe(no_mangle)]
pub extern "C" fn muruapy_setup_parts(
    plan: &Plan,
    held: &mut Plan,
    cells: &mut Cells,
    marks: &mut Marks,
    sent: &mut u32,
    words: &mut [u64],
) -> u32
    ensures { record { refusal = result; state = held_from held.new cells.new marks.new sent.new words.new }
        ≡ set_up_into plan.now (held_from held.old cells.old marks.old sent.old words.old) }
{
    library_field::muruapy_setup_parts(plan, held, cells, marks, sent, words)
}

// 31 by itself.
#[unsafe(no_mangle)]
pub extern "C" fn muruapy_field_check_parts<'a>(
    plan: &'a Plan,
    cells: &'a Cells,
    marks: &'a Marks,
    sent: u32,
    words: &[u64],
) -> u32
    ensures { result ≡ cond (valid (held_from plan.now cells.now marks.now sent words.now)) 0 31 }
{
    library_field::muruapy_field_check_parts(plan, cells, marks, sent, words)
}

// How many words wait.
#[unsafe(no_mangle)]
pub extern "C" fn muruapy_waiting(words: &[u64]) -> usize
    ensures { result ≡ length (waiting_in words.now) }
{
    library_field::muruapy_waiting(words)
}

// A step given alone.
#[unsafe(no_mangle)]
pub extern "C" fn muruapy_step_parts(
    plan: &Plan,
    cells: &mut Cells,
    marks: &mut Marks,
    sent: &mut u32,
    words: &mut [u64],
    kind: u8,
    number: u16,
) -> u32
    ensures { record { refusal = result; state = held_from plan.now cells.new marks.new sent.new words.new }
        ≡ step_alone kind number (held_from plan.now cells.old marks.old sent.old words.old) }
{
    library_field::muruapy_step_parts(plan, cells, marks, sent, words, kind, number)
}

// A run of a schedule; `steps` gets the steps done.
#[unsafe(no_mangle)]
pub extern "C" fn muruapy_run_parts(
    plan: &Plan,
    cells: &mut Cells,
    marks: &mut Marks,
    sent: &mut u32,
    words: &mut [u64],
    bytes: &[u8],
    steps: &mut usize,
) -> u32
    ensures { record { done = steps.new; refusal = result; state = held_from plan.now cells.new marks.new sent.new words.new }
        ≡ run_bytes bytes.now (held_from plan.now cells.old marks.old sent.old words.old) }
{
    library_field::muruapy_run_parts(plan, cells, marks, sent, words, bytes, steps)
}

// A run of rounds; `rounds` gets the rounds completed.
#[unsafe(no_mangle)]
pub extern "C" fn muruapy_rounds_parts(
    plan: &Plan,
    cells: &mut Cells,
    marks: &mut Marks,
    sent: &mut u32,
    words: &mut [u64],
    limit: u16,
    rounds: &mut u16,
) -> u32
    ensures { record { done = rounds.new; refusal = result; state = held_from plan.now cells.new marks.new sent.new words.new }
        ≡ run_rounds limit (held_from plan.now cells.old marks.old sent.old words.old) }
{
    library_field::muruapy_rounds_parts(plan, cells, marks, sent, words, limit, rounds)
}
