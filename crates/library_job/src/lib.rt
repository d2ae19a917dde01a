// The whole job from C, and the report as text in a lent buffer. A field is lent in its parts, as in library_field.
#![tactic(auto)]

ghost use Rattle.std.specs.Prelude.{◌≡◌};
ghost use Rattle.format_text.specs.Put.{page, put};
ghost use Rattle.text_report.specs.Text.{report_text};
ghost use Rattle.library_job.specs.Lent.{job_into};
ghost use Rattle.field.specs.Held.{field_from, held_from};

use field::{Cells, Marks};
use plan::Plan;

// Setup, a wake of the lowest module of each part, rounds to rest: 14 to 18, then 21. `held` is the plan's place in the field; `rounds` gets the rounds completed.
#[unsafe(no_mangle)]
pub extern "C" fn muruapy_job_parts(
    plan: &Plan,
    held: &mut Plan,
    cells: &mut Cells,
    marks: &mut Marks,
    sent: &mut u32,
    words: &mut [u64],
    rounds: &mut u16,
) -> u32
    ensures { record { done = rounds.new; refusal = result; state = held_from held.new cells.new marks.new sent.new words.new }
        ≡ job_into plan.now (held_from held.old cells.old marks.old sent.old words.old) }
{
    match host_job::run_job(plan, words) {
        Ok(job) => {
            *held = job.field.plan;
            library_field::hand_back(&job.field, cells, marks, sent);
            *rounds = job.rounds;
            0
        }
        Err(refusal) => {
            *rounds = 0;
            refusal.number()
        }
    }
}

// The report of any field, with a number of rounds, put at the front of a buffer; the place behind it.
#[unsafe(no_mangle)]
pub extern "C" fn muruapy_report_parts(
    plan: &Plan,
    cells: &Cells,
    marks: &Marks,
    sent: u32,
    rounds: u16,
    text: &mut [u8],
) -> usize
    ensures { page result text.new
        ≡ put (page 0 text.old) (report_text (field_from plan.now cells.now marks.now sent) rounds) }
{
    let f = library_field::field_of(plan, cells, marks, sent);
    text_report::render(f, rounds, text)
}
