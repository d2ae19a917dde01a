// The tracing program: reads a plan and, right behind it, a schedule on standard input, and prints what that led to. It sets the plan up with exactly M
// words, runs the schedule and prints the run's answer, every module with its marks, every waiting word.
// A refused plan prints one line, as "refused 16".
#![tactic(auto)]

ghost use Rattle.std.specs.Prelude.{◌≡◌, length};
ghost use Rattle.format_text.specs.Input.{OfInput};
ghost use Rattle.format_text.specs.Put.{page, put};
ghost use Rattle.plan.specs.Refusal.{plan_refusal};
ghost use Rattle.field.specs.Edges.{ceiling_of};
ghost use Rattle.field_calls.specs.Call.{run_bytes};
ghost use Rattle.text_owed.specs.Traced.{fresh_held, ran_text, traced};

use base::MAX_WORDS;
use format_text::Intake;
use plan::Plan;
use refusal::refusal_in;

// The C library's number for standard output.
const STDOUT_FILENO: i32 = 1;

// An accepted plan's setup with exactly M words, a run of the schedule, and what it led to. (`lent` is for the run alone: what it leaves there is in the text, and
// of no use after.)
fn follow(p: &Plan, lent: &mut [u64], schedule: &[u8], out: &mut [u8]) -> usize
    requires { (plan_refusal p.now ≡ 0) × (length lent.old ≡ ceiling_of p.now) }
    ensures { page result out.new ≡ put (page 0 out.old) (ran_text p.now (run_bytes schedule.now (fresh_held p.now))) }
{
    let mut f = host_setup::setup(p, lent).unwrap();
    let run = host_run::run(&mut f, lent, schedule);
    let n = field_check::waiting(lent);
    let refusal = refusal_in(run.ended);
    text_trace::render(p, f, run.done, refusal, &lent[..n], out)
}

// A plan and a schedule followed to the end.
fn trace(input: &[u8], out: &mut [u8]) -> usize
    ensures { page result out.new ≡ put (page 0 out.old) (traced input.now) }
{
    let part = text_owed::plan_part(input);
    match plan_file::read(&input[..part]) {
        Ok(plan) => {
            let m = plan::ceiling_of(&plan) as usize;
            // room for the largest plan's M
            let mut lent = [0u64; MAX_WORDS];
            follow(&plan, &mut lent[..m], &input[part..], out)
        }
        Err(refusal) => format_text::put_refused(out, refusal.number()),
    }
}

// What it asks is what the program owes: the text is what the whole input leads to, of which `space` holds what came.
fn write(space: &[u8], intake: Intake, text: &[u8])
    requires { OfInput traced space.now intake text.now }
{
    let _done = io::write_all(STDOUT_FILENO, text);
}

// The longest plan, the longest schedule and one byte more, so that bytes behind a schedule are seen.
const RUNROOM: usize = 70346;

fn main() {
    let mut space = [0u8; RUNROOM];
    let intake = format_text::read_input(&mut space);
    let n = format_text::bytes_read(intake);
    let mut out = [0u8; 400000];
    let end = trace(format_text::front(&space, n), &mut out);
    write(&space, intake, format_text::front(&out, end));
}
