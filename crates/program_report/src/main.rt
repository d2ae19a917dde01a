// The reporting program: reads a plan on standard input, wakes the lowest module of each part, runs rounds to rest and prints the tree that each
// part has come to. A refused plan prints one line, as "refused 16".
#![tactic(auto)]

ghost use Rattle.std.specs.Prelude.{◌≡◌};
ghost use Rattle.format_text.specs.Input.{OfInput};
ghost use Rattle.format_text.specs.Put.{page, put};
ghost use Rattle.host_job.specs.Job.{job_run};
ghost use Rattle.text_owed.specs.Reported.{job_text, reported};

use base::MAX_WORDS;
use format_text::Intake;
use plan::Plan;

// The C library's number for standard output.
const STDOUT_FILENO: i32 = 1;

// The report of what the whole job on a plan leaves. (`words` is lent for the job alone: what it leaves there is of no use after.)
fn job_report(p: &Plan, words: &mut [u64], out: &mut [u8]) -> usize
    ensures { page result out.new ≡ put (page 0 out.old) (job_text (job_run p.now words.old)) }
{
    match host_job::run_job(p, words) {
        Ok(job) => text_report::render(job.field, job.rounds, out),
        Err(r) => format_text::put_refused(out, r.number()),
    }
}

// The report of a plan's bytes.
fn report(s: &[u8], out: &mut [u8]) -> usize
    ensures { page result out.new ≡ put (page 0 out.old) (reported s.now) }
{
    match plan_file::read(s) {
        Ok(plan) => {
            let m = plan::ceiling_of(&plan) as usize;
            let mut lent = [0u64; MAX_WORDS];
            job_report(&plan, &mut lent[..m], out)
        }
        Err(refusal) => format_text::put_refused(out, refusal.number()),
    }
}

// What it asks is what the program owes: the text is the report of the whole input, of which `space` holds what came.
fn write(space: &[u8], intake: Intake, text: &[u8])
    requires { OfInput reported space.now intake text.now }
{
    let _done = io::write_all(STDOUT_FILENO, text);
}

// All that a 16-bit length can tell of, and one byte more, so that bytes behind are seen. (The longest plan that is taken has
// 4807 bytes; a longer one whose length fits is refused by 14 or 15 and not by 13.)
const PLANROOM: usize = 65539;

fn main() {
    let mut space = [0u8; PLANROOM];
    let intake = format_text::read_input(&mut space);
    let n = format_text::bytes_read(intake);
    let mut out = [0u8; 65536];
    let end = report(format_text::front(&space, n), &mut out);
    write(&space, intake, format_text::front(&out, end));
}
