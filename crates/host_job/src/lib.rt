// The whole job on one plan: setup, a wake of the lowest module of each part, rounds until the field is at rest.
#![tactic(auto)]

ghost use Rattle.std.specs.Prelude.{◌+◌, ◌≤◌, ◌<◌, ◌≡◌, ◌∷◌, length, take};
ghost use Rattle.std.proofs.lemmas.List.Edits.{sets};
ghost use Rattle.format_int16.specs.Int16.{bytes16};
ghost use Rattle.graph.specs.Parts.{lowests};
ghost use Rattle.plan.specs.Links.{modules_of, graph_of};
ghost use Rattle.plan.specs.Refusal.{plan_refusal};
ghost use Rattle.field.specs.Step.{WAKE};
ghost use Rattle.host_job.specs.Job.{wake_steps, job_wakes, most_wakes, job_told, job_run};

use base::MAX_MODULES;
use field::Field;
use field_calls::Kind;
use plan::Plan;
use plan_labels::LABELS;
use refusal::Refusal;

// "rounds with limit 65535"
const MAX_ROUNDS: u16 = 65535;

// The bytes of the longest schedule: every module is a part of its own.
const SCHEDULE: usize = 3 + 3 * MAX_MODULES as usize;

// What the job leaves, and the rounds completed.
#[derive(Drop)]
pub struct Job {
    pub field: Field,
    pub rounds: u16,
}

// A wake of module v, from byte `at` on.
fn put_wake(out: &mut [u8], at: usize, v: u16)
    requires { at + 2 < length out.old }
    ensures { out.new ≡ sets out.old at (WAKE ∷ bytes16 v) }
{
    out[at] = Kind::Wake as u8;
    format_int16::put(out, at + 1, v);
}

// The wakes of the lowest module of each part, from byte 3 on; the place behind them.
fn put_wakes(p: &Plan, out: &mut [u8]) -> usize
    requires { (plan_refusal p.now ≡ 0) × (length out.old ≡ most_wakes) }
    ensures { (out.new ≡ sets out.old 3 (wake_steps (lowests (graph_of p.now) (modules_of p.now))))
        × (result ≡ 3 + length (wake_steps (lowests (graph_of p.now) (modules_of p.now)))) }
{
    let mut parts = [0u8; LABELS];
    plan_labels::merge(p, &mut parts);
    let mut at = 3;
    for v in 0..plan::modules(p) {
        if plan_labels::lowest(&parts, v as usize) {
            put_wake(out, at, v);
            at += 3;
        }
    }
    at
}

// The schedule of these wakes at the front of a buffer; its length.
fn wakes(p: &Plan, out: &mut [u8]) -> usize
    requires { (plan_refusal p.now ≡ 0) × (length out.old ≡ most_wakes) }
    ensures { (take result out.new ≡ job_wakes p.now) × (result ≤ most_wakes) }
{
    let end = put_wakes(p, out);
    out[0] = 1;
    format_int16::put(out, 1, (end - 3) as u16);
    end
}

// The job on a plan: refused by 14 to 18 or 21, as its setup is; neither the wakes nor the rounds can be refused (proofs/laws/Agrees).
pub fn run_job(p: &Plan, words: &mut [u64]) -> Result<Job, Refusal>
    ensures { job_told result words.new ≡ job_run p.now words.old }
{
    let mut field = host_setup::setup(p, words)?;
    let mut schedule = [0u8; SCHEDULE];
    let n = wakes(p, &mut schedule);
    host_run::run(&mut field, words, &schedule[..n]).ended?;
    let run = host_rounds::run(&mut field, words, MAX_ROUNDS);
    run.ended?;
    let rounds = run.done;
    Ok(Job { field, rounds })
}
