// Plans as bytes: the reader, its check, the writer.
#![tactic(auto)]

ghost use Rattle.std.specs.Prelude.{◌≡◌, ◌+◌, ◌*◌, ◌<◌, ◌≤◌, length};
ghost use Rattle.std.proofs.lemmas.List.Edits.{sets};
ghost use Rattle.base.specs.Limits.{max_links};
ghost use Rattle.refusal.specs.Number.{refusal_in};
ghost use Rattle.plan.specs.Links.{links_of};
ghost use Rattle.plan_file.specs.Layout.{number_at, decode, encode, blank};
ghost use Rattle.plan_file.specs.laws.Head.{HeadOk};
ghost use Rattle.plan_file.specs.Reading.{head_refusal, read_refusal, read_plan, outcome_of, Loaded};
ghost use Rattle.plan_file.specs.Writing.{size, write_plan};

use plan::{NUMBERS, Plan};
use refusal::Refusal;

// The integer number i after the version byte.
fn number_at(s: &[u8], i: usize) -> u16
    requires { 2 + 2 * i < length s.now }
    ensures { result ≡ number_at s.now i }
{
    format_int16::at(s, 1 + 2 * i)
}

// The check of version, lengths and counts: 11 to 15.
fn head_check(s: &[u8]) -> Result<(), Refusal>
    ensures { refusal_in result ≡ head_refusal s.now }
{
    if s.len() < 3 {
        return Err(Refusal::PlanShort);
    }
    if s[0] != 1 {
        return Err(Refusal::PlanVersion);
    }
    let len = number_at(s, 0) as usize;
    if len != s.len() - 3 || len < 4 {
        return Err(Refusal::PlanLength);
    }
    let l = number_at(s, 2);
    plan_check::counts_check(number_at(s, 1), l, len == 4 + 8 * (l as usize))
}

// Reads the numbers after the length into a plan of zeros.
fn fill(s: &[u8], plan: &mut Plan)
    requires { HeadOk s.now × (plan.old ≡ blank) }
    ensures { plan.new ≡ decode s.now }
{
    let end = 2 + 4 * (number_at(s, 2) as usize);
    for i in 0..end {
        plan[i] = number_at(s, i + 1);
    }
}

// The check of the bytes, which leaves a plan that is taken in `plan`.
pub fn load(s: &[u8], plan: &mut Plan) -> Result<(), Refusal>
    requires { plan.old ≡ blank }
    ensures { Loaded s.now (refusal_in result) plan.new }
{
    head_check(s)?;
    fill(s, plan);
    plan_check::check(plan)
}

// Whether bytes are a plan: the first of 11 to 18 that applies.
pub fn check(s: &[u8]) -> Result<(), Refusal>
    ensures { refusal_in result ≡ read_refusal s.now }
{
    let mut plan = [0u16; NUMBERS];
    load(s, &mut plan)
}

// The plan that bytes are, or the first of 11 to 18 that applies.
pub fn read(s: &[u8]) -> Result<Plan, Refusal>
    ensures { outcome_of result ≡ read_plan s.now }
{
    let mut plan = [0u16; NUMBERS];
    load(s, &mut plan)?;
    Ok(plan)
}

// Writes a plan at the front.
pub fn put_plan(p: &Plan, out: &mut [u8])
    requires { (links_of p.now ≤ max_links) × (size p.now ≤ length out.old) }
    ensures { out.new ≡ sets out.old 0 (encode p.now) }
{
    let l = plan::links(p);
    out[0] = 1;
    format_int16::put(out, 1, 4 + 8 * l);
    let end = 2 + 4 * (l as usize);
    for (i, x) in p[..end].iter().enumerate() {
        format_int16::put(out, 3 + 2 * i, *x);
    }
}

// Writes a plan value at the front of the buffer: the first of 14 to 18 that applies, then 22.
pub fn write(p: &Plan, out: &mut [u8]) -> Result<(), Refusal>
    ensures { record { refusal = refusal_in result; state = out.new } ≡ write_plan p.now out.old }
{
    plan_check::check(p)?;
    if out.len() < 7 + 8 * (plan::links(p) as usize) {
        return Err(Refusal::PlanBuffer);
    }
    put_plan(p, out);
    Ok(())
}
