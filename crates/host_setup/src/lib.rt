// Setup: the field of a plan, all modules asleep, no word waiting.
#![tactic(auto)]

ghost use Rattle.std.specs.Prelude.{◌≡◌, ◌≤◌};
ghost use Rattle.base.specs.Limits.{max_links};
ghost use Rattle.plan.specs.Links.{links_of};
ghost use Rattle.plan.specs.Trimmed.{trimmed};
ghost use Rattle.field.specs.Held.{unmarked, fresh, set_up};
ghost use Rattle.host_setup.specs.Made.{field_made};

use base::MAX_ENDS;
use field::{CELLS, Cells, Field};
use node::BASIC;
use plan::Plan;
use refusal::Refusal;

// The field of a plan and cells, all marks Basic, nothing sent.
fn unmarked(p: Plan, cells: Cells) -> Field
    ensures { result ≡ unmarked p cells }
{
    Field {
        plan: p,
        cells,
        marks: [BASIC; MAX_ENDS],
        sent: 0,
    }
}

// The field of a plan at setup, which holds the plan with zeros past its links.
fn fresh_field(p: &Plan) -> Field
    requires { links_of p.now ≤ max_links }
    ensures { result ≡ fresh (trimmed p.now) }
{
    let mut cells = [0u16; CELLS];
    field_cells::lay_cells(&mut cells);
    unmarked(plan::trimmed(p), cells)
}

// Setup of a plan in lent words: 14 to 18, then 21. A refusal leaves the words as they were.
pub fn setup(p: &Plan, words: &mut [u64]) -> Result<Field, Refusal>
    ensures { field_made result words.new ≡ set_up p.now words.old }
{
    plan_check::check(p)?;
    if words.len() < plan::ceiling_of(p) as usize {
        return Err(Refusal::TooFewWords);
    }
    words.fill(0);
    Ok(fresh_field(p))
}
