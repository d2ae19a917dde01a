// The first half of a round: "hands over all that each directed link holds, in number order".
ghost use Rattle.std.specs.Prelude.{◌≤◌};
ghost use Rattle.refusal.specs.Number.{refusal_in};
ghost use Rattle.field_calls.specs.Rounds.{hand_turn, hand_phase};
ghost use Rattle.field_words.specs.Laid.{Laid};
ghost use Rattle.field_words.specs.Hands.{Hands};
ghost use Rattle.base.specs.Limits.{max_links};
ghost use Rattle.plan.specs.Links.{links_of};

use plan::Plan;
use refusal::Refusal;

// All that directed link d holds is handed over, where n words wait.
fn hand_turn(plan: &Plan, lent: &mut [u64], n: usize, d: u16) -> Result<(), Refusal>
    requires { Laid lent.old n × (links_of plan.now ≤ max_links) }
    ensures { Hands (hand_turn plan.now d) n lent.old (refusal_in result) lent.new }
{
    for _ in 0..field_search::many_in_air(&lent[..n], d) {
        field_words::hand(plan, lent, n, d)?;
    }
    Ok(())
}

// The turns of all directed links.
pub fn hand_phase(plan: &Plan, lent: &mut [u64], n: usize) -> Result<(), Refusal>
    requires { Laid lent.old n × (links_of plan.now ≤ max_links) }
    ensures { Hands (hand_phase plan.now) n lent.old (refusal_in result) lent.new }
{
    for d in 0..2 * plan::links(plan) {
        hand_turn(plan, lent, n, d)?;
    }
    Ok(())
}
