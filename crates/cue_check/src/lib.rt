// Refusals 71 and 73 of cues, and whether a copy waits. 71 builds the tree; after it the marks tell which links are in the tree.
#![tactic(auto)]

mod record;
mod tree;

ghost use Rattle.std.specs.Prelude.{◌*◌, ◌<◌, ◌≡◌, true};
ghost use Rattle.base.specs.Limits.{max_modules};
ghost use Rattle.plan.specs.Links.{modules_of, links_of};
ghost use Rattle.plan.specs.Refusal.{plan_refusal};
ghost use Rattle.plan.proofs.laws.Accepted.{Accepted};
ghost use Rattle.field.specs.Edges.{is_own, end_of, from, dest};
ghost use Rattle.cue.specs.Copies.{waits_on};
ghost use Rattle.cue.specs.Calls.{branches_agree, left_by_sending};

use base::MAX_LINKS;
use cue::Row;
use field::Marks;
use plan::Plan;

// Not 71: at both ends of every link the mark is Branch exactly where the link is in the tree.
pub fn branches_agree(plan: &Plan, marks: &Marks) -> bool
    requires { plan_refusal plan.now ≡ 0 }
    ensures { result ≡ branches_agree plan.now marks.now }
{
    let mut bytes = [0u8; MAX_LINKS as usize];
    let links = plan::links(plan) as usize;
    tree::agrees(plan, marks, &mut bytes[..links])
}

// The module that directed link d runs from.
pub fn near_end(plan: &Plan, d: u16) -> u16
    requires { Accepted plan.now × (d < 2 * links_of plan.now) }
    ensures { (result ≡ from plan.now d) × (result < modules_of plan.now) }
{
    let k = (d / 2) as usize;
    if d % 2 == 0 {
        return plan::lower(plan, k);
    }
    plan::higher(plan, k)
}

// The module that it leads to.
pub fn far_end(plan: &Plan, d: u16) -> u16
    requires { Accepted plan.now × (d < 2 * links_of plan.now) }
    ensures { (result ≡ dest plan.now d) × (result < modules_of plan.now) }
{
    let k = (d / 2) as usize;
    if d % 2 == 1 {
        return plan::lower(plan, k);
    }
    plan::higher(plan, k)
}

// The other end of module v's link k; any module where k is no own link.
fn facing(plan: &Plan, v: u16, k: u16) -> u16
    requires { Accepted plan.now }
    ensures { (result < max_modules) × (is_own plan.now v k ≡ true → result ≡ dest plan.now (end_of plan.now v k)) }
{
    if plan::links(plan) <= k {
        return 0;
    }
    far_end(plan, node_edges::end_at(plan, v, k))
}

// Not 73 at a delivery: one pass over the records of the plan's modules.
pub fn left_by_sending(plan: &Plan, marks: &Marks, row: Row) -> bool
    requires { Accepted plan.now × (branches_agree plan.now marks.now ≡ true) }
    ensures { result ≡ left_by_sending plan.now row }
{
    let mut senders = 0;
    for v in 0..plan::modules(plan) {
        let c = row[v as usize];
        let near = row[facing(plan, v, c.link) as usize];
        if !record::right(plan, marks, v, c, near) {
            return false;
        }
        senders += u16::from(record::is_sender(c));
    }
    senders == 1
}

// Whether a copy waits on directed link d.
pub fn waits(plan: &Plan, marks: &Marks, row: Row, d: u16) -> bool
    requires { Accepted plan.now × (branches_agree plan.now marks.now ≡ true) × (d < 2 * links_of plan.now) }
    ensures { result ≡ waits_on plan.now row d }
{
    let k = d / 2;
    let near = row[near_end(plan, d) as usize];
    let far = row[far_end(plan, d) as usize];
    let sent = record::heard_not_by(near, k);
    let arrived = record::came_by(far, k);
    record::in_tree(plan, marks, k) && sent && !arrived
}
