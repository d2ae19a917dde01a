// Single cue records: which may stand (73), and which send or have got a copy.
ghost use Rattle.std.specs.Prelude.{◌<◌, ◌≡◌, true, not, ◌&&◌, eqb};
ghost use Rattle.plan.specs.Links.{links_of};
ghost use Rattle.plan.proofs.laws.Accepted.{Accepted};
ghost use Rattle.plan_tree.specs.Tree.{tree_link};
ghost use Rattle.field.specs.Edges.{is_own};
ghost use Rattle.cue.specs.Record.{unheard, has_heard, sender_record, heard_record, alike};
ghost use Rattle.cue.specs.Calls.{branches_agree, right_of, is_sender};

use base::NONE;
use cue::Cue;
use field::Marks;
use node::BRANCH;
use plan::Plan;

// Whether the record is one of a module that has not heard.
fn is_unheard(c: Cue) -> bool
    ensures { result ≡ alike c unheard }
{
    let unheard = Cue {
        heard: 0,
        cue: 0,
        link: NONE,
        hops: 0,
    };
    c == unheard
}

// Whether it is the sender's.
fn is_sender_record(c: Cue) -> bool
    ensures { result ≡ alike c (sender_record c.cue) }
{
    let sender = Cue {
        heard: 1,
        cue: c.cue,
        link: NONE,
        hops: 0,
    };
    c == sender
}

// Whether it is one of a module that heard over its link from a module with record near. Hops are compared in 32 bits: any record may be lent, and 65535 + 1
// would not fit.
fn heard_from(c: Cue, near: Cue) -> bool
    ensures { result ≡ (has_heard near && alike c (heard_record near c.link)) }
{
    let next = near.hops as u32 + 1;
    near.heard == 1 && c.heard == 1 && c.cue == near.cue && c.hops as u32 == next
}

// Whether link k is in the tree: after 71 its mark says so.
pub fn in_tree(plan: &Plan, marks: &Marks, k: u16) -> bool
    requires { Accepted plan.now × (branches_agree plan.now marks.now ≡ true) × (k < links_of plan.now) }
    ensures { result ≡ tree_link plan.now k }
{
    marks[2 * k as usize] == BRANCH
}

// Whether k is an own link of module v, and in the tree.
fn own_branch(plan: &Plan, marks: &Marks, v: u16, k: u16) -> bool
    requires { Accepted plan.now × (branches_agree plan.now marks.now ≡ true) }
    ensures { result ≡ (is_own plan.now v k && tree_link plan.now k) }
{
    if plan::links(plan) <= k {
        return false;
    }
    node_edges::owns(plan, v, k) && in_tree(plan, marks, k)
}

// Whether module v's record may be c, where near is the record at the other end of its link.
pub fn right(plan: &Plan, marks: &Marks, v: u16, c: Cue, near: Cue) -> bool
    requires { Accepted plan.now × (branches_agree plan.now marks.now ≡ true) }
    ensures { result ≡ right_of plan.now v c near }
{
    if c.heard == 0 {
        return is_unheard(c);
    }
    if c.link == NONE {
        return is_sender_record(c);
    }
    own_branch(plan, marks, v, c.link) && heard_from(c, near)
}

pub fn is_sender(c: Cue) -> bool
    ensures { result ≡ is_sender c }
{
    c.heard == 1 && c.link == NONE
}

// Whether a copy went over link k, from a module with record c.
pub fn heard_not_by(c: Cue, k: u16) -> bool
    ensures { result ≡ (has_heard c && not (eqb c.link k)) }
{
    c.heard == 1 && c.link != k
}

// Whether a copy came by link k, to a module with record c.
pub fn came_by(c: Cue, k: u16) -> bool
    ensures { result ≡ (has_heard c && eqb c.link k) }
{
    c.heard == 1 && c.link == k
}
