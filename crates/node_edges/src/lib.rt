// One node's own edges: which they are, their marks, the earliest of them, how many there are.
#![tactic(auto)]

ghost use Rattle.std.specs.Prelude.{IfSome, ◌≡◌, ◌&&◌, ℕ, Bool, true, ◌<◌, ◌≤◌, eqb};
ghost use Rattle.base.specs.Limits.{max_links};
ghost use Rattle.plan.specs.Links.{links_of};
ghost use Rattle.field.specs.Edges.{is_own, end_of};
ghost use Rattle.node.specs.Work.{BASIC, earliest, number, any_edge, branches, degree};
ghost use Rattle.node_edges.specs.Own.{marked, as_edge, Computes};

use field::Marks;
use node::{BASIC, BRANCH};
use plan::Plan;

// Edge edge's mark becomes mark.
#[derive(Clone, Copy)]
pub struct NewMark {
    pub edge: u16,
    pub mark: u8,
}

// Whether edge k ends at node v: `Edges::owns` where no marks are at hand.
#[tactic(auto, unfolding(field::specs::Edges::is_own))]
pub fn owns(plan: &Plan, v: u16, k: u16) -> bool
    requires { links_of plan.now ≤ max_links }
    ensures { result ≡ is_own plan.now v k }
{
    let i = k as usize;
    k < plan::links(plan) && (plan::lower(plan, i) == v || plan::higher(plan, i) == v)
}

// Node v's directed link over its edge k, which is also the place of its mark: `Edges::end` where no marks are at hand.
#[tactic(auto, unfolding(field::specs::Edges::end_of))]
pub fn end_at(plan: &Plan, v: u16, k: u16) -> u16
    requires { k < max_links }
    ensures { result ≡ end_of plan.now v k }
{
    if plan::lower(plan, k as usize) == v {
        2 * k
    } else {
        2 * k + 1
    }
}

// Node v's own edges, with their marks: what the rules take as `Own`.
#[derive(Clone, Copy)]
pub struct Edges<'a> {
    pub plan: &'a Plan,
    pub marks: &'a Marks,
    pub v: u16,
    pub ghost small: { links_of plan.now ≤ max_links },
}

impl<'a> Edges<'a> {
    ghost use Rattle.node_edges.specs.Edges.{as_own, as_marks};

    // Whether edge k is one of them.
    pub fn owns(self, k: u16) -> bool
        ensures { result ≡ (as_own self.entry).own k }
    {
        owns(self.plan, self.v, k)
    }

    // The directed link over its edge k, which is also the place of its mark.
    pub fn end(self, k: u16) -> u16
        requires { k < max_links }
        ensures { result ≡ end_of self.entry.plan.now self.entry.v k }
    {
        end_at(self.plan, self.v, k)
    }

    // The mark of edge k, if it is one of them.
    #[tactic(auto, unfolding(field::specs::Edges::end_of, field::specs::Edges::marks_in))]
    pub fn mark(self, k: u16) -> u8
        requires { k < max_links }
        ensures { (as_own self.entry).own k ≡ true → result ≡ as_marks self.entry k }
    {
        self.marks[self.end(k) as usize]
    }

    // The same after a change.
    #[tactic(auto, unfolding(base::specs::Cond::upd))]
    pub fn mark_after(self, change: Option<NewMark>, k: u16) -> u8
        requires { k < max_links }
        ensures { (as_own self.entry).own k ≡ true → result ≡ marked (as_marks self.entry) change k }
    {
        match change {
            Some(c) if c.edge == k => c.mark,
            _ => self.mark(k),
        }
    }

    // Whether edge k is one of them, a branch, and another than j.
    #[tactic(auto, using(field::proofs::laws::Edges::own_below))]
    pub fn is_other_branch(self, j: u16, k: u16) -> bool
        ensures { result ≡ ((as_own self.entry).own k && branches j (as_marks self.entry) k) }
    {
        self.owns(k) && k != j && self.mark(k) == BRANCH
    }

    // The earliest of those that pass the test.
    #[tactic(auto, unfolding(node::specs::Work::earliest, base::specs::None::before_by))]
    fn earliest_that<F: Fn(u16) -> bool>(self, test: F) -> Option<u16>
        requires { (k : ℕ) → (as_own self).own k ≡ true → F.pre test k }
        ensures found { (f : ℕ → Bool) → Computes ((as_own self.entry).own) (F.post test) f
            → as_edge result ≡ earliest (as_own self.entry) f (as_own self.entry).edges }
        ensures edge { IfSome result (λ k. k < max_links) }
    {
        let mut best = None;
        for k in 0..plan::links(self.plan) {
            if self.owns(k) && test(k) {
                best = match best {
                    Some(b) if !plan::earlier(self.plan, k, b) => best,
                    _ => Some(k),
                };
            }
        }
        best
    }

    // The earliest of them.
    pub fn earliest(self) -> Option<u16>
        ensures found { as_edge result ≡ earliest (as_own self.entry) any_edge (as_own self.entry).edges }
        ensures edge { IfSome result (λ k. k < max_links) }
    {
        self.earliest_that(|_k| true)
    }

    // The earliest of them with mark Basic after a change.
    #[tactic(auto, using(field::proofs::laws::Edges::own_below))]
    pub fn earliest_basic(self, change: Option<NewMark>) -> Option<u16>
        ensures found { as_edge result ≡ earliest (as_own self.entry)
            (λ k. eqb (marked (as_marks self.entry) change k) BASIC) (as_own self.entry).edges }
        ensures edge { IfSome result (λ k. k < max_links) }
    {
        self.earliest_that(|k| self.mark_after(change, k) == BASIC)
    }

    // How many there are.
    pub fn degree(self) -> u16
        ensures count { result ≡ degree (as_own self.entry) }
        ensures small { result ≤ max_links }
    {
        (0..plan::links(self.plan))
            .filter(|k| self.owns(*k))
            .count() as u16
    }

    // How many of them are branches other than j.
    pub fn branches(self, j: u16) -> u16
        ensures count { result ≡ number (as_own self.entry) (branches j (as_marks self.entry)) (as_own self.entry).edges }
        ensures small { result ≤ max_links }
    {
        (0..plan::links(self.plan))
            .filter(|k| self.is_other_branch(j, *k))
            .count() as u16
    }
}
