// The central builder: Borůvka's algorithm over lent arrays. Each phase finds, for every part, the earliest edge that
// leaves it; by the cut property that edge is in the tree. No sort is needed.
#![tactic(auto)]

ghost use Rattle.std.specs.Prelude.{◌≡◌, ◌⊎◌, ℕ, ◌+◌, ◌<◌, ◌≤◌, length, set};
ghost use Rattle.base.specs.Cond.{bit};
ghost use Rattle.base.specs.Limits.{max_modules, max_links};
ghost use Rattle.base.specs.None.{none};
ghost use Rattle.refusal.specs.Number.{refusal_in};
ghost use Rattle.plan.specs.Links.{links_of, lower_of, higher_of, graph_of};
ghost use Rattle.plan.specs.Weights.{earlier};
ghost use Rattle.plan.specs.Refusal.{plan_refusal};
ghost use Rattle.plan_tree.specs.Tree.{tree_bytes, central_tree};
ghost use Rattle.plan_tree.specs.laws.Forest.{Joined, Forest, Exact, Ends};
ghost use Rattle.plan_tree.specs.laws.Phase.{sooner, apart_at, apart};
ghost use Rattle.plan_tree.specs.Lent.{at, LabelsFit, Fit, Takes, TakesTo, Firsts, Phased};

use base::NONE;
use plan::Plan;
use plan_labels::{LABELS, PartLabels};
use refusal::Refusal;

// For each part the edge to join by, or none.
type Picks = [u16; LABELS];

// The earlier of b, an edge or none, and edge k.
fn sooner(plan: &Plan, b: u16, k: u16) -> u16
    requires { (k < max_links) × ((b ≡ none) ⊎ (b < max_links)) }
    ensures { result ≡ sooner (earlier plan.now) b k }
{
    if b == NONE {
        return k;
    }
    if plan::earlier(plan, k, b) { k } else { b }
}

// Edge k is offered to part a.
fn offer(plan: &Plan, best: &mut Picks, a: usize, k: u16)
    requires { (a < max_modules) × (k < max_links) × ((at best.old a ≡ none) ⊎ (at best.old a < max_links)) }
    ensures { best.new ≡ set best.old a (sooner (earlier plan.now) (at best.old a) k) }
{
    best[a] = sooner(plan, best[a], k);
}

// Edge k is offered to the parts of its ends, if they differ. Answers whether they do.
fn scan_edge(plan: &Plan, label: &PartLabels, best: &mut Picks, k: usize) -> bool
    requires { (k < max_links) × (lower_of plan.now k < max_modules) × (higher_of plan.now k < max_modules) × LabelsFit label.now
        × Firsts plan.now label.now k best.old }
    ensures { (bit result ≡ apart_at (graph_of plan.now) (at label.now) k)
        × Firsts plan.now label.now (k + 1) best.new }
{
    let a = usize::from(label[plan::lower(plan, k) as usize]);
    let b = usize::from(label[plan::higher(plan, k) as usize]);
    if a == b {
        return false;
    }
    let e = k as u16;
    offer(plan, best, a, e);
    offer(plan, best, b, e);
    true
}

// The earliest edge that leaves each part, into best. Answers how many edges join different parts.
fn scan(plan: &Plan, label: &PartLabels, best: &mut Picks) -> u16
    requires { (links_of plan.now ≤ max_links) × Ends (graph_of plan.now) × LabelsFit label.now × Firsts plan.now label.now 0 best.old }
    ensures { (result ≡ apart (graph_of plan.now) (at label.now))
        × Firsts plan.now label.now (links_of plan.now) best.new }
{
    let mut found = 0;
    for k in 0..plan::links(plan) as usize {
        if scan_edge(plan, label, best, k) {
            found += 1;
        }
    }
    found
}

// Edge k is marked, and the part at its lower end becomes part of that at its higher end.
fn join(plan: &Plan, label: &mut PartLabels, out: &mut [u8], k: usize)
    requires { Fit plan.now label.old out.old × (k < links_of plan.now) }
    ensures { Joined (graph_of plan.now) k (at label.old) (at out.old) (at label.new) (at out.new)
        × (length label.new ≡ max_modules) }
{
    let a = label[plan::lower(plan, k) as usize];
    let b = label[plan::higher(plan, k) as usize];
    plan_labels::relabel(label, a, b);
    out[k] = 1;
}

// Edge k is joined, unless it is none.
fn join_pick(plan: &Plan, label: &mut PartLabels, out: &mut [u8], k: u16)
    requires { Fit plan.now label.old out.old × ((k ≡ none) ⊎ (k < links_of plan.now)) }
    ensures { Takes (graph_of plan.now) k label.old out.old label.new out.new }
{
    if k == NONE {
        return;
    }
    join(plan, label, out, k as usize);
}

// Each part's pick is joined.
fn join_all(plan: &Plan, best: &Picks, label: &mut PartLabels, out: &mut [u8])
    requires { Fit plan.now label.old out.old × ((a : ℕ) → a < max_modules → (at best.now a ≡ none) ⊎ (at best.now a < links_of plan.now)) }
    ensures { TakesTo max_modules (graph_of plan.now) best.now label.old out.old label.new out.new }
{
    for k in best {
        join_pick(plan, label, out, *k);
    }
}

// One phase. Answers how many edges joined different parts before it.
fn phase(plan: &Plan, label: &mut PartLabels, out: &mut [u8]) -> u16
    requires { Fit plan.now label.old out.old × Forest (graph_of plan.now) (earlier plan.now) (at label.old) (at out.old) }
    ensures { Phased (graph_of plan.now) (earlier plan.now) label.old label.new out.new result }
{
    let mut best = [NONE; LABELS];
    let found = scan(plan, label, &mut best);
    join_all(plan, &best, label, out);
    found
}

// Phases, until no edge joins different parts.
fn phases(plan: &Plan, label: &mut PartLabels, out: &mut [u8])
    requires { Fit plan.now label.old out.old × Forest (graph_of plan.now) (earlier plan.now) (at label.old) (at out.old) }
    ensures { Exact (graph_of plan.now) (earlier plan.now) (at out.new) }
{
    loop {
        if phase(plan, label, out) == 0 {
            return;
        }
    }
}

// The tree of a plan that was checked.
pub fn grow(plan: &Plan, out: &mut [u8])
    requires { (plan_refusal plan.now ≡ 0) × (length out.old ≡ links_of plan.now) }
    ensures { out.new ≡ tree_bytes plan.now }
{
    out.fill(0);
    let mut label = [0u8; LABELS];
    plan_labels::number(&mut label);
    phases(plan, &mut label, out);
}

// The central tree of a plan: refused by 14 to 18 or 20, or the L bytes are written.
pub fn build(p: &Plan, out: &mut [u8]) -> Result<(), Refusal>
    ensures { record { refusal = refusal_in result; state = out.new } ≡ central_tree p.now out.old }
{
    plan_check::check(p)?;
    if out.len() != plan::links(p) as usize {
        return Err(Refusal::TreeBuffer);
    }
    grow(p, out);
    Ok(())
}
