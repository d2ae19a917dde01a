// Paths in the tree for a host: the path between two modules with its worst link, and the modules within some branches of one.
#![tactic(auto)]

ghost use Rattle.std.specs.Prelude.{◌-◌, ◌<◌, ◌≤◌, min, ◌≡◌, ◌⊎◌, ◌++◌, length, get_or, drop, eqb, not};
ghost use Rattle.base.specs.Cond.{bit};
ghost use Rattle.base.specs.None.{none};
ghost use Rattle.base.specs.Limits.{max_modules, max_links};
ghost use Rattle.base.specs.Table.{tabulate};
ghost use Rattle.refusal.specs.Number.{refusal_in};
ghost use Rattle.graph.specs.Between.{across, later_of};
ghost use Rattle.graph.specs.Parts.{SamePart};
ghost use Rattle.plan.specs.Links.{graph_of, modules_of};
ghost use Rattle.plan.specs.Weights.{earlier};
ghost use Rattle.plan.specs.Refusal.{plan_refusal};
ghost use Rattle.path.specs.Between.{tree_path, worst_on, path_told, path_between};
ghost use Rattle.path.specs.Near.{mark_near};
ghost use Rattle.path_search.specs.Spread.{far, hops_to, LinksTo};

use base::NONE;
use path::LinkPath;
use path_search::{FAR, FirstLinks, Hops, NODES};
use plan::Plan;
use refusal::Refusal;

// The later of two links, the first of which may be none.
fn later(plan: &Plan, a: u16, b: u16) -> u16
    requires { ((a ≡ none) ⊎ (a < max_links)) × (b < max_links) }
    ensures { result ≡ later_of (earlier plan.now) a b }
{
    if a == NONE {
        return b;
    }
    if plan::earlier(plan, a, b) { b } else { a }
}

// The module at the other end of link k.
fn across(plan: &Plan, k: u16, u: u16) -> u16
    requires { k < max_links }
    ensures { result ≡ across (graph_of plan.now) k u }
{
    let k = k as usize;
    if plan::lower(plan, k) == u {
        plan::higher(plan, k)
    } else {
        plan::lower(plan, k)
    }
}

// The path from u to v, of one part, at the front of out, by the links to go first. Answers its latest link.
fn walk(plan: &Plan, by: &FirstLinks, u: u16, v: u16, out: &mut [u16]) -> u16
    requires { (plan_refusal plan.now ≡ 0) × (u < modules_of plan.now) × SamePart (graph_of plan.now) u v × LinksTo plan.now v u by.now
        × (hops_to plan.now v u ≤ length out.old) }
    ensures { (result ≡ worst_on plan.now (tree_path plan.now u v))
        × (out.new ≡ tree_path plan.now u v ++ drop (hops_to plan.now v u) out.old) }
{
    let mut worst = NONE;
    let mut at = u;
    let mut i = 0;
    // a `while`: it ends where v is reached, and how many turns that takes no count at hand tells
    while at != v {
        let k = by[at as usize];
        out[i] = k;
        worst = later(plan, worst, k);
        at = across(plan, k, at);
        i += 1;
    }
    worst
}

// The path between two modules of a plan that was checked: no way, 79, or its links at the front of out.
fn found(plan: &Plan, from: u16, to: u16, out: &mut [u16]) -> Result<Option<LinkPath>, Refusal>
    requires { (plan_refusal plan.now ≡ 0) × (from < modules_of plan.now) × (to < modules_of plan.now) }
    ensures { record { answer = path_told result; buffer = out.new } ≡ path_between plan.now from to out.old }
{
    let mut hops = [FAR; NODES];
    let mut by = [NONE; NODES];
    path_search::spread_to(plan, &mut hops, &mut by, to, from);
    let hops_between = hops[from as usize];
    if hops_between == FAR {
        return Ok(None);
    }
    if out.len() < hops_between as usize {
        return Err(Refusal::PathBuffer);
    }
    let length = hops_between as u16;
    let worst = walk(plan, &by, from, to, out);
    Ok(Some(LinkPath { length, worst }))
}

// The path between two modules of any plan value: 14 to 18, 41, 79, no way, or its links at the front of out.
pub fn between(
    plan: &Plan,
    from: u16,
    to: u16,
    out: &mut [u16],
) -> Result<Option<LinkPath>, Refusal>
    ensures { record { answer = path_told result; buffer = out.new } ≡ path_between plan.now from to out.old }
{
    plan_check::check(plan)?;
    let n = plan::modules(plan);
    if n <= from || n <= to {
        return Err(Refusal::NoModule);
    }
    found(plan, from, to, out)
}

// A byte for each of n nodes: whether its hops are known.
fn write_known(hops: &Hops, n: usize, out: &mut [u8])
    requires { (length hops.now ≡ max_modules) × (n ≤ max_modules) × (n ≤ length out.old) }
    ensures { out.new ≡ tabulate n (λ w. bit (not (eqb (get_or hops.now w 0) far))) ++ drop n out.old }
{
    for w in 0..n {
        out[w] = u8::from(hops[w] != FAR);
    }
}

// h, but n − 1 at most: no path has more links.
fn at_most(h: u32, n: u16) -> u8
    requires { (0 < n) × (n ≤ max_modules) }
    ensures { result ≡ min h (n - 1) }
{
    h.min(n as u32 - 1) as u8
}

// The modules within h branches of one, of any plan value: 14 to 18, 41, 79, or N bytes at the front of out, 0 for other parts.
pub fn near(plan: &Plan, from: u16, h: u32, out: &mut [u8]) -> Result<(), Refusal>
    ensures { record { refusal = refusal_in result; state = out.new } ≡ mark_near plan.now from h out.old }
{
    plan_check::check(plan)?;
    let n = plan::modules(plan);
    let size = n as usize;
    if n <= from {
        return Err(Refusal::NoModule);
    }
    if out.len() < size {
        return Err(Refusal::PathBuffer);
    }
    let mut hops = [FAR; NODES];
    let mut by = [NONE; NODES];
    path_search::spread_within(plan, &mut hops, &mut by, from, at_most(h, n));
    write_known(&hops, size, out);
    Ok(())
}
