// Paths to one node by breadth-first search over the tree's edges: each pass over the branches knows the nodes one hop further.
#![tactic(auto)]

ghost use Rattle.std.specs.Prelude.{suc, ◌<◌, ◌≤◌, ◌≡◌, true, length, set, replicate};
ghost use Rattle.base.specs.None.{none};
ghost use Rattle.base.specs.Limits.{max_modules, max_links};
ghost use Rattle.plan.specs.Links.{modules_of, links_of};
ghost use Rattle.plan.specs.Refusal.{plan_refusal};
ghost use Rattle.plan_tree.specs.Tree.{tree_link};
ghost use Rattle.path_search.specs.Spread.{far, ListsTree, Branches, BothSized, Level, Reached, BranchDone, LevelDone, KnownTo, KnownWithin};

use base::{MAX_LINKS, MAX_MODULES, NONE};
use plan::Plan;

const LINKS: usize = MAX_LINKS as usize;

pub const NODES: usize = MAX_MODULES as usize;

// The tree links, from the front on.
pub type BranchList = [u16; LINKS];

// For each node its hops to the goal, FAR where they are not known, and the first link of its path, none there and at the goal itself.
pub type Hops = [u8; NODES];

pub type FirstLinks = [u16; NODES];

pub const FAR: u8 = 255;

// Lists the links that the tree's bytes mark. Answers how many there are.
fn list_marked(tree: &[u8], list: &mut BranchList) -> usize
    requires { (length tree.now ≤ max_links) × (length list.old ≡ max_links) }
    ensures { ListsTree tree.now (length tree.now) list.new result }
{
    let mut n = 0;
    for (k, x) in tree.iter().enumerate() {
        if *x == 1 {
            list[n] = k as u16;
            n += 1;
        }
    }
    n
}

// Lists the branches of a plan that was checked; the tree's bytes are lent. Answers how many there are.
fn list_tree(plan: &Plan, tree: &mut [u8], list: &mut BranchList) -> usize
    requires { (plan_refusal plan.now ≡ 0) × (length tree.old ≡ links_of plan.now) × (length list.old ≡ max_links) }
    ensures { Branches plan.now list.new result }
{
    plan_tree::grow(plan, tree);
    list_marked(tree, list)
}

// The same, with bytes of its own.
fn branches(plan: &Plan, list: &mut BranchList) -> usize
    requires { (plan_refusal plan.now ≡ 0) × (length list.old ≡ max_links) }
    ensures { Branches plan.now list.new result }
{
    let mut tree = [0u8; LINKS];
    let end = plan::links(plan) as usize;
    list_tree(plan, &mut tree[..end], list)
}

// Only node v is known, at 0 hops.
fn start(hops: &mut Hops, by: &mut FirstLinks, v: u16)
    requires { BothSized hops.old by.old × (v < max_modules) }
    ensures { (hops.new ≡ set (replicate max_modules far) v 0) × (by.new ≡ replicate max_modules none) }
{
    *hops = [FAR; NODES];
    *by = [NONE; NODES];
    hops[v as usize] = 0;
}

// Lists the branches, and only node v is known. Answers how many branches there are.
fn begin(plan: &Plan, list: &mut BranchList, hops: &mut Hops, by: &mut FirstLinks, v: u16) -> usize
    requires { (plan_refusal plan.now ≡ 0) × (length list.old ≡ max_links) × BothSized hops.old by.old × (v < modules_of plan.now) }
    ensures { Branches plan.now list.new result × Level plan.now v 0 hops.new by.new }
{
    start(hops, by, v);
    branches(plan, list)
}

// Node b becomes known over link k, if a is known at h hops and b is not known. Answers whether it does.
fn reach(hops: &mut Hops, by: &mut FirstLinks, a: usize, b: usize, k: u16, h: u8) -> bool
    requires { BothSized hops.old by.old × (a < max_modules) × (b < max_modules) × (h < far) }
    ensures { Reached hops.old by.old a b k h hops.new by.new result }
{
    if hops[a] != h {
        return false;
    }
    if hops[b] != FAR {
        return false;
    }
    hops[b] = h + 1;
    by[b] = k;
    true
}

// One branch of a pass from level h, either way. Answers whether a node became known.
fn pass_branch(plan: &Plan, hops: &mut Hops, by: &mut FirstLinks, k: u16, h: u8) -> bool
    requires { (plan_refusal plan.now ≡ 0) × (k < links_of plan.now) × (tree_link plan.now k ≡ true) × BothSized hops.old by.old × (suc h < modules_of plan.now) }
    ensures { BranchDone plan.now k h hops.old by.old hops.new by.new result }
{
    let a = plan::lower(plan, k as usize) as usize;
    let b = plan::higher(plan, k as usize) as usize;
    if reach(hops, by, a, b, k, h) {
        return true;
    }
    reach(hops, by, b, a, k, h)
}

// One pass over the n branches, from level h to the next. Answers whether a node became known.
fn pass(
    plan: &Plan,
    list: &BranchList,
    n: usize,
    hops: &mut Hops,
    by: &mut FirstLinks,
    h: u8,
) -> bool
    requires { (plan_refusal plan.now ≡ 0) × Branches plan.now list.now n × BothSized hops.old by.old × (suc h < modules_of plan.now) }
    ensures { LevelDone plan.now h hops.old by.old hops.new by.new result }
{
    let mut any = false;
    for k in &list[..n] {
        any |= pass_branch(plan, hops, by, *k, h);
    }
    any
}

// The nodes of v's part that are no further from v than u become known, and so u itself if it is one of them.
pub fn spread_to(plan: &Plan, hops: &mut Hops, by: &mut FirstLinks, v: u16, u: u16)
    requires { (plan_refusal plan.now ≡ 0) × BothSized hops.old by.old × (v < modules_of plan.now) × (u < modules_of plan.now) }
    ensures { KnownTo plan.now v u hops.new by.new }
{
    let mut list = [0u16; LINKS];
    let n = begin(plan, &mut list, hops, by, v);
    let last = (plan::modules(plan) - 1) as u8;
    for h in 0..last {
        if hops[u as usize] != FAR {
            return;
        }
        let news = pass(plan, &list, n, hops, by, h);
        if !news {
            return;
        }
    }
}

// The nodes of v's part within `most` hops of v become known, and no others.
pub fn spread_within(plan: &Plan, hops: &mut Hops, by: &mut FirstLinks, v: u16, most: u8)
    requires { (plan_refusal plan.now ≡ 0) × BothSized hops.old by.old × (v < modules_of plan.now) × (most < modules_of plan.now) }
    ensures { KnownWithin plan.now v most hops.new }
{
    let mut list = [0u16; LINKS];
    let n = begin(plan, &mut list, hops, by, v);
    for h in 0..most {
        if !pass(plan, &list, n, hops, by, h) {
            return;
        }
    }
}
