// Labels of parts in an array (quick-find): each node has its part's label, and two parts become one by renaming one of
// them. The loops over all labels are vectorised.
#![tactic(auto)]

ghost use Rattle.std.specs.Prelude.{◌≡◌, not, ℕ, ◌<◌, ◌≤◌, length, get_or, eqb};
ghost use Rattle.base.specs.Cond.{bit};
ghost use Rattle.base.specs.Sum.{sum};
ghost use Rattle.base.specs.Test.{every};
ghost use Rattle.base.specs.Limits.{max_modules, max_links};
ghost use Rattle.base.specs.Table.{tabulate};
ghost use Rattle.graph.specs.Labels.{rename};
ghost use Rattle.plan.specs.Links.{links_of, lower_of, higher_of};
ghost use Rattle.plan_labels.specs.Labels.{part_labels};

use base::MAX_MODULES;
use plan::Plan;

pub const LABELS: usize = MAX_MODULES as usize;

pub type PartLabels = [u8; LABELS];

// Each node is a part of its own.
pub fn number(parts: &mut PartLabels)
    requires { length parts.old ≡ max_modules }
    ensures { parts.new ≡ tabulate max_modules (λ v. v) }
{
    for (v, x) in parts.iter_mut().enumerate() {
        *x = v as u8;
    }
}

// A label after part `from` got the label `to`.
fn renamed(from: u8, to: u8, x: u8) -> u8
    ensures { result ≡ rename from to x }
{
    if x == from { to } else { x }
}

// Part `from` becomes part of `to`.
pub fn relabel(parts: &mut PartLabels, from: u8, to: u8)
    requires { length parts.old ≡ max_modules }
    ensures { parts.new ≡ tabulate max_modules (λ v. rename from to (get_or parts.old v 0)) }
{
    for x in parts.iter_mut() {
        *x = renamed(from, to, *x);
    }
}

// The same, where `from` and `to` are often one part already.
pub fn join(parts: &mut PartLabels, from: u8, to: u8)
    requires { length parts.old ≡ max_modules }
    ensures { parts.new ≡ tabulate max_modules (λ v. rename from to (get_or parts.old v 0)) }
{
    if from != to {
        relabel(parts, from, to);
    }
}

// The labels of the parts that a plan's links join.
pub fn merge(plan: &Plan, parts: &mut PartLabels)
    requires { (length parts.old ≡ max_modules) × (links_of plan.now ≤ max_links)
        × ((k : ℕ) → k < links_of plan.now → (lower_of plan.now k < max_modules) × (higher_of plan.now k < max_modules)) }
    ensures { parts.new ≡ part_labels plan.now }
{
    number(parts);
    for k in 0..plan::links(plan) as usize {
        let a = parts[plan::lower(plan, k) as usize];
        let b = parts[plan::higher(plan, k) as usize];
        join(parts, a, b);
    }
}

// Whether u and v have one label: are in one part, once all links are merged.
pub fn same(parts: &PartLabels, u: usize, v: usize) -> bool
    requires { (u < max_modules) × (v < max_modules) }
    ensures { result ≡ eqb (get_or parts.now u 0) (get_or parts.now v 0) }
{
    parts[u] == parts[v]
}

// Whether no node below v has v's label.
pub fn lowest(parts: &PartLabels, v: usize) -> bool
    requires { v < max_modules }
    ensures { result ≡ every v (λ u. not (eqb (get_or parts.now u 0) (get_or parts.now v 0))) }
{
    !parts[..v].contains(&parts[v])
}

// How many of the nodes below n have u's label.
pub fn nodes_with(parts: &PartLabels, n: usize, u: usize) -> usize
    requires { (n ≤ max_modules) × (u < max_modules) }
    ensures { result ≡ sum n (λ v. bit (eqb (get_or parts.now u 0) (get_or parts.now v 0))) }
{
    parts[..n].iter().filter(|x| **x == parts[u]).count()
}
