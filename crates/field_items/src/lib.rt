// The items of refusal 31: one word, one module.
#![tactic(auto)]

ghost use Rattle.std.specs.Prelude.{◌≤◌, ◌≡◌};
ghost use Rattle.node.specs.Work.{degree};
ghost use Rattle.field.specs.Valid.{link_or_none, own_or_none, word_fits, values_listed, identity_fits, waking_fits, node_fits};
ghost use Rattle.base.specs.Limits.{max_links};
ghost use Rattle.plan.specs.Links.{links_of};
ghost use Rattle.field.specs.Edges.{own_of};

use base::NONE;
use node::{ASLEEP, FOUND, Node};
use plan::Plan;

// Whether x is a link's number or none.
fn link_or_none(plan: &Plan, x: u16) -> bool
    ensures { result ≡ link_or_none plan.now x }
{
    x == NONE || x < plan::links(plan)
}

// Whether a word is as laid out, its carried link and directed link are the plan's and its level is within the limit.
#[tactic(auto, unfolding(field::specs::Valid::word_fits))]
pub fn word_fits(plan: &Plan, w: u64) -> bool
    requires { links_of plan.now ≤ max_links }
    ensures { result ≡ word_fits plan.now w }
{
    format_word::laid_out(w)
        && link_or_none(plan, format_word::carried(w))
        && format_word::link(w) < 2 * plan::links(plan)
        && format_message::level(format_word::header(w)) <= plan::level_limit(plan)
}

// Whether x is an own link of module v or none.
fn own_or_none(plan: &Plan, v: u16, x: u16) -> bool
    requires { links_of plan.now ≤ max_links }
    ensures { result ≡ own_or_none plan.now v x }
{
    x == NONE || node_edges::owns(plan, v, x)
}

// Whether each value of a module is in its list.
fn values_listed(plan: &Plan, v: u16, n: Node) -> bool
    requires { links_of plan.now ≤ max_links }
    ensures { result ≡ values_listed plan.now v n }
{
    n.status <= FOUND
        && link_or_none(plan, n.identity)
        && link_or_none(plan, n.weight)
        && own_or_none(plan, v, n.best)
        && own_or_none(plan, v, n.test)
        && own_or_none(plan, v, n.branch)
        && n.halted <= 1
        && own_or_none(plan, v, n.waking)
}

// Whether the identity is none exactly at level 0.
fn identity_fits(n: Node) -> bool
    ensures { result ≡ identity_fits n }
{
    if n.level == 0 {
        n.identity == NONE
    } else {
        n.identity != NONE
    }
}

// Whether a sleeper's waking link is none.
fn waking_fits(n: Node) -> bool
    ensures { result ≡ waking_fits n }
{
    n.status != ASLEEP || n.waking == NONE
}

// Whether module v's values fit, where it has `ends` links.
#[tactic(auto, unfolding(field::specs::Valid::node_fits))]
pub fn node_fits(plan: &Plan, ends: u16, v: u16, n: Node) -> bool
    requires { (links_of plan.now ≤ max_links) × (ends ≡ degree (own_of plan.now v)) }
    ensures { result ≡ node_fits plan.now v n }
{
    values_listed(plan, v, n)
        && n.level <= plan::level_limit(plan)
        && n.count <= ends
        && identity_fits(n)
        && waking_fits(n)
}
