// The check of a plan value: N and L, each link.
#![tactic(auto)]

ghost use Rattle.std.specs.Prelude.{◌≡◌, ◌<◌, ◌≤◌};
ghost use Rattle.base.specs.Limits.{max_links};
ghost use Rattle.refusal.specs.Number.{refusal_in};
ghost use Rattle.plan.specs.Links.{links_of, lower_of, higher_of};
ghost use Rattle.plan.specs.Refusal.{counts_refusal, in_order, link_verdict, link_refusal, links_refusal, plan_refusal};

use base::{MAX_LINKS, MAX_MODULES, MAX_READING};
use plan::Plan;
use refusal::Refusal;

// The ends of link k, in the order in which links stand.
fn ends(p: &Plan, k: usize) -> (u16, u16)
    requires { k < max_links }
    ensures { result ≡ (lower_of p.now k, higher_of p.now k) }
{
    (plan::lower(p, k), plan::higher(p, k))
}

// Whether link k stands after the link before, if there is one.
fn in_order(p: &Plan, k: usize) -> bool
    requires { k < max_links }
    ensures { result ≡ in_order p.now k }
{
    k == 0 || ends(p, k - 1) < ends(p, k)
}

// 16, 17 or 18 for one link: its ends, whether it is in order, its readings.
fn link_verdict(n: u16, lo: u16, hi: u16, ordered: bool, near: u16, far: u16) -> Result<(), Refusal>
    ensures { refusal_in result ≡ link_verdict n lo hi ordered near far }
{
    if hi <= lo || n <= hi {
        return Err(Refusal::LinkEnds);
    }
    if !ordered {
        return Err(Refusal::LinkOrder);
    }
    if MAX_READING < near || MAX_READING < far {
        return Err(Refusal::LinkReading);
    }
    Ok(())
}

// The refusal of link k, if there is one.
fn link_check(p: &Plan, k: usize) -> Result<(), Refusal>
    requires { k < max_links }
    ensures { refusal_in result ≡ link_refusal p.now k }
{
    link_verdict(
        plan::modules(p),
        plan::lower(p, k),
        plan::higher(p, k),
        in_order(p, k),
        plan::near(p, k),
        plan::far(p, k),
    )
}

// The first refusal of the links.
fn links_check(p: &Plan) -> Result<(), Refusal>
    requires { links_of p.now ≤ max_links }
    ensures { refusal_in result ≡ links_refusal p.now (links_of p.now) 0 }
{
    for k in 0..plan::links(p) as usize {
        link_check(p, k)?;
    }
    Ok(())
}

// The check of N and L: 14 or 15. Whether L fits the length, the caller says who has one.
pub fn counts_check(n: u16, l: u16, fits: bool) -> Result<(), Refusal>
    ensures { refusal_in result ≡ counts_refusal n l fits }
{
    if MAX_MODULES < n {
        return Err(Refusal::PlanModules);
    }
    if MAX_LINKS < l || !fits {
        return Err(Refusal::PlanLinks);
    }
    Ok(())
}

// The check of a plan value: the first of 14 to 18 that applies.
pub fn check(p: &Plan) -> Result<(), Refusal>
    ensures { refusal_in result ≡ plan_refusal p.now }
{
    counts_check(plan::modules(p), plan::links(p), true)?;
    links_check(p)
}
