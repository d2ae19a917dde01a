// Plans: the plan value, the order of its links, the ceiling.
#![tactic(auto)]

ghost use Rattle.std.specs.Prelude.{◌≡◌, ◌⊎◌, ◌<◌, ◌≤◌};
ghost use Rattle.base.specs.Log.{log2};
ghost use Rattle.base.specs.Limits.{max_links};
ghost use Rattle.base.specs.Ceiling.{first_term, ceiling};
ghost use Rattle.base.specs.None.{none, before_by};
ghost use Rattle.plan.specs.Links.{modules_of, links_of, lower_of, higher_of, near_of, far_of};
ghost use Rattle.plan.specs.Trimmed.{trimmed};
ghost use Rattle.plan.specs.Weights.{cost_of, cost, reading_sum, earlier};

use base::{MAX_LINKS, NONE};

// A plan in file order: N modules, L links; then of each link the lower and the higher module and the readings (path loss), near at the
// lower one, far at the higher one. What stands behind the L links means nothing.
pub const NUMBERS: usize = 2 + 4 * MAX_LINKS as usize;

pub type Plan = [u16; NUMBERS];

pub fn modules(p: &Plan) -> u16
    ensures { result ≡ modules_of p.now }
{
    p[0]
}

pub fn links(p: &Plan) -> u16
    ensures { result ≡ links_of p.now }
{
    p[1]
}

pub fn lower(p: &Plan, k: usize) -> u16
    requires { k < max_links }
    ensures { result ≡ lower_of p.now k }
{
    p[2 + 4 * k]
}

pub fn higher(p: &Plan, k: usize) -> u16
    requires { k < max_links }
    ensures { result ≡ higher_of p.now k }
{
    p[3 + 4 * k]
}

pub fn near(p: &Plan, k: usize) -> u16
    requires { k < max_links }
    ensures { result ≡ near_of p.now k }
{
    p[4 + 4 * k]
}

pub fn far(p: &Plan, k: usize) -> u16
    requires { k < max_links }
    ensures { result ≡ far_of p.now k }
{
    p[5 + 4 * k]
}

// The same plan, zeros past its links.
pub fn trimmed(p: &Plan) -> Plan
    requires { links_of p.now ≤ max_links }
    ensures { result ≡ trimmed p.now }
{
    let end = 2 + 4 * (links(p) as usize);
    let mut q = *p;
    q[end..].fill(0);
    q
}

// The whole part of the binary logarithm, and 0 for 0.
pub fn floor_log2(n: u16) -> u16
    ensures { result ≡ log2 n }
{
    if n == 0 {
        return 0;
    }
    (31 - u32::leading_zeros(n as u32)) as u16
}

// The ceiling's first term.
fn first_term(n: u16) -> u32
    ensures { result ≡ first_term n }
{
    5 * (n as u32) * (floor_log2(n) as u32)
}

// The ceiling of the sent count, for N modules and L links.
pub fn ceiling(n: u16, l: u16) -> u32
    ensures { result ≡ ceiling n l }
{
    first_term(n) + 2 * (l as u32)
}

// The ceiling of a plan.
pub fn ceiling_of(p: &Plan) -> u32
    ensures { result ≡ ceiling (modules_of p.now) (links_of p.now) }
{
    ceiling(p[0], p[1])
}

// The limit of a plan's levels.
pub fn level_limit(p: &Plan) -> u16
    ensures { result ≡ log2 (modules_of p.now) }
{
    floor_log2(p[0])
}

// The cost of two readings: the larger.
fn cost_of(near: u16, far: u16) -> u32
    ensures { result ≡ cost_of near far }
{
    near.max(far) as u32
}

// A link's cost.
pub fn cost(p: &Plan, k: usize) -> u32
    requires { k < max_links }
    ensures { result ≡ cost p.now k }
{
    cost_of(near(p, k), far(p, k))
}

// The sum of a link's readings, which decides between equal costs.
fn reading_sum(p: &Plan, k: usize) -> u32
    requires { k < max_links }
    ensures { result ≡ reading_sum p.now k }
{
    near(p, k) as u32 + far(p, k) as u32
}

// Whether link a is earlier than link b: by cost, then by the sum of the readings, then by number.
pub fn earlier(p: &Plan, a: u16, b: u16) -> bool
    requires { (a < max_links) × (b < max_links) }
    ensures { result ≡ earlier p.now a b }
{
    let x = (cost(p, a as usize), reading_sum(p, a as usize), a);
    let y = (cost(p, b as usize), reading_sum(p, b as usize), b);
    x < y
}

// Whether weight a is earlier than weight b, each a link or none.
pub fn before(p: &Plan, a: u16, b: u16) -> bool
    requires { ((a < max_links) ⊎ (a ≡ none)) × ((b < max_links) ⊎ (b ≡ none)) }
    ensures { result ≡ before_by (earlier p.now) a b }
{
    if a == NONE {
        return false;
    }
    if b == NONE {
        return true;
    }
    earlier(p, a, b)
}
