// Searching the waiting words of a field: where the first of a directed link or of a queue stands, and how many there are.
#![tactic(auto)]

ghost use Rattle.std.specs.Prelude.{◌≡◌, ◌<◌, length, MatchOption};
ghost use Rattle.base.specs.Keep.{many};
ghost use Rattle.plan.specs.Links.{plan_size};
ghost use Rattle.field.specs.Edges.{dest};
ghost use Rattle.field.specs.Step.{in_air, in_queue, place};

use base::MAX_LINKS;
use plan::Plan;

// Whether a word is in the air of directed link d: bit 40 is clear.
fn in_air(d: u16, w: u64) -> bool
    ensures { result ≡ in_air d w }
{
    !format_word::handed(w) && format_word::link(w) == d
}

// The module that directed link d leads to.
pub fn leads_to(plan: &Plan, d: u16) -> u16
    requires { length plan.now ≡ plan_size }
    ensures { result ≡ dest plan.now d }
{
    let k = d / 2;
    if MAX_LINKS <= k {
        return 0;
    }
    if d % 2 == 0 {
        return plan::higher(plan, k as usize);
    }
    plan::lower(plan, k as usize)
}

// Whether a word is in module v's queue: bit 40 is set, and its directed link leads to v.
fn in_queue(plan: &Plan, v: u16, w: u64) -> bool
    requires { length plan.now ≡ plan_size }
    ensures { result ≡ in_queue plan.now v w }
{
    format_word::handed(w) && leads_to(plan, format_word::link(w)) == v
}

// The place of the first word in the air of directed link d.
pub fn first_in_air(words: &[u64], d: u16) -> Option<usize>
    ensures { MatchOption result (place (in_air d) words.now ≡ length words.now)
        (λ i. (i < length words.now) × (i ≡ place (in_air d) words.now)) }
{
    words.iter().position(|w| in_air(d, *w))
}

// The place of the first word in module v's queue.
pub fn first_in_queue(plan: &Plan, words: &[u64], v: u16) -> Option<usize>
    requires { length plan.now ≡ plan_size }
    ensures { MatchOption result (place (in_queue plan.now v) words.now ≡ length words.now)
        (λ i. (i < length words.now) × (i ≡ place (in_queue plan.now v) words.now)) }
{
    words.iter().position(|w| in_queue(plan, v, *w))
}

// How many words are in the air of directed link d. This and the next count by a `for`, which is most of a round's time: a `filter` with `count` is
// not made into steps of four words at once.
pub fn many_in_air(words: &[u64], d: u16) -> usize
    ensures { result ≡ many (in_air d) words.now }
{
    let mut m = 0;
    for w in words {
        if in_air(d, *w) {
            m += 1;
        }
    }
    m
}

// How many words module v's queue holds.
pub fn many_in_queue(plan: &Plan, words: &[u64], v: u16) -> usize
    requires { length plan.now ≡ plan_size }
    ensures { result ≡ many (in_queue plan.now v) words.now }
{
    let mut m = 0;
    for w in words {
        if in_queue(plan, v, *w) {
            m += 1;
        }
    }
    m
}
