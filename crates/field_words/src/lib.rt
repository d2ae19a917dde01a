// The waiting words of a field: how one leaves, how one goes to the end, a hand-over.
#![tactic(auto)]

ghost use Rattle.std.specs.Prelude.{◌<◌, ◌≤◌, ◌≡◌, [], ◌∷◌, ◌++◌, length, take, drop};
ghost use Rattle.base.specs.Limits.{max_links};
ghost use Rattle.refusal.specs.Number.{refusal_in};
ghost use Rattle.plan.specs.Links.{links_of};
ghost use Rattle.field.specs.Step.{without, hand};
ghost use Rattle.field.specs.Held.{layout};
ghost use Rattle.field_words.specs.Laid.{Laid};
ghost use Rattle.field_words.specs.Hands.{Hands, handable};

use plan::Plan;
use refusal::Refusal;

// The first word of a part leaves: the later ones move one place forward, and the last place becomes zero.
fn close_up(t: &mut [u64])
    requires { 0 < length t.old }
    ensures { t.new ≡ drop 1 t.old ++ (0 ∷ []) }
{
    t.rotate_left(1);
    let last = t.len() - 1;
    t[last] = 0;
}

// The word at place a, of n that wait, leaves. The part from it on is lent and shifted there; earlier words are not touched.
pub fn leave(lent: &mut [u64], n: usize, a: usize)
    requires { Laid lent.old n × (a < n) }
    ensures { lent.new ≡ layout (length lent.old) (without a (take n lent.old)) }
{
    close_up(&mut lent[a..n]);
}

// A word goes to the end of the n that wait.
pub fn put(lent: &mut [u64], n: usize, w: u64)
    requires { Laid lent.old n × (n < length lent.old) }
    ensures { lent.new ≡ layout (length lent.old) (take n lent.old ++ (w ∷ [])) }
{
    lent[n] = w;
}

// The word at place a goes to the end, as w.
pub fn to_end(lent: &mut [u64], n: usize, a: usize, w: u64)
    requires { Laid lent.old n × (a < n) }
    ensures { lent.new ≡ layout (length lent.old) (without a (take n lent.old) ++ (w ∷ [])) }
{
    leave(lent, n, a);
    put(lent, n - 1, w);
}

// What a hand-over on directed link d comes to, where these words wait: refused by 42 or 44, or the place of its word.
pub fn handable(plan: &Plan, words: &[u64], d: u16) -> Result<usize, Refusal>
    requires { links_of plan.now ≤ max_links }
    ensures { result ≡ handable plan.now d words.now }
{
    if 2 * plan::links(plan) <= d {
        return Err(Refusal::NoDirectedLink);
    }
    field_search::first_in_air(words, d).ok_or(Refusal::NothingToHandOver)
}

// A hand-over on directed link d, where n words wait: refused by 42 or 44, or done.
pub fn hand(plan: &Plan, lent: &mut [u64], n: usize, d: u16) -> Result<(), Refusal>
    requires { Laid lent.old n × (links_of plan.now ≤ max_links) }
    ensures { Hands (hand plan.now d) n lent.old (refusal_in result) lent.new }
{
    let a = handable(plan, &lent[..n], d)?;
    let w = format_word::hand_over(lent[a]);
    to_end(lent, n, a, w);
    Ok(())
}
