// Refusal 31: whether a field that a host supplies is one, item by item.
#![tactic(auto)]

ghost use Rattle.std.specs.Prelude.{ℕ, ◌*◌, ◌<◌, ◌≤◌, ◌≡◌, length, get_or, eqb, leb, IfOk};
ghost use Rattle.base.specs.Test.{every};
ghost use Rattle.plan.proofs.laws.Accepted.{Accepted};
ghost use Rattle.base.specs.Limits.{max_modules, max_links};
ghost use Rattle.plan.specs.Links.{modules_of, links_of};
ghost use Rattle.field.specs.Edges.{own_of};
ghost use Rattle.node.specs.Work.{REJECTED, degree};
ghost use Rattle.field.specs.State.{node_in};
ghost use Rattle.field.specs.Valid.{all_of, waiting_in, word_fits, node_fits, fits};
ghost use Rattle.field.specs.Held.{held_from};
ghost use Rattle.field_check.specs.Checked.{check_of, state_in, Is31};
ghost use Rattle.field_check.specs.Ready.{Ready};

use base::MAX_MODULES;
use field::{Cells, Field, Marks};
use node::REJECTED;
use plan::Plan;
use refusal::Refusal;

// How many links each module has.
type Degrees = [u16; MAX_MODULES as usize];

// What is no field, by 31. How many of its words wait is told all the same.
#[derive(Clone, Copy, Debug, PartialEq, Eq)]
pub struct NoField {
    pub waiting: usize,
}

impl From<NoField> for Refusal {
    ghost from_gives = { λ _ r. Is31 r };

    fn from(_no_field: NoField) -> Refusal {
        Refusal::Field
    }
}

// How many words wait: those before the first zero.
pub fn waiting(lent: &[u64]) -> usize
    ensures { result ≡ length (waiting_in lent.now) }
{
    lent.iter().take_while(|w| **w != 0).count()
}

// Whether all words of a part are zero.
fn all_zero(part: &[u64]) -> bool
    ensures { result ≡ all_of (λ x. eqb x 0) part.now }
{
    part.iter().all(|w| *w == 0)
}

// Whether all waiting words fit.
fn words_fit(plan: &Plan, words: &[u64]) -> bool
    requires { links_of plan.now ≤ max_links }
    ensures { result ≡ all_of (word_fits plan.now) words.now }
{
    words.iter().all(|w| field_items::word_fits(plan, *w))
}

// Whether each mark is in its list.
fn marks_fit(plan: &Plan, marks: &Marks) -> bool
    requires { links_of plan.now ≤ max_links }
    ensures { result ≡ every (2 * links_of plan.now) (λ d. leb (get_or marks.now d 0) REJECTED) }
{
    let ends = 2 * (plan::links(plan) as usize);
    marks[..ends].iter().all(|m| *m <= REJECTED)
}

// Counts each module's links, in one pass over them.
fn count_links(plan: &Plan, degrees: &mut Degrees)
    requires { Accepted plan.now × (length degrees.old ≡ max_modules) × ((v : ℕ) → v < max_modules → get_or degrees.old v 0 ≡ 0) }
    ensures { (v : ℕ) → v < max_modules → get_or degrees.new v 0 ≡ degree (own_of plan.now v) }
{
    for k in 0..plan::links(plan) as usize {
        let a = plan::lower(plan, k) as usize;
        let b = plan::higher(plan, k) as usize;
        degrees[a] += 1;
        degrees[b] += 1;
    }
}

// Whether each module's values fit.
fn nodes_fit(plan: &Plan, degrees: &Degrees, cells: &Cells) -> bool
    requires { Accepted plan.now × ((v : ℕ) → v < max_modules → get_or degrees.now v 0 ≡ degree (own_of plan.now v)) }
    ensures { result ≡ every (modules_of plan.now) (λ v. node_fits plan.now v (node_in cells.now v)) }
{
    (0..plan::modules(plan)).all(|v| {
        let n = field_cells::load(cells, v);
        field_items::node_fits(plan, degrees[v as usize], v, n)
    })
}

// All that 31 asks of the state of an accepted plan.
pub fn state_fits<'a>(
    plan: &'a Plan,
    cells: &'a Cells,
    marks: &'a Marks,
    sent: u32,
    words: &[u64],
) -> bool
    requires { Accepted plan.now }
    ensures { result ≡ fits plan.now (state_in cells.now marks.now words.now sent) }
{
    let mut degrees = [0u16; MAX_MODULES as usize];
    count_links(plan, &mut degrees);
    words_fit(plan, words)
        & nodes_fit(plan, &degrees, cells)
        & marks_fit(plan, marks)
        & (words.len() <= sent as usize)
        & (sent <= plan::ceiling_of(plan))
}

// 31 of a field in lent arrays and words, and how many words wait.
pub fn check<'a>(
    plan: &'a Plan,
    cells: &'a Cells,
    marks: &'a Marks,
    sent: u32,
    lent: &[u64],
) -> Result<usize, NoField>
    ensures { result ≡ check_of (held_from plan.now cells.now marks.now sent lent.now) }
{
    let n = waiting(lent);
    if plan_check::check(plan).is_err()
        || lent.len() < plan::ceiling_of(plan) as usize
        || !all_zero(&lent[n..])
        || !state_fits(plan, cells, marks, sent, &lent[..n])
    {
        return Err(NoField { waiting: n });
    }
    Ok(n)
}

// 31, "before all else", of a field in lent arrays; where it passes, steps may follow.
pub fn admit_parts<'a>(
    plan: &'a Plan,
    cells: &'a Cells,
    marks: &'a Marks,
    sent: u32,
    lent: &[u64],
) -> Result<usize, NoField>
    ensures answer { result ≡ check_of (held_from plan.now cells.now marks.now sent lent.now) }
    ensures ready { IfOk result (λ n. Ready plan.now cells.now marks.now lent.now n sent) }
{
    // as slices the arrays show their lengths, which steps ask for
    let numbers = &plan[..];
    let values = &cells[..];
    let ends = &marks[..];
    check(plan, cells, marks, sent, lent)
}

// The same of a field that a host supplies.
pub fn admit(f: &Field, lent: &[u64]) -> Result<usize, NoField>
    ensures answer { result ≡ check_of (record { field = f.now; words = lent.now }) }
    ensures ready { IfOk result (λ n. Ready f.now.plan f.now.cells f.now.marks lent.now n f.now.sent) }
{
    admit_parts(&f.plan, &f.cells, &f.marks, f.sent, lent)
}
