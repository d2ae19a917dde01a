// What a start and a delivery of a cue decide before a record is written: the refusal, which record is written, and what it becomes.
#![tactic(auto)]

mod delivery;
mod gate;
mod start;

ghost use Rattle.std.specs.Prelude.{ℕ, Ok, ◌*◌, ◌<◌, ◌≡◌, true};
ghost use Rattle.base.specs.None.{none};
ghost use Rattle.plan.specs.Links.{links_of};
ghost use Rattle.plan.proofs.laws.Accepted.{Accepted};
ghost use Rattle.cue.specs.Record.{sender_record, heard_record};
ghost use Rattle.cue.specs.Calls.{branches_agree, left_by_sending};
ghost use Rattle.cue_verdict.specs.Verdict.{opened_of, heard_of, opening, arriving, hearing};

use base::NONE;
use cue::{Cue, Row};
use field::{Field, Marks};
use plan::Plan;
use refusal::Refusal;

// A start that is taken: the first `count` records become unheard, then record `at` becomes `found`, the sender's.
#[derive(Clone, Copy)]
pub struct Opened {
    pub count: usize,
    pub at: usize,
    pub found: Cue,
}

// A copy that is heard: record `at` becomes `found`.
#[derive(Clone, Copy)]
pub struct Hearing {
    pub at: usize,
    pub found: Cue,
}

// The sender's record.
fn sender_record(cue: u16) -> Cue
    ensures { result ≡ sender_record cue }
{
    Cue {
        heard: 1,
        cue: cue,
        link: NONE,
        hops: 0,
    }
}

// The record of a module that hears over link k, from a module with record near.
fn heard_record(near: Cue, k: u16) -> Cue
    requires { near.hops < none }
    ensures { result ≡ heard_record near k }
{
    Cue {
        heard: 1,
        cue: near.cue,
        link: k,
        hops: near.hops + 1,
    }
}

// A delivery that is not refused: heard where a copy waits on directed link d, else idle; so many records are lent.
fn arriving(plan: &Plan, marks: &Marks, row: Row, d: u16) -> Option<Hearing>
    requires { Accepted plan.now × (branches_agree plan.now marks.now ≡ true) × (left_by_sending plan.now row ≡ true)
        × (d < 2 * links_of plan.now) }
    ensures { (lent : ℕ) → heard_of lent (Ok result) ≡ arriving plan.now lent row d }
{
    if !cue_check::waits(plan, marks, row, d) {
        return None;
    }
    let near = row[cue_check::near_end(plan, d) as usize];
    let at = cue_check::far_end(plan, d) as usize;
    let found = heard_record(near, d / 2);
    Some(Hearing { at, found })
}

// The verdict on a start, where so many records are lent.
pub fn open(f: &Field, words: &[u64], lent: usize, sender: u16, cue: u16) -> Result<Opened, Refusal>
    ensures { opened_of lent cue result ≡ opening (record { field = f.now; words = words.now }) lent sender cue }
{
    start::refusal(f, words, lent, sender)?;
    let count = plan::modules(&f.plan) as usize;
    let at = sender as usize;
    let found = sender_record(cue);
    Ok(Opened { count, at, found })
}

// The verdict on a delivery, where so many records are lent and row are the first of them: what is heard, if a copy waits.
pub fn decide(
    f: &Field,
    words: &[u64],
    lent: usize,
    row: Row,
    d: u16,
) -> Result<Option<Hearing>, Refusal>
    ensures { heard_of lent result ≡ hearing (record { field = f.now; words = words.now }) lent row d }
{
    delivery::refusal(f, words, lent, row, d)?;
    Ok(arriving(&f.plan, &f.marks, row, d))
}
