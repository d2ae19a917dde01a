// Two steps on lent arrays: a module wakes, a module serves the first word of its queue. (A hand-over is in `field_words`.)
// What a step comes to is decided by value (`field_verdict`), then carried out: all refusals before anything is written.
#![tactic(auto)]

ghost use Rattle.std.specs.Prelude.{Ok, ◌<◌, ◌≡◌, ◌++◌, length, take};
ghost use Rattle.node.specs.Work.{Work, BACK};
ghost use Rattle.node_response.specs.Response.{answer_of};
ghost use Rattle.field.specs.Step.{without, back_of, wake, serve};
ghost use Rattle.refusal.specs.Number.{refusal_in};
ghost use Rattle.field_verdict.specs.Verdict.{verdict_of};
ghost use Rattle.field_words.specs.Laid.{Laid};
ghost use Rattle.field_check.specs.Ready.{Ready};
ghost use Rattle.field_serve.specs.Holds.{Holds};
ghost use Rattle.field_serve.specs.Lent.{standing, Moves, Executable, CarriedOut};

use field::Field;
use field_verdict::Verdict;
use node_response::NodeAnswer;
use refusal::Refusal;

// The word at place i leaves; there is none past the last.
fn take_out(lent: &mut [u64], n: usize, i: usize) -> usize
    requires { Laid lent.old n }
    ensures { Holds lent.new result (length lent.old) (without i (take n lent.old)) }
{
    if n <= i {
        return n;
    }
    field_words::leave(lent, n, i);
    n - 1
}

// The served word x once more, at the end, if the answer puts it back.
fn requeue(lent: &mut [u64], n: usize, answer: NodeAnswer, x: u64) -> usize
    requires { Laid lent.old n × (answer_of answer ≡ BACK → n < length lent.old) }
    ensures { (w : Work) → w.answer ≡ answer_of answer → Holds lent.new result (length lent.old) (take n lent.old ++ back_of w x) }
{
    match answer {
        NodeAnswer::Taken | NodeAnswer::Refused => n,
        NodeAnswer::Back => {
            field_words::put(lent, n, x);
            n + 1
        }
    }
}

// The verdict on module v is carried out where n words wait: a response is put in place.
fn carry_out(f: &mut Field, lent: &mut [u64], n: &mut usize, v: u16, d: Verdict)
    requires { Executable f.old.plan f.old.cells f.old.marks lent.old (standing n.old f.old) v (verdict_of (Ok d)) }
    ensures { CarriedOut f.old.plan v (verdict_of (Ok d)) f.old.cells f.old.marks lent.old (standing n.old f.old) (standing n.new f.new) f.new.cells f.new.marks lent.new
        × (f.new.plan ≡ f.old.plan) }
{
    let a = d.response;
    let l = take_out(lent, *n, d.at);
    let m = field_place::place(&f.plan, &mut f.cells, &mut f.marks, lent, l, v, d.word, a);
    *n = requeue(lent, m, a.answer, d.word);
    f.sent += d.sends;
}

// Module v wakes, where n words wait: refused by 41, 43, 32 or 33, or done.
pub fn wake(f: &mut Field, lent: &mut [u64], n: &mut usize, v: u16) -> Result<(), Refusal>
    requires { Ready f.old.plan f.old.cells f.old.marks lent.old n.old f.old.sent }
    ensures { Moves (λ p. wake p v) f.old lent.old n.old (refusal_in result) f.new lent.new n.new }
{
    let d = field_verdict::wake(&f.plan, &f.cells, &f.marks, &lent[..*n], f.sent, v)?;
    carry_out(f, lent, n, v, d);
    Ok(())
}

// Module v serves the first word of its queue, where n words wait: refused by 41, 45, 32 or 33, or done.
pub fn serve(f: &mut Field, lent: &mut [u64], n: &mut usize, v: u16) -> Result<(), Refusal>
    requires { Ready f.old.plan f.old.cells f.old.marks lent.old n.old f.old.sent }
    ensures { Moves (λ p. serve p v) f.old lent.old n.old (refusal_in result) f.new lent.new n.new }
{
    let d = field_verdict::serve(&f.plan, &f.cells, &f.marks, &lent[..*n], f.sent, v)?;
    carry_out(f, lent, n, v, d);
    Ok(())
}
