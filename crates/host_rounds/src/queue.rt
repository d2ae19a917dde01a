// The second half of a round: "then lets each module in number order serve as many as its queue then held".
ghost use Rattle.refusal.specs.Number.{refusal_in};
ghost use Rattle.field_calls.specs.Rounds.{serve_turn, serve_phase};
ghost use Rattle.field_check.specs.Ready.{Ready};
ghost use Rattle.field_serve.specs.Lent.{Moves};

use field::Field;
use refusal::Refusal;

// Module v serves as many as its queue holds, where n words wait.
fn serve_turn(f: &mut Field, lent: &mut [u64], n: &mut usize, v: u16) -> Result<(), Refusal>
    requires { Ready f.old.plan f.old.cells f.old.marks lent.old n.old f.old.sent }
    ensures { Moves (λ p. serve_turn p v) f.old lent.old n.old (refusal_in result) f.new lent.new n.new }
{
    for _ in 0..field_search::many_in_queue(&f.plan, &lent[..*n], v) {
        field_serve::serve(f, lent, n, v)?;
    }
    Ok(())
}

// The turns of all modules.
pub fn serve_phase(f: &mut Field, lent: &mut [u64], n: &mut usize) -> Result<(), Refusal>
    requires { Ready f.old.plan f.old.cells f.old.marks lent.old n.old f.old.sent }
    ensures { Moves serve_phase f.old lent.old n.old (refusal_in result) f.new lent.new n.new }
{
    for v in 0..plan::modules(&f.plan) {
        serve_turn(f, lent, n, v)?;
    }
    Ok(())
}
