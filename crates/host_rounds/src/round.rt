// A round, and rounds until the field is at rest, the limit is reached or a step is refused.
ghost use Rattle.std.specs.Prelude.{◌≡◌};
ghost use Rattle.refusal.specs.Number.{refusal_in};
ghost use Rattle.field_calls.specs.Rounds.{round, rounds_run};
ghost use Rattle.field_check.specs.Ready.{Ready};
ghost use Rattle.field_serve.specs.Lent.{Moves, MovesOn};

use crate::{air, queue};
use field::Field;
use refusal::Refusal;

// One round, where n words wait.
fn round(f: &mut Field, lent: &mut [u64], n: &mut usize) -> Result<(), Refusal>
    requires { Ready f.old.plan f.old.cells f.old.marks lent.old n.old f.old.sent }
    ensures { Moves round f.old lent.old n.old (refusal_in result) f.new lent.new n.new }
{
    air::hand_phase(&f.plan, lent, *n)?;
    queue::serve_phase(f, lent, n)
}

// Rounds up to the limit; `done` counts those completed.
pub fn rounds(
    f: &mut Field,
    lent: &mut [u64],
    n: &mut usize,
    limit: u16,
    done: &mut u16,
) -> Result<(), Refusal>
    requires { Ready f.old.plan f.old.cells f.old.marks lent.old n.old f.old.sent × (done.old ≡ 0) }
    ensures { MovesOn (λ p. rounds_run p limit) f.old lent.old n.old done.new (refusal_in result) f.new lent.new n.new }
{
    for _ in 0..limit {
        if *n == 0 {
            return Ok(());
        }
        round(f, lent, n)?;
        *done += 1;
    }
    Ok(())
}
