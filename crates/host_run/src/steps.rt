// Steps on a field in lent words: one by its kind, and those of a schedule one after the other.
ghost use Rattle.std.specs.Prelude.{◌≡◌};
ghost use Rattle.refusal.specs.Number.{refusal_in};
ghost use Rattle.field.specs.Step.{step};
ghost use Rattle.field_calls.specs.Schedule.{schedule_refusal, schedule_run};
ghost use Rattle.field_check.specs.Ready.{Ready};
ghost use Rattle.field_serve.specs.Lent.{Moves, MovesOn};

use field::Field;
use field_calls::Kind;
use refusal::Refusal;

// One step, where n words wait: refused by 54, 41 to 45, 32 or 33, or done.
pub fn step(
    f: &mut Field,
    lent: &mut [u64],
    n: &mut usize,
    kind: u8,
    number: u16,
) -> Result<(), Refusal>
    requires { Ready f.old.plan f.old.cells f.old.marks lent.old n.old f.old.sent }
    ensures { Moves (λ p. step p kind number) f.old lent.old n.old (refusal_in result) f.new lent.new n.new }
{
    match Kind::try_from(kind)? {
        Kind::Wake => field_serve::wake(f, lent, n, number),
        Kind::HandOver => field_words::hand(&f.plan, lent, *n, number),
        Kind::Serve => field_serve::serve(f, lent, n, number),
    }
}

// The steps of a schedule that 51 to 54 do not refuse, up to the first that is refused; `done` counts them.
pub fn steps(
    f: &mut Field,
    lent: &mut [u64],
    n: &mut usize,
    bytes: &[u8],
    done: &mut usize,
) -> Result<(), Refusal>
    requires { Ready f.old.plan f.old.cells f.old.marks lent.old n.old f.old.sent × (schedule_refusal bytes.now ≡ 0) × (done.old ≡ 0) }
    ensures { MovesOn (λ p. schedule_run p bytes.now) f.old lent.old n.old done.new (refusal_in result) f.new lent.new n.new }
{
    for k in 0..(bytes.len() - 3) / 3 {
        let kind = host_schedule::kind(bytes, k);
        step(f, lent, n, kind, host_schedule::number(bytes, k))?;
        *done += 1;
    }
    Ok(())
}
