// Whether a start is refused, "by the first number that applies".
ghost use Rattle.std.specs.Prelude.{◌≡◌};
ghost use Rattle.refusal.specs.Number.{refusal_in};
ghost use Rattle.cue.specs.Calls.{start_refusal};

use crate::gate;
use field::Field;
use refusal::Refusal;

// 31, 71, 72, then 73: of a start, where so many records are lent.
pub fn refusal(f: &Field, words: &[u64], lent: usize, sender: u16) -> Result<(), Refusal>
    ensures { refusal_in result ≡ start_refusal (record { field = f.now; words = words.now }) lent sender }
{
    gate::of_field(f, words)?;
    let n = plan::modules(&f.plan) as usize;
    if n <= sender as usize {
        return Err(Refusal::NoSender);
    }
    if lent < n {
        return Err(Refusal::Cues);
    }
    Ok(())
}
