// Whether a delivery is refused, "by the first number that applies".
ghost use Rattle.std.specs.Prelude.{◌≡◌};
ghost use Rattle.refusal.specs.Number.{refusal_in};
ghost use Rattle.cue.specs.Calls.{delivery_refusal};

use crate::gate;
use cue::Row;
use field::Field;
use refusal::Refusal;

// 31, 71, 73, then 42: of a delivery, where so many records are lent and row are the first of them.
pub fn refusal(f: &Field, words: &[u64], lent: usize, row: Row, d: u16) -> Result<(), Refusal>
    ensures { refusal_in result ≡ delivery_refusal (record { field = f.now; words = words.now }) lent row d }
{
    gate::of_field(f, words)?;
    let n = plan::modules(&f.plan) as usize;
    let end = 2 * plan::links(&f.plan);
    if lent < n || !cue_check::left_by_sending(&f.plan, &f.marks, row) {
        return Err(Refusal::Cues);
    }
    if end <= d {
        return Err(Refusal::NoDirectedLink);
    }
    Ok(())
}
