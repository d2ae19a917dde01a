// The refusals that a start and a delivery share.
ghost use Rattle.std.specs.Prelude.{◌≡◌};
ghost use Rattle.refusal.specs.Number.{refusal_in};
ghost use Rattle.cue.specs.Calls.{field_refusal};

use field::Field;
use refusal::Refusal;

// 31 and 71, which both calls try first.
pub fn of_field(f: &Field, words: &[u64]) -> Result<(), Refusal>
    ensures { refusal_in result ≡ field_refusal (record { field = f.now; words = words.now }) 0 }
{
    field_check::admit(f, words)?;
    if !cue_check::branches_agree(&f.plan, &f.marks) {
        return Err(Refusal::NoTree);
    }
    Ok(())
}
