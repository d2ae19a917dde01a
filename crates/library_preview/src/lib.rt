// Previews from C: what a step would answer and send. A field is lent in its parts.
#![tactic(auto)]

ghost use Rattle.std.specs.Prelude.{◌≡◌};
ghost use Rattle.preview.specs.Preview.{previewed_of, preview};
ghost use Rattle.field.specs.Held.{held_from};

use field::{Cells, Marks};
use plan::Plan;
use preview::Previewed;
use refusal::Refusal;

// What a preview answers, in C's numbers.
fn told(answer: Result<u32, Refusal>) -> Previewed
    ensures { result ≡ previewed_of answer }
{
    match answer {
        Ok(count) => Previewed { refusal: 0, count },
        Err(refusal) => Previewed {
            refusal: refusal.number(),
            count: 0,
        },
    }
}

// A step shown and not taken: its refusal, 75, or 0 and the number of its words, which then stand at the front of the buffer.
#[unsafe(no_mangle)]
pub extern "C" fn muruapy_preview_parts<'a>(
    plan: &'a Plan,
    cells: &'a Cells,
    marks: &'a Marks,
    sent: u32,
    words: &[u64],
    kind: u8,
    number: u16,
    buffer: &mut [u64],
) -> Previewed
    ensures { record { answer = result; buffer = buffer.new }
        ≡ preview kind number (held_from plan.now cells.now marks.now sent words.now) buffer.old }
{
    told(host_preview::preview_parts(plan, cells, marks, sent, words, kind, number, buffer))
}
