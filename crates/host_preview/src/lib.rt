// A step is shown to a host before it is taken: its answer, and the words that it would send at the front of a lent buffer. Nothing else is written.
#![tactic(auto)]

ghost use Rattle.std.specs.Prelude.{Ok, ◌≤◌, ◌≡◌};
ghost use Rattle.base.specs.Limits.{max_links};
ghost use Rattle.plan.specs.Links.{links_of};
ghost use Rattle.field.specs.Held.{held_from};
ghost use Rattle.field_verdict.specs.Verdict.{verdict_of};
ghost use Rattle.preview.specs.Preview.{previewed_of, preview};
ghost use Rattle.host_preview.specs.Previews.{Showable, Previews};

use field::{Cells, Field, Marks};
use field_calls::Kind;
use field_verdict::Verdict;
use node_edges::Edges;
use plan::Plan;
use refusal::Refusal;

// What was decided for module v is shown: 75, or the words at the front of the buffer and their number.
fn show(edges: Edges, buffer: &mut [u64], d: Verdict) -> Result<u32, Refusal>
    requires { (links_of edges.plan.now ≤ max_links) × Showable edges.plan.now edges.marks.now edges.v (verdict_of (Ok d)) }
    ensures { Previews edges.entry.plan.now edges.entry.marks.now edges.entry.v (verdict_of (Ok d)) buffer.old (previewed_of result) buffer.new }
{
    if buffer.len() < d.sends as usize {
        return Err(Refusal::PreviewBuffer);
    }
    field_place::post_all(edges, buffer, 0, d.word, d.response);
    Ok(d.sends)
}

// A step of a field in lent arrays, shown and not taken: 31, 54, 41 to 45, 32, 33, then 75, or the number of its messages. "A hand-over sends none."
pub fn preview_parts<'a>(
    plan: &'a Plan,
    cells: &'a Cells,
    marks: &'a Marks,
    sent: u32,
    words: &[u64],
    kind: u8,
    number: u16,
    buffer: &mut [u64],
) -> Result<u32, Refusal>
    ensures { record { answer = previewed_of result; buffer = buffer.new }
        ≡ preview kind number (held_from plan.now cells.now marks.now sent words.now) buffer.old }
{
    let n = field_check::admit_parts(plan, cells, marks, sent, words)?;
    let waiting = &words[..n];
    let v = number;
    match Kind::try_from(kind)? {
        Kind::Wake => {
            let d = field_verdict::wake(plan, cells, marks, waiting, sent, v)?;
            show(Edges { plan, marks, v }, buffer, d)
        }
        Kind::HandOver => {
            field_words::handable(plan, waiting, number)?;
            Ok(0)
        }
        Kind::Serve => {
            let d = field_verdict::serve(plan, cells, marks, waiting, sent, v)?;
            show(Edges { plan, marks, v }, buffer, d)
        }
    }
}

// The same of a host's field f: kind 1 wakes module number, 2 hands over on directed link number, 3 lets module number serve.
pub fn preview(
    f: &Field,
    words: &[u64],
    kind: u8,
    number: u16,
    buffer: &mut [u64],
) -> Result<u32, Refusal>
    ensures { record { answer = previewed_of result; buffer = buffer.new }
        ≡ preview kind number (record { field = f.now; words = words.now }) buffer.old }
{
    preview_parts(
        &f.plan, &f.cells, &f.marks, f.sent, words, kind, number, buffer,
    )
}
