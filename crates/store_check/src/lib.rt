// Refusal 76: a record read back into arrays, and whether a record and a whole store pass.
#![tactic(auto)]

ghost use Rattle.std.specs.Prelude.{◌*◌, ◌≤◌, ◌≡◌, true, not, ◌&&◌, map, length, replicate};
ghost use Rattle.std.proofs.lemmas.List.Edits.{sets};
ghost use Rattle.base.specs.Limits.{max_ends};
ghost use Rattle.refusal.specs.Number.{refusal_in};
ghost use Rattle.plan.specs.Links.{blank};
ghost use Rattle.plan.proofs.laws.Accepted.{Accepted};
ghost use Rattle.plan_file.specs.Reading.{Loaded};
ghost use Rattle.field.specs.State.{CELLS};
ghost use Rattle.store.specs.Names.{name_fits, name_in, body_in, holds};
ghost use Rattle.store.specs.Layout.{field_numbers};
ghost use Rattle.store.specs.Reading.{plan_bytes, behind_plan, words_part, held_in, record_fits};
ghost use Rattle.store.specs.Calls.{store_fits};
ghost use Rattle.store_field.specs.Parts.{cut_mark};
ghost use Rattle.store_check.specs.Seen.{plan_size_in, PlanRead, NumbersThere, WordsThere};

use base::{MAX_ENDS, MAX_WORDS};
use field::{CELLS, Cells, Marks};
use plan::{NUMBERS, Plan};
use refusal::Refusal;

// THE PARTS OF A RECORD

// What follows a record's name: nothing where the record ends before.
fn body_in<'a>(r: &'a [u8]) -> &'a [u8]
    ensures { result.now ≡ body_in r.now }
{
    if r.len() < 6 {
        return &[];
    }
    match r.get(6 + r[5] as usize..) {
        Some(body) => body,
        None => &[],
    }
}

// How many bytes of a record's body are its plan's.
fn plan_size(body: &[u8]) -> usize
    ensures { result ≡ plan_size_in body.now }
{
    let len = body.len();
    if len < 3 {
        return len;
    }
    let n = 3 + format_int16::at(body, 1) as usize;
    n.min(len)
}

// The plan's bytes.
fn plan_bytes<'a>(r: &'a [u8]) -> &'a [u8]
    ensures { result.now ≡ plan_bytes r.now }
{
    let body = body_in(r);
    let n = plan_size(body);
    &body[..n]
}

// What follows the plan: the numbers, then the words.
fn behind_plan<'a>(r: &'a [u8]) -> &'a [u8]
    ensures { result.now ≡ behind_plan r.now }
{
    let body = body_in(r);
    let n = plan_size(body);
    &body[n..]
}

// How many bytes an accepted plan's numbers take, the sent count among them.
fn numbers_size(plan: &Plan) -> usize
    requires { Accepted plan.now }
    ensures { result ≡ 2 * field_numbers plan.now }
{
    store_field::numbers_size(plan::modules(plan), plan::links(plan))
}

// The words' bytes.
fn words_part<'a>(r: &'a [u8], plan: &Plan) -> &'a [u8]
    requires { NumbersThere r.now plan.now }
    ensures { result.now ≡ words_part r.now }
{
    let n = numbers_size(plan);
    let behind = behind_plan(r);
    &behind[n..]
}

// READING

// A record's plan, into a plan of zeros: the first of 11 to 18 that applies.
fn read_plan(r: &[u8], plan: &mut Plan) -> Result<(), Refusal>
    requires { plan.old ≡ blank }
    ensures { Loaded (plan_bytes r.now) (refusal_in result) plan.new }
{
    plan_file::load(plan_bytes(r), plan)
}

// A record's field: its cells and its marks in 8 bits; the sent count.
fn read_field<'a>(r: &'a [u8], plan: &'a Plan, cells: &mut Cells, marks: &mut Marks) -> u32
    requires { NumbersThere r.now plan.now × (cells.old ≡ replicate CELLS 0) × (marks.old ≡ replicate max_ends 0) }
    ensures { (cells.new ≡ (held_in r.now).field.cells)
        × (marks.new ≡ map cut_mark (held_in r.now).field.marks) × (result ≡ (held_in r.now).field.sent) }
{
    field_cells::lay_cells(cells);
    let n = numbers_size(plan);
    let behind = behind_plan(r);
    let numbers = &behind[..n];
    store_field::take_field(plan, numbers, cells, marks);
    format_int16::at(numbers, 0) as u32
}

// A record's words, at the front of `words`; how many these are.
fn read_words<'a>(r: &'a [u8], plan: &'a Plan, words: &mut [u64]) -> usize
    requires { NumbersThere r.now plan.now × (length (held_in r.now).words ≤ length words.old) }
    ensures { (words.new ≡ sets words.old 0 (held_in r.now).words)
        × (result ≡ length (held_in r.now).words) }
{
    let part = words_part(r, plan);
    store_field::take_words(part, words);
    part.len() / 8
}

// The plan of a record that fits, into a plan of zeros: it is never refused.
pub fn take_plan(r: &[u8], plan: &mut Plan)
    requires { (record_fits r.now ≡ true) × (plan.old ≡ blank) }
    ensures { plan.new ≡ (held_in r.now).field.plan }
{
    let _ = read_plan(r, plan);
}

// The field and the words of a record that fits, with its plan: cells and marks, words at the front; the sent count.
pub fn take_record<'a>(
    r: &'a [u8],
    plan: &'a Plan,
    cells: &mut Cells,
    marks: &mut Marks,
    words: &mut [u64],
) -> u32
    requires { (record_fits r.now ≡ true) × (plan.now ≡ (held_in r.now).field.plan) × (cells.old ≡ replicate CELLS 0)
        × (marks.old ≡ replicate max_ends 0) × (length (held_in r.now).words ≤ length words.old) }
    ensures { (cells.new ≡ (held_in r.now).field.cells) × (marks.new ≡ (held_in r.now).field.marks)
        × (result ≡ (held_in r.now).field.sent) × (words.new ≡ sets words.old 0 (held_in r.now).words) }
{
    read_words(r, plan, words);
    read_field(r, plan, cells, marks)
}

// 76

// The last questions about a record, its plan accepted, its words no more than the ceiling: no word 0, and not 31.
fn field_fits<'a>(r: &'a [u8], plan: &'a Plan) -> bool
    requires { WordsThere r.now plan.now × (name_fits (name_in r.now) ≡ true) }
    ensures { result ≡ record_fits r.now }
{
    let mut words = [0u64; MAX_WORDS];
    let n = read_words(r, plan, &mut words);
    let mut cells = [0u16; CELLS];
    let mut marks = [0u8; MAX_ENDS];
    let sent = read_field(r, plan, &mut cells, &mut marks);
    let held = &words[..n];
    let w = field_check::waiting(held);
    let ok = field_check::state_fits(plan, &cells, &marks, sent, &held[..w]);
    (w == n) & ok
}

// A record whose name and plan are good: the sizes of its numbers and words, then the field.
fn sizes_fit<'a>(r: &'a [u8], plan: &'a Plan) -> bool
    requires { PlanRead r.now plan.now × (name_fits (name_in r.now) ≡ true) }
    ensures { result ≡ record_fits r.now }
{
    let n = numbers_size(plan);
    let len = behind_plan(r).len();
    if len < n {
        return false;
    }
    if (len - n) % 8 != 0 {
        return false;
    }
    if (plan::ceiling_of(plan) as usize) < (len - n) / 8 {
        return false;
    }
    field_fits(r, plan)
}

// Whether a record passes: its name, its plan, its sizes, its field.
pub fn record_fits(r: &[u8]) -> bool
    ensures { result ≡ record_fits r.now }
{
    if !store_records::name_fits(store_records::name_in(r)) {
        return false;
    }
    let mut plan = [0u16; NUMBERS];
    read_plan(r, &mut plan).is_ok() && sizes_fit(r, &plan)
}

// Whether a record passes, and no record of the rest has its name.
fn fits_before<'a>(r: &'a [u8], rest: &'a [u8]) -> bool
    ensures { result ≡ (record_fits r.now && not (holds (name_in r.now) rest.now)) }
{
    record_fits(r) && store_records::place_of(rest, store_records::name_in(r)).is_none()
}

// Whether a store passes: each record, no name held twice, zeros after the last.
pub fn store_fits(s: &[u8]) -> bool
    ensures { result ≡ store_fits s.now }
{
    let mut rest = s;
    while let Some((record, behind)) = store_records::split_record(rest) {
        if !fits_before(record, behind) {
            return false;
        }
        rest = behind;
    }
    store_records::zeros(rest)
}
