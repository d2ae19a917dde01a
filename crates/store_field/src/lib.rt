// A record's bytes in code: a field's numbers and waiting words written in their order, and read back into arrays.
#![tactic(auto)]

ghost use Rattle.std.specs.Prelude.{◌+◌, ◌*◌, ◌/◌, ◌<◌, ◌≤◌, ◌≡◌, ◌∷◌, map, ◌++◌, length, set, replicate};
ghost use Rattle.std.proofs.lemmas.List.Edits.{sets};
ghost use Rattle.base.specs.Limits.{max_modules, max_links, max_ends, max_words};
ghost use Rattle.base.specs.Table.{tabulate, upto};
ghost use Rattle.format_wide.specs.Wide.{bytes32};
ghost use Rattle.plan.specs.Links.{modules_of, links_of};
ghost use Rattle.plan.proofs.laws.Accepted.{Accepted};
ghost use Rattle.plan_file.specs.Layout.{bytes_of};
ghost use Rattle.field.specs.Edges.{from};
ghost use Rattle.field.specs.State.{WIDTH, CELLS, cell_of};
ghost use Rattle.field.specs.Held.{field_from, fresh_cells};
ghost use Rattle.store.specs.Names.{longest_name};
ghost use Rattle.store.specs.Layout.{entry_at, module_places, places, field_numbers, field_bytes, word_bytes, record_with, number_bytes, record_size};
ghost use Rattle.store.specs.Reading.{number_in, words_in, field_in};
ghost use Rattle.store_field.specs.Ends.{own_end, own_ends, ends_below, laid_starts, cell_number, mark_number, entry};
ghost use Rattle.store_field.specs.Parts.{parts_at, cut_mark};

use base::MAX_MODULES;
use field::{Cells, Marks};
use node::WIDTH;
use plan::Plan;

// WRITING. Number q stands at byte 2 * q.

// Writes module v's mark of link k as number q, if it has one; the number that comes next.
fn put_own(plan: &Plan, marks: &Marks, v: u16, k: u16, out: &mut [u8], q: usize) -> usize
    requires { (links_of plan.now ≤ max_links) × (k < links_of plan.now) × (2 * (q + length (own_end plan.now v k)) ≤ length out.old) }
    ensures { (out.new ≡ sets out.old (2 * q) (bytes_of (map (entry marks.now) (own_end plan.now v k))))
        × (result ≡ q + length (own_end plan.now v k)) }
{
    if !node_edges::owns(plan, v, k) {
        return q;
    }
    let d = node_edges::end_at(plan, v, k) as usize;
    format_int16::put(out, 2 * q, marks[d] as u16);
    q + 1
}

// Module v's marks by link number, from number q on; the number that comes next.
fn put_marks(plan: &Plan, marks: &Marks, v: u16, out: &mut [u8], q: usize) -> usize
    requires { (links_of plan.now ≤ max_links) × (2 * (q + length (own_ends plan.now v (links_of plan.now))) ≤ length out.old) }
    ensures { (out.new ≡ sets out.old (2 * q) (bytes_of (map (entry marks.now) (own_ends plan.now v (links_of plan.now)))))
        × (result ≡ q + length (own_ends plan.now v (links_of plan.now))) }
{
    let mut a = q;
    for k in 0..plan::links(plan) {
        a = put_own(plan, marks, v, k, out, a);
    }
    a
}

// Module v's values, from number q on.
fn put_values(cells: &Cells, v: u16, out: &mut [u8], q: usize)
    requires { (v < max_modules) × (2 * (q + WIDTH) ≤ length out.old) }
    ensures { out.new ≡ sets out.old (2 * q) (bytes_of (tabulate WIDTH (λ j. entry cells.now (cell_of v j)))) }
{
    let c = (v as usize) * WIDTH;
    for j in 0..WIDTH {
        format_int16::put(out, 2 * (q + j), cells[c + j]);
    }
}

// Module v's values and marks, from number q on; the number that comes next.
fn put_module(plan: &Plan, cells: &Cells, marks: &Marks, v: u16, out: &mut [u8], q: usize) -> usize
    requires { (links_of plan.now ≤ max_links) × (v < max_modules) × (2 * (q + length (module_places plan.now v)) ≤ length out.old) }
    ensures { (out.new ≡ sets out.old (2 * q) (bytes_of (map (parts_at cells.now marks.now) (module_places plan.now v))))
        × (result ≡ q + length (module_places plan.now v)) }
{
    put_values(cells, v, out, q);
    put_marks(plan, marks, v, out, q + WIDTH)
}

// All modules' numbers, from number 1 on; the number that comes next.
fn put_modules(plan: &Plan, cells: &Cells, marks: &Marks, out: &mut [u8]) -> usize
    requires { (links_of plan.now ≤ max_links) × (modules_of plan.now ≤ max_modules) × (2 * field_numbers plan.now ≤ length out.old) }
    ensures { (out.new ≡ sets out.old 2 (bytes_of (map (parts_at cells.now marks.now) (places plan.now))))
        × (result ≡ field_numbers plan.now) }
{
    let mut q = 1;
    for v in 0..plan::modules(plan) {
        q = put_module(plan, cells, marks, v, out, q);
    }
    q
}

// The sent count, then all modules' numbers; how many these are.
fn put_numbers(plan: &Plan, cells: &Cells, marks: &Marks, sent: u16, out: &mut [u8]) -> usize
    requires { (links_of plan.now ≤ max_links) × (modules_of plan.now ≤ max_modules) × (2 * field_numbers plan.now ≤ length out.old) }
    ensures { (out.new ≡ sets out.old 0
        (bytes_of (sent ∷ map (entry_at (field_from plan.now cells.now marks.now sent)) (places plan.now))))
        × (result ≡ field_numbers plan.now) }
{
    format_int16::put(out, 0, sent);
    put_modules(plan, cells, marks, out)
}

// A field at the front; how many bytes it takes.
fn put_field(plan: &Plan, cells: &Cells, marks: &Marks, sent: u16, out: &mut [u8]) -> usize
    requires { (links_of plan.now ≤ max_links) × (modules_of plan.now ≤ max_modules)
        × (7 + 8 * links_of plan.now + 2 * field_numbers plan.now ≤ length out.old) }
    ensures { (out.new
        ≡ sets out.old 0 (field_bytes (field_from plan.now cells.now marks.now sent)))
        × (result ≡ length (field_bytes (field_from plan.now cells.now marks.now sent))) }
{
    plan_file::put_plan(plan, out);
    let a = 7 + 8 * (plan::links(plan) as usize);
    let n = put_numbers(plan, cells, marks, sent, &mut out[a..]);
    a + 2 * n
}

// Waiting words at the front.
fn put_words(words: &[u64], out: &mut [u8])
    requires { 8 * length words.now ≤ length out.old }
    ensures { out.new ≡ sets out.old 0 (word_bytes words.now) }
{
    for (i, word) in words.iter().enumerate() {
        format_wide::put64(out, 8 * i, *word);
    }
}

// A field, then waiting words.
fn put_body(plan: &Plan, cells: &Cells, marks: &Marks, sent: u16, words: &[u64], out: &mut [u8])
    requires { (links_of plan.now ≤ max_links) × (modules_of plan.now ≤ max_modules)
        × (7 + 8 * links_of plan.now + 2 * field_numbers plan.now + 8 * length words.now ≤ length out.old) }
    ensures { out.new ≡ sets out.old 0
        (field_bytes (field_from plan.now cells.now marks.now sent) ++ word_bytes words.now) }
{
    let a = put_field(plan, cells, marks, sent, out);
    put_words(words, &mut out[a..]);
}

// A name behind its length.
fn put_name(name: &[u8], out: &mut [u8])
    requires { 6 + length name.now ≤ length out.old }
    ensures { out.new ≡ sets out.old 6 name.now }
{
    out[6..6 + name.len()].copy_from_slice(name);
}

// A record's version, its length behind it, and its name.
fn put_head(name: &[u8], follow: u32, out: &mut [u8])
    requires { (length name.now ≤ longest_name) × (6 + length name.now ≤ length out.old) }
    ensures { out.new
        ≡ sets out.old 0 (1 ∷ (bytes32 follow ++ (length name.now ∷ name.now))) }
{
    out[0] = 1;
    format_wide::put32(out, 1, follow);
    out[5] = name.len() as u8;
    put_name(name, out);
}

// How many bytes a field's numbers take, for so many modules and links.
pub fn numbers_size(n: u16, l: u16) -> usize
    ensures { result ≡ number_bytes n l }
{
    2 * (1 + ((n as usize) * WIDTH + 2 * (l as usize)))
}

// How many bytes a record takes, with a name of so many letters and so many waiting words.
pub fn record_size(plan: &Plan, letters: usize, waiting: usize) -> usize
    requires { (letters ≤ longest_name) × (waiting ≤ max_words) }
    ensures { result ≡ record_size plan.now letters waiting }
{
    let l = plan::links(plan);
    let numbers = numbers_size(plan::modules(plan), l);
    6 + letters + (7 + 8 * (l as usize)) + numbers + 8 * waiting
}

// A record at the front: the name, the field and the words that wait.
pub fn put_record(
    plan: &Plan,
    cells: &Cells,
    marks: &Marks,
    sent: u32,
    words: &[u64],
    name: &[u8],
    out: &mut [u8],
)
    requires { Accepted plan.now × (sent < 65536) × (length words.now ≤ max_words) × (length name.now ≤ longest_name)
        × (record_size plan.now (length name.now) (length words.now) ≤ length out.old) }
    ensures { out.new ≡ sets out.old 0
        (record_with name.now (field_from plan.now cells.now marks.now sent) words.now) }
{
    let size = record_size(plan, name.len(), words.len());
    put_head(name, (size - 5) as u32, out);
    let a = 6 + name.len();
    put_body(plan, cells, marks, sent as u16, words, &mut out[a..]);
}

// READING

// By module: how many ends it has, then the number where its values begin, then, less its values, that of its next mark.
type Starts = [usize; MAX_MODULES as usize];

// The module that directed link d runs from.
fn end_module(plan: &Plan, d: u16) -> u16
    requires { Accepted plan.now × (d < 2 * links_of plan.now) }
    ensures { (result ≡ from plan.now d) × (result < max_modules) }
{
    let k = (d / 2) as usize;
    if d % 2 == 0 {
        plan::lower(plan, k)
    } else {
        plan::higher(plan, k)
    }
}

// What that module has reached; it goes on by one.
fn step_on(plan: &Plan, d: u16, starts: &mut Starts) -> usize
    requires { Accepted plan.now × (d < 2 * links_of plan.now) × (length starts.old ≡ max_modules) × (entry starts.old (from plan.now d) < 65536) }
    ensures { (starts.new ≡ set starts.old (from plan.now d) (entry starts.old (from plan.now d) + 1))
        × (result ≡ entry starts.old (from plan.now d)) }
{
    let v = end_module(plan, d) as usize;
    let a = starts[v];
    starts[v] = a + 1;
    a
}

// Counts each module's ends, in one pass over them.
fn count_ends(plan: &Plan, starts: &mut Starts)
    requires { Accepted plan.now × (starts.old ≡ replicate max_modules 0) }
    ensures { starts.new ≡ tabulate max_modules (λ v. ends_below plan.now v (2 * links_of plan.now)) }
{
    for d in 0..2 * plan::links(plan) {
        step_on(plan, d, starts);
    }
}

// From the counts, where each module's numbers begin.
fn lay_starts(plan: &Plan, starts: &mut Starts)
    requires { Accepted plan.now × (starts.old ≡ tabulate max_modules (λ v. ends_below plan.now v (2 * links_of plan.now))) }
    ensures { starts.new ≡ laid_starts plan.now (modules_of plan.now) }
{
    let mut s = 1;
    for v in 0..plan::modules(plan) as usize {
        let m = starts[v];
        starts[v] = s;
        s += WIDTH + m;
    }
}

// The values of all modules.
fn take_cells(plan: &Plan, numbers: &[u8], starts: &Starts, cells: &mut Cells)
    requires { Accepted plan.now × (2 * field_numbers plan.now ≤ length numbers.now) × (starts.now ≡ laid_starts plan.now (modules_of plan.now))
        × (length cells.old ≡ CELLS) }
    ensures { cells.new ≡ tabulate CELLS (upto (modules_of plan.now * WIDTH)
        (λ i. number_in numbers.now (cell_number plan.now i)) (entry cells.old)) }
{
    for i in 0..(plan::modules(plan) as usize) * WIDTH {
        cells[i] = format_int16::at(numbers, 2 * (starts[i / WIDTH] + i % WIDTH));
    }
}

// A mark in 8 bits.
fn cut_mark(x: u16) -> u8
    ensures { result ≡ cut_mark x }
{
    x.min(255) as u8
}

// The marks of all ends, in 8 bits: a module's come by link number, which is how the ends are gone through.
fn take_marks(plan: &Plan, numbers: &[u8], starts: &mut Starts, marks: &mut Marks)
    requires { Accepted plan.now × (2 * field_numbers plan.now ≤ length numbers.now) × (starts.old ≡ laid_starts plan.now (modules_of plan.now))
        × (length marks.old ≡ max_ends) }
    ensures { marks.new ≡ tabulate max_ends (upto (2 * links_of plan.now)
        (λ d. cut_mark (number_in numbers.now (mark_number plan.now d))) (entry marks.old)) }
{
    for d in 0..2 * plan::links(plan) {
        let a = step_on(plan, d, starts);
        marks[d as usize] = cut_mark(format_int16::at(numbers, 2 * (a + WIDTH)));
    }
}

// A field from its numbers: its cells, and its marks in 8 bits.
pub fn take_field(plan: &Plan, numbers: &[u8], cells: &mut Cells, marks: &mut Marks)
    requires { Accepted plan.now × (2 * field_numbers plan.now ≤ length numbers.now)
        × (cells.old ≡ fresh_cells max_modules) × (marks.old ≡ replicate max_ends 0) }
    ensures { (cells.new ≡ (field_in plan.now numbers.now).cells)
        × (marks.new ≡ map cut_mark (field_in plan.now numbers.now).marks) }
{
    let mut starts = [0usize; MAX_MODULES as usize];
    count_ends(plan, &mut starts);
    lay_starts(plan, &mut starts);
    take_cells(plan, numbers, &starts, cells);
    take_marks(plan, numbers, &mut starts, marks);
}

// Waiting words from their bytes.
pub fn take_words(part: &[u8], words: &mut [u64])
    requires { length part.now / 8 ≤ length words.old }
    ensures { words.new ≡ sets words.old 0 (words_in part.now) }
{
    for i in 0..part.len() / 8 {
        words[i] = format_wide::at64(part, 8 * i);
    }
}
