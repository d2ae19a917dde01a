// The trace of a run, line by line, put into a lent buffer: its answer, every module with its marks, every waiting word.
#![tactic(auto)]

ghost use Rattle.std.specs.Prelude.{◌<◌, ◌≤◌, ◌≡◌};
ghost use Rattle.base.specs.Limits.{max_modules, max_links};
ghost use Rattle.plan.specs.Links.{modules_of, links_of};
ghost use Rattle.format_text.specs.Put.{page, put};
ghost use Rattle.format_text.specs.Pages.{HasPut};
ghost use Rattle.text_trace.specs.Text.{item as Text·item};
ghost use Rattle.text_trace.specs.Text.{link_item, first_text, other_text, values_text, mark_text, marks_text, module_text, modules_text, words_text, refusal_text, summary_text, trace_text};

use base::NONE;
use field::{Cells, Field, Marks};
use format_text::Page;
use node::Node;
use node_edges::Edges;
use plan::Plan;

// A blank and a number.
fn item(page: &mut Page, x: u16)
    ensures { HasPut page.old page.new (Text·item x) }
{
    page.put_named(b" ", x as u64);
}

// A blank and a link number, or "-" for none.
fn link_or_none(page: &mut Page, x: u16)
    ensures { HasPut page.old page.new (link_item x) }
{
    if x == NONE {
        page.put(b" -");
    } else {
        item(page, x);
    }
}

// A module's values in document 01's order, the first five.
fn first_values(page: &mut Page, n: Node)
    ensures { HasPut page.old page.new (first_text n) }
{
    item(page, n.status);
    item(page, n.level);
    link_or_none(page, n.identity);
    link_or_none(page, n.weight);
    link_or_none(page, n.best);
}

// The others, the waking link last.
fn other_values(page: &mut Page, n: Node)
    ensures { HasPut page.old page.new (other_text n) }
{
    link_or_none(page, n.test);
    link_or_none(page, n.branch);
    item(page, n.count);
    item(page, n.halted);
    link_or_none(page, n.waking);
}

fn values(page: &mut Page, n: Node)
    ensures { HasPut page.old page.new (values_text n) }
{
    first_values(page, n);
    other_values(page, n);
}

// A module's mark for link k, if k is a link of it.
fn mark(page: &mut Page, edges: Edges, k: u16)
    requires { k < max_links }
    ensures { HasPut page.old page.new (mark_text edges.entry.plan.now edges.entry.marks.now edges.entry.v k) }
{
    if !edges.owns(k) {
        return;
    }
    item(page, k);
    page.put_named(b":", edges.mark(k) as u64);
}

// A module's marks for its own links, by number.
fn own_marks(page: &mut Page, edges: Edges)
    ensures { HasPut page.old page.new
        (marks_text edges.entry.plan.now edges.entry.marks.now edges.entry.v (links_of edges.entry.plan.now)) }
{
    for k in 0..plan::links(edges.plan) {
        mark(page, edges, k);
    }
}

// Module v's line.
fn module_line(page: &mut Page, plan: &Plan, cells: &Cells, marks: &Marks, v: u16)
    requires { (links_of plan.now ≤ max_links) × (v < max_modules) }
    ensures { HasPut page.old page.new (module_text plan.now cells.now marks.now v) }
{
    let n = field_cells::load(cells, v);
    page.put_named(b"module ", v as u64);
    values(page, n);
    own_marks(page, Edges { plan, marks, v });
    page.put(b"\n");
}

// A line for each of the modules.
fn modules(page: &mut Page, plan: &Plan, cells: &Cells, marks: &Marks)
    requires { (modules_of plan.now ≤ max_modules) × (links_of plan.now ≤ max_links) }
    ensures { HasPut page.old page.new (modules_text plan.now cells.now marks.now (modules_of plan.now)) }
{
    for v in 0..plan::modules(plan) {
        module_line(page, plan, cells, marks, v);
    }
}

// A line for each word.
fn words(page: &mut Page, waiting: &[u64])
    ensures { HasPut page.old page.new (words_text waiting.now) }
{
    for word in waiting {
        page.put_line(b"word ", *word);
    }
}

// The refusal that ended the run, or "none".
fn refusal(page: &mut Page, number: u32)
    ensures { HasPut page.old page.new (refusal_text number) }
{
    if number == 0 {
        page.put(b"refusal none\n");
    } else {
        page.put_line(b"refusal ", number as u64);
    }
}

fn summary(page: &mut Page, steps: usize, number: u32, sent: u32, waiting: usize)
    ensures { HasPut page.old page.new (summary_text steps number sent waiting) }
{
    page.put_line(b"steps ", steps as u64);
    refusal(page, number);
    page.put_line(b"sent ", sent as u64);
    page.put_line(b"waiting ", waiting as u64);
}

fn trace(page: &mut Page, p: &Plan, f: &Field, steps: usize, number: u32, waiting: &[u64])
    requires { (modules_of p.now ≤ max_modules) × (links_of p.now ≤ max_links) }
    ensures { HasPut page.old page.new (trace_text p.now f.now steps number waiting.now) }
{
    summary(page, steps, number, f.sent, waiting.len());
    modules(page, p, &f.cells, &f.marks);
    words(page, waiting);
}

// The whole, from the buffer's front: of a field with an accepted plan, or one that is no larger. Answers how many bytes were put.
pub fn render(
    p: &Plan,
    f: Field,
    steps: usize,
    number: u32,
    waiting: &[u64],
    out: &mut [u8],
) -> usize
    requires { (modules_of p.now ≤ max_modules) × (links_of p.now ≤ max_links) }
    ensures { page result out.new
        ≡ put (page 0 out.old) (trace_text p.now f steps number waiting.now) }
{
    let mut page = Page::new(out);
    trace(&mut page, p, &f, steps, number, waiting);
    page.place()
}
