// The report of a field, line by line, put into a lent buffer.
#![tactic(auto)]

ghost use Rattle.std.specs.Prelude.{min, ◌<◌, ◌≤◌, ◌≡◌, cond, []};
ghost use Rattle.base.specs.Limits.{max_modules, max_links};
ghost use Rattle.graph.specs.Parts.{lowest};
ghost use Rattle.plan.specs.Links.{modules_of, links_of, graph_of};
ghost use Rattle.plan_labels.specs.Labels.{part_labels};
ghost use Rattle.format_text.specs.Put.{page, put};
ghost use Rattle.format_text.specs.Pages.{HasPut};
ghost use Rattle.text_report.specs.Total.{total as Total·total};
ghost use Rattle.text_report.specs.Text.{sizes_text, branch_text, branch_lines, end_text, ends_text, part_text, part_lines, core_text, tail_text, report_text};

use base::MAX_LINKS;
use field::{Cells, Field, Marks};
use format_text::Page;
use node::BRANCH;
use plan::Plan;
use plan_labels::{LABELS, PartLabels};

fn sizes(page: &mut Page, n: u16, l: u16)
    ensures { HasPut page.old page.new (sizes_text n l) }
{
    page.put_line(b"modules ", n as u64);
    page.put_line(b"links ", l as u64);
}

// One link's line, where it is branch.
fn branch(page: &mut Page, mark: u8, lower: u16, higher: u16, cost: u32)
    ensures { HasPut page.old page.new (branch_text mark lower higher cost) }
{
    if mark != BRANCH {
        return;
    }
    page.put_named(b"branch ", lower as u64);
    page.put_named(b" ", higher as u64);
    page.put_line(b" ", cost as u64);
}

// The links that are shown: those of the plan, and no more than a field has room for.
fn links_shown(plan: &Plan) -> usize
    ensures { result ≡ min (links_of plan.now) max_links }
{
    plan::links(plan).min(MAX_LINKS) as usize
}

fn branches(page: &mut Page, plan: &Plan, marks: &Marks)
    ensures { HasPut page.old page.new (branch_lines plan.now marks.now (min (links_of plan.now) max_links)) }
{
    for k in 0..links_shown(plan) {
        let (lower, higher) = (plan::lower(plan, k), plan::higher(plan, k));
        branch(page, marks[2 * k], lower, higher, plan::cost(plan, k));
    }
}

// The branch links' total cost.
fn total(plan: &Plan, marks: &Marks) -> u64
    ensures { result ≡ Total·total plan.now marks.now (min (links_of plan.now) max_links) }
{
    let mut sum = 0;
    for k in 0..links_shown(plan) {
        if marks[2 * k] == BRANCH {
            sum += plan::cost(plan, k) as u64;
        }
    }
    sum
}

// Module v's name, where it is of the part and has halted.
fn end(page: &mut Page, in_part: bool, halted: u16, v: usize)
    ensures { HasPut page.old page.new (end_text in_part halted v) }
{
    if in_part && halted == 1 {
        page.put_named(b" ", v as u64);
    }
}

// The ends of the core of u's part.
fn ends(page: &mut Page, plan: &Plan, labels: &PartLabels, cells: &Cells, u: usize)
    requires { (modules_of plan.now ≤ max_modules) × (labels.now ≡ part_labels plan.now) × (u < modules_of plan.now) }
    ensures { HasPut page.old page.new (ends_text (graph_of plan.now) cells.now u (modules_of plan.now)) }
{
    for v in 0..plan::modules(plan) as usize {
        let node = field_cells::load(cells, v as u16);
        let in_part = plan_labels::same(labels, u, v);
        end(page, in_part, node.halted, v);
    }
}

// The core line of u's part. A module alone halts too, and has no core.
fn part(page: &mut Page, plan: &Plan, labels: &PartLabels, cells: &Cells, u: usize)
    requires { (modules_of plan.now ≤ max_modules) × (labels.now ≡ part_labels plan.now) × (u < modules_of plan.now) }
    ensures { HasPut page.old page.new (part_text (graph_of plan.now) (modules_of plan.now) cells.now u) }
{
    let n = plan::modules(plan) as usize;
    if plan_labels::nodes_with(labels, n, u) == 1 {
        page.put(b"core none\n");
        return;
    }
    page.put(b"core");
    ends(page, plan, labels, cells, u);
    page.put(b"\n");
}

// The same where u is its part's lowest, so once for each part.
fn part_of_lowest(page: &mut Page, plan: &Plan, labels: &PartLabels, cells: &Cells, u: usize)
    requires { (modules_of plan.now ≤ max_modules) × (labels.now ≡ part_labels plan.now) × (u < modules_of plan.now) }
    ensures { HasPut page.old page.new
        (cond (lowest (graph_of plan.now) u) (part_text (graph_of plan.now) (modules_of plan.now) cells.now u) []) }
{
    if plan_labels::lowest(labels, u) {
        part(page, plan, labels, cells, u);
    }
}

fn parts(page: &mut Page, plan: &Plan, labels: &PartLabels, cells: &Cells)
    requires { (modules_of plan.now ≤ max_modules) × (labels.now ≡ part_labels plan.now) }
    ensures { HasPut page.old page.new (part_lines plan.now cells.now (modules_of plan.now)) }
{
    for u in 0..plan::modules(plan) as usize {
        part_of_lowest(page, plan, labels, cells, u);
    }
}

// A core line for each part; a single one of a plan with nobody in it, or that would be refused.
fn core(page: &mut Page, plan: &Plan, cells: &Cells)
    ensures { HasPut page.old page.new (core_text plan.now cells.now) }
{
    if plan::modules(plan) == 0 || plan_check::check(plan).is_err() {
        page.put(b"core none\n");
        return;
    }
    let mut labels = [0u8; LABELS];
    plan_labels::merge(plan, &mut labels);
    parts(page, plan, &labels, cells);
}

fn tail(page: &mut Page, sent: u32, most: u32, rounds: u16)
    ensures { HasPut page.old page.new (tail_text sent most rounds) }
{
    page.put_named(b"messages ", sent as u64);
    page.put_line(b" of ", most as u64);
    page.put_line(b"rounds ", rounds as u64);
}

fn report(page: &mut Page, f: &Field, rounds: u16)
    ensures { HasPut page.old page.new (report_text f.now rounds) }
{
    let p = &f.plan;
    sizes(page, plan::modules(p), plan::links(p));
    branches(page, p, &f.marks);
    page.put_line(b"total ", total(p, &f.marks));
    core(page, p, &f.cells);
    tail(page, f.sent, plan::ceiling_of(p), rounds);
}

// The whole, from the buffer's front; how many bytes were put.
pub fn render(f: Field, rounds: u16, out: &mut [u8]) -> usize
    ensures { page result out.new ≡ put (page 0 out.old) (report_text f rounds) }
{
    let mut page = Page::new(out);
    report(&mut page, &f, rounds);
    page.place()
}
