// The cells and marks of a field: one module's values at setup, read and written, all modules' at setup; one mark written.
#![tactic(auto)]

ghost use Rattle.std.specs.Prelude.{◌<◌, ◌≤◌, ◌≡◌, replicate};
ghost use Rattle.node.specs.Work.{setup};
ghost use Rattle.field.specs.State.{CELLS, node_in, put_node};
ghost use Rattle.field.specs.Held.{fresh_cells};
ghost use Rattle.field_cells.specs.Marks.{mark_put};
ghost use Rattle.base.specs.Limits.{max_modules, max_links};
ghost use Rattle.plan.specs.Links.{links_of};

use base::{MAX_MODULES, NONE};
use field::{Cells, Marks};
use node::{ASLEEP, Node, WIDTH};
use node_edges::NewMark;
use plan::Plan;

// A module's values at setup.
pub fn fresh_node() -> Node
    ensures { result ≡ setup }
{
    Node {
        status: ASLEEP,
        level: 0,
        identity: NONE,
        weight: NONE,
        best: NONE,
        test: NONE,
        branch: NONE,
        count: 0,
        halted: 0,
        waking: NONE,
    }
}

// Module v's values.
pub fn load(cells: &Cells, v: u16) -> Node
    requires { v < max_modules }
    ensures { result ≡ node_in cells.now v }
{
    let c = (v as usize) * WIDTH;
    Node {
        status: cells[c + 0],
        level: cells[c + 1],
        identity: cells[c + 2],
        weight: cells[c + 3],
        best: cells[c + 4],
        test: cells[c + 5],
        branch: cells[c + 6],
        count: cells[c + 7],
        halted: cells[c + 8],
        waking: cells[c + 9],
    }
}

// Module v's values become n's.
pub fn put_node(cells: &mut Cells, v: u16, n: Node)
    requires { v < max_modules }
    ensures { cells.new ≡ put_node cells.old v n }
{
    let c = (v as usize) * WIDTH;
    let values: [u16; WIDTH] = [
        n.status, n.level, n.identity, n.weight, n.best, n.test, n.branch, n.count, n.halted,
        n.waking,
    ];
    cells[c..c + WIDTH].copy_from_slice(&values);
}

// Each module's values at setup, in cells of zeros.
pub fn lay_cells(cells: &mut Cells)
    requires { cells.old ≡ replicate CELLS 0 }
    ensures { cells.new ≡ fresh_cells max_modules }
{
    let n = fresh_node();
    for v in 0..MAX_MODULES {
        put_node(cells, v, n);
    }
}

// A change of one of module v's marks, if there is one and it is of a link of v.
#[tactic(auto, unfolding(crate::specs::Marks::mark_put, field::specs::Edges::is_own, field::specs::Edges::end_of))]
pub fn put_mark(plan: &Plan, marks: &mut Marks, v: u16, change: Option<NewMark>)
    requires { links_of plan.now ≤ max_links }
    ensures { marks.new ≡ mark_put plan.now marks.old v change }
{
    if let Some(c) = change
        && node_edges::owns(plan, v, c.edge)
    {
        let i = node_edges::end_at(plan, v, c.edge) as usize;
        marks[i] = c.mark;
    }
}
