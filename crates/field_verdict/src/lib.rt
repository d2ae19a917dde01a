// What a wakeup or a service comes to, before anything is written: refused, or the response by value, the word that it answers and how many messages it
// sends. A step carries it out, a preview shows it.
#![tactic(auto)]

ghost use Rattle.std.specs.Prelude.{◌<◌, ◌≤◌, ◌≡◌, true, length, leb};
ghost use Rattle.base.specs.Limits.{max_modules};
ghost use Rattle.plan.specs.Links.{modules_of, plan_size};
ghost use Rattle.plan.proofs.laws.Accepted.{Accepted};
ghost use Rattle.node_dispatch.specs.Receives.{Receives};
ghost use Rattle.format_message.specs.Listed.{listed};
ghost use Rattle.format_word.specs.Word.{header_in, carried_in, link_in};
ghost use Rattle.field.specs.Edges.{link_of, ceiling_of};
ghost use Rattle.field.specs.State.{node_in, msg_in};
ghost use Rattle.field.specs.Step.{wake_work, wake, serve_work, serve};
ghost use Rattle.field_calls.specs.Trail.{served_word};
ghost use Rattle.field_laws.proofs.Keeps.{Sound};
ghost use Rattle.field_check.specs.Checked.{state_in};
ghost use Rattle.field_verdict.specs.Verdict.{verdict_of, Decided};
ghost use Rattle.field_verdict.specs.Judged.{Received, Responds, Judged};

use field::{Cells, Marks};
use format_message::NodeMessage;
use node::ASLEEP;
use node_edges::Edges;
use node_response::{NodeAnswer, Packet, Response};
use plan::Plan;
use refusal::Refusal;

// A step that is not refused. at, word: the place of the served word among those that wait, and the word; where a module wakes, the number of words and a
// word that nobody serves. sends: how many messages the response sends.
#[derive(Clone, Copy)]
pub struct Verdict {
    pub at: usize,
    pub word: u64,
    pub sends: u32,
    pub response: Response,
}

// In place of a served word where there is none: a Change-root by link 0. A wakeup puts no word back and sends no copy of one.
const NO_WORD: u64 = 0xffff07;

// Response a of module v, to word x at place i: refused by 32 or 33, or it stands.
fn judge(edges: Edges, sent: u32, i: usize, x: u64, a: Response) -> Result<Verdict, Refusal>
    requires { sent ≤ ceiling_of edges.plan.now }
    ensures { Judged edges.entry.plan.now edges.entry.marks.now sent edges.entry.v i x a (verdict_of result) }
{
    if a.answer == NodeAnswer::Refused {
        return Err(Refusal::Response);
    }
    let c = field_place::count_sends(edges, x, a);
    if plan::ceiling_of(edges.plan) - sent < c {
        return Err(Refusal::CeilingPassed);
    }
    Ok(Verdict {
        at: i,
        word: x,
        sends: c,
        response: a,
    })
}

// What a served word is to the rules.
fn received(x: u64) -> Packet
    requires { listed (header_in x) (carried_in x) ≡ true }
    ensures { Received x result }
{
    let message = NodeMessage::read(format_word::header(x), format_word::carried(x)).unwrap();
    Packet {
        edge: field_place::link_of(x),
        message,
    }
}

// The response of the edges' node to word x, which came over one of them.
fn response(edges: Edges, cells: &Cells, x: u64) -> Response
    requires node { edges.v < max_modules }
    requires listed { listed (header_in x) (carried_in x) ≡ true }
    requires receives { Receives edges.plan.now edges.v (link_of (link_in x)) (msg_in x) (node_in cells.now edges.v) }
    ensures { Responds edges.entry.plan.now edges.entry.v x cells.now edges.entry.marks.now result }
{
    node_dispatch::respond(edges, received(x), field_cells::load(cells, edges.v))
}

// Number v is no module's: 41.
fn no_module(plan: &Plan, v: u16) -> bool
    ensures { result ≡ leb (modules_of plan.now) v }
{
    plan::modules(plan) <= v
}

// Module v wakes, where these words wait: refused by 41, 43, 32 or 33, or its response.
pub fn wake<'a>(
    plan: &'a Plan,
    cells: &'a Cells,
    marks: &'a Marks,
    words: &[u64],
    sent: u32,
    v: u16,
) -> Result<Verdict, Refusal>
    requires { Accepted plan.now × (length plan.now ≡ plan_size) × Sound plan.now (state_in cells.now marks.now words.now sent) }
    ensures { let p = plan.now in let s = state_in cells.now marks.now words.now sent in
        Decided (wake p v s) (wake_work p v s) p v s (verdict_of result) }
{
    if no_module(plan, v) {
        return Err(Refusal::NoModule);
    }
    let node = field_cells::load(cells, v);
    if node.status != ASLEEP {
        return Err(Refusal::Awake);
    }
    let edges = Edges { plan, marks, v };
    let a = node_dispatch::wakes(edges, node);
    judge(edges, sent, words.len(), NO_WORD, a)
}

// Module v serves the first word of its queue, where these words wait: refused by 41, 45, 32 or 33, or its response.
pub fn serve<'a>(
    plan: &'a Plan,
    cells: &'a Cells,
    marks: &'a Marks,
    words: &[u64],
    sent: u32,
    v: u16,
) -> Result<Verdict, Refusal>
    requires { Accepted plan.now × (length plan.now ≡ plan_size) × Sound plan.now (state_in cells.now marks.now words.now sent) }
    ensures { let p = plan.now in let s = state_in cells.now marks.now words.now sent in
        Decided (serve p v s) (serve_work p v (served_word p v s) s) p v s (verdict_of result) }
{
    if no_module(plan, v) {
        return Err(Refusal::NoModule);
    }
    let Some(i) = field_search::first_in_queue(plan, words, v) else {
        return Err(Refusal::EmptyQueue);
    };
    let x = words[i];
    let edges = Edges { plan, marks, v };
    let a = response(edges, cells, x);
    judge(edges, sent, i, x, a)
}
