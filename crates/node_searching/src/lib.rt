// The responses to Test, Accept, Reject and Report, worked out by value. `edges` are the node's, j the one that the message came by, a the response so
// far.
#![tactic(auto)]

ghost use Rattle.std.specs.Prelude.{◌≡◌, ◌⊎◌, true, List, ℕ, ◌<◌, None};
ghost use Rattle.base.specs.None.{none};
ghost use Rattle.base.specs.Limits.{max_links};
ghost use Rattle.node.specs.Work.{Send};
ghost use Rattle.node.specs.Rules.{strike, better, on_test, on_accept, on_reject, child_report, core_report, on_report};
ghost use Rattle.node_edges.specs.Edges.{as_own, as_marks};
ghost use Rattle.node_response.specs.Response.{Does};

use base::NONE;
use format_message::NodeMessage;
use node::{BASIC, FIND, Node, REJECTED};
use node_edges::Edges;
use node_response::Response;

// Edge j is rejected, unless it is a branch.
#[tactic(auto, using(field::proofs::laws::Edges::own_below))]
fn strike(edges: Edges, j: u16, a: Response) -> Response
    requires own { (as_own edges).own j ≡ true }
    requires mark { a.newmark ≡ None }
    ensures does { (cs : List Send) → Does (as_marks edges.entry) cs (strike j) a result }
    ensures same { result.second ≡ a.second }
{
    let mark = edges.mark(j);
    a.with_mark(j, if mark == BASIC { REJECTED } else { mark })
}

// Test, by an awake node: it may have been woken by it, and then its level is 0.
#[tactic(auto, unfolding(node::specs::Rules::on_test))]
pub fn on_test(edges: Edges, j: u16, level: u16, identity: u16, a: Response) -> Response
    requires own { (as_own edges).own j ≡ true }
    requires room { a.second ≡ None }
    requires mark { (a.newmark ≡ None) ⊎ (a.node.level ≡ 0) }
    requires level { 0 < level }
    ensures { (cs : List Send) → Does (as_marks edges.entry) cs (on_test (as_own edges.entry) level identity j) a result }
{
    if a.node.level < level {
        return a.put_back();
    }
    if identity != a.node.identity {
        return a.say(j, NodeMessage::Accept);
    }
    let struck = strike(edges, j, a);
    if a.node.test == j {
        node_procedures::do_test(edges, struck)
    } else {
        struck.say(j, NodeMessage::Reject)
    }
}

// Reject.
pub fn on_reject(edges: Edges, j: u16, a: Response) -> Response
    requires own { (as_own edges).own j ≡ true }
    requires room { a.second ≡ None }
    requires mark { a.newmark ≡ None }
    ensures { (cs : List Send) → Does (as_marks edges.entry) cs (on_reject (as_own edges.entry) j) a result }
{
    node_procedures::do_test(edges, strike(edges, j, a))
}

// The node with best edge j and best weight x, if x is earlier than its best weight.
fn better(edges: Edges, j: u16, x: u16, n: Node) -> Node
    requires weight { (x < max_links) ⊎ (x ≡ none) }
    requires best { (n.weight < max_links) ⊎ (n.weight ≡ none) }
    ensures { result ≡ better (as_own edges.entry) j x n }
{
    if plan::before(edges.plan, x, n.weight) {
        Node {
            weight: x,
            best: j,
            ..n
        }
    } else {
        n
    }
}

// Accept.
pub fn on_accept(edges: Edges, j: u16, a: Response) -> Response
    requires edge { j < max_links }
    requires room { a.second ≡ None }
    requires best { (a.node.weight < max_links) ⊎ (a.node.weight ≡ none) }
    ensures { (m : ℕ → ℕ) (cs : List Send) → Does m cs (on_accept (as_own edges.entry) j) a result }
{
    let tested = Node {
        test: NONE,
        ..a.node
    };
    node_procedures::do_report(a.with_node(better(edges, j, j, tested)))
}

// Report of a node below.
#[tactic(auto, unfolding(node::specs::Rules::child_report))]
fn child_report(edges: Edges, j: u16, weight: u16, a: Response) -> Response
    requires weight { (weight < max_links) ⊎ (weight ≡ none) }
    requires room { a.second ≡ None }
    requires best { (a.node.weight < max_links) ⊎ (a.node.weight ≡ none) }
    ensures { (m : ℕ → ℕ) (cs : List Send) → Does m cs (child_report (as_own edges.entry) weight j) a result }
{
    if a.node.count == 0 {
        return a.refuse();
    }
    let heard = Node {
        count: a.node.count - 1,
        ..a.node
    };
    node_procedures::do_report(a.with_node(better(edges, j, weight, heard)))
}

// Report over the core.
#[tactic(auto, unfolding(node::specs::Rules::core_report))]
fn core_report(edges: Edges, weight: u16, a: Response) -> Response
    requires mark { a.newmark ≡ None }
    requires room { a.second ≡ None }
    requires edge { (a.node.best ≡ none) ⊎ ((as_own edges).own a.node.best ≡ true) }
    requires weight { (weight < max_links) ⊎ (weight ≡ none) }
    requires best { (a.node.weight < max_links) ⊎ (a.node.weight ≡ none) }
    ensures { (cs : List Send) → Does (as_marks edges.entry) cs (core_report (as_own edges.entry) weight) a result }
{
    if plan::before(edges.plan, a.node.weight, weight) {
        return node_procedures::change_root(edges, a);
    }
    if weight != NONE || a.node.weight != NONE {
        return a;
    }
    a.with_node(Node {
        halted: 1,
        ..a.node
    })
}

// Report.
#[tactic(auto, unfolding(node::specs::Rules::on_report))]
pub fn on_report(edges: Edges, j: u16, weight: u16, a: Response) -> Response
    requires mark { a.newmark ≡ None }
    requires room { a.second ≡ None }
    requires edge { (a.node.best ≡ none) ⊎ ((as_own edges).own a.node.best ≡ true) }
    requires weight { (weight < max_links) ⊎ (weight ≡ none) }
    requires best { (a.node.weight < max_links) ⊎ (a.node.weight ≡ none) }
    ensures { (cs : List Send) → Does (as_marks edges.entry) cs (on_report (as_own edges.entry) weight j) a result }
{
    if j != a.node.branch {
        return child_report(edges, j, weight, a);
    }
    if a.node.status == FIND {
        return a.put_back();
    }
    core_report(edges, weight, a)
}
