// The paper's procedures, worked out by value: report, test, wakeup, change-root. `edges` are the node's, a its response so far.
#![tactic(auto)]

ghost use Rattle.std.specs.Prelude.{◌≡◌, ◌⊎◌, ◌<◌, true, List, ℕ, None, IfSome};
ghost use Rattle.base.specs.None.{none};
ghost use Rattle.base.specs.Limits.{max_links};
ghost use Rattle.node.specs.Work.{Send};
ghost use Rattle.node.specs.Rules.{do_report, test_on, do_test, wake_on, wakeup, awake, change_root};
ghost use Rattle.node_edges.specs.Edges.{as_own, as_marks};
ghost use Rattle.node_edges.specs.Own.{as_edge};
ghost use Rattle.node_response.specs.Response.{Does};

use base::NONE;
use format_message::NodeMessage;
use node::{ASLEEP, BRANCH, FOUND, Node};
use node_edges::Edges;
use node_response::Response;

// Procedure report.
#[tactic(auto, unfolding(node::specs::Rules::do_report))]
pub fn do_report(a: Response) -> Response
    requires { a.second ≡ None }
    ensures { (m : ℕ → ℕ) (cs : List Send) → Does m cs do_report a result }
{
    if a.node.count != 0 || a.node.test != NONE {
        return a;
    }
    if a.node.branch == NONE {
        return a.refuse();
    }
    let found = Node {
        status: FOUND,
        ..a.node
    };
    let weight = a.node.weight;
    a.with_node(found)
        .say(a.node.branch, NodeMessage::Report { weight })
}

// Procedure test, for the earliest own edge with mark Basic.
#[tactic(auto, unfolding(node::specs::Rules::test_on))]
fn test_on(edge: Option<u16>, a: Response) -> Response
    requires room { a.second ≡ None }
    requires edge { IfSome edge (λ k. k < max_links) }
    ensures { (m : ℕ → ℕ) (cs : List Send) → Does m cs (test_on (as_edge edge)) a result }
{
    let Some(k) = edge else {
        return do_report(a.with_node(Node {
            test: NONE,
            ..a.node
        }));
    };
    let Node {
        level,
        identity,
        ..
    } = a.node;
    if level == 0 {
        return a.refuse();
    }
    a.with_node(Node { test: k, ..a.node })
        .say(k, NodeMessage::Test { level, identity })
}

// Procedure test.
pub fn do_test(edges: Edges, a: Response) -> Response
    requires { a.second ≡ None }
    ensures { (cs : List Send) → Does (as_marks edges.entry) cs (do_test (as_own edges.entry)) a result }
{
    test_on(edges.earliest_basic(a.newmark), a)
}

// Procedure wakeup by a message that came over j, or by none, for the earliest own edge. Nothing was done before it.
#[tactic(auto, unfolding(node::specs::Rules::wake_on))]
fn wake_on(j: u16, edge: Option<u16>, a: Response) -> Response
    requires mark { a.newmark ≡ None }
    requires first { a.first ≡ None }
    requires second { a.second ≡ None }
    requires edge { IfSome edge (λ k. k < max_links) }
    ensures does { (m : ℕ → ℕ) (cs : List Send) → Does m cs (wake_on j (as_edge edge)) a result }
    ensures room { result.second ≡ None }
    ensures level { result.node.level ≡ 0 }
{
    let woken = Node {
        status: FOUND,
        level: 0,
        identity: NONE,
        weight: NONE,
        best: NONE,
        test: NONE,
        branch: NONE,
        count: 0,
        halted: a.node.halted,
        waking: j,
    };
    match edge {
        None => a.with_node(Node { halted: 1, ..woken }),
        Some(k) => a
            .with_node(woken)
            .with_mark(k, BRANCH)
            .say(k, NodeMessage::Connect { level: 0 }),
    }
}

// Procedure wakeup by a message that came over j, or by none. Nothing was done before it.
pub fn wakeup(edges: Edges, j: u16, a: Response) -> Response
    requires mark { a.newmark ≡ None }
    requires first { a.first ≡ None }
    requires second { a.second ≡ None }
    ensures does { (m : ℕ → ℕ) (cs : List Send) → Does m cs (wakeup (as_own edges.entry) j) a result }
    ensures room { result.second ≡ None }
    ensures level { result.node.level ≡ 0 }
{
    wake_on(j, edges.earliest(), a)
}

// A sleeper wakes, by a message that came over j.
#[tactic(auto, unfolding(node::specs::Rules::awake))]
pub fn awake(edges: Edges, j: u16, a: Response) -> Response
    requires mark { a.newmark ≡ None }
    requires first { a.first ≡ None }
    requires second { a.second ≡ None }
    ensures does { (m : ℕ → ℕ) (cs : List Send) → Does m cs (awake (as_own edges.entry) j) a result }
    ensures room { result.second ≡ None }
    ensures level { (result.newmark ≡ None) ⊎ (result.node.level ≡ 0) }
{
    if a.node.status == ASLEEP {
        wakeup(edges, j, a)
    } else {
        a
    }
}

// Procedure change-root. No mark was changed before it.
#[tactic(auto, using(field::proofs::laws::Edges::own_below), unfolding(node::specs::Rules::change_root))]
pub fn change_root(edges: Edges, a: Response) -> Response
    requires mark { a.newmark ≡ None }
    requires second { a.second ≡ None }
    requires best { (a.node.best ≡ none) ⊎ ((as_own edges).own a.node.best ≡ true) }
    ensures { (cs : List Send) → Does (as_marks edges.entry) cs change_root a result }
{
    let best = a.node.best;
    if best == NONE {
        return a.refuse();
    }
    if edges.mark(best) == BRANCH {
        return a.say(best, NodeMessage::ChangeRoot);
    }
    a.with_mark(best, BRANCH).say(
        best,
        NodeMessage::Connect {
            level: a.node.level,
        },
    )
}
