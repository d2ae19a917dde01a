// The responses to Connect and Initiate, worked out by value. `edges` are the node's, j the one that the message came by, a the response so far.
#![tactic(auto)]

ghost use Rattle.std.specs.Prelude.{◌≡◌, ◌⊎◌, true, false, List, ℕ, None};
ghost use Rattle.base.specs.Cond.{bit};
ghost use Rattle.format_message.specs.Msg.{initiate};
ghost use Rattle.field.specs.Edges.{limit_of};
ghost use Rattle.node.specs.Work.{Send};
ghost use Rattle.node.specs.Rules.{join_over, absorb, core_end, on_connect, on_initiate};
ghost use Rattle.node_edges.specs.Edges.{as_own, as_marks};
ghost use Rattle.node_response.specs.Response.{Does};
ghost use Rattle.node_joining.specs.Copies.{copies_in};

use base::NONE;
use format_message::NodeMessage;
use node::{BASIC, BRANCH, FIND, FOUND, Node};
use node_edges::Edges;
use node_response::Response;

// Edge j becomes a branch and its other end is told, with the Find bit.
fn join(j: u16, find: bool, a: Response) -> Response
    requires mark { a.newmark ≡ None }
    requires room { a.second ≡ None }
    ensures { (m : ℕ → ℕ) (cs : List Send) → Does m cs (join_over j (bit find)) a result }
{
    let Node {
        level,
        identity,
        ..
    } = a.node;
    a.with_mark(j, BRANCH).say(
        j,
        NodeMessage::Initiate {
            level,
            identity,
            find,
        },
    )
}

// A Connect of a lower level.
#[tactic(auto, unfolding(node::specs::Rules::absorb, node::specs::Rules::count_up))]
fn absorb(edges: Edges, j: u16, a: Response) -> Response
    requires mark { a.newmark ≡ None }
    requires room { a.second ≡ None }
    ensures { (m : ℕ → ℕ) (cs : List Send) → Does m cs (absorb (as_own edges.entry) j) a result }
{
    if a.node.status != FIND {
        return join(j, false, a);
    }
    if edges.degree() <= a.node.count {
        return join(j, true, a).refuse();
    }
    let counted = Node {
        count: a.node.count + 1,
        ..a.node
    };
    join(j, true, a.with_node(counted))
}

// A Connect of the own level on a branch: the next level begins.
#[tactic(auto, unfolding(node::specs::Rules::core_end))]
fn core_end(edges: Edges, j: u16, a: Response) -> Response
    requires { a.second ≡ None }
    ensures { (m : ℕ → ℕ) (cs : List Send) → Does m cs (core_end (limit_of edges.entry.plan.now) j) a result }
{
    let level = a.node.level;
    if plan::level_limit(edges.plan) <= level {
        return a.refuse();
    }
    a.say(
        j,
        NodeMessage::Initiate {
            level: level + 1,
            identity: j,
            find: true,
        },
    )
}

// Connect, by an awake node: it may have been woken by it, and then its level is 0.
#[tactic(auto, using(field::proofs::laws::Edges::own_below), unfolding(node::specs::Rules::on_connect))]
pub fn on_connect(edges: Edges, j: u16, level: u16, a: Response) -> Response
    requires own { (as_own edges).own j ≡ true }
    requires room { a.second ≡ None }
    requires mark { (a.newmark ≡ None) ⊎ (a.node.level ≡ 0) }
    ensures { (cs : List Send) → Does (as_marks edges.entry) cs
        (on_connect (as_own edges.entry) (limit_of edges.entry.plan.now) level j) a result }
{
    if level < a.node.level {
        return absorb(edges, j, a);
    }
    if edges.mark_after(a.newmark, j) == BASIC {
        return a.put_back();
    }
    core_end(edges, j, a)
}

// Initiate, by an awake node, before which nothing was done.
#[tactic(auto, unfolding(node::specs::Rules::on_initiate, node::specs::Rules::seek))]
pub fn on_initiate(
    edges: Edges,
    j: u16,
    level: u16,
    identity: u16,
    find: bool,
    a: Response,
) -> Response
    requires mark { a.newmark ≡ None }
    requires copies { a.copies ≡ false }
    requires first { a.first ≡ None }
    requires second { a.second ≡ None }
    ensures { Does (as_marks edges.entry)
        (copies_in (as_own edges.entry) j (initiate level identity (bit find)) (as_marks edges.entry))
        (on_initiate (as_own edges.entry) level identity (bit find) j) a result }
{
    let informed = Node {
        status: if find { FIND } else { FOUND },
        level,
        identity,
        weight: NONE,
        best: NONE,
        branch: j,
        ..a.node
    };
    let told = Response {
        node: informed,
        copies: true,
        ..a
    };
    if !find {
        return told;
    }
    let degree = edges.degree();
    match a.node.count.checked_add(edges.branches(j)) {
        Some(count) if count <= degree => {
            node_procedures::do_test(edges, told.with_node(Node { count, ..informed }))
        }
        _ => told.refuse(),
    }
}
