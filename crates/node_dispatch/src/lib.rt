// A node's response to a message, or to a wakeup: the dispatch by the message.
#![tactic(auto)]

ghost use Rattle.std.specs.Prelude.{◌≡◌, List};
ghost use Rattle.format_message.specs.NodeMessage.{as_msg};
ghost use Rattle.field.specs.Edges.{limit_of};
ghost use Rattle.node.specs.Work.{Send};
ghost use Rattle.node.specs.Rules.{respond_to, respond, wakes};
ghost use Rattle.node_edges.specs.Edges.{as_own, as_marks};
ghost use Rattle.node_response.specs.Response.{work_of, Does, begun};
ghost use Rattle.node_joining.specs.Copies.{copies_in};
ghost use Rattle.node_dispatch.specs.Receives.{Receives};

use base::NONE;
use format_message::NodeMessage;
use node::{ASLEEP, Node};
use node_edges::Edges;
use node_response::{Packet, Response};

// The response to x, before which nothing was done. A sleeper takes Connect and Test only.
#[tactic(auto, using(field::proofs::laws::Edges::own_below), unfolding(node::specs::Rules::respond_to, node::specs::Rules::unless_asleep))]
fn by_message(edges: Edges, x: Packet, a: Response) -> Response
    requires receives { Receives edges.plan.now edges.v x.edge (as_msg x.message) a.node }
    requires fresh { a ≡ begun a.node }
    ensures { Does (as_marks edges.entry) (copies_in (as_own edges.entry) x.edge (as_msg x.message) (as_marks edges.entry))
        (respond_to (as_own edges.entry) (limit_of edges.entry.plan.now) (as_msg x.message) x.edge) a result }
{
    let j = x.edge;
    let takes = matches!(
        x.message,
        NodeMessage::Connect { .. } | NodeMessage::Test { .. }
    );
    if a.node.status == ASLEEP && !takes {
        return a.refuse();
    }
    match x.message {
        NodeMessage::Connect { level } => {
            node_joining::on_connect(edges, j, level, node_procedures::awake(edges, j, a))
        }
        NodeMessage::Initiate {
            level,
            identity,
            find,
        } => node_joining::on_initiate(edges, j, level, identity, find, a),
        NodeMessage::Test { level, identity } => node_searching::on_test(
            edges,
            j,
            level,
            identity,
            node_procedures::awake(edges, j, a),
        ),
        NodeMessage::Accept => node_searching::on_accept(edges, j, a),
        NodeMessage::Reject => node_searching::on_reject(edges, j, a),
        NodeMessage::Report { weight } => node_searching::on_report(edges, j, weight, a),
        NodeMessage::ChangeRoot => node_procedures::change_root(edges, a),
    }
}

// THE RESPONSE of node n, with these edges, to the listed message x.
pub fn respond(edges: Edges, x: Packet, n: Node) -> Response
    requires { Receives edges.plan.now edges.v x.edge (as_msg x.message) n }
    ensures { work_of (as_marks edges.entry) (copies_in (as_own edges.entry) x.edge (as_msg x.message) (as_marks edges.entry)) result
        ≡ respond (as_own edges.entry) (limit_of edges.entry.plan.now) (as_msg x.message) x.edge n (as_marks edges.entry) }
{
    by_message(edges, x, Response::begin(n))
}

// The response of node n, with these edges, to a wakeup: no message woke it.
pub fn wakes(edges: Edges, n: Node) -> Response
    ensures { (cs : List Send) → work_of (as_marks edges.entry) cs result ≡ wakes (as_own edges.entry) n (as_marks edges.entry) }
{
    node_procedures::wakeup(edges, NONE, Response::begin(n))
}
