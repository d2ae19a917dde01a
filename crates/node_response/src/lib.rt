// A response worked out by value: what it answers, the new node, at most one new mark, and what it sends.
#![tactic(auto)]

ghost use Rattle.std.specs.Prelude.{◌≡◌, List, ℕ, None};
ghost use Rattle.format_message.specs.NodeMessage.{as_msg};
ghost use Rattle.node.specs.Work.{Send, put_back, refused, send, set_mark, with_node};
ghost use Rattle.node_response.specs.Response.{Does, begun};

use format_message::NodeMessage;
use node::Node;
use node_edges::NewMark;

// What a response answers: the message is taken, put back behind those that wait, or refused by 32.
#[derive(Clone, Copy, Debug, PartialEq, Eq)]
pub enum NodeAnswer {
    Taken,
    Back,
    Refused,
}

// A message and the own edge that it goes or came by.
#[derive(Clone, Copy)]
pub struct Packet {
    pub edge: u16,
    pub message: NodeMessage,
}

// copies: whether the served message is copied to every other branch. The copies go out first, then first, then second.
#[derive(Clone, Copy)]
pub struct Response {
    pub answer: NodeAnswer,
    pub node: Node,
    pub newmark: Option<NewMark>,
    pub copies: bool,
    pub first: Option<Packet>,
    pub second: Option<Packet>,
}

impl Response {
    // Nothing done yet.
    pub fn begin(node: Node) -> Response
        ensures { result ≡ begun node }
    {
        Response {
            answer: NodeAnswer::Taken,
            node,
            newmark: None,
            copies: false,
            first: None,
            second: None,
        }
    }

    // Refused by 32: the caller drops the rest.
    pub fn refuse(self) -> Response
        ensures { (m : ℕ → ℕ) (cs : List Send) → Does m cs refused self result }
    {
        Response {
            answer: NodeAnswer::Refused,
            ..self
        }
    }

    // The served message is put back behind those that wait.
    pub fn put_back(self) -> Response
        ensures { (m : ℕ → ℕ) (cs : List Send) → Does m cs put_back self result }
    {
        Response {
            answer: NodeAnswer::Back,
            ..self
        }
    }

    // The node becomes another.
    pub fn with_node(self, node: Node) -> Response
        ensures does { (m : ℕ → ℕ) (cs : List Send) → Does m cs (with_node node) self result }
        ensures same { result ≡ record self { node = node } }
    {
        Response { node, ..self }
    }

    // Edge k's mark becomes c. No mark was changed before it.
    pub fn with_mark(self, k: u16, c: u8) -> Response
        requires { self.newmark ≡ None }
        ensures does { (m : ℕ → ℕ) (cs : List Send) → Does m cs (set_mark k c) self result }
        ensures same { result ≡ record self { newmark = Some (record { edge = k; mark = c }) } }
    {
        Response {
            newmark: Some(NewMark { edge: k, mark: c }),
            ..self
        }
    }

    // One message more, behind those that are sent already.
    pub fn say(self, edge: u16, message: NodeMessage) -> Response
        requires { self.second ≡ None }
        ensures does { (m : ℕ → ℕ) (cs : List Send) → Does m cs (send edge (as_msg message)) self result }
        ensures node { result.node ≡ self.node }
        ensures mark { result.newmark ≡ self.newmark }
        ensures room { self.first ≡ None → result.second ≡ None }
    {
        let packet = Some(Packet { edge, message });
        if self.first.is_none() {
            Response {
                first: packet,
                ..self
            }
        } else {
            Response {
                second: packet,
                ..self
            }
        }
    }
}
