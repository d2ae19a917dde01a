// A response that was worked out by value is put in place: its messages behind the waiting words, its node and its mark. Its messages can be written into
// any other words too.
#![tactic(auto)]

ghost use Rattle.std.specs.Prelude.{◌+◌, ◌<◌, ◌≤◌, ◌≡◌, length, IfSome};
ghost use Rattle.base.specs.Limits.{max_modules, max_links};
ghost use Rattle.format_message.proofs.laws.Means.{Means};
ghost use Rattle.format_word.specs.Word.{header_in, carried_in, link_in};
ghost use Rattle.plan.specs.Links.{links_of};
ghost use Rattle.node_response.specs.Response.{packet_sends};
ghost use Rattle.field.specs.Edges.{link_of};
ghost use Rattle.field.specs.State.{msg_in, posted, put_node};
ghost use Rattle.field_words.specs.Laid.{Laid};
ghost use Rattle.field_cells.specs.Marks.{mark_put};
ghost use Rattle.field_place.specs.Posted.{copies_to, sends_by, Posted, Put, PacketOk};

use field::{Cells, Marks};
use node_edges::Edges;
use node_response::{Packet, Response};
use plan::Plan;

// A message of a node, if there is one, is written at place n; the answer is the place behind it.
fn post(edges: Edges, lent: &mut [u64], n: usize, x: Option<Packet>) -> usize
    requires ok { IfSome x PacketOk }
    requires room { n + length (packet_sends x) ≤ length lent.old }
    ensures { Posted lent.old lent.new n result (posted edges.entry.plan.now edges.entry.v (packet_sends x)) }
{
    let Some(Packet { edge, message }) = x else {
        return n;
    };
    lent[n] = format_word::pack(message.header_byte(), message.carried(), edges.end(edge));
    n + 1
}

// The link that word x came by.
pub fn link_of(x: u64) -> u16
    ensures { result ≡ link_of (link_in x) }
{
    format_word::link(x) / 2
}

// The copies of word x from place n on, by rising link number.
#[tactic(auto, using(crate::proofs::Turns::copying_room))]
fn post_copies(edges: Edges, lent: &mut [u64], n: usize, x: u64) -> usize
    requires says { Means (header_in x) (carried_in x) (msg_in x) }
    requires room { n + length (copies_to edges.plan.now edges.marks.now edges.v x (links_of edges.plan.now)) ≤ length lent.old }
    ensures { Posted lent.old lent.new n result
        (posted edges.entry.plan.now edges.entry.v
        (copies_to edges.entry.plan.now edges.entry.marks.now edges.entry.v x (links_of edges.entry.plan.now))) }
{
    let mut m = n;
    for k in 0..plan::links(edges.plan) {
        if edges.is_other_branch(link_of(x), k) {
            lent[m] = format_word::pack(
                format_word::header(x),
                format_word::carried(x),
                edges.end(k),
            );
            m += 1;
        }
    }
    m
}

// All messages of a response to word x from place n on, in their order: the copies, then the first and the second.
pub fn post_all(edges: Edges, lent: &mut [u64], n: usize, x: u64, a: Response) -> usize
    requires says { Means (header_in x) (carried_in x) (msg_in x) }
    requires first { IfSome a.first PacketOk }
    requires second { IfSome a.second PacketOk }
    requires room { n + length (sends_by edges.plan.now edges.marks.now edges.v x a) ≤ length lent.old }
    ensures { Posted lent.old lent.new n result
        (posted edges.entry.plan.now edges.entry.v (sends_by edges.entry.plan.now edges.entry.marks.now edges.entry.v x a)) }
{
    let m = if a.copies {
        post_copies(edges, lent, n, x)
    } else {
        n
    };
    let k = post(edges, lent, m, a.first);
    post(edges, lent, k, a.second)
}

// How many messages a response to word x sends.
#[tactic(auto, using(node::proofs::laws::Count::each_number, std::proofs::lemmas::Grind::common_steps))]
pub fn count_sends(edges: Edges, x: u64, a: Response) -> u32
    ensures count { result ≡ length (sends_by edges.entry.plan.now edges.entry.marks.now edges.entry.v x a) }
    ensures small { result ≤ max_links + 2 }
{
    let copies = if a.copies {
        edges.branches(link_of(x))
    } else {
        0
    };
    copies as u32 + a.first.is_some() as u32 + a.second.is_some() as u32
}

// A response to word x in place: its messages behind the n words that wait, its node and its mark. Answers how many words then wait.
pub fn place(
    plan: &Plan,
    cells: &mut Cells,
    marks: &mut Marks,
    lent: &mut [u64],
    n: usize,
    v: u16,
    x: u64,
    a: Response,
) -> usize
    requires laid { Laid lent.old n }
    requires small { links_of plan.now ≤ max_links }
    requires says { Means (header_in x) (carried_in x) (msg_in x) }
    requires first { IfSome a.first PacketOk }
    requires second { IfSome a.second PacketOk }
    requires room { n + length (sends_by plan.now marks.old v x a) ≤ length lent.old }
    requires node { v < max_modules }
    ensures words { Put plan.now v (sends_by plan.now marks.old v x a) lent.old n lent.new result }
    ensures cells { cells.new ≡ put_node cells.old v a.node }
    ensures marks { marks.new ≡ mark_put plan.now marks.old v a.newmark }
{
    let edges = Edges {
        plan,
        marks: &*marks,
        v,
    };
    let r = post_all(edges, lent, n, x, a);
    field_cells::put_node(cells, v, a.node);
    field_cells::put_mark(plan, marks, v, a.newmark);
    r
}
