// Messages between neighbours: a message read from its header byte and carried number, and written as these; the header byte taken apart and put
// together.
#![tactic(auto)]

ghost use Rattle.std.specs.Prelude.{◌≡◌, true, false, MatchOption};
ghost use Rattle.base.specs.Cond.{bit};
ghost use Rattle.format_message.specs.Header.{header_from, header_of, kind_at, level_at, find_at, carried_of, msg_of, meant};
ghost use Rattle.format_message.specs.Listed.{listed_as, listed, Listed};
ghost use Rattle.format_message.specs.NodeMessage.{as_msg};

use base::{MAX_LINKS, NONE};

// What one node says to a neighbour.
#[derive(Clone, Copy, Debug, PartialEq, Eq)]
pub enum NodeMessage {
    Connect {
        level: u16,
    },
    Initiate {
        level: u16,
        identity: u16,
        find: bool,
    },
    Test {
        level: u16,
        identity: u16,
    },
    Accept,
    Reject,
    Report {
        weight: u16,
    },
    ChangeRoot,
}

impl NodeMessage {
    // The message that a header byte and a carried number mean, or none where they are not listed.
    #[tactic(auto, unfolding(crate::specs::Listed::listed))]
    pub fn read(header: u8, carried: u16) -> Option<NodeMessage>
        ensures { MatchOption result (listed header carried ≡ false)
            (λ m. (listed header carried ≡ true) × (as_msg m ≡ meant header carried)) }
    {
        if 128 <= header {
            return None;
        }
        of_parts(kind(header), level(header), carried, find(header) == 1)
    }

    // The header byte that says it.
    #[tactic(auto, unfolding(crate::specs::Header::parts_of, crate::specs::Header::header_from))]
    pub fn header_byte(self) -> u8
        requires { Listed (as_msg self) }
        ensures { result ≡ header_of (as_msg self) }
    {
        match self {
            NodeMessage::Connect { level } => header(1, level, 0),
            NodeMessage::Initiate { level, find, .. } => header(2, level, find as u8),
            NodeMessage::Test { level, .. } => header(3, level, 0),
            NodeMessage::Accept => header(4, 0, 0),
            NodeMessage::Reject => header(5, 0, 0),
            NodeMessage::Report { .. } => header(6, 0, 0),
            NodeMessage::ChangeRoot => header(7, 0, 0),
        }
    }

    // The number that it carries: an edge, or none.
    #[tactic(auto, unfolding(crate::specs::Header::parts_of))]
    pub fn carried(self) -> u16
        ensures { result ≡ carried_of (as_msg self) }
    {
        match self {
            NodeMessage::Initiate { identity, .. } | NodeMessage::Test { identity, .. } => identity,
            NodeMessage::Report { weight } => weight,
            NodeMessage::Connect { .. }
            | NodeMessage::Accept
            | NodeMessage::Reject
            | NodeMessage::ChangeRoot => { NONE }
        }
    }
}

// The message of a kind, level, carried number and Find bit, or none where they are not listed.
#[tactic(auto, unfolding(crate::specs::Listed::listed_as, crate::specs::Listed::bare, crate::specs::Header::msg_of))]
fn of_parts(kind: u8, level: u16, carried: u16, find: bool) -> Option<NodeMessage>
    ensures { MatchOption result (listed_as kind level carried (bit find) ≡ false)
        (λ m. (listed_as kind level carried (bit find) ≡ true) × (as_msg m ≡ msg_of kind level carried (bit find))) }
{
    let bare = level == 0 && !find && carried == NONE;
    match kind {
        1 if !find && carried == NONE => Some(NodeMessage::Connect { level }),
        2 if 0 < level && carried < MAX_LINKS => Some(NodeMessage::Initiate {
            level,
            identity: carried,
            find,
        }),
        3 if 0 < level && !find && carried < MAX_LINKS => Some(NodeMessage::Test {
            level,
            identity: carried,
        }),
        4 if bare => Some(NodeMessage::Accept),
        5 if bare => Some(NodeMessage::Reject),
        6 if level == 0 && !find && (carried < MAX_LINKS || carried == NONE) => {
            Some(NodeMessage::Report { weight: carried })
        }
        7 if bare => Some(NodeMessage::ChangeRoot),
        0..=255 => None,
    }
}

// The kind, bits 0 to 2 of a header. It and the other parts are numbers, as C asks for them (library_message).
pub fn kind(header: u8) -> u8
    ensures { result ≡ kind_at header }
{
    header & 7
}

// The level, bits 3 to 5; a u16, as a node's values are.
pub fn level(header: u8) -> u16
    ensures { result ≡ level_at header }
{
    ((header >> 3) & 7) as u16
}

// Bit 6: 1 for Find.
pub fn find(header: u8) -> u8
    ensures { result ≡ find_at header }
{
    (header >> 6) & 1
}

// The header of a kind, level and Find bit; 255, which no message has, where one of them has more bits than its place.
#[tactic(auto, unfolding(crate::specs::Header::header_from))]
pub fn header(kind: u8, level: u16, find: u8) -> u8
    ensures { result ≡ header_from kind level find }
{
    if 8 <= kind {
        return 255;
    }
    if 8 <= level {
        return 255;
    }
    if 2 <= find {
        return 255;
    }
    kind | ((level as u8) << 3) | (find << 6)
}

// Whether a header byte and a carried number are those of a listed message.
pub fn is_listed(header: u8, carried: u16) -> bool
    ensures { result ≡ listed header carried }
{
    NodeMessage::read(header, carried).is_some()
}
