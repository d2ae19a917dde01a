// The tree path between two nodes with its worst edge, and the nodes within some branches of one, document 02's request 07: what the calls answer and
// write, as definitions (specs/), and what is claimed of it.
#![tactic(auto)]

// A path: how many links it has, and the latest of them, none where it has none.
#[derive(Clone, Copy)]
pub struct LinkPath {
    pub length: u16,
    pub worst: u16,
}

// What C gets. refusal: its number, or 0. way: 1 if links join the two modules, 0 for "no way" and beside a refusal. length: how many links the path has. worst: the latest of
// them, or none. Without a path 0 and none.
#[repr(C)]
#[derive(Clone, Copy)]
pub struct PathFound {
    pub refusal: u32,
    pub way: u32,
    pub length: u16,
    pub worst: u16,
}
