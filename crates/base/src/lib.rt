// Lists, tables, sums and loops as definitions (specs/) with their laws, and the numbers that code of every layer names. specs/None.antt and specs/Limits.antt have these numbers for
// definitions.
#![tactic(auto)]

// "none" of document 01: no link.
pub const NONE: u16 = 65535;

// The largest plan: "N modules (1 to 192)", since request 04 from 0 on, "L links (0 to 600)", readings "0 to 2000"; its ends of links and its ceiling.
pub const MAX_MODULES: u16 = 192;

pub const MAX_LINKS: u16 = 600;

pub const MAX_READING: u16 = 2000;

pub const MAX_ENDS: usize = 2 * MAX_LINKS as usize;

pub const MAX_WORDS: usize = 7920;
