// The lent slice of cue records: one record is written, the first of them are, and they are read into a row; whatever decides works on the row.
#![tactic(auto)]

ghost use Rattle.std.specs.Prelude.{◌≡◌, ◌++◌, ◌≤◌, min, length, set, take, drop, replicate};
ghost use Rattle.base.specs.Limits.{max_modules};
ghost use Rattle.cue.specs.Record.{unheard};

use base::{MAX_MODULES, NONE};
use cue::{Cue, Row};

// The record of a module that has not heard.
pub fn unheard() -> Cue
    ensures { result ≡ unheard }
{
    Cue {
        heard: 0,
        cue: 0,
        link: NONE,
        hops: 0,
    }
}

// How many of so many records a row has room for.
pub fn within(n: usize) -> usize
    ensures { result ≡ min n max_modules }
{
    n.min(MAX_MODULES as usize)
}

// "one thin function marks one record heard, others unchanged": record v becomes c. Where there is no record v, nothing changes.
pub fn mark(cues: &mut [Cue], v: usize, c: Cue)
    ensures { cues.new ≡ set cues.old v c }
{
    if v < cues.len() {
        cues[v] = c;
    }
}

// The first n records become c.
pub fn fill(cues: &mut [Cue], n: usize, c: Cue)
    requires { n ≤ length cues.old }
    ensures { cues.new ≡ replicate n c ++ drop n cues.old }
{
    cues[..n].fill(c);
}

// The first n records, and unheard ones behind them.
pub fn load(cues: &mut [Cue], n: usize) -> Row
    requires { (n ≤ length cues.old) × (n ≤ max_modules) }
    ensures { (result ≡ take n cues.old ++ drop n (replicate max_modules unheard)) × (cues.new ≡ cues.old) }
{
    let mut row = [unheard(); MAX_MODULES as usize];
    row[..n].copy_from_slice(&cues[..n]);
    row
}
