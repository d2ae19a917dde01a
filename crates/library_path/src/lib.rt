// Paths in the tree from C. include/muruapy.h declares all of it.
#![tactic(auto)]

ghost use Rattle.std.specs.Prelude.{◌≡◌};
ghost use Rattle.base.specs.None.{none};
ghost use Rattle.path.specs.Between.{path_told, path_between};
ghost use Rattle.path.specs.Near.{mark_near};

use base::NONE;
use path::{LinkPath, PathFound};
use plan::Plan;
use refusal::{Refusal, refusal_in};

// No path, by a refusal of this number, or 0: no way.
fn no_path(refusal: u32) -> PathFound
    ensures { result ≡ record { refusal = refusal; way = 0; length = 0; worst = none } }
{
    PathFound {
        refusal,
        way: 0,
        length: 0,
        worst: NONE,
    }
}

// A path, no way or a refusal, in C's numbers.
fn told(answer: Result<Option<LinkPath>, Refusal>) -> PathFound
    ensures { result ≡ path_told answer }
{
    match answer {
        Ok(Some(LinkPath { length, worst })) => PathFound {
            refusal: 0,
            way: 1,
            length,
            worst,
        },
        Ok(None) => no_path(0),
        Err(refusal) => no_path(refusal.number()),
    }
}

// The tree path between two modules of any plan value: 14 to 18, 41, 79, or 0; then way 1, its length and its worst link, and its links at the front of the
// buffer, or between parts way 0: no way.
#[unsafe(no_mangle)]
pub extern "C" fn muruapy_path(plan: &Plan, from: u16, to: u16, links: &mut [u16]) -> PathFound
    ensures { record { answer = result; buffer = links.new } ≡ path_between plan.now from to links.old }
{
    told(host_path::between(plan, from, to, links))
}

// The modules within h branches of one, of any plan value: 14 to 18, 41, 79, or 0 and a byte for each module at the front of the buffer, 0 for other parts.
#[unsafe(no_mangle)]
pub extern "C" fn muruapy_near(plan: &Plan, from: u16, h: u32, marks: &mut [u8]) -> u32
    ensures { record { refusal = result; state = marks.new } ≡ mark_near plan.now from h marks.old }
{
    refusal_in(host_path::near(plan, from, h, marks))
}
