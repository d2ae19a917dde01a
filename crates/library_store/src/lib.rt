// Named points from C: a field is saved under a name in a lent store, found there, restored. A field is lent in its parts.
#![tactic(auto)]

ghost use Rattle.std.specs.Prelude.{◌≡◌};
ghost use Rattle.field.specs.Held.{held_from};
ghost use Rattle.store.specs.Calls.{save_point, find_point};
ghost use Rattle.library_store.specs.Lent.{restore_into};

use field::{Cells, Marks};
use plan::Plan;
use refusal::refusal_in;
use store::FoundPoint;

// A field is saved: 31, 76, 77, 78, or 0.
#[unsafe(no_mangle)]
pub extern "C" fn muruapy_save_parts<'a>(
    plan: &'a Plan,
    cells: &'a Cells,
    marks: &'a Marks,
    sent: u32,
    words: &[u64],
    name: &[u8],
    store: &mut [u8],
) -> u32
    ensures { record { refusal = result; state = store.new }
        ≡ save_point name.now (held_from plan.now cells.now marks.now sent words.now) store.old }
{
    refusal_in(host_store::save_parts(plan, cells, marks, sent, words, name, store))
}

// Where the record of a name stands: 76, 77, or 0 with its place and size.
#[unsafe(no_mangle)]
pub extern "C" fn muruapy_find(store: &[u8], name: &[u8]) -> FoundPoint
    ensures { result ≡ find_point name.now store.now }
{
    match host_store::find_at(store, name) {
        Ok(spot) => FoundPoint {
            refusal: 0,
            at: spot.at,
            size: spot.size,
        },
        Err(refusal) => FoundPoint {
            refusal: refusal.number(),
            at: 0,
            size: 0,
        },
    }
}

// The field saved under a name comes back: 76, 77, 21, or 0. `held` is the plan's place in the field.
#[unsafe(no_mangle)]
pub extern "C" fn muruapy_restore_parts(
    store: &[u8],
    name: &[u8],
    held: &mut Plan,
    cells: &mut Cells,
    marks: &mut Marks,
    sent: &mut u32,
    words: &mut [u64],
) -> u32
    ensures { record { refusal = result; state = held_from held.new cells.new marks.new sent.new words.new }
        ≡ restore_into name.now store.now
        (held_from held.old cells.old marks.old sent.old words.old) }
{
    match host_store::restore(store, name, words) {
        Ok(f) => {
            *held = f.plan;
            library_field::hand_back(&f, cells, marks, sent);
            0
        }
        Err(refusal) => refusal.number(),
    }
}
