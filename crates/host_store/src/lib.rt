// Named points for a host: a field is saved in a lent store under a name, found there as a part of the store, and restored. The store is not copied.
#![tactic(auto)]

ghost use Rattle.std.specs.Prelude.{◌+◌, ◌<◌, ◌≤◌, ◌≡◌, true, ◌++◌, ◌∷◌, [], length, IfOk};
ghost use Rattle.base.specs.Limits.{max_words};
ghost use Rattle.refusal.specs.Number.{refusal_in};
ghost use Rattle.plan.proofs.laws.Accepted.{Accepted};
ghost use Rattle.field.specs.Edges.{ceiling_of};
ghost use Rattle.field.specs.Held.{layout, field_from, held_from};
ghost use Rattle.store.specs.Records.{records_in, joined, stored};
ghost use Rattle.store.specs.Names.{longest_name, is_named, without_first};
ghost use Rattle.store.specs.Reading.{held_in, record_fits};
ghost use Rattle.store.specs.Calls.{save_point, find_point, part_at, restore_point};
ghost use Rattle.store.specs.Layout.{record_with, record_size};
ghost use Rattle.host_setup.specs.Made.{field_made};
ghost use Rattle.host_store.specs.Found.{point_found, store_checks};

use base::MAX_ENDS;
use field::{CELLS, Cells, Field, Marks};
use plan::{NUMBERS, Plan};
use refusal::Refusal;
use store::Spot;

// 76 of a store, then 77 of a name that no record may have.
fn check(store: &[u8], name: &[u8]) -> Result<(), Refusal>
    ensures { result ≡ store_checks store.now name.now }
{
    if !store_check::store_fits(store) {
        return Err(Refusal::Store);
    }
    if !store_records::name_fits(name) {
        return Err(Refusal::NameWrong);
    }
    Ok(())
}

// SAVING

// The record of that name goes, the others close up, the new one stands last.
fn replace<'a>(
    plan: &'a Plan,
    cells: &'a Cells,
    marks: &'a Marks,
    sent: u32,
    words: &[u64],
    name: &[u8],
    store: &mut [u8],
)
    requires { Accepted plan.now × (sent < 65536) × (length words.now ≤ max_words) × (length name.now ≤ longest_name)
        × (store.old ≡ stored (length store.old) (records_in store.old))
        × (length (joined (without_first (is_named name.now) (records_in store.old))) + record_size plan.now (length name.now) (length words.now) ≤ length store.old) }
    ensures { store.new ≡ stored (length store.old) (without_first (is_named name.now) (records_in store.old)
        ++ (record_with name.now (field_from plan.now cells.now marks.now sent) words.now ∷ [])) }
{
    store_records::leave(store, name);
    let a = store_records::used(store);
    store_field::put_record(plan, cells, marks, sent, words, name, &mut store[a..]);
}

// How many bytes the records take without that of the name.
fn kept(store: &[u8], name: &[u8]) -> usize
    ensures { result ≡ length (joined (without_first (is_named name.now) (records_in store.now))) }
{
    let all = store_records::used(store);
    match store_records::place_of(store, name) {
        Some(p) => all - p.size,
        None => all,
    }
}

// A field in lent arrays is saved under a name: 31, 76, 77, 78. A refusal leaves the store as it was.
pub fn save_parts<'a>(
    plan: &'a Plan,
    cells: &'a Cells,
    marks: &'a Marks,
    sent: u32,
    words: &[u64],
    name: &[u8],
    store: &mut [u8],
) -> Result<(), Refusal>
    ensures { record { refusal = refusal_in result; state = store.new }
        ≡ save_point name.now (held_from plan.now cells.now marks.now sent words.now) store.old }
{
    let n = field_check::admit_parts(plan, cells, marks, sent, words)?;
    check(store, name)?;
    if store.len() - kept(store, name) < store_field::record_size(plan, name.len(), n) {
        return Err(Refusal::StoreFull);
    }
    replace(plan, cells, marks, sent, &words[..n], name, store);
    Ok(())
}

// The same of a field that a host supplies.
pub fn save(f: &Field, words: &[u64], name: &[u8], store: &mut [u8]) -> Result<(), Refusal>
    ensures { record { refusal = refusal_in result; state = store.new }
        ≡ save_point name.now (record { field = f.now; words = words.now }) store.old }
{
    save_parts(&f.plan, &f.cells, &f.marks, f.sent, words, name, store)
}

// FINDING

// Where the record of a name stands: 76, 77.
pub fn find_at(store: &[u8], name: &[u8]) -> Result<Spot, Refusal>
    ensures { point_found result ≡ find_point name.now store.now }
{
    check(store, name)?;
    store_records::place_of(store, name).ok_or(Refusal::NameWrong)
}

// "shows its record as a part of the lent store, without copying it": 76, 77.
pub fn find<'a>(store: &'a [u8], name: &[u8]) -> Result<&'a [u8], Refusal>
    ensures answer { refusal_in result ≡ (find_point name.now store.now).refusal }
    ensures part { IfOk result (λ part. (part.now ≡ part_at (find_point name.now store.now) store.now)
        × (part.ref_ptr.0 ≡ store.entry.ref_ptr.0) × (part.ref_ptr.1 ≡ (find_point name.now store.now).at + store.entry.ref_ptr.1)) }
{
    let spot = find_at(store, name)?;
    let e = spot.at + spot.size;
    Ok(&store[spot.at..e])
}

// RESTORING

// A record that fits, as a field, in words that are enough: its waiting words, zeros behind.
fn bring_back<'a>(r: &'a [u8], plan: &'a Plan, words: &mut [u64]) -> Field
    requires { (record_fits r.now ≡ true) × (plan.now ≡ (held_in r.now).field.plan) × (ceiling_of plan.now ≤ length words.old) }
    ensures { (result ≡ (held_in r.now).field) × (words.new ≡ layout (length words.old) (held_in r.now).words) }
{
    let mut cells = [0u16; CELLS];
    let mut marks = [0u8; MAX_ENDS];
    words.fill(0);
    let sent = store_check::take_record(r, plan, &mut cells, &mut marks, words);
    Field {
        plan: *plan,
        cells,
        marks,
        sent,
    }
}

// The field saved under a name comes back, its waiting words in the lent ones: 76, 77, 21. A refusal leaves the words as they were.
pub fn restore(store: &[u8], name: &[u8], words: &mut [u64]) -> Result<Field, Refusal>
    ensures { field_made result words.new ≡ restore_point name.now store.now words.old }
{
    let r = find(store, name)?;
    let mut plan = [0u16; NUMBERS];
    store_check::take_plan(r, &mut plan);
    if words.len() < plan::ceiling_of(&plan) as usize {
        return Err(Refusal::TooFewWords);
    }
    Ok(bring_back(r, &plan, words))
}
