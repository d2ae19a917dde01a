// The records of a byte store: the walk over them, their names, where a record stands, how one leaves.
#![tactic(auto)]

ghost use Rattle.std.specs.Prelude.{◌≤◌, ◌≡◌, true, false, ◌++◌, [], length, drop, replicate, eqb, MatchOption};
ghost use Rattle.field.specs.Valid.{all_of};
ghost use Rattle.store.specs.Records.{records_in, joined, stored};
ghost use Rattle.store.specs.Names.{name_fits, name_in, is_named, holds, spot_of, without_first};
ghost use Rattle.store_records.specs.Walk.{SplitsOff};

use store::Spot;

// The longest name.
const LONGEST_NAME: usize = 12;

// The record at the front and what is behind it, as `split_first`; none where no whole record stands there.
pub fn split_record(s: &[u8]) -> Option<(&[u8], &[u8])>
    ensures { MatchOption result (records_in s.now ≡ []) (λ p. SplitsOff s.now p.0.now p.1.now) }
{
    if s.len() < 5 || s[0] != 1 {
        return None;
    }
    let follow = format_wide::at32(s, 1) as usize;
    if s.len() - 5 < follow {
        return None;
    }
    Some(s.split_at(5 + follow))
}

// Whether bytes are a name: 1 to 12 letters a to z.
pub fn name_fits(name: &[u8]) -> bool
    ensures { result ≡ name_fits name.now }
{
    (1..=LONGEST_NAME).contains(&name.len()) && name.iter().all(|x| x.is_ascii_lowercase())
}

// The name in a record; of a record that ends before its name does, what there is of it.
pub fn name_in(r: &[u8]) -> &[u8]
    ensures { result.now ≡ name_in r.now }
{
    let Some(rest) = r.get(6..) else {
        return &[];
    };
    &rest[..(r[5] as usize).min(rest.len())]
}

pub fn is_named(r: &[u8], name: &[u8]) -> bool
    ensures { result ≡ is_named name.now r.now }
{
    name == name_in(r)
}

// Where the first record of a name stands. For a name that is not held the definition has the place behind the last record.
pub fn place_of(s: &[u8], name: &[u8]) -> Option<Spot>
    ensures { MatchOption result ((holds name.now s.now ≡ false) × (spot_of name.now s.now ≡ record { at = length (joined (records_in s.now)); size = 0 }))
        (λ p. (holds name.now s.now ≡ true) × (p ≡ spot_of name.now s.now)) }
{
    let mut at = 0;
    let mut rest = s;
    while let Some((record, behind)) = split_record(rest) {
        let size = record.len();
        if is_named(record, name) {
            return Some(Spot { at, size });
        }
        at += size;
        rest = behind;
    }
    None
}

// How many bytes the records take.
pub fn used(s: &[u8]) -> usize
    ensures { result ≡ length (joined (records_in s.now)) }
{
    let mut size = 0;
    let mut rest = s;
    while let Some((record, behind)) = split_record(rest) {
        size += record.len();
        rest = behind;
    }
    size
}

// Whether all bytes of a part are 0.
pub fn zeros(s: &[u8]) -> bool
    ensures { result ≡ all_of (λ x. eqb x 0) s.now }
{
    s.iter().all(|x| *x == 0)
}

// The first n bytes leave: the others move to the front, zeros come after.
fn close_up(t: &mut [u8], n: usize)
    requires { n ≤ length t.old }
    ensures { t.new ≡ drop n t.old ++ replicate n 0 }
{
    t.copy_within(n.., 0);
    let end = t.len() - n;
    t[end..].fill(0);
}

// The record of a name leaves, the others close up in their order.
pub fn leave(s: &mut [u8], name: &[u8])
    requires { s.old ≡ stored (length s.old) (records_in s.old) }
    ensures { s.new ≡ stored (length s.old) (without_first (is_named name.now) (records_in s.old)) }
{
    if let Some(p) = place_of(s, name) {
        close_up(&mut s[p.at..], p.size);
    }
}
