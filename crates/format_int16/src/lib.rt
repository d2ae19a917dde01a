// 16-bit big-endian integers in lent bytes.
#![tactic(auto)]

ghost use Rattle.std.specs.Prelude.{◌+◌, ◌<◌, ◌≡◌, length};
ghost use Rattle.format_int16.specs.Int16.{at16, put16};

// The integer at byte i.
pub fn at(s: &[u8], i: usize) -> u16
    requires { i + 1 < length s.now }
    ensures { result ≡ at16 s.now i }
{
    u16::from_be_bytes([s[i], s[i + 1]])
}

// Writes x at byte i.
pub fn put(s: &mut [u8], i: usize, x: u16)
    requires { i + 1 < length s.old }
    ensures { s.new ≡ put16 s.old i x }
{
    s[i..i + 2].copy_from_slice(&x.to_be_bytes());
}
