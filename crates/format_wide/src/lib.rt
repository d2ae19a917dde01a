// 32- and 64-bit big-endian integers in lent bytes.
#![tactic(auto)]

ghost use Rattle.std.specs.Prelude.{◌+◌, ◌<◌, ◌≡◌, length};
ghost use Rattle.format_wide.specs.Wide.{at32, at64, put32, put64};

// The integer at byte i.
pub fn at32(s: &[u8], i: usize) -> u32
    requires { i + 3 < length s.now }
    ensures { result ≡ at32 s.now i }
{
    u32::from_be_bytes(*s[i..].first_chunk().unwrap())
}

pub fn at64(s: &[u8], i: usize) -> u64
    requires { i + 7 < length s.now }
    ensures { result ≡ at64 s.now i }
{
    u64::from_be_bytes(*s[i..].first_chunk().unwrap())
}

// Writes x at byte i.
pub fn put32(s: &mut [u8], i: usize, x: u32)
    requires { i + 3 < length s.old }
    ensures { s.new ≡ put32 s.old i x }
{
    s[i..i + 4].copy_from_slice(&x.to_be_bytes());
}

pub fn put64(s: &mut [u8], i: usize, x: u64)
    requires { i + 7 < length s.old }
    ensures { s.new ≡ put64 s.old i x }
{
    s[i..i + 8].copy_from_slice(&x.to_be_bytes());
}
