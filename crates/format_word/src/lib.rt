// Waiting messages in 64-bit words: packed and unpacked by shifts and masks.
#![tactic(auto)]

ghost use Rattle.std.specs.Prelude.{◌≡◌};
ghost use Rattle.format_word.specs.Word.{packed, header_in, carried_in, link_in, handed_in, shaped, laid_out, hand_over};

// A message that goes by a directed link, not handed over yet.
pub fn pack(header: u8, carried: u16, link: u16) -> u64
    ensures { result ≡ packed header carried link 0 }
{
    (header as u64) | ((carried as u64) << 8) | ((link as u64) << 24) | (1 << 41)
}

// The header byte, bits 0 to 7.
pub fn header(w: u64) -> u8
    ensures { result ≡ header_in w }
{
    (w & 0xff) as u8
}

// The carried number, bits 8 to 23.
pub fn carried(w: u64) -> u16
    ensures { result ≡ carried_in w }
{
    ((w >> 8) & 0xffff) as u16
}

// The directed link, bits 24 to 39.
pub fn link(w: u64) -> u16
    ensures { result ≡ link_in w }
{
    ((w >> 24) & 0xffff) as u16
}

// Bit 40: handed over.
pub fn handed(w: u64) -> bool
    ensures { result ≡ handed_in w }
{
    ((w >> 40) & 1) == 1
}

// The word with bit 40 set.
pub fn hand_over(w: u64) -> u64
    ensures { result ≡ hand_over w }
{
    w | (1 << 40)
}

// Bit 41 set, and none above it.
pub fn word_shape(w: u64) -> bool
    ensures { result ≡ shaped w }
{
    (w >> 41) == 1
}

// A word as laid out: its shape, and a listed message in it.
pub fn laid_out(w: u64) -> bool
    ensures { result ≡ laid_out w }
{
    word_shape(w) & format_message::is_listed(header(w), carried(w))
}
