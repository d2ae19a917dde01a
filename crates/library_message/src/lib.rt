// Messages from C: header bytes, frames, waiting words. include/muruapy.h declares all of it.
#![tactic(auto)]

ghost use Rattle.std.specs.Prelude.{◌≡◌};
ghost use Rattle.format_message.specs.Header.{header_from, kind_at, level_at, find_at};
ghost use Rattle.format_message.specs.Listed.{listed};
ghost use Rattle.format_frame.specs.Frame.{frame_refusal, frame_written};
ghost use Rattle.format_word.specs.Word.{header_in, carried_in, link_in, handed_in};
ghost use Rattle.library_message.specs.Lent.{frame_into};

use refusal::refusal_in;

// The header byte of a kind, a level and a Find bit; 255 where one does not fit.
#[unsafe(no_mangle)]
pub extern "C" fn muruapy_header(kind: u8, level: u16, find: u8) -> u8
    ensures { result ≡ header_from kind level find }
{
    format_message::header(kind, level, find)
}

#[unsafe(no_mangle)]
pub extern "C" fn muruapy_header_kind(header: u8) -> u8
    ensures { result ≡ kind_at header }
{
    format_message::kind(header)
}

#[unsafe(no_mangle)]
pub extern "C" fn muruapy_header_level(header: u8) -> u16
    ensures { result ≡ level_at header }
{
    format_message::level(header)
}

#[unsafe(no_mangle)]
pub extern "C" fn muruapy_header_find(header: u8) -> u8
    ensures { result ≡ find_at header }
{
    format_message::find(header)
}

// Whether header byte and carried number are those of a message.
#[unsafe(no_mangle)]
pub extern "C" fn muruapy_message_listed(header: u8, carried: u16) -> bool
    ensures { result ≡ listed header carried }
{
    format_message::is_listed(header, carried)
}

// The first of a frame's refusals 61 to 63 that applies to the bytes, or 0 for taken.
#[unsafe(no_mangle)]
pub extern "C" fn muruapy_frame_check(bytes: &[u8]) -> u32
    ensures { result ≡ frame_refusal bytes.now }
{
    refusal_in(format_frame::check(bytes))
}

// A frame read into a lent header and carried number: 61 to 63.
#[unsafe(no_mangle)]
pub extern "C" fn muruapy_frame_read(bytes: &[u8], header: &mut u8, carried: &mut u16) -> u32
    ensures { record { refusal = result; header = header.new; carried = carried.new }
        ≡ frame_into bytes.now header.old carried.old }
{
    match format_frame::read(bytes) {
        Ok((h, c)) => {
            *header = h;
            *carried = c;
            0
        }
        Err(refusal) => refusal.number(),
    }
}

// The frame of any header byte and carried number: 63, then 64.
#[unsafe(no_mangle)]
pub extern "C" fn muruapy_frame_write(header: u8, carried: u16, bytes: &mut [u8]) -> u32
    ensures { record { refusal = result; state = bytes.new } ≡ frame_written header carried bytes.old }
{
    refusal_in(format_frame::write(header, carried, bytes))
}

// The parts of any word.
#[unsafe(no_mangle)]
pub extern "C" fn muruapy_word_header(word: u64) -> u8
    ensures { result ≡ header_in word }
{
    format_word::header(word)
}

#[unsafe(no_mangle)]
pub extern "C" fn muruapy_word_carried(word: u64) -> u16
    ensures { result ≡ carried_in word }
{
    format_word::carried(word)
}

#[unsafe(no_mangle)]
pub extern "C" fn muruapy_word_link(word: u64) -> u16
    ensures { result ≡ link_in word }
{
    format_word::link(word)
}

#[unsafe(no_mangle)]
pub extern "C" fn muruapy_word_handed(word: u64) -> bool
    ensures { result ≡ handed_in word }
{
    format_word::handed(word)
}
