// Radio frames: checked, read and written.
#![tactic(auto)]

ghost use Rattle.std.specs.Prelude.{◌≡◌, length};
ghost use Rattle.refusal.specs.Number.{refusal_in};
ghost use Rattle.format_frame.specs.Frame.{frame_bytes, frame_refusal, frame_read, frame_said, frame_written};

use refusal::Refusal;

// The refusal of a frame's bytes: 61 to 63.
pub fn check(s: &[u8]) -> Result<(), Refusal>
    ensures { refusal_in result ≡ frame_refusal s.now }
{
    if s.len() != 6 {
        return Err(Refusal::FrameSize);
    }
    if s[0] != 1 || format_int16::at(s, 1) != 3 {
        return Err(Refusal::FrameHead);
    }
    if !format_message::is_listed(s[3], format_int16::at(s, 4)) {
        return Err(Refusal::Message);
    }
    Ok(())
}

// What a frame's bytes say: a header byte and a carried number.
pub fn read(s: &[u8]) -> Result<(u8, u16), Refusal>
    ensures { frame_said result ≡ frame_read s.now }
{
    check(s)?;
    Ok((s[3], format_int16::at(s, 4)))
}

// Fills six bytes with a frame.
fn fill(header: u8, carried: u16, out: &mut [u8])
    requires { length out.old ≡ 6 }
    ensures { out.new ≡ frame_bytes header carried }
{
    out[0] = 1;
    out[1] = 0;
    out[2] = 3;
    out[3] = header;
    out[4] = (carried / 256) as u8;
    out[5] = (carried % 256) as u8;
}

// Writes a frame into six bytes; a refusal, 63 or 64, leaves them.
pub fn write(header: u8, carried: u16, out: &mut [u8]) -> Result<(), Refusal>
    ensures { record { refusal = refusal_in result; state = out.new } ≡ frame_written header carried out.old }
{
    if !format_message::is_listed(header, carried) {
        return Err(Refusal::Message);
    }
    if out.len() != 6 {
        return Err(Refusal::FrameBuffer);
    }
    fill(header, carried, out);
    Ok(())
}
