// What the two programs owe of the bytes that they read (specs/Reported, specs/Traced), and the plan's part of them.
#![tactic(auto)]

ghost use Rattle.std.specs.Prelude.{◌≡◌};
ghost use Rattle.text_owed.specs.Traced.{plan_part};

// How many bytes are the plan's: the first 3 and as many more as its length says, or all there is.
pub fn plan_part(input: &[u8]) -> usize
    ensures { result ≡ plan_part input.now }
{
    if input.len() < 3 {
        return input.len();
    }
    let end = 3 + format_int16::at(input, 1) as usize;
    if input.len() < end {
        return input.len();
    }
    end
}
