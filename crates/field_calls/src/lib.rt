// Schedules, rounds and lists of calls: definitions, and demand 3 stated over them.
#![tactic(auto)]

ghost use Rattle.field_calls.specs.Kind.{IsKind};

use refusal::Refusal;

// The kind of a step: "1 wake, 2 hand over, 3 serve".
#[derive(Clone, Copy)]
pub enum Kind {
    Wake = 1,
    HandOver = 2,
    Serve = 3,
}

impl TryFrom<u8> for Kind {
    type Error = Refusal;

    ghost try_from_gives = { IsKind };

    fn try_from(kind: u8) -> Result<Self, Refusal> {
        match kind {
            1 => Ok(Kind::Wake),
            2 => Ok(Kind::HandOver),
            3 => Ok(Kind::Serve),
            0 | 4..=255 => Err(Refusal::StepKind),
        }
    }
}

// A step: "kind .. and a number". The kind is a number, as it stands in the bytes: `step_of` reads them unchecked too, and C gets it so.
#[derive(Clone, Copy)]
pub struct Step {
    pub kind: u8,
    pub number: u16,
}
