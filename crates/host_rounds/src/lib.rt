// A run of rounds over a field.
#![tactic(auto)]

mod air;
mod queue;
mod round;

ghost use Rattle.std.specs.Prelude.{◌≡◌};
ghost use Rattle.refusal.specs.Number.{refusal_in};
ghost use Rattle.field_calls.specs.Call.{run_rounds};

use field::Field;
use refusal::{Refusal, Run};

// The same as `run`; `done` counts the rounds.
fn run_on(f: &mut Field, words: &mut [u64], limit: u16, done: &mut u16) -> Result<(), Refusal>
    requires { done.old ≡ 0 }
    ensures { record { done = done.new; refusal = refusal_in result; state = record { field = f.new; words = words.new } }
        ≡ run_rounds limit (record { field = f.old; words = words.old }) }
{
    let mut n = field_check::admit(f, words)?;
    round::rounds(f, words, &mut n, limit, done)
}

// Rounds until the field is at rest, up to the limit. 31 is checked first, and once.
pub fn run(f: &mut Field, words: &mut [u64], limit: u16) -> Run<u16>
    ensures { record { done = result.done; refusal = refusal_in result.ended; state = record { field = f.new; words = words.new } }
        ≡ run_rounds limit (record { field = f.old; words = words.old }) }
{
    let mut done = 0;
    let ended = run_on(f, words, limit, &mut done);
    Run { done, ended }
}
