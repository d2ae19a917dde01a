// A step given alone, and a run of a schedule, over a field. 31 is checked first, and once.
#![tactic(auto)]

mod steps;

ghost use Rattle.std.specs.Prelude.{◌≡◌};
ghost use Rattle.refusal.specs.Number.{refusal_in};
ghost use Rattle.field.specs.Held.{step_alone};
ghost use Rattle.field_calls.specs.Call.{run_bytes};

use field::Field;
use refusal::{Refusal, Run};

// One step: kind 1 wakes module number, 2 hands over on directed link number, 3 lets module number serve. A refusal alters nothing.
pub fn step(f: &mut Field, words: &mut [u64], kind: u8, number: u16) -> Result<(), Refusal>
    ensures { record { refusal = refusal_in result; state = record { field = f.new; words = words.new } }
        ≡ step_alone kind number (record { field = f.old; words = words.old }) }
{
    let mut n = field_check::admit(f, words)?;
    steps::step(f, words, &mut n, kind, number)
}

// The same as `run`; `done` counts the steps.
fn run_on(f: &mut Field, words: &mut [u64], bytes: &[u8], done: &mut usize) -> Result<(), Refusal>
    requires { done.old ≡ 0 }
    ensures { record { done = done.new; refusal = refusal_in result; state = record { field = f.new; words = words.new } }
        ≡ run_bytes bytes.now (record { field = f.old; words = words.old }) }
{
    let mut waiting = field_check::admit(f, words)?;
    host_schedule::check(bytes)?;
    steps::steps(f, words, &mut waiting, bytes, done)
}

// A run of a schedule: 31, then 51 to 54, then its steps up to the first that is refused.
pub fn run(f: &mut Field, words: &mut [u64], bytes: &[u8]) -> Run<usize>
    ensures { record { done = result.done; refusal = refusal_in result.ended; state = record { field = f.new; words = words.new } }
        ≡ run_bytes bytes.now (record { field = f.old; words = words.old }) }
{
    let mut done = 0;
    let ended = run_on(f, words, bytes, &mut done);
    Run { done, ended }
}
