// Cues for a host: a cue is started, a copy is delivered. Each asks the verdict and writes what it says.
#![tactic(auto)]

ghost use Rattle.std.specs.Prelude.{◌≡◌};
ghost use Rattle.refusal.specs.Number.{refusal_in};
ghost use Rattle.cue.specs.Calls.{start_cue, deliver_cue};
ghost use Rattle.cue.specs.Delivery.{delivery_of};

use cue::{Arrival, Cue};
use field::Field;
use refusal::Refusal;

// A cue from module `sender`: refused by 31, 71 to 73, or started. Where it is refused no record changes.
pub fn start(
    f: &Field,
    words: &[u64],
    cues: &mut [Cue],
    sender: u16,
    cue: u16,
) -> Result<(), Refusal>
    ensures { record { refusal = refusal_in result; state = cues.new }
        ≡ start_cue (record { field = f.now; words = words.now }) cues.old sender cue }
{
    let o = cue_verdict::open(f, words, cues.len(), sender, cue)?;
    cue_records::fill(cues, o.count, cue_records::unheard());
    cue_records::mark(cues, o.at, o.found);
    Ok(())
}

// The copy that waits on directed link d arrives: "heard", "idle" where none waits, or refused by 31, 71, 73, 42.
pub fn deliver(f: &Field, words: &[u64], cues: &mut [Cue], d: u16) -> Result<Arrival, Refusal>
    ensures { record { answer = delivery_of result; cues = cues.new }
        ≡ deliver_cue (record { field = f.now; words = words.now }) cues.old d }
{
    let n = cues.len();
    let k = cue_records::within(n);
    let row = cue_records::load(cues, k);
    match cue_verdict::decide(f, words, n, row, d)? {
        Some(h) => {
            cue_records::mark(cues, h.at, h.found);
            Ok(Arrival::Heard)
        }
        None => Ok(Arrival::Idle),
    }
}
