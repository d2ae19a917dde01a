// Schedules as bytes: the check 51 to 54, and step i's kind and number.
#![tactic(auto)]

ghost use Rattle.std.specs.Prelude.{◌≡◌, ◌+◌, ◌*◌, ◌<◌, length};
ghost use Rattle.refusal.specs.Number.{refusal_in};
ghost use Rattle.field_calls.specs.Schedule.{kind_of, number_of, schedule_refusal};
ghost use Rattle.host_schedule.specs.laws.Kinds.{kinds_from};

use field_calls::Kind;
use refusal::Refusal;

// Step i's kind.
pub fn kind(s: &[u8], i: usize) -> u8
    requires { 5 + 3 * i < length s.now }
    ensures { result ≡ kind_of s.now i }
{
    s[3 + 3 * i]
}

// Step i's number.
pub fn number(s: &[u8], i: usize) -> u16
    requires { 5 + 3 * i < length s.now }
    ensures { result ≡ number_of s.now i }
{
    format_int16::at(s, 4 + 3 * i)
}

// 54 if one of the n steps has a kind that is not listed.
fn kinds(s: &[u8], n: usize) -> Result<(), Refusal>
    requires { 2 + 3 * n < length s.now }
    ensures { refusal_in result ≡ kinds_from s.now n }
{
    for i in 0..n {
        Kind::try_from(kind(s, i))?;
    }
    Ok(())
}

// The check of a schedule's bytes: the first of 51 to 54 that applies.
pub fn check(s: &[u8]) -> Result<(), Refusal>
    ensures { refusal_in result ≡ schedule_refusal s.now }
{
    if s.len() < 3 {
        return Err(Refusal::ScheduleShort);
    }
    if s[0] != 1 {
        return Err(Refusal::ScheduleVersion);
    }
    let len = format_int16::at(s, 1) as usize;
    if len + 3 != s.len() || len % 3 != 0 {
        return Err(Refusal::ScheduleLength);
    }
    kinds(s, len / 3)
}
