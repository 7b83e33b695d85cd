//! The bytes of a file as a schedule.

ghost use Rattle.std.specs.Prelude.{◌≡◌, ◌≤◌, ◌<◌, ◌==◌, ℕ, List, length, position, IfOk, IfErr, MatchOption, Ok};
ghost use Rattle.switch_schedule.specs.Texts.{BeginsWithLine, FaultsAt, IsNumber, IsWrongLine, RefusesText, SpellsSchedule};
ghost use Rattle.switch_schedule.specs.Lines.{IsLine, number_in};

use crate::fault::{ScheduleFault, ScheduleKind};
use schedule_model::Schedule;
use std::alloc::Global;
use vm_model::MOST_SWITCHES;

/// The greatest number of 7 digits.
const MOST_DIGITS: u32 = 9_999_999;

/// The digit that no number of more digits begins with.
const ZERO: u8 = b'0';

/// The number that decimal digits spell, where it has at most 7 digits without leading zeros.
fn value_of(digits: &[u8]) -> Option<u32>
    ensures { result ≡ number_in digits.now }
{
    let mut number = 0;
    let mut rest = digits;
    while let [b, after @ ..] = rest {
        if !b.is_ascii_digit() {
            return None;
        }
        let more = 10 * number + u32::from(*b - b'0');
        if more > MOST_DIGITS {
            return None;
        }
        number = more;
        rest = after;
    }
    Some(number)
}

/// The number of a line.
fn number_of(line: &[u8]) -> Option<u32>
    ensures { MatchOption result ((n : ℕ) → ¬ IsNumber n line.now) (λ n. IsNumber n line.now) }
{
    let [first, after @ ..] = line else {
        return None;
    };
    if *first == ZERO && !after.is_empty() {
        return None;
    }
    value_of(line)
}

fn line_feed(bytes: &[u8]) -> Option<usize>
    ensures { result ≡ position (λ b. b == 10) bytes.now }
{
    bytes.iter().position(|b| *b == b'\n')
}

/// The time of the line that begins here, after so many lines, and what comes after it.
fn time_of(rest: &[u8], lines: usize, events: u64) -> Result<(u32, &[u8]), ScheduleKind>
    requires some { 1 ≤ length rest.now }
    ensures ok { IfOk result (λ x. IsLine x.0 events lines x.1.now rest.now) }
    ensures err { IfErr result (λ kind. IsWrongLine kind events lines rest.now) }
{
    let Some(end) = line_feed(rest) else {
        return Err(ScheduleKind::Trailing);
    };
    if lines >= MOST_SWITCHES {
        return Err(ScheduleKind::TooManySwitches);
    }
    let Some(time) = number_of(&rest[..end]) else {
        return Err(ScheduleKind::BadNumber);
    };
    if u64::from(time) > events {
        return Err(ScheduleKind::PastBudget);
    }
    Ok((time, &rest[end + 1..]))
}

/// The schedule that a file spells, for runs of at most so many events: no time is above that number.
pub fn read_schedule(alloc: Global, bytes: &[u8], events: u64) -> Result<Schedule, ScheduleFault>
    ensures found { IfOk result (λ s. SpellsSchedule events s bytes.now) }
    ensures only { (times : List ℕ) → SpellsSchedule events times bytes.now → IfErr result (λ fault. fault ≡ ScheduleFault.NoMemory) }
    ensures refused { IfErr result (RefusesText events bytes.now) }
{
    let mut times = Vec::new(alloc);
    let mut rest = bytes;
    while !rest.is_empty() {
        match time_of(rest, times.len(), events) {
            Ok((time, after)) => {
                let Ok(_) = times.push(time) else {
                    return Err(ScheduleFault::NoMemory);
                };
                rest = after;
            }
            Err(kind) => {
                return Err(ScheduleFault::At {
                    kind,
                    offset: (bytes.len() - rest.len()) as u64,
                });
            }
        }
    }
    Ok(Schedule { times })
}
