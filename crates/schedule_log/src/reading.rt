ghost use Rattle.std.specs.Prelude.{[], take, ◌≡◌, ◌+◌, ◌<◌, ◌≤◌, ◌^◌, length, IfOk, Ok, Result};
ghost use Rattle.std.specs.List.{AllByRecursion};
ghost use Rattle.vm_model.specs.Failures.{Gives};
ghost use Rattle.schedule_log.specs.declared.interval.Interval.{Interval};
ghost use Rattle.schedule_log.specs.declared.fault.Refusal.{Refusal};
ghost use Rattle.schedule_log.specs.Ordered.{ApartFrom, ContiguousFrom, is_contiguous_from};
ghost use Rattle.schedule_log.specs.Logs.{put_all, PlainLog};
ghost use Rattle.schedule_log.specs.Spelling.{Spells};
ghost use Rattle.schedule_log.specs.Faults.{IsUnlessNoMemory};
ghost use Rattle.schedule_log.specs.Readers.{RawGives};
ghost use Rattle.schedule_log.specs.Reading.{byte_at, head_at, groups_at, number_at, interval_at, intervals_at, thread_at, threads_at, gapless_at, end_at, tail_at, log_at, read_log};

use crate::fault::{LogFault, LogKind, Refusal};
use crate::interval::Interval;
use crate::log::Log;
use crate::placing::{events_of, is_taken, merged, place_of};
use std::alloc::Global;
use vm_model::{EndKind, Failure, MOST_EVENTS, MOST_THREADS};

fn refusal(kind: LogKind, bytes: &[u8]) -> Failure<Refusal>
    ensures { result ≡ Failure.Fault (record { kind = kind; left = length bytes.now }) }
{
    Failure::Fault(Refusal {
        kind,
        left: bytes.len(),
    })
}

fn byte_of(kind: LogKind, wanted: u8, bytes: &[u8]) -> Result<&[u8], Failure<Refusal>>
    ensures { Gives (λ x. x.now) result (byte_at kind wanted bytes.now) }
{
    match bytes {
        [] => Err(refusal(LogKind::Short, bytes)),
        [b, rest @ ..] => {
            if *b == wanted {
                Ok(rest)
            } else {
                Err(refusal(kind, bytes))
            }
        }
    }
}

#[tactic(auto, unfolding(crate::specs::Reading::head_at))]
fn head_of(bytes: &[u8]) -> Result<&[u8], Failure<Refusal>>
    ensures { Gives (λ x. x.now) result (head_at bytes.now) }
{
    let rest = byte_of(LogKind::Magic, 0x44, bytes)?;
    let rest = byte_of(LogKind::Magic, 0x4A, rest)?;
    let rest = byte_of(LogKind::Magic, 0x56, rest)?;
    let rest = byte_of(LogKind::Magic, 0x4C, rest)?;
    byte_of(LogKind::Version, 1, rest)
}

#[tactic(auto, unfolding(crate::specs::Reading::groups_at))]
fn groups_of(more: u8, bytes: &[u8]) -> Result<(u64, &[u8]), LogKind>
    requires { more < 5 }
    ensures read { RawGives (λ x. (x.0, x.1.now)) result (groups_at more bytes.now) }
    ensures bound { IfOk result (λ x. x.0 < 128 ^ (more + 1)) }
{
    match bytes {
        [] => Err(LogKind::Short),
        [b, rest @ ..] => {
            if *b < 128 {
                return Ok((*b as u64, rest));
            }
            if more == 0 {
                return Err(LogKind::Limit);
            }
            let (high, rest) = groups_of(more - 1, rest)?;
            if high == 0 {
                return Err(LogKind::LongSpelling);
            }
            Ok(((*b - 128) as u64 + 128 * high, rest))
        }
    }
}

#[tactic(auto, unfolding(crate::specs::Reading::number_at))]
fn number_of(low: u64, high: u64, bytes: &[u8]) -> Result<(u64, &[u8]), Failure<Refusal>>
    ensures read { Gives (λ x. (x.0, x.1.now)) result (number_at low high bytes.now) }
    ensures bound { IfOk result (λ x. x.0 ≤ high) }
{
    match groups_of(4, bytes) {
        Err(LogKind::Short) => Err(Failure::Fault(Refusal {
            kind: LogKind::Short,
            left: 0,
        })),
        Err(kind) => Err(refusal(kind, bytes)),
        Ok((n, rest)) => {
            if n < low || high < n {
                return Err(refusal(LogKind::Limit, bytes));
            }
            Ok((n, rest))
        }
    }
}

#[tactic(auto, unfolding(crate::specs::Reading::interval_at))]
fn interval_of<'a>(
    budget: u64,
    thread: u32,
    next: u64,
    placed: &[Interval],
    at: usize,
    bytes: &'a [u8],
) -> Result<(Interval, usize, &'a [u8]), Failure<Refusal>>
    requires low { next ≤ MOST_EVENTS }
    requires apart { ApartFrom 0 placed.now }
    requires within { at ≤ length placed.now }
    requires before { AllByRecursion (λ (j : Interval). j.last < next) (take at placed.now) }
    ensures read { Gives (λ x. (x.0, x.2.now)) result (interval_at budget thread next placed.now bytes.now) }
    ensures bound { IfOk result (λ x. (next ≤ x.0.first) × (x.0.first ≤ x.0.last) × (x.0.last < budget)) }
    ensures place { IfOk result (λ x. (x.1 ≤ length placed.now) × AllByRecursion (λ (j : Interval). j.last < x.0.first) (take x.1 placed.now)) }
{
    let (gap, rest) = number_of(0, MOST_EVENTS, bytes)?;
    if 0 < next && gap == 0 {
        return Err(refusal(LogKind::NotMaximal, bytes));
    }
    let (more, after) = number_of(0, MOST_EVENTS, rest)?;
    let first = next + gap;
    let last = first + more;
    if budget <= last {
        return Err(refusal(LogKind::Limit, rest));
    }
    let place = place_of(placed, at, first);
    if is_taken(placed, place, first, last) {
        return Err(refusal(LogKind::Overlap, bytes));
    }
    Ok((
        Interval {
            thread,
            first,
            last,
        },
        place,
        after,
    ))
}

fn intervals_of<'a>(
    alloc: Global,
    count: u64,
    budget: u64,
    thread: u32,
    placed: &[Interval],
    bytes: &'a [u8],
) -> Result<(Vec<Interval>, &'a [u8]), Failure<Refusal>>
    requires low { budget ≤ MOST_EVENTS }
    requires apart { ApartFrom 0 placed.now }
    ensures read { Gives (λ x. (put_all placed.now x.0.items, x.1.now)) result (intervals_at count budget thread 0 placed.now bytes.now) }
    ensures rising { IfOk result (λ x. ApartFrom 0 x.0.items) }
{
    let mut more = Vec::new(alloc);
    let mut next = 0;
    let mut at = 0;
    let mut rest = bytes;
    for _ in 0..count {
        let (i, place, after) = interval_of(budget, thread, next, placed, at, rest)?;
        next = i.last + 1;
        at = place;
        more.push(i)?;
        rest = after;
    }
    Ok((more, rest))
}

#[tactic(auto, unfolding(crate::specs::Reading::thread_at))]
fn thread_of<'a>(
    alloc: Global,
    budget: u64,
    thread: u32,
    least: u64,
    placed: &[Interval],
    bytes: &'a [u8],
) -> Result<(Vec<Interval>, &'a [u8]), Failure<Refusal>>
    requires low { budget ≤ MOST_EVENTS }
    requires apart { ApartFrom 0 placed.now }
    ensures { Gives (λ x. (x.0.items, x.1.now)) result (thread_at budget thread least placed.now bytes.now) }
{
    let (count, rest) = number_of(least, MOST_EVENTS, bytes)?;
    let (more, rest) = intervals_of(alloc, count, budget, thread, placed, rest)?;
    Ok((merged(alloc, placed, &more)?, rest))
}

fn threads_of(
    alloc: Global,
    count: u32,
    budget: u64,
    bytes: &[u8],
) -> Result<(Vec<Interval>, &[u8]), Failure<Refusal>>
    requires { budget ≤ MOST_EVENTS }
    ensures { Gives (λ x. (x.0.items, x.1.now)) result (threads_at count budget 0 [] bytes.now) }
{
    let mut placed = Vec::new(alloc);
    let mut rest = bytes;
    for thread in 0..count {
        let least = if thread + 1 == count { 1 } else { 0 };
        let (all, after) = thread_of(alloc, budget, thread, least, &placed, rest)?;
        placed = all;
        rest = after;
    }
    Ok((placed, rest))
}

/// Whether each interval begins right after the one before it.
fn is_contiguous(placed: &[Interval]) -> bool
    requires { AllByRecursion (λ (i : Interval). i.last < MOST_EVENTS) placed.now }
    ensures { result ≡ is_contiguous_from 0 placed.now }
{
    let mut next = 0;
    for i in placed {
        if i.first != next {
            return false;
        }
        next = i.last + 1;
    }
    true
}

#[tactic(auto, unfolding(crate::specs::Reading::gapless_at))]
fn gapless_of<'a>(placed: &[Interval], bytes: &'a [u8]) -> Result<&'a [u8], Failure<Refusal>>
    requires apart { ApartFrom 0 placed.now }
    requires low { AllByRecursion (λ (i : Interval). i.last < MOST_EVENTS) placed.now }
    ensures read { Gives (λ x. x.now) result (gapless_at placed.now bytes.now) }
    ensures contiguous { IfOk result (λ _. ContiguousFrom 0 placed.now) }
{
    if !is_contiguous(placed) {
        return Err(refusal(LogKind::Gap, bytes));
    }
    Ok(bytes)
}

#[tactic(auto, unfolding(crate::specs::Reading::end_at))]
fn end_of(budget: u64, events: u64, bytes: &[u8]) -> Result<(EndKind, &[u8]), Failure<Refusal>>
    ensures { Gives (λ x. (x.0, x.1.now)) result (end_at budget events bytes.now) }
{
    match bytes {
        [] => Err(refusal(LogKind::Short, bytes)),
        [0xF0, rest @ ..] => Ok((EndKind::Done, rest)),
        [0xF1, rest @ ..] => Ok((EndKind::Fault, rest)),
        [0xF2, rest @ ..] => Ok((EndKind::Stuck, rest)),
        [0xF3, rest @ ..] if events == budget => Ok((EndKind::Spent, rest)),
        _ => Err(refusal(LogKind::BadEnd, bytes)),
    }
}

#[tactic(auto, unfolding(crate::specs::Reading::tail_at, crate::specs::Reading::nothing_at))]
fn tail_of(budget: u64, placed: &[Interval], bytes: &[u8]) -> Result<EndKind, Failure<Refusal>>
    requires apart { ApartFrom 0 placed.now }
    requires low { AllByRecursion (λ (i : Interval). i.last < MOST_EVENTS) placed.now }
    ensures { Gives (λ end. record { budget = budget; intervals = placed.now; end = end }) result (tail_at budget placed.now bytes.now) }
{
    let rest = gapless_of(placed, bytes)?;
    let (end, rest) = end_of(budget, events_of(placed), rest)?;
    match rest {
        [] => Ok(end),
        [_, ..] => Err(refusal(LogKind::Trailing, rest)),
    }
}

#[tactic(auto, unfolding(crate::specs::Reading::log_at))]
fn log_of(alloc: Global, bytes: &[u8]) -> Result<(u64, Vec<Interval>, EndKind), Failure<Refusal>>
    ensures { Gives (λ x. record { budget = x.0; intervals = x.1.items; end = x.2 }) result (log_at bytes.now) }
{
    let rest = head_of(bytes)?;
    let (budget, rest) = number_of(1, MOST_EVENTS, rest)?;
    let (count, rest) = number_of(1, MOST_THREADS as u64, rest)?;
    let (placed, rest) = threads_of(alloc, count as u32, budget, rest)?;
    let end = tail_of(budget, &placed, rest)?;
    Ok((budget, placed, end))
}

/// Reads a log file of version 1, all of its bytes. Numbers are unsigned LEB128, each in its shortest spelling.
///
/// A fault is the first one that is met from left to right, with its offset in `bytes`.
pub fn decode(alloc: Global, bytes: &[u8]) -> Result<Log, LogFault>
    // The bytes spell the log that is answered.
    ensures found { IfOk result (λ log. Spells log bytes.now) }
    // The log that they spell is answered.
    ensures only { (log : PlainLog) → Spells log bytes.now → IsUnlessNoMemory result (Ok log) }
    // Which log, or which fault at which offset.
    ensures exact { IsUnlessNoMemory result (read_log bytes.now) }
{
    match log_of(alloc, bytes) {
        Ok((budget, intervals, end)) => Ok(Log::in_order(budget, intervals, end)),
        Err(Failure::Memory) => Err(LogFault::NoMemory),
        Err(Failure::Fault(refusal)) => Err(LogFault::At {
            kind: refusal.kind,
            offset: (bytes.len() - refusal.left) as u64,
        }),
    }
}
