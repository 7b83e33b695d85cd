ghost use Rattle.std.specs.Prelude.{◌≡◌, ◌+◌, ◌<◌, ◌≤◌, ◌++◌, length, OnOk, IfOk};
ghost use Rattle.std.specs.List.{AllByRecursion};
ghost use Rattle.vm_model.specs.declared.limits.TheConstants.{MOST_EVENTS, MOST_THREADS};
ghost use Rattle.schedule_log.specs.declared.interval.Interval.{Interval};
ghost use Rattle.schedule_log.specs.Spelling.{leb128, part, pairs, thread_count, end_mark, spelling};
ghost use Rattle.schedule_log.specs.Ordered.{ContiguousFrom, next_of};

use crate::interval::Interval;
use crate::log::Log;
use std::alloc::Global;
use vm_model::{EndKind, NoMemory};

fn put_number(out: &mut Vec<u8>, n: u64) -> Result<(), NoMemory>
    ensures { OnOk result (out.new.items ≡ out.old.items ++ leb128 n) }
{
    let mut rest = n;
    while rest >= 128 {
        out.push((rest % 128) as u8 + 128)?;
        rest /= 128;
    }
    out.push(rest as u8)?;
    Ok(())
}

fn threads_of(intervals: &[Interval]) -> u32
    requires { AllByRecursion (λ (i : Interval). i.thread < MOST_THREADS) intervals.now }
    ensures { result ≡ thread_count intervals.now }
{
    let mut count = 0;
    for i in intervals {
        if i.thread + 1 > count {
            count = i.thread + 1;
        }
    }
    count
}

fn count_of(intervals: &[Interval], thread: u32) -> usize
    ensures { result ≡ length (part thread intervals.now) }
{
    let mut count = 0;
    for i in intervals {
        if i.thread == thread {
            count += 1;
        }
    }
    count
}

fn put_pairs(out: &mut Vec<u8>, intervals: &[Interval], thread: u32) -> Result<(), NoMemory>
    requires contiguous { ContiguousFrom 0 intervals.now }
    requires within { next_of intervals.now ≤ MOST_EVENTS }
    ensures { OnOk result (out.new.items ≡ out.old.items ++ pairs 0 (part thread intervals.now)) }
{
    let mut next = 0;
    for i in intervals {
        if i.thread == thread {
            put_number(out, i.first - next)?;
            put_number(out, i.last - i.first)?;
            next = i.last + 1;
        }
    }
    Ok(())
}

fn end_byte(end: EndKind) -> u8
    ensures { result ≡ end_mark end }
{
    match end {
        EndKind::Done => 0xF0,
        EndKind::Fault => 0xF1,
        EndKind::Stuck => 0xF2,
        EndKind::Spent => 0xF3,
    }
}

/// The bytes of a log file of version 1: the log's one spelling, which `decode` reads again.
pub fn encode(alloc: Global, log: &Log) -> Result<Vec<u8>, NoMemory>
    ensures { IfOk result (λ bytes. bytes.items ≡ spelling log.now) }
{
    let intervals = log.intervals();
    let count = threads_of(intervals);
    let mut out = Vec::new(alloc);
    out.extend_from_slice(b"DJVL\x01")?;
    put_number(&mut out, log.budget())?;
    put_number(&mut out, count as u64)?;
    for thread in 0..count {
        put_number(&mut out, count_of(intervals, thread) as u64)?;
        put_pairs(&mut out, intervals, thread)?;
    }
    out.push(end_byte(log.end()))?;
    Ok(out)
}
