//! A search for a schedule whose run ends in a fault.

ghost use Rattle.std.specs.Prelude.{◌≡◌, ◌≤◌, ◌<◌, ◌+◌, ◌%◌, None, Some, length, IfOk, OnOk};
ghost use Rattle.vm_model.specs.declared.limits.TheConstants.{MOST_EVENTS};
ghost use Rattle.machine_model.specs.Machine.{end_of, start_machine};
ghost use Rattle.switch_schedule.specs.Searches.{is_fault, try_drawn, IsSought};

use crate::run::{Ran, run_schedule};
use rand_core::utils::NextWord;
use rand_pcg::Lcg64Xsh32;
use schedule_model::Schedule;
use std::alloc::Global;
use vm_model::{End, NoMemory, Plain};

/// What a search found.
#[derive(Drop)]
pub enum Sought {
    /// The first try whose run ends in a fault, counted from 1, with its times as they were drawn and its run.
    Found {
        at: u32,
        schedule: Schedule,
        ran: Ran,
    },
    /// No try ends in a fault.
    NotFound,
}

/// The times of the next try, from 1 to 4 of them, each below the modulus.
fn next_try(alloc: Global, words: &mut Lcg64Xsh32, modulus: u32) -> Result<Schedule, NoMemory>
    requires { 1 ≤ modulus }
    ensures times { IfOk result (λ s. s ≡ (try_drawn modulus words.old).0) }
    ensures words { OnOk result (words.new ≡ (try_drawn modulus words.old).1) }
    ensures few { IfOk result (λ s. length s ≤ 4) }
{
    let count = 1 + words.next_word() % 4;
    let mut times = Vec::new(alloc);
    for _ in 0..count {
        times.push(words.next_word() % modulus)?;
    }
    Ok(Schedule { times })
}

fn is_fault(end: &End) -> bool
    ensures { result ≡ is_fault (Some end.now) }
{
    match end {
        End::Done => false,
        End::Fault(_) => true,
        End::Stuck => false,
        End::Spent => false,
    }
}

/// Runs up to so many schedules of pseudo-random times, until one ends in a fault. The words come from the generator PCG XSH
/// RR 64/32 (O'Neill 2014) with the seed as its state and stream 0, used over all tries. A try takes one word w and has
/// 1 + w mod 4 times; each is the next word modulo one more than the number of events of the run without switches. A run has
/// at most so many events, from 1 to 1,048,576.
pub fn seek(
    alloc: Global,
    plain: &Plain,
    seed: u64,
    tries: u32,
    events: u64,
) -> Result<Sought, NoMemory>
    requires some { 1 ≤ events }
    requires limit { events ≤ MOST_EVENTS }
    requires begins { end_of plain.now (start_machine plain.now) events ≡ None }
    ensures { IfOk result (IsSought plain.now seed tries events) }
{
    let without = Schedule {
        times: Vec::new(alloc),
    };
    let still = run_schedule(alloc, plain, &without, events)?;
    let modulus = still.clock as u32 + 1;
    let mut words = Lcg64Xsh32::new(seed, 0);
    for before in 0..tries {
        let schedule = next_try(alloc, &mut words, modulus)?;
        let ran = run_schedule(alloc, plain, &schedule, events)?;
        if is_fault(&ran.end) {
            return Ok(Sought::Found {
                at: before + 1,
                schedule,
                ran,
            });
        }
    }
    Ok(Sought::NotFound)
}
