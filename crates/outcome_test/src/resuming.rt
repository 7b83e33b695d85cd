//! Runs of tests that go on from paused ones.

ghost use Rattle.std.specs.Prelude.{◌≡◌, ◌≤◌, ◌<◌, ℕ, IsTrue, Some, [], length, drop, IfOk, IfSome, OnOk};
ghost use Rattle.std.specs.List.{HoldsAt};
ghost use Rattle.vm_model.specs.declared.limits.TheConstants.{MOST_EVENTS, MOST_SWITCHES};
ghost use Rattle.machine_model.specs.Machine.{run};
ghost use Rattle.machine_model.specs.Ring.{schedule_threads};
ghost use Rattle.schedule_model.specs.Outcomes.{end_under};
ghost use Rattle.schedule_model.specs.Schedules.{Agree};
ghost use Rattle.thread_driver.specs.Waiting.{Rises};
ghost use Rattle.paused_run.specs.Pauses.{clock_of};
ghost use Rattle.outcome_test.specs.Resumed.{AreUnder, IsUnder, MayKeep};

use paused_run::Paused;
use std::alloc::Global;
use std::marker::Model;
use vm_model::{End, NoMemory, Plain};

/// The greatest number of paused runs that are kept.
const MOST_PAUSED: usize = 16;

/// Paused runs of tests: each test's run where it parted from the one that it went on from, and halfway there. The last are kept,
/// at most 16.
#[derive(Drop)]
pub(crate) struct Resumed {
    paused: Vec<Paused>,
    turns: u64,
}

impl Model for Resumed {
    ghost use Rattle.std.specs.Prelude.{List, ◌≤◌, length};
    ghost use Rattle.paused_run.specs.Pauses.{PausedRun};

    ghost Value = { List PausedRun };

    ghost view = { λ s. s.paused.items };

    ghost invariant = { λ s. length s.paused.items ≤ 16 };
}

/// Whether a run can go on under these times, and has made as many events.
fn goes_on(run: &Paused, times: &[u32], most: u64) -> bool
    requires rising { Rises 0 times.now }
    ensures { IsTrue result → Agree (clock_of run.now) run.now.times times.now }
{
    if !run.agrees(times) {
        return false;
    }
    run.clock() >= most
}

/// The one with the most events of the runs that can go on under these times, the last where there are several.
fn latest(paused: &[Paused], times: &[u32]) -> Option<usize>
    requires rising { Rises 0 times.now }
    ensures within { IfSome result (λ i. i < length paused.now) }
    ensures agrees { IfSome result (HoldsAt (λ r. Agree (clock_of r) r.times times.now) paused.now) }
{
    let mut found = None;
    let mut most = 0;
    for i in 0..paused.len() {
        if goes_on(&paused[i], times, most) {
            found = Some(i);
            most = paused[i].clock();
        }
    }
    found
}

/// The clock at which these times part from those of the run that is gone on from, or from no times at all.
fn parting(paused: &[Paused], from: Option<usize>, times: &[u32]) -> u64
    requires rising { Rises 0 times.now }
    requires within { IfSome from (λ i. i < length paused.now) }
{
    let time = match from {
        Some(i) => paused[i].parting(times),
        None => times.first().copied(),
    };
    u64::from(time.unwrap_or(0))
}

/// The clock halfway from one to a later one.
fn halfway(clock: u64, later: u64) -> u64 {
    clock + later.saturating_sub(clock) / 2
}

/// The run of these times, as far as the run has it that is gone on from.
fn begun(
    alloc: Global,
    plain: &Plain,
    paused: &[Paused],
    from: Option<usize>,
    times: Vec<u32>,
    events: u64,
) -> Result<Paused, NoMemory>
    requires few { length times.items ≤ MOST_SWITCHES }
    requires rising { Rises 0 times.items }
    requires some { 1 ≤ events }
    requires limit { events ≤ MOST_EVENTS }
    requires under { AreUnder plain.now events paused.now }
    requires within { IfSome from (λ i. i < length paused.now) }
    requires agrees { IfSome from (HoldsAt (λ r. Agree (clock_of r) r.times times.items) paused.now) }
    ensures under { IfOk result (IsUnder plain.now events) }
    ensures times { IfOk result (λ r. r.times ≡ times.items) }
{
    match from {
        Some(i) => paused[i].copy_for(alloc, times),
        None => Paused::start(alloc, plain, times, events),
    }
}

/// Makes room for one more, in the place of the oldest one.
fn make_room(paused: &mut Vec<Paused>)
    requires few { length paused.old.items ≤ 16 }
    ensures rest { (n : ℕ) × (paused.new.items ≡ drop n paused.old.items) }
    ensures few { length paused.new.items < 16 }
{
    if paused.len() == MOST_PAUSED {
        paused.remove(0);
    }
}

/// Keeps a copy of a run.
fn keep(alloc: Global, paused: &mut Vec<Paused>, run: &Paused) -> Result<(), NoMemory>
    requires few { length paused.old.items ≤ 16 }
    ensures kept { MayKeep run.now paused.old.items paused.new.items }
    ensures few { length paused.new.items ≤ 16 }
{
    let copy = run.copy(alloc)?;
    make_room(paused);
    paused.push(copy)?;
    Ok(())
}

/// Goes on until so many events were made, and keeps a copy there, where memory is found.
fn pause_at(
    alloc: Global,
    plain: &Plain,
    events: u64,
    paused: &mut Vec<Paused>,
    run: &mut Paused,
    clock: u64,
) -> Result<(), NoMemory>
    requires few { length paused.old.items ≤ 16 }
    requires kept { AreUnder plain.now events paused.old.items }
    requires run { IsUnder plain.now events run.old }
    ensures few { length paused.new.items ≤ 16 }
    ensures kept { AreUnder plain.now events paused.new.items }
    ensures run { OnOk result (IsUnder plain.now events run.new) }
    ensures times { run.new.times ≡ run.old.times }
{
    run.run_to(alloc, plain, clock)?;
    match keep(alloc, paused, run) {
        Ok(_) => {}
        Err(_) => {}
    }
    Ok(())
}

impl Resumed {
    pub(crate) fn new(alloc: Global) -> Resumed
        ensures { result ≡ [] }
    {
        Resumed {
            paused: Vec::new(alloc),
            turns: 0,
        }
    }

    /// How many events the runs made that came to their ends, without those that they had from paused ones. It stays at 2^64 - 1.
    pub(crate) fn turns(&self) -> u64 {
        self.turns
    }

    /// The end of the run of these times.
    pub(crate) fn end_of(
        &mut self,
        alloc: Global,
        plain: &Plain,
        times: Vec<u32>,
        events: u64,
    ) -> Result<End, NoMemory>
        requires few { length times.items ≤ MOST_SWITCHES }
        requires rising { Rises 0 times.items }
        requires some { 1 ≤ events }
        requires limit { events ≤ MOST_EVENTS }
        requires under { AreUnder plain.now events self.old }
        ensures end { IfOk result (λ e. end_under plain.now events (run plain.now (schedule_threads plain.now times.items events)) ≡ Some e) }
        ensures under { AreUnder plain.now events self.new }
    {
        let from = latest(&self.paused, &times);
        let clock = parting(&self.paused, from, &times);
        let mut run = begun(alloc, plain, &self.paused, from, times, events)?;
        let first = run.clock();
        let half = halfway(first, clock);
        pause_at(alloc, plain, events, &mut self.paused, &mut run, half)?;
        pause_at(alloc, plain, events, &mut self.paused, &mut run, clock)?;
        let end = run.finish(alloc, plain)?;
        self.turns = self.turns.saturating_add(run.clock().saturating_sub(first));
        Ok(end)
    }
}
