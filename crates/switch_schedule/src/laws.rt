//! Laws over the definitions. A law is a call that does nothing, and its contract is the law.

ghost use Rattle.std.specs.Prelude.{◌≡◌, ℕ, List};
ghost use Rattle.vm_model.specs.declared.ends.Fault.{Fault};
ghost use Rattle.vm_model.specs.Program.{PlainProgram};
ghost use Rattle.machine_model.specs.Ring.{schedule_threads};
ghost use Rattle.schedule_model.specs.Schedules.{Agree};
ghost use Rattle.schedule_model.specs.Outcomes.{outcome_of, ReadsCounts};
ghost use Rattle.switch_schedule.specs.Laws.{OneScheduleABytes, SpelledIsFaultless, FirstFaultIsOne, WrittenSpells, CutIsTrailing, EnabledIsReached};

/// Bytes spell at most one list of times.
pub fn one_schedule_a_file()
    ensures { OneScheduleABytes }
{}

/// Bytes that spell a list of times have no fault.
pub fn spelled_is_faultless()
    ensures { SpelledIsFaultless }
{}

/// Bytes have at most one first fault.
pub fn first_fault_is_one()
    ensures { FirstFaultIsOne }
{}

/// What is written of allowed times spells them.
pub fn written_spells()
    ensures { WrittenSpells }
{}

/// A file whose last line was cut is `Trailing` at the first byte of that line.
pub fn cut_is_trailing()
    ensures { CutIsTrailing }
{}

/// A thread that can go on is reached round the ring from each thread, by at most 128 places where at most 64 threads were
/// started.
pub fn enabled_is_reached()
    ensures { EnabledIsReached }
{}

/// Schedules that agree below the number of events have one run.
pub fn agreeing_schedules_run_alike()
    ensures { (p : PlainProgram) (budget : ℕ) (xs ys : List ℕ) → Agree budget xs ys → schedule_threads p xs budget ≡ schedule_threads p ys budget }
{}

/// Of a schedule its outcome reads only how often each time below the number of events occurs.
pub fn outcomes_read_counts()
    ensures { (p : PlainProgram) (events : ℕ) (fault : Fault) → ReadsCounts events (outcome_of p events fault) }
{}
