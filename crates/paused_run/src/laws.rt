//! Laws over the definitions. A law is a call that does nothing, and its contract is the law.

ghost use Rattle.paused_run.specs.Laws.{AgreeingBeginAlike, AgreeingShareFirst};

/// Schedules that agree below a clock have the same threads up to it, so the machine and the current thread there are those
/// of both runs.
pub fn agreeing_schedules_begin_alike()
    ensures threads { AgreeingBeginAlike }
    ensures machine { AgreeingShareFirst }
{}
