//! Laws of the monitors. Each is a call that does nothing, and its contract is the law.
ghost use Rattle.std.specs.Prelude.{◌≡◌, ◌≢◌, IsSome, Some};
ghost use Rattle.vm_model.specs.declared.value.Lock.{Lock};
ghost use Rattle.machine_model.specs.Shared.{Monitor, Monitors, monitor_at, with_monitor};

/// Keeping a monitor for one lock leaves those of all other locks as they were, and makes none where there was none.
pub fn other_locks_stay()
    ensures { (ms : Monitors) (l k : Lock) (m : Monitor) → l ≢ k → monitor_at (with_monitor ms l m) k ≡ monitor_at ms k }
{}

/// A lock that is there has the monitor that is kept for it.
pub fn kept_monitor_is_found()
    ensures { (ms : Monitors) (l : Lock) (m : Monitor) → IsSome (monitor_at ms l) → monitor_at (with_monitor ms l m) l ≡ Some m }
{}
