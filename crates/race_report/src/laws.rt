//! Laws of the order of happens-before, of races and of their report. Each holds of every history; its contract is the law,
//! and the function does nothing.

ghost use Rattle.race_report.specs.Laws.{BeforeIsEarlier, BeforeIsIrreflexive, BeforeIsTransitive, ClocksTellOrder, EventsAreOfThreads, HistoryHasOneReport, OneThreadHasNoRace, PlaceHasOneReport, RacesAreOfDeclared, ThreadIsInOrder};

/// Happens-before is a strict order, which goes with the clock: an event is before later ones alone.
pub fn before_is_a_strict_order()
    ensures irreflexive { BeforeIsIrreflexive }
    ensures transitive { BeforeIsTransitive }
    ensures earlier { BeforeIsEarlier }
{}

/// The vector clocks of two events tell exactly whether the one is before the other: by the component of the first one's
/// thread.
pub fn clocks_tell_order()
    ensures { ClocksTellOrder }
{}

/// A thread's own events are in order, so that a run of one thread has no race.
pub fn one_thread_is_in_order()
    ensures order { ThreadIsInOrder }
    ensures race_free { OneThreadHasNoRace }
{}

/// A history has one report, and in it a place has at most one race.
pub fn history_has_one_report()
    ensures place { PlaceHasOneReport }
    ensures whole { HistoryHasOneReport }
{}

/// The history of a run is one that `races` takes, and that `races_text` can name: its events are of threads that were
/// started, and its statics are declared.
pub fn legal_history_names_what_is_there()
    ensures threads { EventsAreOfThreads }
    ensures places { RacesAreOfDeclared }
{}
