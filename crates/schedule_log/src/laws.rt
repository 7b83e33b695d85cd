//! Laws over the definitions. Each holds of every log and speaks of no code: it shows that the definitions mean what
//! they should.
//!
//! A law is a call that does nothing, and its contract is the law.

ghost use Rattle.schedule_log.specs.Laws.{SpelledIsRead, PrefixIsShort, LongerIsTrailing, TilesInOrder, ExpansionIsByClock, TilingIsOne, InOrderKeepsAll, GapIsClockInNone, MaximalIsOne, PositionsGrow, FoldedRunIsLawful};

/// Reading a lawful log's spelling gives the log.
pub fn spelled_is_read()
    ensures { SpelledIsRead }
{}

/// Each proper front of a lawful log's spelling is refused as `Short` at its length.
pub fn prefix_is_short()
    ensures { PrefixIsShort }
{}

/// A spelling with one or more bytes added is refused as `Trailing` at the spelling's length.
pub fn longer_is_trailing()
    ensures { LongerIsTrailing }
{}

/// Intervals in order of `first` tile the numbers below n exactly where they follow directly on each other from 0 to n,
/// and two in a row are of two threads.
pub fn tiles_in_order()
    ensures { TilesInOrder }
{}

/// The thread list of a log has one place for each event, and at a clock's place it has the thread of the interval in
/// which the clock lies.
pub fn expansion_is_by_clock()
    ensures { ExpansionIsByClock }
{}

/// Two lawful logs with the same thread at each clock have the same intervals.
pub fn tiling_is_one()
    ensures { TilingIsOne }
{}

/// Putting intervals in order of `first` neither loses nor adds one.
pub fn in_order_keeps_all()
    ensures { InOrderKeepsAll }
{}

/// Intervals leave a gap exactly where a clock below the greatest `last` lies in none of them.
pub fn gap_is_clock_in_none()
    ensures { GapIsClockInNone }
{}

/// There is one list of maximal intervals for the clocks of a thread.
pub fn maximal_is_one()
    ensures { MaximalIsOne }
{}

/// A thread's places in a list of threads with one thread more at its end.
pub fn positions_grow()
    ensures { PositionsGrow }
{}

/// Foldings that noted each clock of a run, each the clocks of its own thread, make a lawful log whose expansion is the
/// run's list of threads.
pub fn folded_run_is_lawful()
    ensures { FoldedRunIsLawful }
{}
