//! Laws over the definitions. A law is a call that does nothing, and its contract is the law: it shows that the definitions
//! mean what they should, whatever the runs of schedules show.

ghost use Rattle.switch_reducer.specs.Laws.{EndsReduced, NeedsFewTests, ReducedIsNoLonger, ReducedStaysWithin, SearchEnds, SearchFalls, SortedIsSame, SortedRises};

/// The times in order rise, and are the times.
pub fn sorted_is_in_order()
    ensures order { SortedRises }
    ensures same { SortedIsSame }
{}

/// Each step of the search lowers a number.
pub fn search_falls()
    ensures { SearchFalls }
{}

/// The last state of a search has no follower.
pub fn search_ends()
    ensures { SearchEnds }
{}

/// Where the work on a failing schedule ends no single time can be left out.
pub fn ends_reduced()
    ensures { EndsReduced }
{}

/// For m times at most 8 * m * m tests are needed.
pub fn needs_few_tests()
    ensures { NeedsFewTests }
{}

/// A reduced schedule has no more times than the given one.
pub fn reduced_is_no_longer()
    ensures { ReducedIsNoLonger }
{}

/// It has no time above all of those.
pub fn reduced_stays_within()
    ensures { ReducedStaysWithin }
{}
