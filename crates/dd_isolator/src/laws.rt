//! Laws over the definitions. A law is a call that does nothing, and its contract is the law: it shows that the definitions
//! mean what they should, whatever the runs of schedules show.

ghost use Rattle.dd_isolator.specs.Laws.{EndsOneMinimal, NeedsFewTests, PartsHaveUnits, ResolvedTestsHalve, SearchEnds, SearchFalls, ShiftsAreSingle, ShiftsAreUnits, ShiftsExist};

/// At a place where two lists differ one of them can be moved by a unit toward the other.
pub fn shifts_exist()
    ensures { ShiftsExist }
{}

/// At each place there is at most one unit shift.
pub fn shifts_are_single()
    ensures { ShiftsAreSingle }
{}

/// The unit shift of a place where two lists differ is one of the units between them.
pub fn shifts_are_units()
    ensures { ShiftsAreUnits }
{}

/// No part of the units is empty.
pub fn parts_have_units()
    ensures { PartsHaveUnits }
{}

/// Each step of the search lowers a number.
pub fn search_falls()
    ensures { SearchFalls }
{}

/// The last state of a search has no follower.
pub fn search_ends()
    ensures { SearchEnds }
{}

/// Where a search ends no unit shift narrows the difference.
pub fn ends_one_minimal()
    ensures { EndsOneMinimal }
{}

/// For u units at most 8 * u * u tests are needed.
pub fn needs_few_tests()
    ensures { NeedsFewTests }
{}

/// Where no test is unresolved, each test halves the difference.
pub fn resolved_tests_halve()
    ensures { ResolvedTestsHalve }
{}
