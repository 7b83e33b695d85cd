//! Laws over the definitions. A law is a call that does nothing, and its contract is the law.

ghost use Rattle.schedule_model.specs.Laws.{SameFaultsAreEqual, OrderIsFree, FewAreUnresolved};

/// Two faults are counted as the same exactly where they are equal.
pub fn same_faults_are_equal()
    ensures { SameFaultsAreEqual }
{}

/// Schedules of the same times in another order agree.
pub fn order_is_free()
    ensures { OrderIsFree }
{}

/// No more schedules of a list are unresolved than there are.
pub fn few_are_unresolved()
    ensures { FewAreUnresolved }
{}
