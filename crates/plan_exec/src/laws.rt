// Laws of plans over the map of a store: functions that do nothing, whose clauses are theorems.
// They are for callers' proofs; no code calls them.
ghost use Rattle.plan_exec.specs.Laws.{PlannedAnswer, PlansAnswer, StatesAreTold, StoresAreExact, UsableAreScannable};
ghost use Rattle.plan_exec.specs.Within.{PlansReadTheirScansUntil, PlansReadTheirScans};

/// The map that holds a store has exactly the records of each type of its schema, and exactly their
/// entries in each readable index over it.
pub fn stores_are_exact()
    ensures { StoresAreExact }
{}

/// The indexes that a plan may use by a store's schema and by the states of its indexes are readable
/// indexes of the store over the type.
pub fn usable_are_scannable()
    ensures { UsableAreScannable }
{}

/// The states that `Store::index_states` answers are those of each store that was opened so.
pub fn states_are_told()
    ensures { StatesAreTold }
{}

/// Over the map that holds a store, a plan that is right for a query has rows, and the query allows
/// them over the store's records of its type. So it is for what `plan_query` plans by the store's
/// schema and the states of its indexes.
pub fn plans_answer()
    ensures right { PlansAnswer }
    ensures planned { PlannedAnswer }
{}

/// Executing a plan asks for keys of its scans' ranges alone, and for the keys of records whose
/// primary keys stand in entries that its scans have, and no more is kept as read. So it is for
/// each map, whole or damaged, and also where the rows aren't asked for to the end.
pub fn plans_read_their_scans()
    ensures within { PlansReadTheirScans }
    ensures until { PlansReadTheirScansUntil }
{}
