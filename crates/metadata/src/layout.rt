// The places of a store: the number of its place is the first element of a key behind the store's
// prefix. Called by `record_store`, `index_maint` and `plan_exec`.

/// The place of the schema.
pub const PLACE_OF_SCHEMA: u64 = 0;

/// The place of records.
pub const PLACE_OF_RECORDS: u64 = 1;

/// The place of the entries of VALUE indexes, and of the totals of the others.
pub const PLACE_OF_ENTRIES: u64 = 2;

/// The place of the states of indexes.
pub const PLACE_OF_STATES: u64 = 5;

/// The place of the built ranges of indexes.
pub const PLACE_OF_BUILT_RANGES: u64 = 6;
