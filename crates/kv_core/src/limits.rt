// Size limits. Held against mutations by `size` and `txn`, against the splits of a configuration by
// `cluster_core`.

/// The most bytes of a key, as in FoundationDB ("Known Limitations").
pub const MAX_KEY_BYTES: usize = 10_000;

/// The most bytes of the end of a range: the next key after the largest key has one more byte.
pub const MAX_RANGE_END_BYTES: usize = MAX_KEY_BYTES + 1;

/// The most bytes of a value or an operand, as of a value in FoundationDB ("Known Limitations").
pub const MAX_VALUE_BYTES: usize = 100_000;

/// The most bytes of a transaction's mutations. FoundationDB limits a transaction to as many
/// bytes ("Known Limitations"), and counts what it reads too.
pub const MAX_TRANSACTION_BYTES: u64 = 10_000_000;
