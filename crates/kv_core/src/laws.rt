// Laws of ranges, maps, sums and sizes: functions that do nothing, whose clauses are theorems. They
// are for callers' proofs; no code calls them.
ghost use Rattle.kv_core.specs.MapLaws.{LimitsInBytes, PairsByKey, RefusalsBySize, SumsJoin, SumsWrap, ValuesByKey};
ghost use Rattle.kv_core.specs.RangeLaws.{AddedCovers, AgreeByPairs, MeetsInAKey, PartsByKey};

/// Two ranges meet exactly where some key lies in both, and a list with a range added covers just
/// the keys of the list and those of the range. The parts of a range before a key and from it on
/// share its keys. Maps agree on ranges where they have the same pairs there.
pub fn ranges_by_their_keys()
    ensures meets { MeetsInAKey }
    ensures added { AddedCovers }
    ensures parts { PartsByKey }
    ensures agree { AgreeByPairs }
{}

/// Mutations make of the value at a key what they make of it alone, and the pairs of a range are
/// those of its keys, in their order.
pub fn maps_by_their_keys()
    ensures values { ValuesByKey }
    ensures pairs { PairsByKey }
{}

/// A sum has the operand's length and wraps there. Two operands, the second no longer than the
/// first, can be added as one, their sum.
pub fn sums_wrap()
    ensures wrap { SumsWrap }
    ensures join { SumsJoin }
{}

/// A key has at most 10,000 bytes, the end of a range 10,001, a value 100,000, and the mutations
/// of a transaction 10,000,000.
pub fn limits_in_bytes()
    ensures { LimitsInBytes }
{}

/// Whether mutations are refused depends on those before them by their bytes alone.
pub fn refusals_by_size()
    ensures { RefusalsBySize }
{}
