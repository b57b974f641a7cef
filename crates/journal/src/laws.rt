// Laws of what a file stands for: a function that does nothing, whose clauses are theorems. It is
// for callers' proofs; no code calls it.
ghost use Rattle.journal.specs.Laws.{AreSplit, ChangesAreNoEnd, DamageStands, EndsStand};

/// Each file is the blocks of the entries that are read of it, and then an end or damage. Blocks of
/// any entries and an end stand for these entries, and damage behind them is told at its place.
/// Other bytes in a block behind which something stands make no end of it.
pub fn readings_are_whole_beginnings()
    ensures split { AreSplit }
    ensures ends { EndsStand }
    ensures damaged { DamageStands }
    ensures no_end { ChangesAreNoEnd }
{}
