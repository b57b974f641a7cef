// Laws of what pairs are read as: a function that does nothing, whose clauses are theorems. It is for
// callers' proofs and for readers; no code calls it.
ghost use Rattle.planner.specs.ReadBack.{CellsAreReadBack, EntriesAreReadBack};
ghost use Rattle.planner.specs.ReadBack.{RecordsAreReadBack, TuplesAreReadBack};

/// Bytes are read as just the tuple that they spell, and as just the cells that are stored in them.
/// A pair is read as just the record, or the primary key of an entry, whose pair it is: so what a
/// plan's meaning makes of pairs is what was written, and nothing where no such thing was.
pub fn pairs_are_read_back()
    ensures tuples { TuplesAreReadBack }
    ensures cells { CellsAreReadBack }
    ensures records { RecordsAreReadBack }
    ensures entries { EntriesAreReadBack }
{}
