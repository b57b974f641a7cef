// Laws of a build's progress: functions that do nothing, whose clauses are theorems. They are for
// callers' proofs; no code calls them.
ghost use Rattle.online_builder.specs.Advance.{GapsAreCounted, GapsAreCountedOnce, StepsAdvance};

/// A set of positions has just one number of gaps.
pub fn gaps_are_counted()
    ensures some { GapsAreCounted }
    ensures one { GapsAreCountedOnce }
{}

/// A step of a builder leaves less to be built: as many unbuilt records fewer as it built, no more
/// gaps than before, and fewer where it built no record. So after finitely many steps with nothing
/// between them every position is built.
pub fn steps_advance()
    ensures { StepsAdvance }
{}
