// Laws of logs: a function that does nothing, whose clauses are theorems. It is for callers'
// proofs; no code calls it.
ghost use Rattle.replay.specs.Histories.{HistoriesReplay};
ghost use Rattle.replay.specs.Laws.{ChangesSuffice, LogsStores, PairsSuffice};

/// The stores that a lawful log comes to are the committed ones of its entries. Commands that only
/// look may be left out of it. And where transactions were open at once, as on threads, a log of
/// what those that are committed changed, in the order of their versions, is lawful, and comes to
/// the same map. The pairs of what a log comes to are all of it.
pub fn logs_hold()
    ensures stores { LogsStores }
    ensures suffice { ChangesSuffice }
    ensures histories { HistoriesReplay }
    ensures pairs { PairsSuffice }
{}
