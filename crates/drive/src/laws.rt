// Laws of a host's database, and of its rounds: functions that do nothing, whose clauses are
// theorems. They are for callers' proofs; no code calls them.
ghost use Rattle.drive.specs.Histories.{AnswersAreCalls, HostHistoriesHold};
ghost use Rattle.drive.specs.Rounds.{RoundsEnd, RoundsEndOver};

/// Where an engine commits each request only if what was read has the same pairs just before the
/// version of the commit, and versions rise, with gaps or without: at each version its database
/// holds just the store that the calls of the committed transactions make, in the order of their
/// versions, with its readable indexes exact; and the rows that any transaction was answered are
/// those of the store at the version that it read. The calls of a transaction are those that
/// `drive` has answered.
pub fn histories_of_hosts()
    ensures hold { HostHistoriesHold }
    ensures calls { AnswersAreCalls }
{}

/// A host that reads of each range that is wanted one pair at least, where there is one, from the
/// end on that is told, and keeps what it has, is asked a bounded number of times: for each range
/// that the commands read in its rounds, once for each pair of the database from either end of the
/// range, and once more. Where the pairs that it has determine what the commands read, the bound is
/// one of the pairs of the database and of how many ranges are read over any.
pub fn rounds_of_hosts()
    ensures ranges { RoundsEnd }
    ensures pairs { RoundsEndOver }
{}
