// Laws of what is logged: functions that do nothing, whose clauses are theorems. They are for
// callers' proofs; no code calls them.
ghost use Rattle.logged_schedule.specs.Laws.{EntriesTell, LogsCommits, LogsGoOn};

/// The entry of each submission tells of the transaction that was submitted, as the law of replay
/// on histories asks of an entry.
pub fn entries_tell_of_commits()
    ensures { EntriesTell }
{}

/// What is logged of a schedule is what it has committed: just the transactions that it lists, in
/// the order of their versions.
pub fn commits_are_logged()
    ensures { LogsCommits }
{}

/// The log that a schedule has written over a lawful one is lawful, and comes to the schedule's
/// database: so an opening never refuses it, and goes on with what was there.
pub fn logs_go_on()
    ensures { LogsGoOn }
{}
