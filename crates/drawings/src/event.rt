// What is drawn of a schedule. Used by every module that draws one; made by `recordctl`.

/// Who takes a step.
#[derive(Clone, Copy, Debug, PartialEq, Eq, Drop)]
pub enum Lane {
    /// The client of this number.
    Client(u64),
    /// A resolver.
    Resolvers,
    /// A log.
    Logs,
    /// A storage server.
    Servers,
    /// Who reports to clients.
    Reports,
    /// All roles.
    Roles,
}

/// What became of a submitted transaction.
#[derive(Debug, Drop)]
pub struct Outcome {
    /// Whose it was.
    pub client: u64,
    /// What its client is told.
    pub words: String,
    /// The version that changed what it had read, where that is why it isn't committed.
    pub seen: Option<u64>,
}

/// What a step does.
#[derive(Debug, Drop)]
pub enum Act {
    /// It begins a transaction.
    Begin,
    /// It reads.
    Read,
    /// It writes.
    Write,
    /// It submits a transaction at this version.
    Submit(u64),
    /// It ends a transaction that isn't submitted.
    End,
    /// It is refused.
    Refused,
    /// It is a role's, and these are told what became of theirs.
    Work(Vec<Outcome>),
}

/// A step of a schedule.
#[derive(Debug, Drop)]
pub struct Event {
    /// Who takes it.
    pub lane: Lane,
    /// The step, in words.
    pub step: String,
    /// What it replies.
    pub reply: String,
    /// What it does.
    pub act: Act,
}
