// What a client is told of a submission of its own. Told by `recent_outcomes`, handed on by
// `published_reads` and `client`.

/// What became of a client's submission of a number.
#[derive(Clone, Copy, Debug, PartialEq, Eq)]
pub enum SubmissionStatus {
    /// It is committed at this version.
    Committed { version: u64 },
    /// It is refused with a conflict: nothing of it is committed, and nothing ever will be.
    Refused,
    /// It isn't decided yet. Its place in the log is fixed, and whoever commits next finishes it.
    Pending,
    /// What became of it isn't kept any more: the client has made `KEPT_OUTCOMES` or more after it.
    Forgotten,
    /// No submission of this client has the number.
    NotSubmitted,
}
