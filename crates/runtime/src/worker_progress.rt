// How far a worker is, and what became of its submissions of which it wasn't told. Used by
// `index_worker`.
ghost use Rattle.std.specs.Prelude.{◌≡◌, ◌+◌, ◌<◌, ◌≤◌, ◌^◌, ◌⊎◌, ℕ, [], false, vec_len};
ghost use Rattle.std.specs.Prelude.{IfOk, MatchBool, MatchOption, MatchResult, OnOk};
ghost use Rattle.std.specs.Bool.{OnTrue};
ghost use Rattle.runtime.specs.Builds.{HasAsked, IndexIn};
ghost use Rattle.runtime.specs.Clients.{Knowledge};
ghost use Rattle.runtime.specs.Logs.{IsWellFormedLog};
ghost use Rattle.runtime.specs.Settles.{AreTokensOf, AskingEnds, HasCounted, IsProgress};
ghost use Rattle.runtime.specs.Settles.{IsSettledUpto, IsUnsettled, IsWithheld, Overflows};
ghost use Rattle.runtime.specs.Settles.{TellsOne};

use crate::answers::{CommandError, RunError};
use crate::client::Client;
use crate::locked_state::End;
use crate::log_prefix::LogPrefix;
use crate::submission_status::SubmissionStatus;
use std::alloc::Global;

/// What a worker built: so many records, in so many transactions.
#[derive(Clone, Copy, Debug, PartialEq, Eq)]
pub struct Built {
    pub records: u64,
    pub steps: u64,
}

/// What a round comes to whose transaction is committed.
#[derive(Clone, Copy)]
pub(crate) enum Round {
    /// So many records were built.
    Built(usize),
    /// The index is marked readable.
    Marked,
}

impl Built {
    /// With a part of so many records more. None where the numbers don't suffice.
    fn with(self, more: usize) -> Option<Built>
        ensures { MatchOption result
            ((2 ^ 64 ≤ self.records + more) ⊎ (2 ^ 64 ≤ self.steps + 1))
            (λ new. (new.records ≡ self.records + more) × (new.steps ≡ self.steps + 1)) }
    {
        let records = self.records.checked_add(more as u64)?;
        let steps = self.steps.checked_add(1)?;
        Some(Built { records, steps })
    }
}

/// A submission of a worker of which it isn't known what became: its number, what its round came
/// to, and the log that ends with its entry.
#[derive(Drop)]
pub(crate) struct Unsettled {
    pub number: u64,
    pub round: Round,
    pub prefix: LogPrefix,
}

/// How far a worker is: what is known to be built, whether the index is known to be marked, and the
/// submissions of which it isn't known what became, in order.
#[derive(Drop)]
pub(crate) struct Progress {
    pub built: Built,
    pub marked: bool,
    pub lost: Vec<Unsettled>,
}

impl Progress {
    /// Nothing is known.
    pub fn new(alloc: Global) -> Progress
        ensures built { (result.built.records ≡ 0) × (result.built.steps ≡ 0) }
        ensures marked { result.marked ≡ false }
        ensures lost { result.lost.items ≡ [] }
    {
        Progress {
            built: Built {
                records: 0,
                steps: 0,
            },
            marked: false,
            lost: Vec::new(alloc),
        }
    }

    /// Counts a round that is committed. It gives up where the numbers don't suffice.
    pub fn count(&mut self, round: Round) -> Result<(), RunError>
        ensures lost { self.new.lost.items ≡ self.old.lost.items }
        ensures counted { MatchResult result (λ _. HasCounted round self.old self.new)
            (λ error. (error ≡ RunError.GaveUp) × Overflows self.old.built round) }
    {
        let more = match round {
            Round::Built(more) => more,
            Round::Marked => {
                self.marked = true;
                return Ok(());
            }
        };
        let Some(built) = self.built.with(more) else {
            return Err(RunError::GaveUp);
        };
        self.built = built;
        Ok(())
    }
}

/// Whether a submission is committed, which the client asks. None where that isn't decided yet. It
/// gives up where it is forgotten.
fn is_committed<E: End>(client: &mut Client<E>, one: &Unsettled) -> Result<Option<bool>, RunError>
    requires name { one.now.prefix.name ≡ client.old.name }
    ensures asked { HasAsked client.old client.new }
    ensures told { (index : IndexIn) → IsUnsettled index client.old one.now →
        1 ≤ one.now.number → one.now.number ≤ client.old.last → MatchResult result
        (λ told. TellsOne client.new one.now told)
        (λ error. IsWithheld client.new one.now.number error) }
    ensures well_formed { OnOk result (IsWellFormedLog client.new.name.origin client.new.log) }
{
    let status = match client.outcome(one.number) {
        Ok(status) => status,
        Err(error) => return Err(RunError::Refused(CommandError::from(error))),
    };
    prove!(client.submissions() <= u64::MAX);
    prove!(one.prefix.len() <= u64::MAX);
    let _known = one.prefix.begins(&client.log());
    match status {
        SubmissionStatus::Pending => Ok(None),
        SubmissionStatus::Committed { .. } => Ok(Some(true)),
        SubmissionStatus::Refused => Ok(Some(false)),
        SubmissionStatus::Forgotten => Err(RunError::GaveUp),
        SubmissionStatus::NotSubmitted => Err(RunError::GaveUp),
    }
}

/// Asks what became of the first submission of which it isn't known, and says whether it is now.
fn settle_first<E: End>(client: &mut Client<E>, progress: &mut Progress) -> Result<bool, RunError>
    requires names { AreTokensOf client.old.name progress.old.lost.items }
    ensures asked { HasAsked client.old client.new }
    ensures names { OnOk result (AreTokensOf client.new.name progress.new.lost.items) }
    ensures fewer { IfOk result (λ one.
        OnTrue one (vec_len progress.new.lost < vec_len progress.old.lost)) }
    ensures settled { (index : IndexIn) (start : Knowledge) (top : ℕ) →
        IsProgress index start client.old top progress.old → MatchResult result
        (λ one. MatchBool one (IsProgress index start client.new top progress.new)
        (IsSettledUpto index start client.new top progress.new))
        (λ error. AskingEnds index start client.new error) }
{
    let Some((first, _)) = progress.lost.as_slice().split_first() else {
        return Ok(false);
    };
    let Some(is_committed) = is_committed(client, first)? else {
        return Ok(false);
    };
    let first = progress.lost.remove(0);
    if !is_committed {
        return Ok(true);
    }
    progress.count(first.round)?;
    Ok(true)
}

/// Asks what became of the submissions of which it isn't known, one after another, as far as they
/// are decided.
pub(crate) fn settle<E: End>(
    client: &mut Client<E>,
    progress: &mut Progress,
) -> Result<(), RunError>
    requires names { AreTokensOf client.old.name progress.old.lost.items }
    ensures asked { HasAsked client.old client.new }
    ensures settled { (index : IndexIn) (start : Knowledge) (top : ℕ) →
        IsProgress index start client.old top progress.old → MatchResult result
        (λ _. IsSettledUpto index start client.new top progress.new)
        (λ error. AskingEnds index start client.new error) }
    ensures well_formed { OnOk result (IsWellFormedLog client.new.name.origin client.new.log) }
{
    while settle_first(client, progress)? {}
    prove!(client.submissions() <= u64::MAX);
    Ok(())
}
