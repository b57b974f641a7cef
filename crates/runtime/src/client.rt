// Clients, each with a reader of its own. Made by `db` for whoever opens a database; used by
// `transaction`, `retrying` and `index_worker`.
ghost use Rattle.std.specs.Prelude.{◌≡◌, ℕ, [], Some, None, IfOk, IfErr, IfSome, OnOk, OnErr, Ok};
ghost use Rattle.std.specs.Prelude.{true, false, Err, IsErrOf, MatchOption, ◌<◌, ◌≤◌, ◌^◌};
ghost use Rattle.std.specs.Arc.{arc_value};
ghost use Rattle.left_right.specs.Sides.{view as knowledge};
ghost use mathlib.Core.List.{IsPrefix};
ghost use Rattle.schedule.specs.Past.{is_changed};
ghost use Rattle.runtime.specs.Clients.{IsFresh, IsSameTransaction, knows_that};
ghost use Rattle.runtime.specs.History.{log_prefix};
ghost use Rattle.runtime.specs.Commits.{Answers, IsDue, IsLogOf, IsStoredThen, answer_unless};
ghost use Rattle.runtime.specs.Commits.{commit_answer, unshown_answer};
ghost use Rattle.runtime.specs.Keeping.{IsSafe};
ghost use Rattle.runtime.specs.Logs.{IsWellFormedLog};
ghost use Rattle.runtime.specs.Serves.{IsAnswer, IsUnanswered};
ghost use Rattle.runtime.specs.Publication.{knows};
ghost use Rattle.runtime.specs.Submissions.{told_status};
ghost use Rattle.runtime.specs.Traces.{attempts_of, with_performed};

use crate::answers::{CommitError, Done, Seen};
use crate::commit_lock::{CommitLock, LockKey};
use crate::critical_section::{critical_section, look_there};
use crate::handing_in::Told;
use crate::locked_state::{End, LockedState};
use crate::log_prefix::LogPrefix;
use crate::open_transaction::OpenTransaction;
use crate::outcome::Outcome;
use crate::publication::StateReader;
use crate::published_reads::{EnterError, look, look_up, perform_open_at};
use crate::submission_status::SubmissionStatus;
use record_store::StoreNumber;
use schedule::{Command, Known, Reply};
use std::alloc::Global;
use std::marker::Model;
use std::snapshot::Snapshot;
use std::sync::{Arc, Wait};

/// A client, for one thread. It has one open transaction at most, and keeps its store open from one
/// command to the next.
pub struct Client<E: End> {
    alloc: Global,
    lock: Arc<CommitLock<LockedState<E>>>,
    key: LockKey<LockedState<E>>,
    reader: Option<StateReader>,
    me: LogPrefix,
    number: u64,
    last: u64,
    begun: Option<OpenTransaction>,
    known: Known,
}

// Written out, so that no proof of a caller has to take its parts apart where one is dropped.
impl<E: End> Drop for Client<E> {
    fn drop(self) {
        let Client {
            alloc: _,
            lock,
            key,
            reader,
            me,
            number: _,
            last: _,
            begun,
            known,
        } = self;
        drop(lock);
        drop(key);
        drop(reader);
        drop(me);
        drop(begun);
        drop(known);
    }
}

impl<E: End> Model for Client<E> {
    ghost use Rattle.std.specs.Prelude.{◌≡◌, ◌<◌, [], Some};
    ghost use Rattle.std.specs.Arc.{arc_value};
    ghost use Rattle.left_right.specs.Sides.{view as knowledge};
    ghost use Rattle.runtime.specs.Clients.{Knowledge, knows_that, IsBegun, IsKnownIn};
    ghost use Rattle.runtime.specs.Clients.{HasReader, Remembers};
    ghost use Rattle.std.specs.Coded.{codes};
    ghost use Rattle.runtime.specs.contracts.log_entry.Entry as entries;
    ghost use Rattle.runtime.specs.contracts.open_transaction.OpenTransaction as works;
    ghost use Rattle.command_log.specs.contracts.entry.Entry as kept_entries;

    ghost Value = { Knowledge };

    ghost coded = { Prim.hlevel
        (codes, entries.the_row.coded, works.the_row.coded, kept_entries.the_row.coded) };

    ghost view = { λ c. knows_that c.me.name c.me.log c.number c.last c.begun };

    ghost invariant = { λ c.
        (c.key.table_id ≡ (arc_value c.lock).table.shared.table_id)
        × (c.key.me.1 ≡ [])
        × (c.key.me.0.about.value.state.name ≡ c.me.name)
        × HasReader (λ r. Remembers c.me (knowledge r.place)) c.reader
        × IsBegun c.me c.begun
        × (c.key.me.0.client ≡ Some c.number)
        × (c.key.me.0.last ≡ c.last)
        × (c.number < c.me.name.origin.config.places)
        × IsKnownIn c.begun c.known.store };
}

impl<E: End> Client<E> {
    /// A client of a database, which has seen this log.
    pub(crate) fn new(
        alloc: Global,
        lock: Arc<CommitLock<LockedState<E>>>,
        key: LockKey<LockedState<E>>,
        reader: StateReader,
        me: LogPrefix,
        number: u64,
    ) -> Client<E>
        requires key { (key.table_id ≡ (arc_value lock).table.shared.table_id) × (key.me.1 ≡ [])
            × (key.me.0.about.value.state.name ≡ me.name) × (key.me.0.client ≡ Some number)
            × (key.me.0.last ≡ 0) }
        requires reader { knowledge reader.place ≡ knows me.name }
        requires number { number < me.name.origin.config.places }
        ensures { result ≡ knows_that me.name me.log number 0 None }
    {
        Client {
            alloc,
            lock,
            key,
            reader: Some(reader),
            me,
            number,
            last: 0,
            begun: None,
            known: Known::new(),
        }
    }

    /// How many submissions of the client were given a number: the last number, 0 before the first
    /// one. It takes no memory.
    pub fn submissions(&self) -> u64
        ensures number { result ≡ self.now.last }
        ensures well_formed { IsWellFormedLog self.now.name.origin self.now.log }
    {
        let last = self.last;
        self.me.len();
        last
    }

    /// What became of the client's submission of this number, by the published log, which is the
    /// client's from now on. It waits for nobody.
    ///
    /// A number that was given is `Committed` or `Refused` where that log has its entry, and else
    /// `Pending`; it is `Forgotten` where the log has `KEPT_OUTCOMES` or more of the client's after
    /// it. Any other number is `NotSubmitted`.
    pub fn outcome(&mut self, number: u64) -> Result<SubmissionStatus, EnterError>
        ensures outcome { IfOk result (λ status. status
            ≡ told_status self.new.name.origin self.new.log self.old.number self.old.last number) }
        ensures log { IsPrefix self.old.log self.new.log }
        ensures same { self.new
            ≡ knows_that self.old.name self.new.log self.old.number self.old.last self.old.begun }
        ensures why { IfErr result (λ error.
            (error ≡ EnterError.NotEntered) × (1 ≤ number) × (number ≤ self.old.last)) }
        ensures refused { OnErr result (self.new ≡ self.old) }
    {
        if number == 0 || self.last < number {
            return Ok(SubmissionStatus::NotSubmitted);
        }
        let Some(reader) = self.reader.take() else {
            unreachable!()
        };
        let (reader, found) = look_up(reader, self.number, number);
        self.reader = Some(reader);
        let Some((prefix, status)) = found else {
            return Err(EnterError::NotEntered);
        };
        if self.me.begins(&prefix) {
            self.me = prefix;
            Ok(status)
        } else {
            Err(EnterError::NotEntered)
        }
    }

    /// The longest log that the client has entered or learnt.
    pub fn log(&self) -> LogPrefix
        ensures { result ≡ log_prefix self.now.name self.now.log }
    {
        self.me.again()
    }

    /// What keeps the database's log, as it is now, and the published log, where what is committed
    /// is kept: each crash leaves what is kept of all entries of that log, and maybe more after it.
    /// None where nothing is kept. It waits for those that commit.
    ///
    /// So it is of the client's own log where the published one begins with that.
    pub fn look_at_log<R: Wait>(&mut self, rt: &R) -> Option<(Snapshot<E>, LogPrefix)>
        ensures kept { MatchOption result (self.old.name.kept ≡ false) (λ seen.
            (seen.1.name ≡ self.old.name) × IsSafe E.may_leave E.is_log self.old.name.origin
            seen.1.log seen.0.value) }
        ensures same { self.new ≡ self.old }
    {
        look_there(rt, &self.lock, &mut self.key)
    }

    /// Where the client takes memory.
    pub(crate) fn allocator(&self) -> Global {
        self.alloc
    }

    /// Enters the published log, and begins a transaction in a store there.
    pub(crate) fn begin_here(&mut self, store: StoreNumber) -> Result<(), EnterError>
        ensures begun { OnOk result ((open_tx : _) × (self.new.begun ≡ Some open_tx)
            × IsFresh self.new.name self.new.log store open_tx) }
        ensures log { IsPrefix self.old.log self.new.log }
        ensures same { self.new
            ≡ knows_that self.old.name self.new.log self.old.number self.old.last self.new.begun }
        ensures refused { OnErr result (self.new ≡ self.old) }
        ensures why { IfErr result (λ error. error ≡ EnterError.NotEntered) }
    {
        let Some(reader) = self.reader.take() else {
            unreachable!()
        };
        let (reader, seen) = look(reader);
        self.reader = Some(reader);
        let Some(prefix) = seen else {
            return Err(EnterError::NotEntered);
        };
        if !self.me.begins(&prefix) {
            return Err(EnterError::NotEntered);
        }
        self.me = prefix.again();
        self.known.let_go();
        self.begun = Some(OpenTransaction::new(self.alloc, prefix, store));
        Ok(())
    }

    /// Performs a command in the open transaction.
    pub(crate) fn perform_here(&mut self, command: &Command) -> Result<Reply, EnterError>
        ensures same { self.new
            ≡ knows_that self.old.name self.new.log self.old.number self.old.last self.new.begun }
        ensures log { IsPrefix self.old.log self.new.log }
        ensures answer { (open_tx : _) → self.old.begun ≡ Some open_tx → IfOk result (λ reply.
            IsAnswer open_tx.prefix.name.origin open_tx.prefix.log
            open_tx.transaction open_tx.trace command.now reply) }
        ensures open_then { OnOk result ((open_tx : _) × (self.old.begun ≡ Some open_tx)) }
        ensures grown { (open_tx : _) → self.old.begun ≡ Some open_tx → IfOk result (λ reply.
            (after : _) × (self.new.begun ≡ Some after) × IsSameTransaction open_tx after
            × (after.trace
            ≡ with_performed open_tx.trace (record { command = command.now; reply = reply }))) }
        ensures refused { (open_tx : _) → self.old.begun ≡ Some open_tx → IfErr result (λ error.
            (after : _) × (self.new.begun ≡ Some after) × IsSameTransaction open_tx after
            × IsUnanswered open_tx.prefix self.new.log error command.now open_tx.transaction open_tx.trace
            after.transaction after.trace) }
    {
        let Some(open_tx) = self.begun.take() else {
            return Err(EnterError::NotEntered);
        };
        let Some(reader) = self.reader.take() else {
            unreachable!()
        };
        let OpenTransaction {
            prefix,
            mut transaction,
            mut trace,
        } = open_tx;
        let (reader, answer, seen) = perform_open_at(
            reader,
            self.alloc,
            &prefix,
            &mut transaction,
            &mut trace,
            &mut self.known,
            command,
        );
        self.reader = Some(reader);
        self.me = self.me.longer(&seen);
        self.begun = Some(OpenTransaction {
            prefix,
            transaction,
            trace,
        });
        answer
    }

    /// Learns the log that another client has seen: whatever is begun from now on begins with it.
    pub fn learn(&mut self, seen: Seen)
        requires { seen.prefix.name ≡ self.old.name }
        ensures same { self.new
            ≡ knows_that self.old.name self.new.log self.old.number self.old.last self.old.begun }
        ensures old { IsPrefix self.old.log self.new.log }
        ensures seen { IsPrefix seen.prefix.log self.new.log }
    {
        self.me = self.me.longer(&seen.prefix);
    }

    /// Commits what was begun. It gives also the log that ends with the submission's entry, where
    /// the history has that.
    #[tactic(auto, using(crate::proofs::Serving::unchanged))]
    pub(crate) fn commit_here<R: Wait>(
        &mut self,
        rt: &R,
    ) -> (Result<Done, CommitError>, Option<LogPrefix>)
        ensures answer { (open_tx : _) → self.old.begun ≡ Some open_tx →
            Answers self.old self.new open_tx.transaction open_tx.trace result.0 }
        ensures read_only { (open_tx : _) → self.old.begun ≡ Some open_tx →
            is_changed (attempts_of open_tx.trace.attempts.list) ≡ false → result.0 ≡ Ok Done.ReadOnly }
        ensures due { IsDue self.old result.1 }
        ensures closed { IsErrOf result.0 CommitError.Closed → self.old.name.kept ≡ true }
        ensures stored { IsStoredThen E.may_leave E.is_log result.0 }
        ensures log { IsPrefix self.old.log self.new.log }
        ensures same { self.new
            ≡ knows_that self.old.name self.new.log self.old.number self.new.last None }
    {
        let Some(
            OpenTransaction {
                prefix,
                transaction,
                trace,
            },
        ) = self.begun.take()
        else {
            return (Err(CommitError::Memory), None);
        };
        self.known.let_go();
        let request = transaction.into_request();
        if request.mutations.is_empty() {
            return (Ok(Done::ReadOnly), None);
        }
        let told = critical_section(
            rt,
            self.alloc,
            &self.lock,
            &mut self.key,
            self.number,
            &prefix,
            request,
            trace,
        );
        let Told {
            outcome,
            last,
            prefix,
            due,
            is_closed,
        } = told;
        self.me = learnt(&self.me, &prefix);
        self.last = last;
        (answer_to(outcome, prefix, is_closed), due)
    }
}

/// What is known with the log that was published.
fn learnt(me: &LogPrefix, seen: &Option<LogPrefix>) -> LogPrefix
    requires { IsLogOf me.now.name seen.now }
    ensures name { result.name ≡ me.now.name }
    ensures log { IsPrefix me.now.log result.log }
    ensures seen { IfSome seen.now (λ prefix.
        (prefix.name ≡ me.now.name) × IsPrefix prefix.log result.log) }
{
    match seen {
        Some(seen) => me.longer(seen),
        None => me.again(),
    }
}

/// The answer that an outcome is, with the log that shows it; or that the database is closed.
fn answer_to(
    outcome: Outcome,
    prefix: Option<LogPrefix>,
    is_closed: bool,
) -> Result<Done, CommitError>
    ensures { result ≡ answer_unless is_closed (commit_answer outcome prefix) }
{
    if is_closed {
        return Err(CommitError::Closed);
    }
    let Some(prefix) = prefix else {
        return unshown(outcome);
    };
    match outcome {
        Outcome::Committed { version } => Ok(Done::Committed {
            version,
            seen: Seen { prefix },
        }),
        Outcome::Conflict { seen, range } => Err(CommitError::Conflict { seen, range }),
        Outcome::TooOld => Err(CommitError::TooOld),
        Outcome::VersionsExhausted => Err(CommitError::VersionsExhausted),
        Outcome::Unknown => Err(CommitError::Unknown),
        Outcome::Memory => Err(CommitError::Memory),
    }
}

/// The answer where no log shows the outcome: only whether the request was submitted is told.
fn unshown(outcome: Outcome) -> Result<Done, CommitError>
    ensures { result ≡ unshown_answer outcome }
{
    match outcome {
        Outcome::Committed { .. } | Outcome::Conflict { .. } | Outcome::Unknown => {
            Err(CommitError::Unknown)
        }
        Outcome::TooOld | Outcome::VersionsExhausted | Outcome::Memory => Err(CommitError::Memory),
    }
}
