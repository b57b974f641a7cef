// Reads of the published state, without locks. Called by `client`.
ghost use Rattle.std.specs.Prelude.{◌≡◌, ◌⊎◌, ◌<◌, ◌≤◌, ◌++◌, ◌∷◌, [], true, Err, IfOk, IfErr};
ghost use Rattle.std.specs.Prelude.{MatchOption, MatchResult};
ghost use mathlib.Core.List.{IsPrefix};
ghost use Rattle.left_right.specs.Sides.{view as knowledge};
ghost use Rattle.schedule.specs.Known.{IsKnown};
ghost use Rattle.runtime.specs.Logs.{IsOpenOver, log_map, version_of};
ghost use Rattle.runtime.specs.Serves.{IsAnswer, IsUnanswered};
ghost use Rattle.runtime.specs.Publication.{IsFold, IsLater, has_seen};
ghost use Rattle.runtime.specs.Submissions.{recent_outcome};
ghost use Rattle.runtime.specs.Traces.{with_performed};

use crate::log_prefix::LogPrefix;
use crate::publication::{See, StateReader, StateReading};
use crate::published::Published;
use crate::submission_status::SubmissionStatus;
use crate::trace::Trace;
use schedule::{Command, Known, Reply, perform_open};
use std::alloc::{AllocError, Global};
use thiserror::Error;
use txn::Transaction;

/// So many attempts are made to enter the published state, or to have a place for a reader.
pub const TRIES: u32 = 1_000;

/// Why an entry of the published state has no answer.
#[derive(Clone, Copy, Debug, PartialEq, Eq, Error)]
pub enum EnterError {
    /// The state wasn't entered, in `TRIES` attempts; or what is published doesn't begin with the
    /// log at hand; or there is no open transaction.
    #[error("the published state wasn't entered")]
    NotEntered,
    /// The transaction reads longer ago than the window allows.
    #[error("the transaction reads too long ago")]
    TooOld,
    /// Memory ran out.
    #[error("out of memory")]
    Memory,
}

/// Enters the published state. The reader comes back where `TRIES` attempts failed.
fn enter(reader: StateReader) -> Result<StateReading, StateReader>
    requires { (knowledge reader.place).named ≡ true }
    ensures { MatchResult result
        (λ reading. IsFold reading.part.value
        × IsLater (knowledge reader.place).prefix reading.part.value.prefix
        × (knowledge reading.place ≡ has_seen reading.part.value.prefix))
        (λ back. knowledge back.place ≡ knowledge reader.place) }
{
    let mut reader = reader;
    for _ in 0..TRIES {
        match reader.enter_as::<See>() {
            Ok(reading) => return Ok(reading),
            Err(back) => reader = back,
        }
    }
    Err(reader)
}

/// The log that is published, and the reader again. None where the state wasn't entered.
///
/// It waits for nobody.
pub fn look(reader: StateReader) -> (StateReader, Option<LogPrefix>)
    requires { (knowledge reader.place).named ≡ true }
    ensures { MatchOption result.1 (knowledge result.0.place ≡ knowledge reader.place)
        (λ prefix. IsLater (knowledge reader.place).prefix prefix
        × (knowledge result.0.place ≡ has_seen prefix)) }
{
    match enter(reader) {
        Ok(reading) => {
            let prefix = reading.get().prefix.again();
            (reading.leave(), Some(prefix))
        }
        Err(reader) => (reader, None),
    }
}

/// What became of a client's submission of this number, and the log that tells it, which is
/// published; and the reader again. None where the state wasn't entered.
///
/// It waits for nobody.
pub(crate) fn look_up(
    reader: StateReader,
    client: u64,
    number: u64,
) -> (StateReader, Option<(LogPrefix, SubmissionStatus)>)
    requires reader { (knowledge reader.place).named ≡ true }
    requires client { client < (knowledge reader.place).prefix.name.origin.config.places }
    requires number { 1 ≤ number }
    ensures { MatchOption result.1 (knowledge result.0.place ≡ knowledge reader.place)
        (λ found. IsLater (knowledge reader.place).prefix found.0
        × (knowledge result.0.place ≡ has_seen found.0)
        × (found.1 ≡ recent_outcome found.0.name.origin found.0.log client number)) }
{
    match enter(reader) {
        Ok(reading) => {
            let found = status_there(reading.get(), client, number);
            (reading.leave(), Some(found))
        }
        Err(reader) => (reader, None),
    }
}

/// What became of a client's submission of this number, by the published log, which it gives too.
fn status_there(state: &Published, client: u64, number: u64) -> (LogPrefix, SubmissionStatus)
    requires state { IsFold state.now }
    requires client { client < state.now.prefix.name.origin.config.places }
    requires number { 1 ≤ number }
    ensures prefix { result.0 ≡ state.now.prefix }
    ensures status { result.1
        ≡ recent_outcome state.now.prefix.name.origin state.now.prefix.log client number }
{
    prove!(state.prefix.len() <= u64::MAX);
    (state.prefix.again(), state.recent.status(client, number))
}

/// Performs a command in the transaction's store over the servers, where these have pulled a log
/// that begins with the transaction's. A store that is known stands over the transaction's log, and
/// so over theirs.
fn perform_over(
    state: &Published,
    alloc: Global,
    prefix: &LogPrefix,
    tx: &mut Transaction,
    trace: &mut Trace,
    known: &mut Known,
    command: &Command,
) -> Result<Reply, EnterError>
    requires state { IsFold state.now × (state.now.prefix.name ≡ prefix.now.name) }
    requires over { IsOpenOver prefix.now.name.origin prefix.now.log tx.old trace.old }
    requires at { tx.old.read_version ≡ version_of prefix.now.name.origin prefix.now.log }
    requires known { IsKnown trace.old.store
        (log_map prefix.now.name.origin prefix.now.log) known.old.store tx.old }
    ensures known { IsKnown trace.old.store
        (log_map prefix.now.name.origin prefix.now.log) known.new.store tx.new }
    ensures answer { IfOk result (λ reply.
        IsAnswer prefix.now.name.origin prefix.now.log
        tx.old trace.old command.now reply) }
    ensures done { IfOk result (λ reply.
        trace.new ≡ with_performed trace.old (record { command = command.now; reply = reply })) }
    ensures over { IsOpenOver prefix.now.name.origin prefix.now.log tx.new trace.new }
    ensures version { tx.new.read_version ≡ tx.old.read_version }
    ensures store { trace.new.store ≡ trace.old.store }
    ensures refused { IfErr result (λ error.
        IsUnanswered prefix.now state.now.prefix.log error command.now tx.old trace.old
        tx.new trace.new) }
    ensures unentered { result ≡ Err EnterError.NotEntered
        → IsPrefix state.now.prefix.log prefix.now.log }
{
    if !prefix.begins(&state.prefix) {
        return Err(EnterError::NotEntered);
    }
    if !prefix.is_near(&state.prefix) {
        return Err(EnterError::TooOld);
    }
    prove!(prefix.version() <= u64::MAX);
    match perform_open(alloc, command, trace.store(), tx, &state.tier, known) {
        Ok(reply) => {
            trace.add(command, &reply);
            Ok(reply)
        }
        Err(AllocError) => {
            trace.add(command, &Reply::Stopped);
            Err(EnterError::Memory)
        }
    }
}

/// Performs a command in a transaction over this log, and gives the reader back, with the log
/// that was published.
///
/// The reply is the serial store's for what is committed in the log, as the transaction's own
/// accepted commands change it, or a write limit. It waits for nobody. Where memory runs out the
/// transaction has read the first of the command's ranges, and can go on. Where the state wasn't
/// entered, the log that comes back is the transaction's.
pub fn perform_at(
    reader: StateReader,
    alloc: Global,
    prefix: &LogPrefix,
    tx: &mut Transaction,
    trace: &mut Trace,
    command: &Command,
) -> (StateReader, Result<Reply, EnterError>, LogPrefix)
    requires reader { (knowledge reader.place).named ≡ true }
    requires prefix { prefix.now.name ≡ (knowledge reader.place).prefix.name }
    requires over { IsOpenOver prefix.now.name.origin prefix.now.log tx.old trace.old }
    requires at { tx.old.read_version ≡ version_of prefix.now.name.origin prefix.now.log }
    ensures reader { (knowledge result.0.place ≡ knowledge reader.place)
        ⊎ (knowledge result.0.place ≡ has_seen result.2) }
    ensures seen { result.2.name ≡ prefix.now.name }
    ensures answer { IfOk result.1 (λ reply.
        IsAnswer prefix.now.name.origin prefix.now.log
        tx.old trace.old command.now reply) }
    ensures done { IfOk result.1 (λ reply.
        trace.new ≡ with_performed trace.old (record { command = command.now; reply = reply })) }
    ensures over { IsOpenOver prefix.now.name.origin prefix.now.log tx.new trace.new }
    ensures version { tx.new.read_version ≡ tx.old.read_version }
    ensures store { trace.new.store ≡ trace.old.store }
    ensures refused { IfErr result.1 (λ error.
        IsUnanswered prefix.now result.2.log error command.now tx.old trace.old tx.new trace.new) }
    ensures unentered { result.1 ≡ Err EnterError.NotEntered
        → IsPrefix result.2.log prefix.now.log }
{
    let mut known = Known::new();
    perform_open_at(reader, alloc, prefix, tx, trace, &mut known, command)
}

/// The same, where the transaction's store may stand open, as an earlier command of it left it.
pub(crate) fn perform_open_at(
    reader: StateReader,
    alloc: Global,
    prefix: &LogPrefix,
    tx: &mut Transaction,
    trace: &mut Trace,
    known: &mut Known,
    command: &Command,
) -> (StateReader, Result<Reply, EnterError>, LogPrefix)
    requires reader { (knowledge reader.place).named ≡ true }
    requires prefix { prefix.now.name ≡ (knowledge reader.place).prefix.name }
    requires over { IsOpenOver prefix.now.name.origin prefix.now.log tx.old trace.old }
    requires at { tx.old.read_version ≡ version_of prefix.now.name.origin prefix.now.log }
    requires known { IsKnown trace.old.store
        (log_map prefix.now.name.origin prefix.now.log) known.old.store tx.old }
    ensures known { IsKnown trace.old.store
        (log_map prefix.now.name.origin prefix.now.log) known.new.store tx.new }
    ensures reader { (knowledge result.0.place ≡ knowledge reader.place)
        ⊎ (knowledge result.0.place ≡ has_seen result.2) }
    ensures seen { result.2.name ≡ prefix.now.name }
    ensures answer { IfOk result.1 (λ reply.
        IsAnswer prefix.now.name.origin prefix.now.log
        tx.old trace.old command.now reply) }
    ensures done { IfOk result.1 (λ reply.
        trace.new ≡ with_performed trace.old (record { command = command.now; reply = reply })) }
    ensures over { IsOpenOver prefix.now.name.origin prefix.now.log tx.new trace.new }
    ensures version { tx.new.read_version ≡ tx.old.read_version }
    ensures store { trace.new.store ≡ trace.old.store }
    ensures refused { IfErr result.1 (λ error.
        IsUnanswered prefix.now result.2.log error command.now tx.old trace.old tx.new trace.new) }
    ensures unentered { result.1 ≡ Err EnterError.NotEntered
        → IsPrefix result.2.log prefix.now.log }
{
    match enter(reader) {
        Ok(reading) => {
            let state = reading.get();
            let answer = perform_over(state, alloc, prefix, tx, trace, known, command);
            let seen = state.prefix.again();
            (reading.leave(), answer, seen)
        }
        Err(reader) => (reader, Err(EnterError::NotEntered), prefix.again()),
    }
}
