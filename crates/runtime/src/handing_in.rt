// What is done with one request under the commit lock: it is handed in, and where the log isn't
// kept its entry is published. Called by `critical_section`.
ghost use Rattle.std.specs.Prelude.{◌≡◌, ◌++◌, IfSome, None, false, slice_index, true};
ghost use Rattle.std.specs.Bool.{OnFalse, OnTrue};
ghost use Rattle.runtime.specs.Commits.{IsLogOf};
ghost use Rattle.runtime.specs.History.{log_prefix};
ghost use Rattle.runtime.specs.Keeping.{IsOutcomeKnown, IsOn, is_closed, kept_by, told_if};
ghost use Rattle.runtime.specs.Logs.{IsOpenOver};
ghost use Rattle.runtime.specs.Outcomes.{GivesOne, IsEndOf, Shows, gives_number, next_entry};

use crate::commit_state::CommitState;
use crate::keeping::Keeping;
use crate::locked_state::{End, LockedState};
use crate::log_prefix::LogPrefix;
use crate::outcome::{HandedIn, Outcome};
use crate::trace::Trace;
use command_log::{Changes, Entry};
use kv_core::CommitRequest;
use record_store::StoreNumber;
use std::sync::Wait;

/// What a client is told of its request: what became of it, the client's last number then, the log
/// that shows the outcome, where there is one, and the one that ends with its entry, where it has
/// one. Where the database is closed it wasn't handed in, and the outcome is `Memory`.
#[derive(Drop)]
pub struct Told {
    pub outcome: Outcome,
    pub last: u64,
    pub prefix: Option<LogPrefix>,
    pub due: Option<LogPrefix>,
    pub is_closed: bool,
}

impl Told {
    /// The request was handed in.
    fn shown(told: Outcome, last: u64, prefix: Option<LogPrefix>, due: Option<LogPrefix>) -> Told
        ensures { result ≡ record {
          outcome = told;
          last = last;
          prefix = prefix;
          due = due;
          is_closed = false;
        } }
    {
        Told {
            outcome: told,
            last,
            prefix,
            due,
            is_closed: false,
        }
    }

    /// The same, with no log that shows the outcome.
    pub fn unshown(self) -> Told
        ensures { result ≡ record {
          outcome = self.outcome;
          last = self.last;
          prefix = None;
          due = self.due;
          is_closed = self.is_closed;
        } }
    {
        Told {
            outcome: self.outcome,
            last: self.last,
            prefix: None,
            due: self.due,
            is_closed: self.is_closed,
        }
    }

    /// The request wasn't handed in.
    fn unsubmitted(last: u64, is_closed: bool) -> Told
        ensures { result ≡ record {
          outcome = Outcome.Memory;
          last = last;
          prefix = None;
          due = None;
          is_closed = is_closed;
        } }
    {
        Told {
            outcome: Outcome::Memory,
            last,
            prefix: None,
            due: None,
            is_closed,
        }
    }
}

/// The log that is published once the request was handed in. None where nothing is told of that
/// request, or where memory runs out.
fn shown<R: Wait>(rt: &R, state: CommitState, outcome: &Outcome) -> (CommitState, Option<LogPrefix>)
    ensures state { (result.0.name ≡ state.name) × (result.0.last ≡ state.last) }
    ensures log { IfSome result.1 (λ prefix. prefix ≡ log_prefix state.name state.log) }
    ensures told { IfSome result.1 (λ prefix. prefix.log ≡ result.0.published) }
{
    if matches!(outcome, Outcome::Memory | Outcome::Unknown) {
        return (state, None);
    }
    let (state, published) = state.publish(rt);
    let prefix = if published.is_ok() {
        Some(state.prefix())
    } else {
        None
    };
    (state, prefix)
}

/// Hands the request in, and publishes where something is told of it.
fn request_and_publish<R: Wait>(
    rt: &R,
    state: CommitState,
    client: u64,
    prefix: &LogPrefix,
    request: CommitRequest,
    trace: Trace,
) -> (CommitState, Told)
    requires name { prefix.now.name ≡ state.name }
    requires over { IsOpenOver state.name.origin prefix.now.log request trace }
    ensures name { result.0.name ≡ state.name }
    ensures numbers { GivesOne state.last result.0.last
        (next_entry state.last client request trace) result.1.outcome }
    ensures last { result.1.last ≡ slice_index result.0.last client }
    ensures prefix { IsLogOf state.name result.1.prefix }
    ensures shows { IfSome result.1.prefix (λ prefix. Shows prefix.name.origin prefix.log
        (next_entry state.last client request trace) result.1.outcome) }
    ensures due { IfSome result.1.due (IsEndOf state.name
        (next_entry state.last client request trace)) }
    ensures open { result.1.is_closed ≡ false }
    ensures told { IfSome result.1.prefix (λ prefix. prefix.log ≡ result.0.published) }
{
    let mut state = state;
    let HandedIn { outcome, due } = state.request(client, prefix, request, trace);
    let last = state.last_number(client);
    let (state, prefix) = shown(rt, state, &outcome);
    (
        state,
        Told {
            outcome,
            last,
            prefix,
            due,
            is_closed: false,
        },
    )
}

/// The log that shows what became of a request that was handed in, that of all entries. None where
/// nothing is told of that request.
fn shown_by(state: &CommitState, outcome: &Outcome) -> Option<LogPrefix>
    ensures { IfSome result (λ prefix. prefix ≡ log_prefix state.now.name state.now.log) }
{
    if matches!(outcome, Outcome::Memory | Outcome::Unknown) {
        return None;
    }
    Some(state.whole())
}

/// Has what a request changed wait to be kept, where it is committed. It says what is told of the
/// request then, and whether the database goes on: not where there is no memory for that, or where
/// it isn't known what became of the request.
fn add_waiting(
    waiting: &mut Vec<Entry>,
    outcome: Outcome,
    client: u64,
    number: u64,
    store: StoreNumber,
    changes: Changes,
) -> (Outcome, bool)
    ensures told { result.0 ≡ told_if result.1 outcome }
    ensures known { OnTrue result.1 (IsOutcomeKnown outcome) }
    ensures given { OnFalse result.1 (gives_number outcome ≡ true) }
    ensures waits { OnTrue result.1 (waiting.new.items
        ≡ waiting.old.items ++ kept_by outcome client number store changes) }
{
    match outcome {
        Outcome::Committed { version } => {
            let store = store.get();
            let entry = Entry {
                version,
                client,
                number,
                store,
                changes,
            };
            match waiting.push(entry) {
                Ok(()) => (Outcome::Committed { version }, true),
                Err(_) => (Outcome::Unknown, false),
            }
        }
        Outcome::Conflict { seen, range } => (Outcome::Conflict { seen, range }, true),
        Outcome::TooOld => (Outcome::TooOld, true),
        Outcome::VersionsExhausted => (Outcome::VersionsExhausted, true),
        Outcome::Unknown => (Outcome::Unknown, false),
        Outcome::Memory => (Outcome::Memory, true),
    }
}

/// Hands the request in. What it changed waits to be kept, where it is committed; the log that it
/// tells of isn't shown to readers yet. Where what the request changed isn't recorded, or there is
/// no memory for it to wait, it isn't handed in.
fn hand_in_kept<E: End>(
    state: CommitState,
    end: E,
    waiting: Vec<Entry>,
    client: u64,
    prefix: &LogPrefix,
    request: CommitRequest,
    trace: Trace,
) -> (LockedState<E>, Told)
    requires on { (state.name.kept ≡ true) × IsOn E.has state waiting.items end }
    requires name { prefix.now.name ≡ state.name }
    requires over { IsOpenOver state.name.origin prefix.now.log request trace }
    ensures name { result.0.state.name ≡ state.name }
    ensures numbers { GivesOne state.last result.0.state.last
        (next_entry state.last client request trace) result.1.outcome }
    ensures last { result.1.last ≡ slice_index result.0.state.last client }
    ensures prefix { IsLogOf state.name result.1.prefix }
    ensures shows { IfSome result.1.prefix (λ prefix. Shows prefix.name.origin prefix.log
        (next_entry state.last client request trace) result.1.outcome) }
    ensures due { IfSome result.1.due (IsEndOf state.name
        (next_entry state.last client request trace)) }
    ensures open { result.1.is_closed ≡ false }

    // Nothing is written, and readers see what they saw.
    ensures unwritten { result.0.end ≡ end }
    ensures unseen { result.0.state.published ≡ state.published }

    // The one that closes the database is told to be unknown, and no log shows it.
    ensures closes { OnTrue (is_closed result.0.keeping)
        ((result.1.outcome ≡ Outcome.Unknown) × (result.1.prefix ≡ None)) }
{
    let mut trace = trace;
    let mut waiting = waiting;
    let Some(changes) = trace.take_changes() else {
        let told = Told::unsubmitted(state.last_number(client), false);
        return (LockedState::of(state, end, Keeping::On, waiting), told);
    };
    let Ok(()) = waiting.reserve(1) else {
        let told = Told::unsubmitted(state.last_number(client), false);
        return (LockedState::of(state, end, Keeping::On, waiting), told);
    };
    let store = trace.store();
    let mut state = state;
    let handed = state.request(client, prefix, request, trace);
    let number = state.last_number(client);
    let HandedIn { outcome, due } = handed;
    let (outcome, goes_on) = add_waiting(&mut waiting, outcome, client, number, store, changes);
    if !goes_on {
        let told = Told::shown(outcome, number, None, due);
        return (LockedState::of(state, end, Keeping::Closed, waiting), told);
    }
    let log = shown_by(&state, &outcome);
    let told = Told::shown(outcome, number, log, due);
    (LockedState::of(state, end, Keeping::On, waiting), told)
}

/// Hands a request in, by whether what is committed is kept. Where it isn't, its entry is
/// published.
pub fn hand_in<E: End, R: Wait>(
    rt: &R,
    owned: LockedState<E>,
    client: u64,
    prefix: &LogPrefix,
    request: CommitRequest,
    trace: Trace,
) -> (LockedState<E>, Told)
    requires name { prefix.now.name ≡ owned.state.name }
    requires over { IsOpenOver owned.state.name.origin prefix.now.log request trace }
    ensures name { result.0.state.name ≡ owned.state.name }
    ensures numbers { GivesOne owned.state.last result.0.state.last
        (next_entry owned.state.last client request trace) result.1.outcome }
    ensures last { result.1.last ≡ slice_index result.0.state.last client }
    ensures prefix { IsLogOf owned.state.name result.1.prefix }
    ensures shows { IfSome result.1.prefix (λ prefix. Shows prefix.name.origin prefix.log
        (next_entry owned.state.last client request trace) result.1.outcome) }
    ensures due { IfSome result.1.due (IsEndOf owned.state.name
        (next_entry owned.state.last client request trace)) }
    ensures closed { OnTrue result.1.is_closed (result.1.outcome ≡ Outcome.Memory) }
    ensures closed_now { result.1.is_closed ≡ is_closed owned.keeping }
    ensures kept { OnTrue result.1.is_closed (owned.state.name.kept ≡ true) }
    ensures stays { OnTrue (is_closed owned.keeping) (result.0 ≡ owned) }
{
    let (state, end, keeping, waiting) = owned.into_parts();
    match keeping {
        Keeping::Off => {
            let (state, told) = request_and_publish(rt, state, client, prefix, request, trace);
            (LockedState::unkept(state, end, waiting), told)
        }
        Keeping::On => hand_in_kept(state, end, waiting, client, prefix, request, trace),
        Keeping::Closed => {
            let told = Told::unsubmitted(state.last_number(client), true);
            (LockedState::of(state, end, Keeping::Closed, waiting), told)
        }
    }
}
