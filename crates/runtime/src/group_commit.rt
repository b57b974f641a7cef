// What waits is kept by one call, for all that came together, and shown to readers then. Called by
// `critical_section`.
ghost use Rattle.std.specs.Prelude.{◌≡◌, ◌++◌, [], List, OnOk, IfSome, true};
ghost use Rattle.std.specs.Bool.{OnTrue};
ghost use Rattle.command_log.specs.declared.entry.Entry.{Entry as KeptEntry};
ghost use Rattle.journal.specs.Device.{LeavesOnly};
ghost use Rattle.runtime.specs.CommitLocks.{with_last};
ghost use Rattle.runtime.specs.Commits.{IsLogOf};
ghost use Rattle.runtime.specs.Keeping.{IsBatchOrNone, IsOn, IsSafe, IsStored, is_closed};

use crate::commit_lock::{CommitLock, LockKey};
use crate::commit_state::CommitState;
use crate::keeping::{Keeping, NotKept};
use crate::locked_state::{End, LockedState};
use crate::log_prefix::LogPrefix;
use command_log::Entry;
use std::alloc::Global;
use std::sync::{MutexGuard, Wait};

/// Keeps a batch by one call, unless it is empty.
#[tactic(auto, using(crate::proofs::Kept::leaves_none))]
fn keep_batch<E: End>(alloc: Global, end: &mut E, batch: &[Entry]) -> Result<(), NotKept>
    ensures kept { OnOk result ((before : List KeptEntry) → E.has end.old before
        → E.has end.new (before ++ batch.now)) }
    ensures any_moment { (before : List KeptEntry) → E.has end.old before
        → LeavesOnly E.moment E.left_since end.old end.new
        (IsBatchOrNone E.is_log before batch.now) }
{
    if batch.is_empty() {
        return Ok(());
    }
    end.keep(alloc, batch)
}

/// Keeps all that waits, and then shows readers all entries. Where it isn't known whether all of it
/// is kept, the database is closed, and readers see what they saw.
fn keep_all<E: End, R: Wait>(
    rt: &R,
    alloc: Global,
    state: CommitState,
    end: E,
    waiting: Vec<Entry>,
) -> LockedState<E>
    requires on { (state.name.kept ≡ true) × IsOn E.has state waiting.items end }
    ensures name { result.state.name ≡ state.name }
    ensures last { result.state.last ≡ state.last }
    ensures log { result.state.log ≡ state.log }
    ensures closes { OnTrue (is_closed result.keeping)
        (result.state.published ≡ state.published) }

    // Nothing waits any more.
    ensures none { result.waiting ≡ [] }

    // A crash at any moment of the call leaves what was kept before, with all that waits or none.
    ensures any_moment { (before : List KeptEntry) → E.has end before
        → LeavesOnly E.moment E.left_since end result.end
        (IsBatchOrNone E.is_log before waiting.items) }
{
    let mut end = end;
    let kept = keep_batch(alloc, &mut end, waiting.as_slice());
    if kept.is_err() {
        return LockedState::of(state, end, Keeping::Closed, Vec::new(alloc));
    }
    let (state, _) = state.publish(rt);
    LockedState::of(state, end, Keeping::On, Vec::new(alloc))
}

/// Keeps and shows what waits, where entries are kept.
fn keep_waiting<E: End, R: Wait>(rt: &R, alloc: Global, owned: LockedState<E>) -> LockedState<E>
    ensures name { result.state.name ≡ owned.state.name }
    ensures last { result.state.last ≡ owned.state.last }
    ensures log { result.state.log ≡ owned.state.log }
    ensures stays { OnTrue (is_closed owned.keeping) (result ≡ owned) }
    ensures any_moment { owned.keeping ≡ Keeping.On → (before : List KeptEntry)
        → E.has owned.end before → LeavesOnly E.moment E.left_since owned.end result.end
        (IsBatchOrNone E.is_log before owned.waiting) }
{
    let (state, end, keeping, waiting) = owned.into_parts();
    match keeping {
        Keeping::On => keep_all(rt, alloc, state, end, waiting),
        Keeping::Off => LockedState::of(state, end, Keeping::Off, waiting),
        Keeping::Closed => LockedState::of(state, end, Keeping::Closed, waiting),
    }
}

/// Whether readers see this log. It is asked of a log that there is.
fn sees<E: End>(owned: &LockedState<E>, log: &Option<LogPrefix>) -> bool
    requires { IsLogOf owned.now.state.name log.now }
    ensures { OnTrue result (IfSome log.now (λ log. log.name.kept ≡ true
        → IsSafe E.may_leave E.is_log log.name.origin log.log owned.now.end)) }
{
    match log {
        Some(log) => owned.shows(log),
        None => false,
    }
}

/// Whether readers see this log. Where they don't, and nobody else comes, what waits is kept and
/// shown first.
fn kept_and_seen<E: End, R: Wait>(
    rt: &R,
    alloc: Global,
    owned: LockedState<E>,
    log: &Option<LogPrefix>,
    is_last: bool,
) -> (LockedState<E>, bool)
    requires { IsLogOf owned.state.name log.now }
    ensures name { result.0.state.name ≡ owned.state.name }
    ensures last { result.0.state.last ≡ owned.state.last }
    ensures safe { OnTrue result.1 (IfSome log.now (λ log. log.name.kept ≡ true
        → IsSafe E.may_leave E.is_log log.name.origin log.log result.0.end)) }
{
    let seen = sees(&owned, log);
    if seen || !is_last {
        return (owned, seen);
    }
    let owned = keep_waiting(rt, alloc, owned);
    let seen = sees(&owned, log);
    (owned, seen)
}

/// Takes the value and asks whether readers see this log, as `kept_and_seen` does.
fn look_in<E: End, R: Wait>(
    rt: &R,
    alloc: Global,
    lock: &CommitLock<LockedState<E>>,
    key: &mut LockKey<LockedState<E>>,
    log: &Option<LogPrefix>,
    is_last: bool,
) -> bool
    requires key { (key.old.table_id ≡ lock.now.table.shared.table_id) × (key.old.me.1 ≡ []) }
    requires name { IsLogOf key.old.me.0.about.value.state.name log.now }
    ensures table { key.new.table_id ≡ key.old.table_id }
    ensures key { key.new.me ≡ (with_last key.old.me.0.last key.old.me.0, []) }
    ensures stored { OnTrue result (IfSome log.now (IsStored E.may_leave E.is_log)) }
{
    let owned = lock.take(rt, key);
    let (owned, seen) = kept_and_seen(rt, alloc, owned, log, is_last);
    lock.put(key, owned);
    seen
}

/// Sleeps until readers see this log, and says whether they do: not where it couldn't be kept, or
/// memory ran out in showing it.
fn sleep_until_seen<E: End, R: Wait>(
    rt: &R,
    alloc: Global,
    lock: &CommitLock<LockedState<E>>,
    key: &mut LockKey<LockedState<E>>,
    guard: MutexGuard<'_, ()>,
    log: &Option<LogPrefix>,
) -> bool
    requires table { key.old.table_id ≡ lock.now.table.shared.table_id }
    requires key { key.old.me ≡ (with_last key.old.me.0.last key.old.me.0, []) }
    requires name { IsLogOf key.old.me.0.about.value.state.name log.now }
    ensures table { key.new.table_id ≡ key.old.table_id }
    ensures key { key.new.me ≡ key.old.me }
    ensures stored { OnTrue result (IfSome log.now (IsStored E.may_leave E.is_log)) }
{
    let mut guard = guard;
    for _ in rt.forever() {
        guard = lock.arrivals().sleep(rt, guard);
        let is_last = lock.arrivals().are_over();
        let seen = look_in(rt, alloc, lock, key, log, is_last);
        if seen || is_last {
            return seen;
        }
    }
    unreachable!()
}

/// Has what waits kept and shown, with that of others that come, and says whether readers see this
/// log then. Whoever comes last keeps what waits, and wakes the others.
pub fn settle<E: End, R: Wait>(
    rt: &R,
    alloc: Global,
    lock: &CommitLock<LockedState<E>>,
    key: &mut LockKey<LockedState<E>>,
    guard: MutexGuard<'_, ()>,
    log: &Option<LogPrefix>,
) -> bool
    requires table { key.old.table_id ≡ lock.now.table.shared.table_id }
    requires key { key.old.me ≡ (with_last key.old.me.0.last key.old.me.0, []) }
    requires name { IsLogOf key.old.me.0.about.value.state.name log.now }
    ensures table { key.new.table_id ≡ key.old.table_id }
    ensures key { key.new.me ≡ key.old.me }
    ensures stored { OnTrue result (IfSome log.now (IsStored E.may_leave E.is_log)) }
{
    let is_last = lock.arrivals().are_gathered();
    let seen = look_in(rt, alloc, lock, key, log, is_last);
    if is_last {
        lock.arrivals().wake();
        return seen;
    }
    if seen || log.is_none() {
        return seen;
    }
    sleep_until_seen(rt, alloc, lock, key, guard, log)
}
