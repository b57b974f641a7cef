// What is done under the commit lock for one request. Called by `client`.
ghost use Rattle.std.specs.Prelude.{◌≡◌, ◌+◌, [], IfSome, Some, MatchOption, true, false};
ghost use Rattle.std.specs.Bool.{OnTrue};
ghost use Rattle.runtime.specs.CommitLocks.{with_last};
ghost use Rattle.runtime.specs.Commits.{IsLogOf};
ghost use Rattle.runtime.specs.Keeping.{IsSafe, IsStored};
ghost use Rattle.runtime.specs.Logs.{IsOpenOver};
ghost use Rattle.runtime.specs.Outcomes.{IsEndOf, Shows, entry, last_then};

use crate::commit_lock::{CommitLock, LockKey};
use crate::group_commit::settle;
use crate::handing_in::{Told, hand_in};
use crate::locked_state::{End, LockedState};
use crate::log_prefix::LogPrefix;
use crate::outcome::Outcome;
use crate::trace::Trace;
use kv_core::CommitRequest;
use std::alloc::Global;
use std::snapshot::Snapshot;
use std::sync::Wait;

/// Takes the value, and hands this request in.
fn handed_in<E: End, R: Wait>(
    rt: &R,
    lock: &CommitLock<LockedState<E>>,
    key: &mut LockKey<LockedState<E>>,
    client: u64,
    prefix: &LogPrefix,
    request: CommitRequest,
    trace: Trace,
) -> Told
    requires key { (key.old.table_id ≡ lock.now.table.shared.table_id) × (key.old.me.1 ≡ []) }
    requires client { key.old.me.0.client ≡ Some client }
    requires name { prefix.now.name ≡ key.old.me.0.about.value.state.name }
    requires over { IsOpenOver prefix.now.name.origin prefix.now.log request trace }
    ensures table { key.new.table_id ≡ key.old.table_id }
    ensures key { key.new.me ≡ (with_last result.last key.old.me.0, []) }
    ensures last { result.last ≡ last_then key.old.me.0.last result.outcome }
    ensures prefix { IsLogOf key.old.me.0.about.value.state.name result.prefix }
    ensures shows { IfSome result.prefix (λ prefix. Shows prefix.name.origin prefix.log
        (entry client (key.old.me.0.last + 1) request trace) result.outcome) }
    ensures due { IfSome result.due (IsEndOf key.old.me.0.about.value.state.name
        (entry client (key.old.me.0.last + 1) request trace)) }
    ensures closed { OnTrue result.is_closed (result.outcome ≡ Outcome.Memory) }
    ensures kept { OnTrue result.is_closed (prefix.now.name.kept ≡ true) }
{
    let owned = lock.take(rt, key);
    let (owned, told) = hand_in(rt, owned, client, prefix, request, trace);
    lock.put(key, owned);
    told
}

/// Waits for the lock, hands this request in, and has its entry published. Where what is committed
/// is kept, its entry is on the disk before, together with those of others that come.
pub fn critical_section<E: End, R: Wait>(
    rt: &R,
    alloc: Global,
    lock: &CommitLock<LockedState<E>>,
    key: &mut LockKey<LockedState<E>>,
    client: u64,
    prefix: &LogPrefix,
    request: CommitRequest,
    trace: Trace,
) -> Told
    requires key { (key.old.table_id ≡ lock.now.table.shared.table_id) × (key.old.me.1 ≡ []) }
    requires client { key.old.me.0.client ≡ Some client }
    requires name { prefix.now.name ≡ key.old.me.0.about.value.state.name }
    requires over { IsOpenOver prefix.now.name.origin prefix.now.log request trace }
    ensures table { key.new.table_id ≡ key.old.table_id }
    ensures key { key.new.me ≡ (with_last result.last key.old.me.0, []) }
    ensures last { result.last ≡ last_then key.old.me.0.last result.outcome }
    ensures prefix { IsLogOf key.old.me.0.about.value.state.name result.prefix }
    ensures shows { IfSome result.prefix (λ prefix. Shows prefix.name.origin prefix.log
        (entry client (key.old.me.0.last + 1) request trace) result.outcome) }
    ensures due { IfSome result.due (IsEndOf key.old.me.0.about.value.state.name
        (entry client (key.old.me.0.last + 1) request trace)) }
    ensures closed { OnTrue result.is_closed (result.outcome ≡ Outcome.Memory) }
    ensures kept { OnTrue result.is_closed (prefix.now.name.kept ≡ true) }
    ensures stored { IfSome result.prefix (IsStored E.may_leave E.is_log) }
{
    if !prefix.is_kept() {
        let guard = lock.wait(rt);
        let told = handed_in(rt, lock, key, client, prefix, request, trace);
        drop(guard);
        return told;
    }
    lock.arrivals().announce();
    let guard = lock.wait(rt);
    let told = handed_in(rt, lock, key, client, prefix, request, trace);
    lock.arrivals().arrive();
    if settle(rt, alloc, lock, key, guard, &told.prefix) {
        told
    } else {
        told.unshown()
    }
}

/// Waits for the lock, and looks at what keeps the log, and at the published log.
pub fn look_there<E: End, R: Wait>(
    rt: &R,
    lock: &CommitLock<LockedState<E>>,
    key: &mut LockKey<LockedState<E>>,
) -> Option<(Snapshot<E>, LogPrefix)>
    requires { (key.old.table_id ≡ lock.now.table.shared.table_id) × (key.old.me.1 ≡ []) }
    ensures table { key.new.table_id ≡ key.old.table_id }
    ensures key { key.new.me ≡ (with_last key.old.me.0.last key.old.me.0, []) }
    ensures seen { MatchOption result (key.old.me.0.about.value.state.name.kept ≡ false)
        (λ seen. (seen.1.name ≡ key.old.me.0.about.value.state.name)
        × IsSafe E.may_leave E.is_log key.old.me.0.about.value.state.name.origin
        seen.1.log seen.0.value) }
{
    let guard = lock.wait(rt);
    let owned = lock.take(rt, key);
    let seen = owned.look();
    lock.put(key, owned);
    drop(guard);
    seen
}
