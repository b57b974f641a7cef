// What stands under the commit lock: the commit state, and beside it what keeps the log of what is
// committed, and ends the state. Used by `handing_in`, `group_commit`,
// `critical_section`, `client` and `db`.
ghost use Rattle.std.specs.Prelude.{◌≡◌, ◌++◌, ◌≤◌, List, ℕ, OnOk};
ghost use Rattle.command_log.specs.declared.entry.Entry.{Entry as KeptEntry};
ghost use Rattle.journal.specs.Device.{LeavesOnly};
ghost use Rattle.runtime.specs.Keeping.{IsBatchOrNone};

use crate::commit_lock::Lockable;
use crate::commit_state::CommitState;
use crate::keeping::{Keeping, NotKept};
use crate::log_prefix::LogPrefix;
use command_log::Entry;
use std::alloc::Global;
use std::marker::Model;
use std::snapshot::Snapshot;
use std::sync::Wait;

/// What stands beside the commit state: it keeps what is committed on a disk, and ends the state
/// once nobody has the database any more.
pub trait End: Drop {
    /// What a crash at this moment may leave of the file.
    ghost may_leave: { Self → List ℕ → Type 0 };

    /// The moment, as a number that doesn't fall.
    ghost moment: { Self → ℕ };

    /// What a crash at some moment from that one on might have left.
    ghost left_since: { Self → ℕ → List ℕ → Type 0 };

    /// The file is the log of these entries, and of no others.
    ghost is_log: { List ℕ → List KeptEntry → Type 0 };

    /// The file is the log of these entries, all of it on the disk.
    ghost has: { Self → List KeptEntry → Type 0 };

    /// Keeps entries after those that it has, all or none. At `Ok` they are on the disk.
    fn keep(&mut self, alloc: Global, entries: &[Entry]) -> Result<(), NotKept>
        ensures kept { OnOk result ((before : List KeptEntry) → has self.old before
            → has self.new (before ++ entries.now)) }

        // A crash at any moment of the call leaves what it had, with all of the entries or none.
        ensures any_moment { (before : List KeptEntry) → has self.old before
            → LeavesOnly moment left_since self.old self.new
            (IsBatchOrNone is_log before entries.now) };

    /// Ends it, and the state.
    fn end(self, state: CommitState);

    /// A crash leaves what it has.
    ghost leaves: { (end : Self) (entries : List KeptEntry) (file : List ℕ) → has end entries
        → may_leave end file → is_log file entries };

    /// This moment is one of those since an earlier one.
    ghost counts_now: { (end : Self) (t : ℕ) (file : List ℕ) → t ≤ moment end
        → may_leave end file → left_since end t file };

    /// Since this moment there is no other.
    ghost only_now: { (end : Self) (file : List ℕ) → left_since end (moment end) file
        → may_leave end file };
}

/// It keeps nothing, and waits for the readers.
#[derive(Drop)]
pub struct Waits<R: Wait + Drop> {
    pub rt: R,
}

impl<R: Wait + Drop> End for Waits<R> {
    ghost may_leave = { λ _ _. ⊥ };

    ghost moment = { λ _. 0 };

    ghost left_since = { λ _ _ _. ⊥ };

    ghost is_log = { λ _ _. ⊥ };

    ghost has = { λ _ _. ⊥ };

    fn keep(&mut self, alloc: Global, entries: &[Entry]) -> Result<(), NotKept> {
        Err(NotKept)
    }

    fn end(self, state: CommitState) {
        state.close(&self.rt);
    }

    ghost leaves = { λ end entries file has left. has };

    ghost counts_now = { λ end t file le now. now };

    ghost only_now = { λ end file left. left };
}

/// The locked state, with what stands beside it, and what of it is committed and not kept yet.
pub struct LockedState<E: End> {
    state: CommitState,
    end: E,
    keeping: Keeping,
    waiting: Vec<Entry>,
}

impl<E: End> Model for LockedState<E> {
    ghost use Rattle.std.specs.Coded.{codes};
    ghost use Rattle.command_log.specs.contracts.entry.Entry as kept_entries;
    ghost use Rattle.runtime.specs.contracts.log_entry.Entry as entries;
    ghost use Rattle.runtime.specs.Keeping.{Keeps, LockedView, locked_view};

    ghost Value = { LockedView E };

    ghost coded = { Prim.hlevel (codes, entries.the_row.coded, kept_entries.the_row.coded) };

    ghost view = { λ o. locked_view o.state o.end o.keeping o.waiting.items };

    ghost invariant = { λ o.
        Keeps E.has E.may_leave E.is_log o.keeping o.state o.waiting.items o.end };
}

impl<E: End> Lockable for LockedState<E> {
    ghost name = { λ o. o.state.name };

    ghost last = { λ o. o.state.last };
}

impl<E: End> Drop for LockedState<E> {
    fn drop(self) {
        let Self {
            state,
            end,
            keeping: _,
            waiting: _,
        } = self;
        end.end(state);
    }
}

impl<E: End> LockedState<E> {
    ghost use Rattle.std.specs.Prelude.{[], true, false, MatchOption};
    ghost use Rattle.std.specs.Bool.{OnTrue};
    ghost use mathlib.Core.List.{IsPrefix};
    ghost use Rattle.runtime.specs.History.{log_prefix};
    ghost use Rattle.runtime.specs.Keeping.{IsSafe, Keeps, locked_view};

    /// The locked state of these parts.
    pub(crate) fn of(
        state: CommitState,
        end: E,
        keeping: Keeping,
        waiting: Vec<Entry>,
    ) -> LockedState<E>
        requires { Keeps E.has E.may_leave E.is_log keeping state waiting.items end }
        ensures { result ≡ locked_view state end keeping waiting.items }
    {
        LockedState {
            state,
            end,
            keeping,
            waiting,
        }
    }

    /// The locked state of a database of which nothing is kept.
    pub(crate) fn unkept(state: CommitState, end: E, waiting: Vec<Entry>) -> LockedState<E>
        requires { state.name.kept ≡ false }
        ensures { result ≡ locked_view state end Keeping.Off waiting.items }
    {
        LockedState {
            state,
            end,
            keeping: Keeping::Off,
            waiting,
        }
    }

    /// The locked state of a database whose entries are kept, after those that it goes on from.
    #[tactic(auto, using(crate::proofs::Kept::on_first))]
    pub(crate) fn kept(state: CommitState, end: E, waiting: Vec<Entry>) -> LockedState<E>
        requires name { state.name.kept ≡ true }
        requires new { (state.published ≡ []) × (state.log ≡ []) × (state.due ≡ [])
            × (waiting.items ≡ []) }
        requires file { E.has end state.name.origin.before }
        ensures { result ≡ locked_view state end Keeping.On waiting.items }
    {
        LockedState {
            state,
            end,
            keeping: Keeping::On,
            waiting,
        }
    }

    /// The published log.
    pub(crate) fn prefix(&self) -> LogPrefix
        ensures { result ≡ log_prefix self.now.state.name self.now.state.published }
    {
        self.state.prefix()
    }

    /// Whether readers see this log. Where what is committed is kept, all that is kept of it is on
    /// the disk then.
    pub(crate) fn shows(&self, log: &LogPrefix) -> bool
        requires { log.now.name ≡ self.now.state.name }
        ensures shown { OnTrue result (IsPrefix log.now.log self.now.state.published) }
        ensures safe { OnTrue result (self.now.state.name.kept ≡ true
            → IsSafe E.may_leave E.is_log log.now.name.origin log.now.log self.now.end) }
    {
        log.begins(&self.state.prefix())
    }

    /// What stands beside the state, as it is now, and the published log, where what is committed
    /// is kept: each crash leaves all that is kept of that log, and maybe more after it. None where
    /// nothing is kept.
    pub(crate) fn look(&self) -> Option<(Snapshot<E>, LogPrefix)>
        ensures { MatchOption result (self.now.state.name.kept ≡ false) (λ seen.
            (seen.1 ≡ log_prefix self.now.state.name self.now.state.published)
            × IsSafe E.may_leave E.is_log self.now.state.name.origin
            self.now.state.published seen.0.value) }
    {
        if !self.keeping.is_kept() {
            return None;
        }
        Some((Snapshot::of(&self.end), self.state.prefix()))
    }

    /// The parts.
    pub(crate) fn into_parts(self) -> (CommitState, E, Keeping, Vec<Entry>)
        ensures parts { (result.0 ≡ self.state) × (result.1 ≡ self.end)
            × (result.2 ≡ self.keeping) × (result.3.items ≡ self.waiting) }
        ensures keeps { Keeps E.has E.may_leave E.is_log result.2 result.0 result.3.items result.1 }
    {
        let Self {
            state,
            end,
            keeping,
            waiting,
        } = self;
        (state, end, keeping, waiting)
    }
}
