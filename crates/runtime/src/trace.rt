// What a transaction does, for contracts: its store, and its commands; and what it changed, where a
// log is to have that. Used by `open_transaction`, `published_reads`, `log_entry`, `commit_state`
// and `handing_in`.
ghost use Rattle.std.specs.Prelude.{◌≡◌, ◌++◌, true, [], IfSome, Some};
ghost use Rattle.record_store.specs.Layout.{is_store_number};
ghost use Rattle.runtime.specs.Traces.{change_of_one, changes_of, with_performed};

use crate::performed::Attempts;
use crate::replies::is_accepted;
use command_log::Changes;
use record_store::StoreNumber;
use replay::change_of;
use schedule::{Command, Reply};
use std::alloc::Global;
use std::marker::Model;
use std::mem::replace;

/// What a transaction does: the store that it works in, and the commands that it performed. Of
/// these no bytes are kept, but of what they change where a log is to have it.
pub struct Trace {
    pub(crate) store: StoreNumber,
    attempts: Attempts,
    changes: Option<Changes>,
}

// Written out, so that no proof of a caller has to take its parts apart where one is dropped.
impl Drop for Trace {
    fn drop(self) {
        let Trace {
            store: _,
            attempts,
            changes,
        } = self;
        drop(attempts);
        drop(changes);
    }
}

impl Model for Trace {
    ghost use Rattle.std.specs.Prelude.{◌≡◌, IfSome};
    ghost use Rattle.std.specs.Coded.{codes};
    ghost use Rattle.runtime.specs.Traces.{Trace as Traced, changes_of};
    ghost use Rattle.runtime.specs.contracts.performed.Performed as performed;

    ghost Value = { Traced };

    ghost coded = { Prim.hlevel (codes, performed.the_row.coded) };

    ghost view = { λ t. record { store = t.store; attempts = t.attempts } };

    ghost invariant = { λ t. IfSome t.changes (λ changes. changes ≡ changes_of t.attempts.list) };
}

/// The changes with that of one command more. None where there are none, or memory runs out.
fn with_change(before: Option<Changes>, command: &Command, reply: &Reply) -> Option<Changes>
    ensures { IfSome result (λ after. (changes : _) × (before ≡ Some changes)
        × (after ≡ changes
        ++ change_of_one (record { command = command.now; reply = reply.now }))) }
{
    let Some(changes) = before else {
        return None;
    };
    if !is_accepted(reply) {
        return Some(changes);
    }
    match change_of(command) {
        Ok(Some(change)) => {
            let mut list = changes.into_vec();
            match list.push(change) {
                Ok(()) => Some(Changes::new(list)),
                Err(_) => None,
            }
        }
        Ok(None) => Some(changes),
        Err(_) => None,
    }
}

impl Trace {
    /// No command, in a store. What the transaction changes isn't recorded.
    pub fn new(store: StoreNumber) -> Trace
        ensures store { result.store ≡ store }
        ensures lawful { is_store_number result.store ≡ true }
        ensures attempts { result.attempts.list ≡ [] }
    {
        prove!(store.get() <= u64::MAX);
        Trace {
            store,
            attempts: Attempts::new(),
            changes: None,
        }
    }

    /// No command, in a store, and whether what the transaction changes is recorded, for a log.
    pub fn begin(alloc: Global, store: StoreNumber, records: bool) -> Trace
        ensures store { result.store ≡ store }
        ensures lawful { is_store_number result.store ≡ true }
        ensures attempts { result.attempts.list ≡ [] }
    {
        prove!(store.get() <= u64::MAX);
        let changes = if records {
            Some(Changes::new(Vec::new(alloc)))
        } else {
            None
        };
        Trace {
            store,
            attempts: Attempts::new(),
            changes,
        }
    }

    /// The store.
    pub fn store(&self) -> StoreNumber
        ensures { result ≡ self.now.store }
    {
        self.store
    }

    /// One command more was performed, with this reply. Where there is no memory to record what it
    /// changed, what the transaction changes is recorded no longer.
    #[tactic(auto, using(crate::proofs::Changes::changes_more))]
    pub fn add(&mut self, command: &Command, reply: &Reply)
        ensures { self.new
            ≡ with_performed self.old (record { command = command.now; reply = reply.now }) }
    {
        let before = replace(&mut self.changes, None);
        self.attempts = self.attempts.then(command, reply);
        self.changes = with_change(before, command, reply);
    }

    /// What the transaction changed, handed over. None where it isn't recorded.
    pub fn take_changes(&mut self) -> Option<Changes>
        ensures changes { IfSome result (λ changes. changes ≡ changes_of self.old.attempts.list) }
        ensures same { self.new ≡ self.old }
    {
        replace(&mut self.changes, None)
    }
}
