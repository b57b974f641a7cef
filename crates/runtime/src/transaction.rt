// Open transactions, with a call for each command. Used by `retrying`, and by `race`,
// applications, tests and measures.
ghost use Rattle.std.specs.Prelude.{◌≡◌, Some, None, true, false, Ok, IfErr, IfOk, IsErrOf};
ghost use Rattle.std.specs.Borrow.{sem, RestsIfErr};
ghost use mathlib.Core.List.{IsPrefix};
ghost use Rattle.runtime.specs.contracts.client.Client.{the_row};
ghost use Rattle.schedule.specs.Past.{is_changed};
ghost use Rattle.runtime.specs.Calls.{HasCalled, HasPerformed};
ghost use Rattle.runtime.specs.Calls.{found_reply, removed_reply, saved_reply};
ghost use Rattle.runtime.specs.Clients.{IsFresh, knows_that};
ghost use Rattle.runtime.specs.Commits.{Answers, IsStoredThen};
ghost use Rattle.runtime.specs.Traces.{attempts_of};

use crate::answers::{CommandError, CommitError, Done};
use crate::client::Client;
use crate::locked_state::End;
use crate::published_reads::EnterError;
use crate::replies::{accepted, found, planned, removed, rows, saved, total};
use metadata::Cells;
use packed_rows::Rows;
use record_store::StoreNumber;
use schedule::{AskedQuery, Command, Reply, SharedPlan};
use std::sync::Wait;
use tuple_codec::Text;

/// An open transaction of a client, which is lent to it.
#[derive(Drop)]
pub struct Txn<'a, E: End> {
    pub client: &'a mut Client<E>,
}

/// Begins a transaction in store 1, as `begin_in` does.
pub fn begin<E: End>(client: &mut Client<E>) -> Result<Txn<'_, E>, EnterError>
    ensures* refused { sem 𝓛
        (RestsIfErr (the_row E.row E.End) client.entry (λ t. t.client.ghost_name) result
        (λ n. n ≡ client.old)) }
    ensures same_reference { IfOk result (λ t. t.client.ghost_name ≡ client.entry.ghost_name) }
    ensures begun { IfOk result (λ t. (open_tx : _) × (t.client.now.begun ≡ Some open_tx)
        × IsFresh t.client.now.name t.client.now.log 1 open_tx) }
    ensures log { IfOk result (λ t. IsPrefix client.old.log t.client.now.log) }
    ensures numbers { IfOk result (λ t.
        (t.client.now.last ≡ client.old.last) × (t.client.now.number ≡ client.old.number)) }
    ensures name { IfOk result (λ t. t.client.now.name ≡ client.old.name) }
    ensures why { IfErr result (λ error. error ≡ EnterError.NotEntered) }
{
    client.begin_here(StoreNumber::first())?;
    Ok(Txn { client })
}

/// Begins a transaction in a store, at a published log that begins with the client's, which is the
/// client's from now on. It waits for nobody.
pub fn begin_in<E: End>(
    client: &mut Client<E>,
    store: StoreNumber,
) -> Result<Txn<'_, E>, EnterError>
    ensures* refused { sem 𝓛
        (RestsIfErr (the_row E.row E.End) client.entry (λ t. t.client.ghost_name) result
        (λ n. n ≡ client.old)) }
    ensures same_reference { IfOk result (λ t. t.client.ghost_name ≡ client.entry.ghost_name) }
    ensures begun { IfOk result (λ t. (open_tx : _) × (t.client.now.begun ≡ Some open_tx)
        × IsFresh t.client.now.name t.client.now.log store open_tx) }
    ensures log { IfOk result (λ t. IsPrefix client.old.log t.client.now.log) }
    ensures numbers { IfOk result (λ t.
        (t.client.now.last ≡ client.old.last) × (t.client.now.number ≡ client.old.number)) }
    ensures name { IfOk result (λ t. t.client.now.name ≡ client.old.name) }
    ensures why { IfErr result (λ error. error ≡ EnterError.NotEntered) }
{
    client.begin_here(store)?;
    Ok(Txn { client })
}

impl<E: End> Txn<'_, E> {
    /// Performs a command. It waits for nobody.
    ///
    /// The reply is the serial store's for what is committed of the transaction's store in its log
    /// at its read version, as its own accepted commands change it, or a write limit. It is never
    /// that of a refused read: where the published log is more than the window above the
    /// transaction's, the command has no reply but `TooOld`, and the client has learnt that log.
    /// Where there is no reply the transaction can go on; after `Memory` it has written nothing
    /// more, and the command stands among those performed with the reply `Stopped`.
    pub fn perform(&mut self, command: &Command) -> Result<Reply, EnterError>
        ensures same_reference { self.new.client.ghost_name ≡ self.old.client.ghost_name }
        ensures performed { HasPerformed command.now
            self.old.client.now result self.new.client.now }
    {
        self.client.perform_here(command)
    }

    /// Performs a command that is to be accepted: it refuses as the command is refused.
    pub fn call(&mut self, command: &Command) -> Result<Reply, CommandError>
        ensures same_reference { self.new.client.ghost_name ≡ self.old.client.ghost_name }
        ensures called { HasCalled (λ reply. reply) command.now
            self.old.client.now result self.new.client.now }
    {
        let reply = self.perform(command);
        accepted(reply)
    }

    /// Puts a record of this type in the place of the one with its primary key, and answers that
    /// one's cells, where there was one.
    pub fn save(&mut self, type_name: Text, cells: Cells) -> Result<Option<Cells>, CommandError>
        ensures same_reference { self.new.client.ghost_name ≡ self.old.client.ghost_name }
        ensures called { HasCalled saved_reply (Command.Save type_name cells)
            self.old.client.now result self.new.client.now }
    {
        let reply = self.call(&Command::Save(type_name, cells));
        saved(reply)
    }

    /// The cells of the record of this type with these key cells, where there is one.
    pub fn load(&mut self, type_name: Text, key: Cells) -> Result<Option<Cells>, CommandError>
        ensures same_reference { self.new.client.ghost_name ≡ self.old.client.ghost_name }
        ensures called { HasCalled found_reply (Command.Load type_name key)
            self.old.client.now result self.new.client.now }
    {
        let reply = self.call(&Command::Load(type_name, key));
        found(reply)
    }

    /// Takes out the record of this type with these key cells, and answers whether there was one.
    pub fn remove(&mut self, type_name: Text, key: Cells) -> Result<bool, CommandError>
        ensures same_reference { self.new.client.ghost_name ≡ self.old.client.ghost_name }
        ensures called { HasCalled removed_reply (Command.Remove type_name key)
            self.old.client.now result self.new.client.now }
    {
        let reply = self.call(&Command::Remove(type_name, key));
        removed(reply)
    }

    /// The plan of a query, which `execute` takes, also in a later transaction.
    pub fn plan(&mut self, query: AskedQuery) -> Result<SharedPlan, CommandError>
        ensures same_reference { self.new.client.ghost_name ≡ self.old.client.ghost_name }
        ensures called { HasCalled Reply.Planned (Command.Plan query)
            self.old.client.now result self.new.client.now }
    {
        let reply = self.call(&Command::Plan(query));
        planned(reply)
    }

    /// The rows of a plan, whenever that was made.
    pub fn execute(&mut self, plan: SharedPlan) -> Result<Rows, CommandError>
        ensures same_reference { self.new.client.ghost_name ≡ self.old.client.ghost_name }
        ensures called { HasCalled Reply.Rows (Command.Execute plan)
            self.old.client.now result self.new.client.now }
    {
        let reply = self.call(&Command::Execute(plan));
        rows(reply)
    }

    /// The total of a group, of the COUNT or SUM index of this name.
    pub fn aggregate(&mut self, index: Text, group: Cells) -> Result<i64, CommandError>
        ensures same_reference { self.new.client.ghost_name ≡ self.old.client.ghost_name }
        ensures called { HasCalled Reply.Total (Command.Aggregate index group)
            self.old.client.now result self.new.client.now }
    {
        let reply = self.call(&Command::Aggregate(index, group));
        total(reply)
    }

    /// Commits, and ends the transaction. It waits for the lock, and for readers.
    ///
    /// After `Committed` the client has learnt a published log that ends with this transaction's
    /// entry, committed, and after `Conflict` one that ends with its entry, refused with that
    /// cause. `ReadOnly` submits nothing. After `TooOld` it has learnt a log that is more than the
    /// window above the transaction's, and after `VersionsExhausted` one after which no version is
    /// left, or no number for this client. Each of these logs has all earlier submissions of this
    /// client, also those of which `Unknown` was told. Where what is committed is kept, all that is
    /// kept of it is on the disk before. A number is given to the submission with
    /// `Committed`, `Conflict` and `Unknown`, and in no other case.
    pub fn commit<R: Wait>(self, rt: &R) -> Result<Done, CommitError>
        ensures answer { (open_tx : _) → self.entry.client.now.begun ≡ Some open_tx →
            Answers self.entry.client.now self.exit.0.now open_tx.transaction open_tx.trace result }
        ensures read_only { (open_tx : _) → self.entry.client.now.begun ≡ Some open_tx →
            is_changed (attempts_of open_tx.trace.attempts.list) ≡ false →
            result ≡ Ok Done.ReadOnly }
        ensures closed { IsErrOf result CommitError.Closed
            → self.entry.client.now.name.kept ≡ true }
        ensures stored { IsStoredThen E.may_leave E.is_log result }
        ensures log { IsPrefix self.entry.client.now.log self.exit.0.now.log }
        ensures same { self.exit.0.now ≡ knows_that self.entry.client.now.name self.exit.0.now.log
            self.entry.client.now.number self.exit.0.now.last None }
    {
        let Txn { client } = self;
        client.commit_here(rt).0
    }
}
