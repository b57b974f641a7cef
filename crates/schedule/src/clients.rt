// The steps of clients: a transaction is begun, given commands, committed or abandoned. Called by
// `running`.
ghost use Rattle.std.specs.Prelude.{◌≡◌, ◌≤◌, IfOk, None, if◌then◌else◌, true};
ghost use Rattle.cluster_core.specs.Cluster.{database_at};
ghost use Rattle.schedule.specs.Holds.{IsHeld};
ghost use Rattle.schedule.specs.Known.{IsKnown};
ghost use Rattle.schedule.specs.Past.{Past, is_accepted};
ghost use Rattle.schedule.specs.Running.{IsPerformedBy, IsStepped, IsSteppedWith, IsSubmit, IsUnplanned, StandsAfter};

use crate::accepted::Accepted;
use crate::database::{Database, OpenTransaction, Unreported};
use crate::kept_plans::KeptPlans;
use crate::known::Known;
use crate::performing::perform_open;
use crate::refusal::Refusal;
use crate::reply::Reply;
use crate::starting::laws_of;
use crate::step::{CLIENTS, Command, Step};
use cluster_core::{Cluster, SubmitError};
use record_store::{Store, StoreNumber};
use std::alloc::{AllocError, Global};
use txn::Transaction;

// Whether the reply accepts its command.
fn is_accepted(reply: &Reply) -> bool
    ensures { result ≡ is_accepted reply.now }
{
    !matches!(
        reply,
        Reply::Refused(_) | Reply::Corrupt(_) | Reply::Stopped
    )
}

// The store that stays open, where stores may.
fn kept_open(stays_open: bool, store: Option<Store>) -> Option<Store>
    ensures { result ≡ (if stays_open then store else None) }
{
    if stays_open { store } else { None }
}

impl OpenTransaction {
    // Performs a command, and keeps it where it is accepted. A store that is left open is kept too,
    // where stores may stay open.
    fn perform(
        &mut self,
        alloc: Global,
        command: &Command,
        cluster: &Cluster,
        known: &mut Known,
        stays_open: bool,
    ) -> Result<Reply, AllocError>
        requires { IsKnown self.old.store (database_at cluster.now)
            self.old.opened self.old.transaction }
        ensures { IfOk result (λ reply. IsPerformedBy cluster.now stays_open command.now reply self.old self.new) }
    {
        known.store = self.opened.take();
        let transaction = &mut self.transaction;
        let reply = perform_open(alloc, command, self.store, transaction, cluster, known)?;
        self.opened = kept_open(stays_open, known.store.take());
        if is_accepted(&reply) {
            self.commands.push(command)?;
        }
        Ok(reply)
    }
}

impl Database {
    // A client begins a transaction in the store of this number.
    pub(crate) fn begin(&mut self, alloc: Global, client: u64, number: u64) -> Reply
        ensures { IsStepped (Step.Begin client number) result self.old self.new }
    {
        if client >= CLIENTS as u64 {
            return Reply::Refused(Refusal::NoSuchClient);
        }
        let Some(store) = StoreNumber::new(number) else {
            return Reply::Refused(Refusal::NoSuchStore);
        };
        if self.transactions[client as usize].is_some() {
            return Reply::Refused(Refusal::Busy);
        }
        let version = self.cluster.read_version();
        let commands = Accepted::new(alloc, self.commits.is_whole());
        self.transactions[client as usize] = Some(OpenTransaction {
            store,
            transaction: Transaction::begin(alloc, version),
            commands,
            opened: None,
        });
        Reply::Begun(version)
    }

    // A client performs a command.
    pub(crate) fn perform(
        &mut self,
        alloc: Global,
        client: u64,
        command: &Command,
        known: &mut Known,
        stays_open: bool,
    ) -> Result<Reply, AllocError>
        requires stands { (past : Past) × StandsAfter past self.old }
        requires held { stays_open ≡ true → IsHeld self.old.cluster.base }
        ensures { IfOk result (λ reply. IsStepped (Step.Perform client command.now) reply self.old self.new) }
    {
        if client >= CLIENTS as u64 {
            return Ok(Reply::Refused(Refusal::NoSuchClient));
        }
        match &mut self.transactions[client as usize] {
            Some(transaction) => {
                laws_of(&self.cluster);
                let reply = transaction.perform(alloc, command, &self.cluster, known, stays_open)?;
                Ok(reply)
            }
            None => Ok(Reply::Refused(Refusal::NoTransaction)),
        }
    }

    // Why a client that keeps no plan can execute none.
    fn without_plan(&self, client: u64) -> Reply
        ensures { IsUnplanned client result self.now }
    {
        if client >= CLIENTS as u64 {
            return Reply::Refused(Refusal::NoSuchClient);
        }
        match &self.transactions[client as usize] {
            Some(_) => Reply::Refused(Refusal::NoPlan),
            None => Reply::Refused(Refusal::NoTransaction),
        }
    }

    // A client executes the plan that it keeps.
    pub(crate) fn execute(
        &mut self,
        alloc: Global,
        kept: &KeptPlans,
        client: u64,
        known: &mut Known,
        stays_open: bool,
    ) -> Result<Reply, AllocError>
        requires stands { (past : Past) × StandsAfter past self.old }
        requires held { stays_open ≡ true → IsHeld self.old.cluster.base }
        ensures { IfOk result (λ reply.
            IsSteppedWith kept.now.plans.items (Step.Execute client) reply self.old self.new) }
    {
        match kept.plan_of(client) {
            Some(plan) => {
                let command = Command::Execute(plan.copy()?);
                let reply = self.perform(alloc, client, &command, known, stays_open)?;
                Ok(reply)
            }
            None => Ok(self.without_plan(client)),
        }
    }

    // Submits a client's transaction, which has ended.
    fn submit(&mut self, client: u64, ended: OpenTransaction) -> Result<Reply, AllocError>
        requires { ended.transaction.read_version ≤ self.old.cluster.pipeline.reported }
        ensures { IfOk result (λ reply. IsSubmit client ended reply self.old self.new) }
    {
        let OpenTransaction {
            store,
            transaction,
            commands,
            opened: _,
        } = ended;
        let request = transaction.into_request();
        if request.mutations.is_empty() {
            return Ok(Reply::ReadOnly);
        }
        let read_version = request.read_version;
        match self.cluster.submit(request) {
            Ok(ticket) => {
                self.unreported.push_back(Unreported {
                    client,
                    store,
                    read_version,
                    commands,
                })?;
                Ok(Reply::Submitted(ticket.version()))
            }
            Err(SubmitError::VersionsExhausted) => {
                Ok(Reply::Refused(Refusal::VersionsExhausted))
            }
            Err(SubmitError::TooOld) => Ok(Reply::Refused(Refusal::TooOld)),
            Err(SubmitError::Memory) => Err(AllocError),
        }
    }

    // A client submits its transaction, which ends.
    pub(crate) fn commit(&mut self, client: u64) -> Result<Reply, AllocError>
        requires { (past : Past) × StandsAfter past self.old }
        ensures { IfOk result (λ reply. IsStepped (Step.Commit client) reply self.old self.new) }
    {
        if client >= CLIENTS as u64 {
            return Ok(Reply::Refused(Refusal::NoSuchClient));
        }
        match self.transactions[client as usize].take() {
            Some(ended) => {
                let reply = self.submit(client, ended)?;
                Ok(reply)
            }
            None => Ok(Reply::Refused(Refusal::NoTransaction)),
        }
    }

    // A client ends its transaction, whose changes are dropped.
    pub(crate) fn abandon(&mut self, client: u64) -> Reply
        ensures { IsStepped (Step.Abandon client) result self.old self.new }
    {
        if client >= CLIENTS as u64 {
            return Reply::Refused(Refusal::NoSuchClient);
        }
        match self.transactions[client as usize].take() {
            Some(_) => Reply::Done,
            None => Reply::Refused(Refusal::NoTransaction),
        }
    }
}
