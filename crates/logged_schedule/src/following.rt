// What is followed beside a schedule, of what its clients change. Kept by `followed`.
ghost use Rattle.std.specs.Prelude.{◌≡◌, ◌<◌, ◌≤◌, ◌++◌, ◌∷◌, [], List, None, IfOk, OnOk};
ghost use Rattle.std.specs.Prelude.{drop, get_or, length, map, option_to_list, slice_set, vec_len};
ghost use Rattle.schedule.specs.declared.step.TheConstants.{CLIENTS};
ghost use Rattle.schedule.specs.Past.{Past, Submission, is_accepted, submitted_after};
ghost use Rattle.logged_schedule.specs.Entries.{logged_changes, logged_as, reports_in, told_first};
ghost use Rattle.logged_schedule.specs.Following.{AreOpen, changed_further, entries_by};
ghost use Rattle.logged_schedule.specs.Following.{SubmitsOfClients};

use command_log::{Change, Changes, Entry};
use replay::change_of;
use schedule::{CLIENTS, Command, Reply, Report, Step};
use std::alloc::{AllocError, Global};
use std::collections::VecDeque;
use std::marker::Model;

// The store of an open transaction, and what was changed in it so far.
#[derive(Drop)]
pub(crate) struct Changing {
    store: u64,
    changes: Vec<Change>,
}

impl Model for Changing {
    ghost use Rattle.std.specs.Prelude.{ℕ, List};
    ghost use Rattle.command_log.specs.declared.change.Change.{Change};
    ghost use Rattle.command_log.specs.contracts.change.Change as one;
    ghost use Rattle.std.specs.Coded.{codes};

    ghost Value = { ℕ × List Change };

    ghost coded = { Prim.hlevel (codes, one.the_row.coded) };

    ghost view = { λ c. (c.store, c.changes.items) };
}

impl Changing {
    // Nothing was changed in this store.
    fn new(alloc: Global, store: u64) -> Changing
        ensures { result ≡ (store, []) }
    {
        Changing {
            store,
            changes: Vec::new(alloc),
        }
    }

    // The same, where a command was accepted after them.
    fn and(self, command: &Command) -> Result<Changing, AllocError>
        ensures { IfOk result (λ after. after
            ≡ (self.0, self.1 ++ logged_changes (command.now ∷ []))) }
    {
        let Changing { store, mut changes } = self;
        match change_of(command)? {
            Some(change) => {
                changes.push(change)?;
                Ok(Changing { store, changes })
            }
            None => Ok(Changing { store, changes }),
        }
    }

    // The entry of these changes, where they are submitted at this version.
    fn into_entry(self, client: u64, version: u64) -> Entry
        ensures { result ≡ record {
          version = version;
          client = client;
          number = version;
          store = self.0;
          changes = self.1;
        } }
    {
        Entry {
            version,
            client,
            number: version,
            store: self.store,
            changes: Changes::new(self.changes),
        }
    }
}

// Whether the reply accepts its command.
pub(crate) fn is_accepted(reply: &Reply) -> bool
    ensures { result ≡ is_accepted reply.now }
{
    !matches!(
        reply,
        Reply::Refused(_) | Reply::Corrupt(_) | Reply::Stopped
    )
}

// The reports of a step's reply.
fn reports_in<'a>(step: &Step, reply: &'a Reply) -> &'a [Report]
    ensures { result.now ≡ reports_in step.now reply.now }
{
    match (step, reply) {
        (Step::Report | Step::Lost | Step::Settle, Reply::Reported(reports)) => reports.as_slice(),
        _ => &[],
    }
}

// What is followed of a schedule's clients.
#[derive(Drop)]
pub(crate) struct Following {
    // What each client's open transaction has changed.
    places: Vec<Option<Changing>>,
    // The entries of what was submitted and isn't reported yet, in version order.
    waiting: VecDeque<Entry>,
    ghost place_each: { vec_len places ≡ CLIENTS },
}

impl Following {
    ghost use Rattle.logged_schedule.specs.Followed.{DoesFollow, IsFollowed};

    // Nothing was done.
    pub(crate) fn new(alloc: Global) -> Result<Following, AllocError>
        ensures { IfOk result (IsFollowed []) }
    {
        let mut places = Vec::new(alloc);
        for _ in 0..CLIENTS {
            places.push(None)?;
        }
        Ok(Following {
            places,
            waiting: VecDeque::new(alloc),
        })
    }

    // Puts this in the place of a client, where there is such a client.
    fn set(&mut self, client: u64, value: Option<Changing>)
        ensures there { client < CLIENTS
            → self.new.places.items ≡ slice_set self.old.places.items client value }
        ensures away { CLIENTS ≤ client → self.new.places.items ≡ self.old.places.items }
        ensures waiting { self.new.waiting.items ≡ self.old.waiting.items }
    {
        if client < CLIENTS as u64 {
            self.places[client as usize] = value;
        }
    }

    // Takes what is in the place of a client, which is empty then.
    fn take(&mut self, client: u64) -> Option<Changing>
        ensures taken { client < CLIENTS → result ≡ get_or self.old.places.items client None }
        ensures none { CLIENTS ≤ client → result ≡ None }
        ensures there { client < CLIENTS
            → self.new.places.items ≡ slice_set self.old.places.items client None }
        ensures away { CLIENTS ≤ client → self.new.places.items ≡ self.old.places.items }
        ensures waiting { self.new.waiting.items ≡ self.old.waiting.items }
    {
        if client >= CLIENTS as u64 {
            return None;
        }
        self.places[client as usize].take()
    }

    // A client has begun in a store, where the reply says so.
    fn begin(&mut self, alloc: Global, client: u64, store: u64, reply: &Reply)
        ensures places { (past : Past) → AreOpen past self.old.places.items
            → AreOpen ((Step.Begin client store, reply.now) ∷ past) self.new.places.items }
        ensures waiting { self.new.waiting.items ≡ self.old.waiting.items }
    {
        if let Reply::Begun(_) = reply {
            self.set(client, Some(Changing::new(alloc, store)));
        }
    }

    // A client has performed a command, which the reply accepts.
    fn accept(&mut self, client: u64, command: &Command) -> Result<(), AllocError>
        ensures there { OnOk result (client < CLIENTS → self.new.places.items
            ≡ slice_set self.old.places.items client
            (changed_further command.now (get_or self.old.places.items client None))) }
        ensures away { OnOk result (CLIENTS ≤ client
            → self.new.places.items ≡ self.old.places.items) }
        ensures waiting { OnOk result (self.new.waiting.items ≡ self.old.waiting.items) }
    {
        match self.take(client) {
            Some(changing) => {
                let after = changing.and(command)?;
                self.set(client, Some(after));
                Ok(())
            }
            None => Ok(()),
        }
    }

    // A client has performed a command.
    fn perform(&mut self, client: u64, command: &Command, reply: &Reply) -> Result<(), AllocError>
        ensures places { OnOk result ((past : Past) → AreOpen past self.old.places.items
            → AreOpen ((Step.Perform client command.now, reply.now) ∷ past) self.new.places.items) }
        ensures waiting { OnOk result (self.new.waiting.items ≡ self.old.waiting.items) }
    {
        if is_accepted(reply) {
            self.accept(client, command)
        } else {
            Ok(())
        }
    }

    // A client's transaction has ended, and waits for its report where it was submitted.
    fn commit(&mut self, client: u64, reply: &Reply) -> Result<(), AllocError>
        ensures places { OnOk result ((past : Past) → AreOpen past self.old.places.items
            → AreOpen ((Step.Commit client, reply.now) ∷ past) self.new.places.items) }
        ensures waiting { OnOk result (client < CLIENTS → self.new.waiting.items
            ≡ self.old.waiting.items
            ++ entries_by client reply.now (get_or self.old.places.items client None)) }
        ensures away { OnOk result (CLIENTS ≤ client
            → self.new.waiting.items ≡ self.old.waiting.items) }
    {
        match (self.take(client), reply) {
            (Some(changing), Reply::Submitted(version)) => {
                self.waiting
                    .push_back(changing.into_entry(client, *version))?;
                Ok(())
            }
            _ => Ok(()),
        }
    }

    // A client's transaction is dropped, where the reply says so.
    fn abandon(&mut self, client: u64, reply: &Reply)
        ensures places { (past : Past) → AreOpen past self.old.places.items
            → AreOpen ((Step.Abandon client, reply.now) ∷ past) self.new.places.items }
        ensures waiting { self.new.waiting.items ≡ self.old.waiting.items }
    {
        if let Reply::Done = reply {
            self.set(client, None);
        }
    }

    // The entry of which a report says that it is committed, where it does: the report tells of the
    // next one that waits, which waits no more.
    fn take_next(&mut self, report: &Report) -> Option<Entry>
        ensures told { option_to_list result
            ≡ told_first (report.now ∷ []) self.old.waiting.items }
        ensures others { self.new.waiting.items ≡ drop 1 self.old.waiting.items }
        ensures places { self.new.places.items ≡ self.old.places.items }
    {
        let next = self.waiting.pop_front();
        match report {
            Report::Committed { .. } => next,
            Report::Conflict { .. } | Report::Unknown { .. } => None,
        }
    }

    // The entries of which these reports say that they are committed, where each tells of the next
    // that waits.
    fn take_reported(&mut self, alloc: Global, reports: &[Report]) -> Result<Vec<Entry>, AllocError>
        ensures told { IfOk result (λ told.
            told.items ≡ told_first reports.now self.old.waiting.items) }
        ensures others { OnOk result
            (self.new.waiting.items ≡ drop (length reports.now) self.old.waiting.items) }
        ensures places { OnOk result (self.new.places.items ≡ self.old.places.items) }
    {
        let mut told = Vec::new(alloc);
        for report in reports {
            if let Some(entry) = self.take_next(report) {
                told.push(entry)?;
            }
        }
        Ok(told)
    }

    // Follows what a step changes of what clients have open, and of what waits.
    fn note_client(&mut self, alloc: Global, step: &Step, reply: &Reply) -> Result<(), AllocError>
        ensures places { OnOk result ((past : Past) → AreOpen past self.old.places.items
            → AreOpen ((step.now, reply.now) ∷ past) self.new.places.items) }
        ensures waiting { OnOk result ((past : Past) (waiting : List Submission)
            → AreOpen past self.old.places.items → SubmitsOfClients step.now reply.now
            → self.old.waiting.items ≡ map logged_as waiting → self.new.waiting.items
            ≡ map logged_as (submitted_after step.now reply.now past waiting)) }
    {
        match step {
            Step::Begin(client, store) => {
                self.begin(alloc, *client, *store, reply);
                Ok(())
            }
            Step::Perform(client, command) => self.perform(*client, command, reply),
            Step::Commit(client) => self.commit(*client, reply),
            Step::Abandon(client) => {
                self.abandon(*client, reply);
                Ok(())
            }
            Step::Execute(_)
            | Step::Resolve(_)
            | Step::Log(_)
            | Step::Pull(_)
            | Step::Report
            | Step::Lost
            | Step::Settle => Ok(()),
        }
    }

    // Follows a step with its reply, and answers the entries of what the reply tells to be
    // committed.
    pub(crate) fn note(
        &mut self,
        alloc: Global,
        step: &Step,
        reply: &Reply,
    ) -> Result<Vec<Entry>, AllocError>
        ensures { IfOk result (λ told. (past : Past) → IsFollowed past self.old
            → SubmitsOfClients step.now reply.now
            → DoesFollow past step.now reply.now told.items self.new) }
    {
        let told = self.take_reported(alloc, reports_in(step, reply))?;
        self.note_client(alloc, step, reply)?;
        Ok(told)
    }
}
