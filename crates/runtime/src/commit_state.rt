// The commit side under the lock, a request at a time. Used by `db`, `handing_in`, `group_commit`.
ghost use Rattle.std.specs.Prelude.{◌≡◌, ℕ, ◌+◌, ◌-◌, ◌^◌, ◌<◌, ◌≤◌, [], length, slice_index};
ghost use Rattle.std.specs.Prelude.{IfOk, IfErr, IfSome, IsNone, MatchResult, OnOk, Some, Err, ◌⊎◌};
ghost use Rattle.std.specs.Bool.{OnTrue, OnFalse};
ghost use Rattle.left_right.specs.Sides.{view as knowledge};
ghost use Rattle.cluster_core.specs.Configuration.{config_refusal};
ghost use Rattle.cluster_core.specs.Roles.{told};
ghost use Rattle.runtime.specs.CommitStates.{IsHandled, IsOneDue, LeavesEntry, commit_view};
ghost use Rattle.runtime.specs.History.{log_prefix};
ghost use Rattle.runtime.specs.Logs.{AreGiven, HasEarlier, IsOpenOver, cause_next, version_of};
ghost use Rattle.replay.specs.Replaying.{IsLogged};
ghost use Rattle.runtime.specs.Origins.{origin_of};
ghost use Rattle.runtime.specs.Outcomes.{GivesNext, IsEndOf, next_entry};
ghost use Rattle.runtime.specs.Publication.{knows};

use crate::base::Base;
use crate::in_flight::{Due, InFlight, added, decided, recorded, report};
use crate::log_entry::{RequestView, Submitted};
use crate::log_prefix::{LogHead, LogPrefix, again};
use crate::outcome::{HandedIn, Outcome};
use crate::publication::StateReader;
use crate::published::Step;
use crate::publisher::Publisher;
use crate::trace::Trace;
use cluster_core::{Config, ConfigError, Pipeline, Reported, SubmitError};
use commits::{Commit, HoldError as Held};
use kv_core::CommitRequest;
use std::alloc::{AllocError, Global};
use std::marker::Model;
use std::mem::replace;
use std::sync::Wait;

/// The locked state: the pipeline, and the writer's side of what it reported. `close` ends it.
pub struct CommitState {
    alloc: Global,
    pipeline: Pipeline,
    publisher: Publisher,
    head: LogHead,
    prefix: LogPrefix,
    in_flight: InFlight,
    last: Vec<u64>,
}

impl Model for CommitState {
    ghost use Rattle.std.specs.Prelude.{◌≡◌, ◌++◌, true};
    ghost use Rattle.runtime.specs.History.{log_prefix};
    ghost use Rattle.runtime.specs.Logs.{AreCounted, AreGiven, is_numbered};
    ghost use Rattle.cluster_core.specs.Roles.{whole};
    ghost use Rattle.runtime.specs.CommitStates.{CommitView, commit_view, due_of, IsInFlight};
    ghost use Rattle.std.specs.Coded.{codes};
    ghost use Rattle.command_log.specs.contracts.entry.Entry as kept_entries;
    ghost use Rattle.runtime.specs.contracts.log_entry.Entry as entries;

    ghost Value = { CommitView };

    ghost coded = { Prim.hlevel (codes, entries.the_row.coded, kept_entries.the_row.coded) };

    ghost view = { λ h.
        let log = h.publisher.published ++ h.publisher.pending in
        commit_view h.publisher.name h.publisher.published log (due_of h.in_flight log) h.last.items };

    ghost invariant = { λ h.
        let log = h.publisher.published ++ h.publisher.pending in
        (h.head ≡ h.publisher.name.book) × (h.prefix ≡ log_prefix h.publisher.name log)
        × IsInFlight h.publisher.name log (whole h.pipeline) h.in_flight
        × (is_numbered h.last.items (due_of h.in_flight log) ≡ true)
        × AreGiven h.last.items (due_of h.in_flight log)
        × AreCounted h.last.items (due_of h.in_flight log) };
}

impl CommitState {
    /// Has the roles handle what isn't reported yet.
    fn report(&mut self)
        ensures same { self.new ≡ self.old }
        ensures waiting { IsOneDue self.old.log self.old.due }
        ensures given { AreGiven self.old.last self.old.due }
    {
        match replace(&mut self.in_flight, InFlight::Idle) {
            InFlight::Unreported(due) => {
                self.in_flight = report(self.alloc, &mut self.pipeline, due);
            }
            other => self.in_flight = other,
        }
    }

    /// Adds to the history what is in flight, where that doesn't have it yet.
    fn record(&mut self)
        ensures { self.new ≡ self.old }
    {
        match replace(&mut self.in_flight, InFlight::Idle) {
            InFlight::Unreported(due) => {
                self.in_flight = InFlight::Unreported(recorded(&self.head, &self.prefix, due));
            }
            InFlight::Decided(due, version) => {
                let due = recorded(&self.head, &self.prefix, due);
                self.in_flight = added(due, version);
            }
            other => self.in_flight = other,
        }
    }

    /// The log that ends with what is in flight, once the history has that.
    fn due(&self) -> Option<LogPrefix>
        ensures { IfSome result (λ prefix. prefix ≡ log_prefix self.now.name self.now.due) }
    {
        match &self.in_flight {
            InFlight::Idle => None,
            InFlight::Unreported(due) | InFlight::Decided(due, _) => again(&due.prefix),
            InFlight::Added(step) => Some(step.prefix.again()),
        }
    }

    /// Hands to the writer what was added, and says whether nothing is in flight then.
    fn append(&mut self) -> bool
        ensures name { self.new.name ≡ self.old.name }
        ensures published { self.new.published ≡ self.old.published }
        ensures due { self.new.due ≡ self.old.due }
        ensures last { self.new.last ≡ self.old.last }
        ensures done { OnTrue result (self.new.log ≡ self.old.due) }
        ensures stays { OnFalse result (self.new.log ≡ self.old.log) }
    {
        match replace(&mut self.in_flight, InFlight::Idle) {
            InFlight::Idle => true,
            InFlight::Added(step) => {
                let prefix = step.prefix.again();
                match self.publisher.append(step) {
                    Ok(()) => {
                        self.prefix = prefix;
                        true
                    }
                    Err(step) => {
                        self.in_flight = InFlight::Added(step);
                        false
                    }
                }
            }
            other => {
                self.in_flight = other;
                false
            }
        }
    }

    /// Finishes what is in flight, as far as memory suffices, and says whether nothing is then.
    fn finish(&mut self) -> bool
        ensures name { self.new.name ≡ self.old.name }
        ensures published { self.new.published ≡ self.old.published }
        ensures due { self.new.due ≡ self.old.due }
        ensures last { self.new.last ≡ self.old.last }
        ensures done { OnTrue result (self.new.log ≡ self.old.due) }
        ensures stays { OnFalse result (self.new.log ≡ self.old.log) }
        ensures waiting { IsOneDue self.old.log self.old.due }
        ensures given { AreGiven self.old.last self.old.due }
    {
        self.report();
        self.record();
        self.append()
    }

    /// The last number of a client's submissions, 0 where there is no such client.
    pub fn last_number(&self, client: u64) -> u64
        ensures { result ≡ slice_index self.now.last client }
    {
        match self.last.get(client as usize) {
            Some(last) => *last,
            None => 0,
        }
    }

    /// The number of a client's next submission.
    fn next_number(&self, client: u64) -> Result<u64, Outcome>
        ensures next { IfOk result (λ number. number ≡ slice_index self.now.last client + 1) }
        ensures client { IfOk result (λ number. client < length self.now.last) }
        ensures refused { IfErr result (λ outcome. (outcome ≡ Outcome.Memory)
            ⊎ ((outcome ≡ Outcome.VersionsExhausted)
            × (slice_index self.now.last client ≡ 2 ^ 64 - 1))) }
    {
        let Some(last) = self.last.get(client as usize) else {
            return Err(Outcome::Memory);
        };
        if *last == u64::MAX {
            return Err(Outcome::VersionsExhausted);
        }
        Ok(*last + 1)
    }

    /// Has every role handle a request, where nothing is in flight, and tells what is reported of
    /// it, or else what became of it.
    fn submit(
        &mut self,
        client: u64,
        prefix: &LogPrefix,
        request: CommitRequest,
        trace: Trace,
    ) -> Result<Reported, Outcome>
        requires name { prefix.now.name ≡ self.old.name }
        requires open { IsOpenOver self.old.name.origin prefix.now.log request trace }
        requires waiting { IsOneDue self.old.log self.old.due }
        requires earlier { HasEarlier self.old.due (next_entry self.old.last client request trace) }
        ensures told { IfOk result (λ reported.
            reported ≡ told (cause_next self.old.name.origin self.old.due request)
            (version_of self.old.name.origin self.old.due + 1)) }
        ensures numbers { OnOk result (GivesNext self.old.last self.new.last
            (next_entry self.old.last client request trace)) }
        ensures taken { OnOk result (
            (self.new.name ≡ self.old.name) × (self.new.published ≡ self.old.published)
            × LeavesEntry self.old self.new (next_entry self.old.last client request trace)) }
        ensures refused { IfErr result (λ outcome.
            IsHandled self.old self.new (next_entry self.old.last client request trace) outcome) }
    {
        let InFlight::Idle = &self.in_flight else {
            return Err(Outcome::Memory);
        };
        if !prefix.begins(&self.prefix) {
            return Err(Outcome::Memory);
        }
        let number = self.next_number(client)?;
        let mutations = request.mutations.copy()?;
        let due = Due {
            submitted: Submitted {
                client,
                number,
                request: RequestView::of(&request),
                trace,
            },
            mutations,
            prefix: None,
        };
        prove!(self.prefix.len() <= u64::MAX);
        match self.pipeline.commit(request) {
            Ok(reported) => {
                self.in_flight = decided(self.alloc, &reported, due);
                self.last[client as usize] = number;
                Ok(reported)
            }
            Err(Held::Submit(SubmitError::TooOld)) => Err(Outcome::TooOld),
            Err(Held::Submit(SubmitError::VersionsExhausted)) => Err(Outcome::VersionsExhausted),
            Err(Held::Submit(SubmitError::Memory)) => Err(Outcome::Memory),
            Err(Held::Behind(_)) => unreachable!(),
            Err(Held::Unknown) => {
                self.in_flight = InFlight::Unreported(due);
                self.last[client as usize] = number;
                Err(Outcome::Unknown)
            }
        }
    }

    /// Finishes what an earlier request left in flight. Then has every role handle the request of
    /// a transaction over this log, adds its entry, with the client's next number, and tells what
    /// became of it. `TooOld` and `VersionsExhausted` are as the pipeline refuses it; `Memory` is
    /// told where memory runs out before, also in finishing, where there is no such client, or
    /// where the transaction's log isn't a beginning of the one here. Nothing is submitted then.
    /// After `Unknown` it stands submitted, and the next call finishes it.
    pub fn request(
        &mut self,
        client: u64,
        prefix: &LogPrefix,
        request: CommitRequest,
        trace: Trace,
    ) -> HandedIn
        requires name { prefix.now.name ≡ self.old.name }
        requires open { IsOpenOver self.old.name.origin prefix.now.log request trace }
        ensures handled { IsHandled self.old self.new
            (next_entry self.old.last client request trace) result.outcome }
        ensures due { IfSome result.due (IsEndOf self.old.name
            (next_entry self.old.last client request trace)) }
    {
        if !self.finish() {
            return HandedIn::without(Outcome::Memory);
        }
        match self.submit(client, prefix, request, trace) {
            Ok(reported) => {
                self.record();
                let due = self.due();
                if self.finish() {
                    HandedIn {
                        outcome: Outcome::of(reported),
                        due,
                    }
                } else {
                    HandedIn {
                        outcome: Outcome::Unknown,
                        due,
                    }
                }
            }
            Err(Outcome::Unknown) => {
                self.record();
                HandedIn {
                    outcome: Outcome::Unknown,
                    due: self.due(),
                }
            }
            Err(outcome) => HandedIn::without(outcome),
        }
    }

    /// Shows readers all entries that were added. Where memory runs out they see what they saw. Of
    /// requests that are older than the window the pipeline keeps no bytes then.
    pub fn publish<R: Wait>(self, rt: &R) -> (CommitState, Result<(), AllocError>)
        ensures shown { MatchResult result.1
            (λ _. result.0 ≡ commit_view self.name self.log self.log self.due self.last)
            (λ _. result.0 ≡ self) }
    {
        let CommitState {
            alloc,
            mut pipeline,
            publisher,
            head,
            prefix,
            in_flight,
            last,
        } = self;
        pipeline.forget();
        let (publisher, result) = publisher.publish(rt);
        let state = CommitState {
            alloc,
            pipeline,
            publisher,
            head,
            prefix,
            in_flight,
            last,
        };
        (state, result)
    }

    /// The published log.
    pub fn prefix(&self) -> LogPrefix
        ensures { result ≡ log_prefix self.now.name self.now.published }
    {
        self.publisher.prefix()
    }

    /// The log of all entries that were added.
    pub fn whole(&self) -> LogPrefix
        ensures { result ≡ log_prefix self.now.name self.now.log }
    {
        self.prefix.again()
    }

    /// A new reader, which knows of which database the state is, unless each place is in use.
    pub fn reader(&mut self) -> Result<StateReader, AllocError>
        ensures same { self.new ≡ self.old }
        ensures reader { IfOk result (λ reader. knowledge reader.place ≡ knows self.old.name) }
    {
        self.publisher.reader()
    }

    /// Waits for the readers, and ends.
    pub fn close<R: Wait>(self, rt: &R) {
        let CommitState {
            alloc: _,
            pipeline: _,
            publisher,
            head: _,
            prefix: _,
            in_flight: _,
            last: _,
        } = self;
        publisher.close(rt);
    }

    /// The state of a database that goes on from this and has no entry yet, for as many clients as
    /// there are places, in which what is committed is kept or isn't. Refused as by `Pipeline::new`.
    pub fn open<R: Wait>(
        rt: &R,
        alloc: Global,
        config: &Config,
        base: &Base,
        kept: bool,
    ) -> Result<CommitState, ConfigError>
        requires logged { IsLogged base.now.entries.items base.now.image }
        requires above { base.now.image.version ≤ config.now.start }
        ensures allowed { OnOk result (IsNone (config_refusal config.now)) }
        ensures refused { IfErr result (λ error.
            (error ≡ ConfigError.Memory) ⊎ (config_refusal config.now ≡ Some error)) }
        ensures name { IfOk result (λ state. (state.name.kept ≡ kept)
            × (state.name.origin ≡ origin_of config.now base.now.entries.items)) }
        ensures empty { IfOk result (λ state.
            (state.published ≡ []) × (state.log ≡ []) × (state.due ≡ [])) }
        ensures clients { IfOk result (λ state. length state.last ≡ config.now.places) }
        ensures none { IfOk result (λ state. (client : ℕ) → slice_index state.last client ≡ 0) }
    {
        let pipeline = Pipeline::new(alloc, config)?;
        let places = config.places as usize;
        let last = Vec::from_elem(alloc, 0u64, places)?;
        let (publisher, head) = Publisher::open(rt, alloc, config, base, kept, places)?;
        let prefix = publisher.prefix();
        Ok(CommitState {
            alloc,
            pipeline,
            publisher,
            head,
            prefix,
            in_flight: InFlight::Idle,
            last,
        })
    }
}
