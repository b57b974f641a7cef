// Publication to readers, by `left_right`. Used by `commit_state`.
ghost use Rattle.std.specs.Prelude.{◌≡◌, ◌^◌, ◌<◌, ◌≤◌, [], ◌∷◌, ◌++◌, ◌⊎◌, Some};
ghost use Rattle.std.specs.Prelude.{IfOk, IfErr, MatchResult};
ghost use Rattle.cluster_core.specs.Configuration.{config_refusal};
ghost use Rattle.left_right.specs.Sides.{view};
ghost use Rattle.runtime.specs.History.{database_name, log_prefix, submitted_entry};
ghost use Rattle.replay.specs.Replaying.{IsLogged};
ghost use Rattle.runtime.specs.Origins.{origin_of};
ghost use Rattle.runtime.specs.Publication.{Leads, knows, publisher_view};

use crate::base::Base;
use crate::log_prefix::{LogHead, LogPrefix, opened};
use crate::publication::{See, StateReader, StateWriter, Tell};
use crate::published::{Published, Step};
use cluster_core::{Config, ConfigError};
use std::alloc::{AllocError, Global};
use std::marker::Model;
use std::sync::Wait;

/// The writer's side of the published state. It isn't `Drop`: `close` ends it.
pub struct Publisher {
    writer: StateWriter,
}

impl Model for Publisher {
    ghost use Rattle.std.specs.Prelude.{◌≡◌, drop};
    ghost use Rattle.left_right.specs.Sides.{view as knowledge};
    ghost use Rattle.runtime.specs.Publication.{PublisherView, publisher_view, IsFold, LeadOn, entries_of};
    ghost use Rattle.runtime.specs.Publication.{has_seen};
    ghost use Rattle.std.specs.Coded.{codes};
    ghost use Rattle.command_log.specs.contracts.entry.Entry as kept_entries;
    ghost use Rattle.runtime.specs.contracts.log_entry.Entry as entries;

    ghost Value = { PublisherView };

    ghost coded = { Prim.hlevel (codes, entries.the_row.coded, kept_entries.the_row.coded) };

    ghost view = { λ s. publisher_view s.writer.desk.shown.value.prefix.name
        s.writer.desk.shown.value.prefix.log
        (entries_of (drop s.writer.behind s.writer.log.items)) };

    ghost invariant = { λ s. IsFold s.writer.desk.shown.value
        × LeadOn s.writer.desk.shown.value.prefix.name s.writer.desk.shown.value.prefix.log
        (drop s.writer.behind s.writer.log.items)
        × (knowledge s.writer.desk.place ≡ has_seen s.writer.desk.shown.value.prefix) };
}

impl Publisher {
    /// The writer of a new history of a database that goes on from this, for so many readers, with
    /// the history's head. It is refused as `Tier::new` refuses the configuration.
    pub fn open<R: Wait>(
        rt: &R,
        alloc: Global,
        config: &Config,
        base: &Base,
        kept: bool,
        readers: usize,
    ) -> Result<(Publisher, LogHead), ConfigError>
        requires readers { (0 < readers) × (readers < 2 ^ 32) }
        requires logged { IsLogged base.now.entries.items base.now.image }
        requires above { base.now.image.version ≤ config.now.start }
        ensures made { IfOk result (λ r.
            r.0 ≡ publisher_view
            (database_name r.1 (origin_of config.now base.now.entries.items) kept) [] []) }
        ensures refused { IfErr result (λ error.
            (error ≡ ConfigError.Memory) ⊎ (config_refusal config.now ≡ Some error)) }
    {
        let (head, prefix) = opened(config, base, kept);
        let first = Published::new(alloc, config, base, &prefix)?;
        let second = Published::new(alloc, config, base, &prefix)?;
        let writer = StateWriter::new(alloc, first, second, readers)?;
        let (writer, result) = writer.publish_as::<See, R>(rt);
        if result.is_err() {
            drop(writer.take(rt));
            return Err(ConfigError::Memory);
        }
        Ok((Publisher { writer }, head))
    }

    /// Takes the next entry, for a later publish. It comes back where memory runs out.
    pub fn append(&mut self, step: Step) -> Result<(), Step>
        requires { Leads self.old.name (self.old.published ++ self.old.pending) step }
        ensures { MatchResult result
            (λ _. self.new ≡ publisher_view self.old.name self.old.published
            (self.old.pending ++ submitted_entry step.submitted ∷ []))
            (λ back. (back ≡ step) × (self.new ≡ self.old)) }
    {
        self.writer.append(step)
    }

    /// Shows readers all entries. Where memory runs out they see what they saw.
    pub fn publish<R: Wait>(self, rt: &R) -> (Publisher, Result<(), AllocError>)
        ensures { MatchResult result.1
            (λ _. result.0 ≡ publisher_view self.name (self.published ++ self.pending) [])
            (λ _. result.0 ≡ self) }
    {
        let Publisher { writer } = self;
        let (writer, result) = writer.publish_as::<See, R>(rt);
        (Publisher { writer }, result)
    }

    /// A new reader, which knows of which database the state is, unless each place is in use.
    pub fn reader(&mut self) -> Result<StateReader, AllocError>
        ensures publisher { self.new ≡ self.old }
        ensures reader { IfOk result (λ r. view r.place ≡ knows self.old.name) }
    {
        let mut reader = self.writer.factory().reader()?;
        reader.learn::<Tell>(self.writer.tell::<Tell>());
        Ok(reader)
    }

    /// The published log.
    pub fn prefix(&self) -> LogPrefix
        ensures { result ≡ log_prefix self.now.name self.now.published }
    {
        self.writer.published().prefix.again()
    }

    /// Waits for the readers, and ends.
    pub fn close<R: Wait>(self, rt: &R) {
        let Publisher { writer } = self;
        drop(writer.take(rt));
    }
}
