// A database in memory, and transactions of changes over it. Called by `replaying`, and by who logs
// what is changed.
ghost use Rattle.std.specs.Prelude.{◌≡◌, [], false, true, IfOk, IfErr};
ghost use Rattle.std.specs.FinMap as finite;
ghost use Rattle.kv_core.specs.Map.{after_all};
ghost use Rattle.schedule.specs.Past.{is_accepted};
ghost use Rattle.schedule.specs.declared.reply.Reply.TheVariants as replies;
ghost use Rattle.replay.specs.declared.error.PerformError.TheVariants as performs;
ghost use Rattle.replay.specs.Commands.{commands_of};
ghost use Rattle.replay.specs.Pairs.{all_pairs};
ghost use Rattle.replay.specs.Replaying.{AllDone, AreUndone, IsRefusalOf};

use crate::command::commands_of;
use crate::error::PerformError;
use command_log::Changes;
use kv_core::{Bytes, KeyRange, KvMap, Mutations, Pair};
use record_store::{KnownSchema, StoreNumber};
use schedule::{Command, Reply, perform_knowing};
use std::alloc::{AllocError, Global};
use std::marker::Model;
use txn::Transaction;

/// What changes in one transaction come to.
#[derive(Drop)]
pub struct Done {
    /// The reply to each change, in order.
    pub replies: Vec<Reply>,
    /// What the transaction wrote.
    pub mutations: Mutations,
}

/// A database in memory, for one thread: its pairs, and the version of the last transaction in it.
#[derive(Drop)]
pub struct Image {
    map: KvMap,
    version: u64,
    known: KnownSchema,
}

impl Model for Image {
    ghost use Rattle.replay.specs.ImageCode.{image_code};
    ghost use Rattle.replay.specs.Replaying.{Image as ImageValue};

    ghost Value = { ImageValue };

    ghost coded = { image_code };

    ghost view = { λ i. record { map = i.map; version = i.version } };
}

/// Whether the reply accepts its command.
fn is_accepted(reply: &Reply) -> bool
    ensures { result ≡ is_accepted reply.now }
{
    !matches!(
        reply,
        Reply::Refused(_) | Reply::Corrupt(_) | Reply::Stopped
    )
}

/// How a reply that doesn't accept its command is told.
fn refused(place: usize, reply: Reply) -> PerformError
    ensures { IsRefusalOf place reply result }
{
    match reply {
        Reply::Refused(refusal) => PerformError::Refused(place, refusal),
        Reply::Corrupt(key) => PerformError::Corrupt(place, key),
        _ => PerformError::Memory,
    }
}

/// Performs commands in a store, one after another, up to the first that isn't accepted.
fn perform_each(
    alloc: Global,
    store: StoreNumber,
    commands: &[Command],
    tx: &mut Transaction,
    map: &KvMap,
    known: &mut KnownSchema,
) -> Result<Vec<Reply>, PerformError>
    requires { tx.old.mutations ≡ [] }
    ensures done { IfOk result (λ replies.
        AllDone store map.now commands.now replies.items tx.new.mutations) }
    ensures undone { IfErr result (AreUndone store map.now commands.now) }
{
    let mut replies = Vec::new(alloc);
    for command in commands {
        let reply = perform_knowing(alloc, command, store, tx, map, known)?;
        if !is_accepted(&reply) {
            return Err(refused(replies.len(), reply));
        }
        replies.push(reply)?;
    }
    Ok(replies)
}

impl Image {
    /// A database without pairs.
    pub fn new(alloc: Global) -> Image
        ensures { result ≡ record { map = finite.empty; version = 0 } }
    {
        Image {
            map: KvMap::new(alloc),
            version: 0,
            known: KnownSchema::new(),
        }
    }

    /// The database of these pairs at a version. Whether it is a lawful one is for the caller to
    /// know. Where a key is there more than once, the first of its pairs stands.
    pub fn of_pairs(alloc: Global, version: u64, pairs: Vec<Pair>) -> Result<Image, AllocError>
        ensures { IfOk result (λ image. image
            ≡ record { map = finite.from_entries pairs.items; version = version }) }
    {
        let mut image = Image::new(alloc);
        image.map = KvMap::from_pairs(alloc, pairs)?;
        image.version = version;
        Ok(image)
    }

    /// The pairs, copied, in the order of their keys.
    pub fn pairs(&self, alloc: Global) -> Result<Vec<Pair>, AllocError>
        ensures { IfOk result (λ pairs. pairs.items ≡ all_pairs self.now.map) }
    {
        let end = Bytes::from_slice(alloc, &[0xff])?;
        let Some(range) = KeyRange::new(Bytes::new(Vec::new(alloc)), end) else {
            unreachable!();
        };
        let pairs = self.map.range(&range, usize::MAX, false)?;
        if pairs.len() < usize::MAX {
            Ok(pairs)
        } else {
            Err(AllocError)
        }
    }

    /// The pairs, which transactions read.
    pub fn map(&self) -> &KvMap
        ensures { result.now ≡ self.now.map }
    {
        &self.map
    }

    /// The version of the last transaction.
    pub fn version(&self) -> u64
        ensures { result ≡ self.now.version }
    {
        self.version
    }

    /// Performs changes in one transaction in this store. It changes nothing yet: `accept` does
    /// that with what they write.
    pub fn perform(
        &mut self,
        alloc: Global,
        store: StoreNumber,
        changes: Changes,
    ) -> Result<Done, PerformError>
        ensures done { IfOk result (λ done.
            AllDone store self.old.map (commands_of changes) done.replies.items
            done.mutations) }
        ensures undone { IfErr result (AreUndone store self.old.map (commands_of changes)) }
        ensures kept { self.new ≡ self.old }
    {
        let commands = commands_of(alloc, changes)?;
        let mut tx = Transaction::begin(alloc, self.version);
        let replies = perform_each(
            alloc,
            store,
            commands.as_slice(),
            &mut tx,
            &self.map,
            &mut self.known,
        )?;
        let request = tx.into_request();
        Ok(Done {
            replies,
            mutations: request.mutations,
        })
    }

    /// The database after the mutations of a transaction of this version. Where memory runs out it
    /// is gone.
    pub fn accept(self, version: u64, mutations: &Mutations) -> Result<Image, AllocError>
        ensures { IfOk result (λ image. image
            ≡ record { map = after_all mutations.now self.map; version = version }) }
    {
        let Image {
            map,
            version: _,
            known,
        } = self;
        let map = map.with_all(mutations.as_slice())?;
        Ok(Image {
            map,
            version,
            known,
        })
    }
}
