// The storage servers together, which share out the keys. Used by `cluster`, by `txn`, which reads
// from it, and by `runtime`, which publishes it to readers.
ghost use Rattle.std.specs.Prelude.{◌≡◌, ℕ, ◌⊎◌, ◌+◌, ◌<◌, ◌≤◌, ◌^◌, ◌↔◌, Some, IsTrue, IsNone, IfOk};
ghost use Rattle.std.specs.Prelude.{IfErr, OnOk, OnErr, All, length, map, slice_get, slice_set};
ghost use Rattle.std.specs.FinMap.{empty, from_entries, get};
ghost use Rattle.std.specs.List.{AllByRecursion};
ghost use Rattle.kv_core.specs.Map.{after_all};
ghost use Rattle.kv_core.specs.Range.{point};
ghost use Rattle.kv_core.specs.Read.{read_of};
ghost use Rattle.cluster_core.specs.Cluster.{done_with_by};
ghost use Rattle.cluster_core.specs.Configuration.{config_refusal, first_tier, first_tier_over};
ghost use Rattle.cluster_core.specs.Decision.{Owned, owners};
ghost use Rattle.cluster_core.specs.Server.{IsFirstOver, IsServer, first_server, owner_of, server_state};
ghost use Rattle.cluster_core.specs.Tier.{ServerState, absorb, absorb_all, refusal, whole_map};

use crate::answers::{Config, ConfigError, Splits};
use crate::config::refusal_of;
use crate::part::{Part, parts_between};
use crate::server::{
    Server, have_next, least_pulled, owner_among, pull_each, read_each, refusal_among,
};
use kv_core::{Bytes, KeyRange, Mutation, Pair, ReadError};
use std::alloc::{AllocError, Global};
use std::marker::Model;

/// The storage servers, in key order: each tells the map of its keys at its last versions, as far
/// back as the window.
#[derive(Debug)]
pub struct Tier {
    alloc: Global,
    window: u64,
    splits: Splits,
    servers: Vec<Server>,
}

// Written out, so that no proof of a caller has to take its parts apart where one is dropped.
impl Drop for Tier {
    fn drop(self) {
        let Tier {
            alloc: _,
            window: _,
            splits,
            servers,
        } = self;
        drop(splits);
        drop(servers);
    }
}

impl Model for Tier {
    ghost use Rattle.std.specs.Prelude.{map};
    ghost use Rattle.cluster_core.specs.TierCode.{tier_code};
    ghost use Rattle.cluster_core.specs.Tier.{TierState};

    ghost Value = { TierState };

    ghost coded = { tier_code };

    ghost use Rattle.cluster_core.specs.Server.{IsTier, server_state};

    ghost view = { λ a. record { splits = a.splits; window = a.window; servers = map server_state a.servers.items } };

    ghost invariant = { λ a. IsTier a.splits a.window a.servers.items };
}

/// A server with the empty map at a version for each part of the keys.
fn servers_of(alloc: Global, parts: Vec<Part>, version: u64) -> Result<Vec<Server>, AllocError>
    ensures owners { IfOk result (λ servers. map owner_of servers.items ≡ parts.items) }
    ensures states { IfOk result (λ servers.
        AllByRecursion (λ server. server_state server ≡ first_server version) servers.items) }
    ensures kept { IfOk result (λ servers.
        AllByRecursion (λ server. (window : ℕ) → IsServer window server) servers.items) }
{
    let mut servers = Vec::new(alloc);
    for part in parts {
        servers.push(Server::new(alloc, part, version))?;
    }
    Ok(servers)
}

/// A server for each part of the keys that has at a version, which isn't 0, what the mutations make
/// of the empty map.
fn servers_over(
    alloc: Global,
    parts: Vec<Part>,
    version: u64,
    mutations: &[Mutation],
) -> Result<Vec<Server>, AllocError>
    requires { 1 ≤ version }
    ensures owners { IfOk result (λ servers. map owner_of servers.items ≡ parts.items) }
    ensures states { IfOk result (λ servers.
        AllByRecursion (IsFirstOver (after_all mutations.now empty) version) servers.items) }
    ensures kept { IfOk result (λ servers.
        AllByRecursion (λ server. (window : ℕ) → IsServer window server) servers.items) }
{
    let mut servers = Vec::new(alloc);
    for part in parts {
        servers.push(Server::over(alloc, part, version, mutations)?)?;
    }
    Ok(servers)
}

/// Mutations that put these pairs, the last one first, so that the first of a key's pairs stands.
fn puts_of(alloc: Global, pairs: Vec<Pair>) -> Result<Vec<Mutation>, AllocError>
    ensures { IfOk result (λ mutations. after_all mutations.items empty ≡ from_entries pairs.items) }
{
    let mut rest = pairs;
    let mut mutations = Vec::new(alloc);
    while let Some((key, value)) = rest.pop() {
        mutations.push(Mutation::Set { key, value })?;
    }
    Ok(mutations)
}

impl Tier {
    /// The servers at the start: each has the empty map at the first version.
    ///
    /// It is refused with `BadCount` where a number of roles or the window is out of its bounds,
    /// else with `BadSplits` where the splits of the resolvers or those of the servers can't be
    /// splits, and else with `Memory` where memory runs out.
    pub fn new(alloc: Global, config: &Config) -> Result<Tier, ConfigError>
        ensures made { IfOk result (λ tier. tier ≡ first_tier config.now) }
        ensures allowed { OnOk result (IsNone (config_refusal config.now)) }
        ensures refused { IfErr result (λ error.
            (error ≡ ConfigError.Memory) ⊎ (config_refusal config.now ≡ Some error)) }
    {
        if let Some(error) = refusal_of(config) {
            return Err(error);
        }
        let splits = config.storage_splits.copy()?;
        let parts = parts_between(alloc, splits.as_slice())?;
        let servers = servers_of(alloc, parts, config.start)?;
        Ok(Tier {
            alloc,
            window: config.window,
            splits,
            servers,
        })
    }

    /// The servers over the map of these pairs: each has its part of it at the first version, which
    /// isn't 0, and at those before. Where a key is there more than once, the first of its pairs
    /// stands. It is refused as `new` is.
    pub fn over(alloc: Global, config: &Config, pairs: Vec<Pair>) -> Result<Tier, ConfigError>
        requires { 1 ≤ config.now.start }
        ensures made { IfOk result (λ tier. tier ≡ first_tier_over (from_entries pairs.items) config.now) }
        ensures allowed { OnOk result (IsNone (config_refusal config.now)) }
        ensures refused { IfErr result (λ error.
            (error ≡ ConfigError.Memory) ⊎ (config_refusal config.now ≡ Some error)) }
    {
        if let Some(error) = refusal_of(config) {
            return Err(error);
        }
        let splits = config.storage_splits.copy()?;
        let parts = parts_between(alloc, splits.as_slice())?;
        let mutations = puts_of(alloc, pairs)?;
        let servers = servers_over(alloc, parts, config.start, mutations.as_slice())?;
        Ok(Tier {
            alloc,
            window: config.window,
            splits,
            servers,
        })
    }

    /// The number of servers.
    pub fn servers(&self) -> usize
        ensures { result ≡ length self.now.servers }
    {
        self.servers.len()
    }

    /// The last version that a server applied.
    pub(crate) fn version(&self, s: usize) -> u64
        requires { s < length self.now.servers }
        ensures { slice_get (map (λ server. server.version) self.now.servers) s ≡ Some result }
    {
        self.servers[s].version()
    }

    /// How many versions after the start every server has applied, or this many where that is less.
    pub(crate) fn pulled_by_all(&self, start: u64, most: usize) -> usize
        ensures { result ≡ done_with_by start most (map (λ server. server.version) self.now.servers) }
    {
        least_pulled(self.servers.as_slice(), start, most)
    }

    /// Whether there is a version left for `pull_entry`.
    pub fn has_next(&self) -> bool
        ensures { IsTrue result ↔ All (λ server. server.version + 1 < 2 ^ 64) self.now.servers }
    {
        have_next(self.servers.as_slice())
    }

    /// Applies one version with these mutations at every server, unless memory runs out, which
    /// leaves all of them as they were.
    pub fn pull_entry(&mut self, mutations: &[Mutation]) -> Result<(), AllocError>
        requires { All (λ server. server.version + 1 < 2 ^ 64) self.old.servers }
        ensures ok { OnOk result (self.new ≡ absorb_all mutations.now self.old) }
        ensures err { OnErr result (self.new ≡ self.old) }
    {
        pull_each(self.servers.as_mut_slice(), self.window, mutations)
    }

    /// Applies one version with these mutations at one server, unless memory runs out, which
    /// leaves it as it was.
    pub(crate) fn pull(&mut self, s: usize, mutations: &[Mutation]) -> Result<(), AllocError>
        requires server { s < length self.old.servers }
        requires next { (server : ServerState) → slice_get self.old.servers s ≡ Some server →
            server.version + 1 < 2 ^ 64 }
        ensures ok { OnOk result ((owner : Owned) (server : ServerState) →
            slice_get (owners self.old.splits) s ≡ Some owner → slice_get self.old.servers s ≡ Some server →
            self.new ≡ record self.old
            { servers = slice_set self.old.servers s (absorb self.old.window owner mutations.now server) }) }
        ensures err { OnErr result (self.new ≡ self.old) }
    {
        let window = self.window;
        let server = &mut self.servers[s];
        server.pull(window, mutations)?;
        Ok(())
    }

    /// How many values of a key are kept: those that a version of the window still shows, so no more
    /// than one more than the window is long.
    pub fn depth(&self, key: &Bytes) -> usize
        ensures { result ≤ self.now.window + 1 }
    {
        match owner_among(self.servers.as_slice(), key) {
            Some(server) => server.depth(key),
            None => 0,
        }
    }

    /// Whether a read of the range at a version is refused, which takes no memory. It is refused as
    /// `read` is, apart from memory.
    pub fn check(&self, range: &KeyRange, version: u64) -> Result<(), ReadError>
        ensures allowed { OnOk result (IsNone (refusal self.now range.now version)) }
        ensures refused { IfErr result (λ error. refusal self.now range.now version ≡ Some error) }
    {
        match refusal_among(self.servers.as_slice(), self.window, range, version) {
            Some(error) => Err(error),
            None => Ok(()),
        }
    }

    /// The pairs of the range at a version: the first ones in the order of their keys, or with
    /// `reverse` the last ones with the last one first, as many as there are up to the limit.
    ///
    /// The first server in key order that owns a key of the range and can't tell refuses the
    /// read, also where the limit is reached before its keys: with `FutureVersion` where it
    /// hasn't applied the version yet, and with `TooOld` where the version lies longer ago than
    /// the window. Else the read is refused with `Memory` where memory runs out.
    pub fn read(
        &self,
        range: &KeyRange,
        version: u64,
        limit: usize,
        reverse: bool,
    ) -> Result<Vec<Pair>, ReadError>
        ensures pairs { IfOk result (λ pairs.
            pairs.items ≡ read_of (whole_map self.now version) range.now limit reverse) }
        ensures allowed { OnOk result (IsNone (refusal self.now range.now version)) }
        ensures refused { IfErr result (λ error.
            (error ≡ ReadError.Memory) ⊎ (refusal self.now range.now version ≡ Some error)) }
    {
        let servers = self.servers.as_slice();
        if let Some(error) = refusal_among(servers, self.window, range, version) {
            return Err(error);
        }
        let pairs = read_each(self.alloc, servers, range, version, limit, reverse)?;
        Ok(pairs)
    }

    /// The value of a key at a version, or None where it has none. Only the value is copied.
    ///
    /// It is refused as a read of the key's point is: as the server that owns the key can tell it
    /// or not, and else with `Memory` where memory runs out.
    pub fn value(&self, key: &Bytes, version: u64) -> Result<Option<Bytes>, ReadError>
        ensures value { IfOk result (λ value. value ≡ get (whole_map self.now version) key.now) }
        ensures allowed { OnOk result (IsNone (refusal self.now (point key.now) version)) }
        ensures refused { IfErr result (λ error.
            (error ≡ ReadError.Memory) ⊎ (refusal self.now (point key.now) version ≡ Some error)) }
    {
        let Some(server) = owner_among(self.servers.as_slice(), key) else {
            return Ok(None);
        };
        if let Some(error) = server.refusal_at(self.window, version) {
            return Err(error);
        }
        match server.value(key, version) {
            Some(value) => Ok(Some(value.copy()?)),
            None => Ok(None),
        }
    }
}
