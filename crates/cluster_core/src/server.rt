// The storage server role, for a share of the keys. Used by `tier`.
ghost use Rattle.std.specs.Prelude.{◌≡◌, ◌+◌, ◌<◌, ◌≤◌, ◌^◌, ◌∷◌, ◌++◌, IfOk, OnOk, OnErr, None, ℕ};
ghost use Rattle.std.specs.Prelude.{All, IsTrue, ◌↔◌, ◌-◌, if◌then◌else◌, length, map, min, take};
ghost use Rattle.std.specs.FinMap.{empty, get};
ghost use Rattle.std.specs.List.{AllByRecursion, find, flat_map};
ghost use Rattle.std.specs.Option.{option_copied};
ghost use Rattle.std.specs.VecDeque.{deque_len, deque_capacity};
ghost use Rattle.kv_core.specs.Change.{write_range};
ghost use Rattle.kv_core.specs.Map.{after_all};
ghost use Rattle.kv_core.specs.Range.{has_keys};
ghost use Rattle.kv_core.specs.Read.{read_of};
ghost use Rattle.cluster_core.specs.Chains.{AreBelow, AreFalling, Writes, links_at, shown};
ghost use Rattle.cluster_core.specs.Cluster.{done_with_by};
ghost use Rattle.cluster_core.specs.Decision.{cut, owns};
ghost use Rattle.cluster_core.specs.Server.{IsAtRest, IsFirstOver, IsServer, IsStaged, first_server, next_map};
ghost use Rattle.cluster_core.specs.Server.{owner_of, pairs_at, server_state, turned};
ghost use Rattle.cluster_core.specs.Tier.{absorb, absorb_each, first_refusal, map_of, part};
ghost use Rattle.cluster_core.specs.Tier.{refusal_of};

use crate::chains::Chains;
use crate::part::Part;
use kv_core::{Bytes, KeyRange, Mutation, Pair, ReadError};
use std::alloc::{AllocError, Global};
use std::collections::VecDeque;

/// One storage server: the keys that it owns, the last version that it applied, what these keys
/// had at that version and those before it, and the keys that each of these versions wrote, the
/// newest version first.
#[derive(Debug, Drop)]
pub(crate) struct Server {
    alloc: Global,
    part: Part,
    version: u64,
    chains: Chains,
    recent: VecDeque<Vec<Bytes>>,
}

/// Whether the mutation writes a key of the owner's part.
fn writes_own(owner: &Part, mutation: &Mutation) -> bool
    ensures { result ≡ has_keys (cut owner.now (write_range mutation.now)) }
{
    match mutation {
        Mutation::Set { key, value: _ } => owner.owns(key),
        Mutation::Add { key, operand: _ } => owner.owns(key),
        Mutation::CompareAndClear { key, operand: _ } => owner.owns(key),
        Mutation::ClearRange(range) => owner.meets(range),
    }
}

/// Applies the mutations at the version to come, as far as they write keys of the owner's part.
/// Where memory runs out some of their writes are done.
fn apply_own(
    chains: &mut Chains,
    owner: &Part,
    version: u64,
    mutations: &[Mutation],
) -> Result<(), AllocError>
    requires below { AreBelow version chains.old.chains }
    requires own { part owner.now (shown chains.old.chains.entries version)
        ≡ shown chains.old.chains.entries version }
    ensures ok { OnOk result (shown chains.new.chains.entries version
        ≡ part owner.now (after_all mutations.now (shown chains.old.chains.entries version))) }
    ensures writes { Writes version chains.old.written.items chains.old.chains
        chains.new.written.items chains.new.chains }
{
    for mutation in mutations {
        if writes_own(owner, mutation) {
            chains.apply(version, mutation)?;
        }
    }
    Ok(())
}

impl Server {
    /// A server with the empty map at a version.
    pub(crate) fn new(alloc: Global, part: Part, version: u64) -> Server
        ensures owner { owner_of result ≡ part }
        ensures first { server_state result ≡ first_server version }
        ensures kept { (window : ℕ) → IsServer window result }
    {
        Server {
            alloc,
            part,
            version,
            chains: Chains::new(alloc),
            recent: VecDeque::new(alloc),
        }
    }

    /// A server that has at a version, which isn't 0, what the mutations make of the empty map, unless
    /// memory runs out.
    pub(crate) fn over(
        alloc: Global,
        part: Part,
        version: u64,
        mutations: &[Mutation],
    ) -> Result<Server, AllocError>
        requires { 1 ≤ version }
        ensures owner { IfOk result (λ server. owner_of server ≡ part) }
        ensures first { IfOk result (IsFirstOver (after_all mutations.now empty) version) }
        ensures kept { IfOk result (λ server. (window : ℕ) → IsServer window server) }
    {
        let mut server = Server::new(alloc, part, version - 1);
        server.pull(0, mutations)?;
        Ok(server)
    }

    /// The last version that the server applied.
    pub(crate) fn version(&self) -> u64
        ensures { result ≡ self.now.version }
    {
        self.version
    }

    /// Writes what the mutations make of the server's keys at the next version, as far as memory
    /// goes, and makes room for the list of these keys.
    fn write_next(&mut self, mutations: &[Mutation]) -> Result<(), AllocError>
        requires next { self.old.version + 1 < 2 ^ 64 }
        requires rest { IsAtRest self.old }
        ensures owner { owner_of self.new ≡ owner_of self.old }
        ensures state { server_state self.new ≡ server_state self.old }
        ensures depth { length self.new.recent.items ≡ length self.old.recent.items }
        ensures staged { IsStaged self.new }
        ensures shows { OnOk result (next_map self.new ≡ part (owner_of self.old)
            (after_all mutations.now (map_of (server_state self.old) self.old.version))) }
        ensures room { OnOk result (deque_len self.new.recent < deque_capacity self.new.recent) }
    {
        self.recent.reserve(1)?;
        apply_own(&mut self.chains, &self.part, self.version + 1, mutations)
    }

    /// Takes back what was written at the next version.
    fn take_back(&mut self)
        requires next { self.old.version + 1 < 2 ^ 64 }
        requires staged { IsStaged self.old }
        ensures owner { owner_of self.new ≡ owner_of self.old }
        ensures state { server_state self.new ≡ server_state self.old }
        ensures depth { length self.new.recent.items ≡ length self.old.recent.items }
        ensures rest { IsAtRest self.new }
    {
        self.chains.take_back(self.version + 1);
    }

    /// Writes what the mutations make of the server's keys at the next version, and makes room for
    /// the list of these keys. Where memory runs out nothing is written.
    fn stage(&mut self, mutations: &[Mutation]) -> Result<(), AllocError>
        requires next { self.old.version + 1 < 2 ^ 64 }
        requires rest { IsAtRest self.old }
        ensures owner { owner_of self.new ≡ owner_of self.old }
        ensures state { server_state self.new ≡ server_state self.old }
        ensures depth { length self.new.recent.items ≡ length self.old.recent.items }
        ensures staged { OnOk result (IsStaged self.new) }
        ensures shows { OnOk result (next_map self.new ≡ part (owner_of self.old)
            (after_all mutations.now (map_of (server_state self.old) self.old.version))) }
        ensures room { OnOk result (deque_len self.new.recent < deque_capacity self.new.recent) }
        ensures rest { OnErr result (IsAtRest self.new) }
    {
        let done = self.write_next(mutations);
        if done.is_err() {
            self.take_back();
        }
        done
    }

    /// Makes the next version the last one, and lists what it wrote.
    fn advance(&mut self)
        requires next { self.old.version + 1 < 2 ^ 64 }
        requires room { deque_len self.old.recent < deque_capacity self.old.recent }
        requires staged { IsStaged self.old }
        requires own { part (owner_of self.old) (next_map self.old) ≡ next_map self.old }
        ensures owner { owner_of self.new ≡ owner_of self.old }
        ensures state { server_state self.new ≡ record {
          version = self.old.version + 1;
          maps = next_map self.old ∷ (server_state self.old).maps;
        } }
        ensures depth { length self.new.recent.items ≡ length self.old.recent.items + 1 }
        ensures rest { IsAtRest self.new }
    {
        let written = self.chains.take_written();
        self.recent.push_front_reserved(written);
        self.version += 1;
    }

    /// Drops what the versions within the window don't need.
    fn trim(&mut self, window: u64)
        requires depth { length self.old.recent.items ≤ window + 1 }
        requires rest { IsAtRest self.old }
        ensures owner { owner_of self.new ≡ owner_of self.old }
        ensures state { server_state self.new ≡ record {
          version = self.old.version;
          maps = take (window + 1) (server_state self.old).maps;
        } }
        ensures kept { IsServer window self.new }
    {
        if self.recent.len() as u64 <= window {
            return;
        }
        if let Some(keys) = self.recent.pop_back() {
            let floor = self.version.saturating_sub(self.recent.len() as u64);
            self.chains.settle(floor, keys.as_slice());
        }
    }

    /// Applies one version with these mutations. Where memory runs out the server stays as it was.
    pub(crate) fn pull(&mut self, window: u64, mutations: &[Mutation]) -> Result<(), AllocError>
        requires next { self.old.version + 1 < 2 ^ 64 }
        requires kept { IsServer window self.old }
        ensures owner { owner_of self.new ≡ owner_of self.old }
        ensures ok { OnOk result (server_state self.new
            ≡ absorb window (owner_of self.old) mutations.now (server_state self.old)) }
        ensures err { OnErr result (server_state self.new ≡ server_state self.old) }
        ensures kept { IsServer window self.new }
    {
        self.stage(mutations)?;
        self.advance();
        self.trim(window);
        Ok(())
    }

    /// Why the server refuses to read its keys at a version, or None where it doesn't.
    pub(crate) fn refusal_at(&self, window: u64, version: u64) -> Option<ReadError>
        ensures { result ≡ refusal_of window (server_state self.now) version }
    {
        if self.version < version {
            Some(ReadError::FutureVersion)
        } else if window < self.version - version {
            Some(ReadError::TooOld)
        } else {
            None
        }
    }

    /// Why the server refuses a read of the range at a version, or None where it doesn't, or owns
    /// no key of the range.
    fn refusal(&self, window: u64, range: &KeyRange, version: u64) -> Option<ReadError>
        ensures { result ≡ (if has_keys (cut (owner_of self.now) range.now)
            then refusal_of window (server_state self.now) version else None) }
    {
        // The version comes first, since it is there for most reads, and the range isn't compared then.
        match self.refusal_at(window, version) {
            Some(error) if self.part.meets(range) => Some(error),
            _ => None,
        }
    }

    /// The version whose map is read for one: the version itself, or the oldest that is there.
    fn version_read(&self, version: u64) -> u64
        ensures { result ≡ self.now.version - min (self.now.version - version) (length self.now.recent.items) }
    {
        let back = self.version.saturating_sub(version);
        let kept = self.recent.len() as u64;
        self.version - if kept < back { kept } else { back }
    }

    /// The value of a key in the map at a version, or None where it has none.
    pub(crate) fn value(&self, key: &Bytes, version: u64) -> Option<&Bytes>
        requires { AreFalling self.now.chains.chains }
        ensures { option_copied result ≡ get (map_of (server_state self.now) version) key.now }
    {
        self.chains.value(key, self.version_read(version))
    }

    /// How many values of a key are kept.
    pub(crate) fn depth(&self, key: &Bytes) -> usize
        ensures { result ≡ length (links_at self.now.chains.chains key.now) }
    {
        self.chains.depth(key)
    }

    /// The pairs of the range in the map at a version, as `Chains::read` gives them.
    fn read(
        &self,
        range: &KeyRange,
        version: u64,
        limit: usize,
        reverse: bool,
    ) -> Result<Vec<Pair>, AllocError>
        requires { AreFalling self.now.chains.chains }
        ensures { IfOk result (λ pairs.
            pairs.items ≡ read_of (map_of (server_state self.now) version) range.now limit reverse) }
    {
        self.chains
            .read(range, self.version_read(version), limit, reverse)
    }
}

/// How many versions after the start each of the servers has applied, or this many where that is
/// less.
pub(crate) fn least_pulled(servers: &[Server], start: u64, most: usize) -> usize
    ensures { result ≡ done_with_by start most (map (λ server. server.version) servers.now) }
{
    let Some((server, others)) = servers.split_first() else {
        return most;
    };
    let own = server.version.saturating_sub(start) as usize;
    let all = least_pulled(others, start, most);
    if own <= all { own } else { all }
}

/// Whether each of the servers has a version left.
pub(crate) fn have_next(servers: &[Server]) -> bool
    ensures { IsTrue result ↔ All (λ server. server.version + 1 < 2 ^ 64) servers.now }
{
    servers.iter().all(|server| server.version < u64::MAX)
}

/// Has each of the servers apply one version with these mutations. Where memory runs out all of
/// them stay as they were.
pub(crate) fn pull_each(
    servers: &mut [Server],
    window: u64,
    mutations: &[Mutation],
) -> Result<(), AllocError>
    requires next { All (λ server. server.version + 1 < 2 ^ 64) servers.old }
    requires kept { AllByRecursion (IsServer window) servers.old }
    ensures owners { map owner_of servers.new ≡ map owner_of servers.old }
    ensures ok { OnOk result (map server_state servers.new
        ≡ absorb_each window mutations.now (map owner_of servers.old) (map server_state servers.old)) }
    ensures err { OnErr result (map server_state servers.new ≡ map server_state servers.old) }
    ensures kept { AllByRecursion (IsServer window) servers.new }
{
    let Some((server, others)) = servers.split_first_mut() else {
        return Ok(());
    };
    server.stage(mutations)?;
    if let Err(error) = pull_each(others, window, mutations) {
        server.take_back();
        return Err(error);
    }
    server.advance();
    server.trim(window);
    Ok(())
}

/// The first of the servers that owns the key.
pub(crate) fn owner_among<'a>(servers: &'a [Server], key: &Bytes) -> Option<&'a Server>
    ensures { option_copied result ≡ find (λ server. owns (owner_of server) key.now) servers.now }
{
    servers.iter().find(|server| server.part.owns(key))
}

/// Why the first of the servers that owns a key of the range and refuses to read it at a version
/// does so, or None where none refuses.
pub(crate) fn refusal_among(
    servers: &[Server],
    window: u64,
    range: &KeyRange,
    version: u64,
) -> Option<ReadError>
    ensures { result ≡ first_refusal window range.now version (map owner_of servers.now)
        (map server_state servers.now) }
{
    for server in servers {
        if let Some(error) = server.refusal(window, range, version) {
            return Some(error);
        }
    }
    None
}

/// The pairs, and more behind them. Where there are none the others' own list is given.
fn joined(pairs: Vec<Pair>, more: Vec<Pair>) -> Result<Vec<Pair>, AllocError>
    ensures { IfOk result (λ all. all.items ≡ pairs.items ++ more.items) }
{
    if pairs.is_empty() {
        return Ok(more);
    }
    let (mut all, mut more) = (pairs, more);
    all.append(&mut more)?;
    Ok(all)
}

/// The pairs of the range at a version of one server after another, or with `reverse` from the
/// last server back and each server's last pair first, up to the limit.
pub(crate) fn read_each(
    alloc: Global,
    servers: &[Server],
    range: &KeyRange,
    version: u64,
    limit: usize,
    reverse: bool,
) -> Result<Vec<Pair>, AllocError>
    requires { All (λ server. AreFalling server.chains.chains) servers.now }
    ensures { IfOk result (λ pairs.
        pairs.items ≡ take limit (flat_map (pairs_at range.now version reverse) (turned reverse servers.now))) }
{
    let mut pairs = Vec::new(alloc);
    let count = servers.len();
    for passed in 0..count {
        let place = if reverse { count - 1 - passed } else { passed };
        let left = limit.saturating_sub(pairs.len());
        let more = servers[place].read(range, version, left, reverse)?;
        pairs = joined(pairs, more)?;
    }
    Ok(pairs)
}
