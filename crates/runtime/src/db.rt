// How a running database is opened. Called by `race`, applications, tests and measures.
ghost use Rattle.std.specs.Prelude.{◌≡◌, ℕ, ◌+◌, ◌<◌, ◌≤◌, ◌⊎◌, true, false, [], None, Some, slice_index};
ghost use Rattle.std.specs.Prelude.{IfOk, IfErr, IfSome, IsNone, OnOk};
ghost use Rattle.std.specs.Arc.{arc_value};
ghost use Rattle.left_right.specs.Sides.{view as knowledge};
ghost use Rattle.cluster_core.specs.Configuration.{config_refusal};
ghost use Rattle.cluster_core.specs.declared.answers.ConfigError.{ConfigError as ConfigRefusal};
ghost use Rattle.runtime.specs.Publication.{knows};
ghost use Rattle.runtime.specs.History.{Name};
ghost use Rattle.runtime.specs.Clients.{knows_that, fresh_clients};
ghost use Rattle.replay.specs.Replaying.{IsLogged};
ghost use Rattle.runtime.specs.Logs.{log_map};
ghost use Rattle.runtime.specs.Origins.{origin_of};

use crate::answers::OpenError;
use crate::base::Base;
use crate::client::Client;
use crate::commit_lock::{CommitLock, LockKey};
use crate::commit_state::CommitState;
use crate::locked_state::{End, LockedState};
use crate::log_prefix::LogPrefix;
use crate::publication::StateReader;
use crate::published_reads::TRIES;
use cluster_core::Config;
use std::alloc::Global;
use std::sync::{Arc, Wait};

/// A place for a reader. None where `TRIES` attempts gave none.
fn place(state: &mut CommitState) -> Option<StateReader>
    ensures same { state.new ≡ state.old }
    ensures reader { IfSome result (λ reader. knowledge reader.place ≡ knows state.old.name) }
{
    for _ in 0..TRIES {
        if let Ok(reader) = state.reader() {
            return Some(reader);
        }
    }
    None
}

/// One more client, which has seen no entry.
fn another<E: End, R: Wait>(
    rt: &R,
    alloc: Global,
    lock: &Arc<CommitLock<LockedState<E>>>,
    key: &mut LockKey<LockedState<E>>,
    prefix: &LogPrefix,
    number: u64,
) -> Result<Client<E>, OpenError>
    requires key { (key.old.table_id ≡ (arc_value lock.now).table.shared.table_id)
        × (key.old.me.1 ≡ [])
        × (key.old.me.0.about.value.state.name ≡ prefix.now.name) × (key.old.me.0.client ≡ None)
        × (key.old.me.0.next ≡ number) }
    requires prefix { prefix.now.log ≡ [] }
    requires number { number < prefix.now.name.origin.config.places }
    ensures key { OnOk result ((key.new.table_id ≡ key.old.table_id) × (key.new.me.1 ≡ [])
        × (key.new.me.0.about ≡ key.old.me.0.about) × (key.new.me.0.client ≡ None)
        × (key.new.me.0.next ≡ number + 1)) }
    ensures client { IfOk result (λ client. client ≡ knows_that prefix.now.name [] number 0 None) }
    ensures refused { IfErr result (λ error.
        (error ≡ OpenError.NoPlace) ⊎ (error ≡ OpenError.Memory)) }
{
    let (mut state, end, keeping, waiting) = lock.take(rt, key).into_parts();
    let reader = place(&mut state);
    lock.put(key, LockedState::of(state, end, keeping, waiting));
    let Some(reader) = reader else {
        return Err(OpenError::NoPlace);
    };
    let theirs = lock.another(key);
    Ok(Client::new(
        alloc,
        Arc::try_clone(lock)?,
        theirs,
        reader,
        prefix.again(),
        number,
    ))
}

/// So many clients of a database without entries.
fn clients<E: End, R: Wait>(
    rt: &R,
    alloc: Global,
    owned: LockedState<E>,
    places: usize,
) -> Result<Vec<Client<E>>, OpenError>
    requires state { (owned.state.published ≡ [])
        × ((client : ℕ) → slice_index owned.state.last client ≡ 0) }
    requires places { places ≤ owned.state.name.origin.config.places }
    ensures clients { IfOk result (λ clients.
        clients.items ≡ fresh_clients owned.state.name places) }
    ensures refused { IfErr result (λ error.
        (error ≡ OpenError.NoPlace) ⊎ (error ≡ OpenError.Memory)) }
{
    let prefix = owned.prefix();
    let (lock, mut key) = CommitLock::new(alloc, owned)?;
    let lock = Arc::new(alloc, lock)?;
    let mut clients = Vec::new(alloc);
    for number in 0..places {
        let client = another(rt, alloc, &lock, &mut key, &prefix, number as u64)?;
        clients.push(client)?;
    }
    Ok(clients)
}

/// Opens a new database, and gives as many clients as the configuration has places, numbered from
/// 0: none of them has seen an entry.
///
/// It is refused with `Config` where the configuration is, and else with `NoPlace` where `TRIES`
/// attempts gave no place for a reader, and with `Memory` where memory runs out.
pub fn open<E: End, R: Wait>(
    rt: &R,
    alloc: Global,
    end: E,
    config: &Config,
) -> Result<Vec<Client<E>>, OpenError>
    ensures clients { IfOk result (λ clients.
        (name : Name) × (name.origin ≡ origin_of config.now [])
        × (clients.items ≡ fresh_clients name config.now.places) × (name.kept ≡ false)) }
    ensures allowed { OnOk result (IsNone (config_refusal config.now)) }
    ensures refused { IfErr result (λ error.
        (error ≡ OpenError.NoPlace) ⊎ (error ≡ OpenError.Memory)
        ⊎ ((why : ConfigRefusal) × (error ≡ OpenError.Config why)
        × (config_refusal config.now ≡ Some why))) }
{
    let base = Base::none(alloc);
    let state = CommitState::open(rt, alloc, config, &base, false)?;
    let owned = LockedState::unkept(state, end, Vec::new(alloc));
    clients(rt, alloc, owned, config.places as usize)
}

/// Opens a new database, as `open` does, of which each committed transaction is kept before it is
/// shown and answered, in a file whose log has no entry yet.
pub fn open_kept<E: End, R: Wait>(
    rt: &R,
    alloc: Global,
    end: E,
    config: &Config,
) -> Result<Vec<Client<E>>, OpenError>
    requires { E.has end [] }
    ensures clients { IfOk result (λ clients.
        (name : Name) × (name.origin ≡ origin_of config.now [])
        × (clients.items ≡ fresh_clients name config.now.places) × (name.kept ≡ true)) }
    ensures allowed { OnOk result (IsNone (config_refusal config.now)) }
    ensures refused { IfErr result (λ error.
        (error ≡ OpenError.NoPlace) ⊎ (error ≡ OpenError.Memory)
        ⊎ ((why : ConfigRefusal) × (error ≡ OpenError.Config why)
        × (config_refusal config.now ≡ Some why))) }
{
    open_kept_over(rt, alloc, end, config, &Base::none(alloc))
}

/// Opens a database that goes on from the entries of a log, and of which each committed transaction
/// is kept after them, as `open_kept` says, in a file whose log has just these entries. Its first
/// version is that of the configuration, which isn't below the last one of the entries, and its map
/// is there what they come to.
#[tactic(auto, using(crate::proofs::Bases::map_first))]
pub fn open_kept_over<E: End, R: Wait>(
    rt: &R,
    alloc: Global,
    end: E,
    config: &Config,
    base: &Base,
) -> Result<Vec<Client<E>>, OpenError>
    requires file { E.has end base.now.entries.items }
    requires logged { IsLogged base.now.entries.items base.now.image }
    requires above { base.now.image.version ≤ config.now.start }
    ensures clients { IfOk result (λ clients.
        (name : Name) × (name.origin ≡ origin_of config.now base.now.entries.items)
        × (clients.items ≡ fresh_clients name config.now.places) × (name.kept ≡ true)
        × (log_map name.origin [] config.now.start ≡ base.now.image.map)) }
    ensures allowed { OnOk result (IsNone (config_refusal config.now)) }
    ensures refused { IfErr result (λ error.
        (error ≡ OpenError.NoPlace) ⊎ (error ≡ OpenError.Memory)
        ⊎ ((why : ConfigRefusal) × (error ≡ OpenError.Config why)
        × (config_refusal config.now ≡ Some why))) }
{
    let state = CommitState::open(rt, alloc, config, base, true)?;
    let owned = LockedState::kept(state, end, Vec::new(alloc));
    clients(rt, alloc, owned, config.places as usize)
}
