// The start of a schedule, and facts on clusters for the proofs here. Called by `running`, `lib`,
// `kept_plans`, `clients`, `roles` and `settle`.
ghost use Rattle.std.specs.Prelude.{◌≡◌, ◌⊎◌, ◌≤◌, None, Some, IfOk, IfErr, OnOk, IsNone, replicate};
ghost use Rattle.std.specs.FinMap.{from_entries};
ghost use Rattle.cluster_core.specs.Configuration.{config_refusal, first_cluster, first_cluster_over};
ghost use Rattle.cluster_core.specs.History.{IsLegalOver};
ghost use Rattle.cluster_core.specs.Roles.{AreInOrder, history};
ghost use Rattle.schedule.specs.Running.{IsFirst};

use crate::commit_log::CommitLog;
use crate::database::Database;
use crate::step::CLIENTS;
use cluster_core::{Cluster, Config, ConfigError};
use kv_core::Pair;
use std::alloc::{AllocError, Global};
use std::collections::VecDeque;

// Nothing for each client.
pub(crate) fn none_each<T: Drop>(alloc: Global) -> Result<Vec<Option<T>>, AllocError>
    ensures { IfOk result (λ places. places.items ≡ replicate CLIENTS None) }
{
    let mut places = Vec::new(alloc);
    for _ in 0..CLIENTS {
        places.push(None)?;
    }
    Ok(places)
}

// What holds of every cluster: the clocks of its roles stand in order, and its history is legal.
pub(crate) fn laws_of(cluster: &Cluster)
    ensures ordered { AreInOrder cluster.now.pipeline }
    ensures legal { IsLegalOver cluster.now.base (history cluster.now.pipeline) }
{
    cluster.read_version();
    cluster.requests();
}

impl Database {
    // The database with this cluster, in which nothing was done. Its transactions are listed as bytes
    // where the list is wanted whole.
    fn of(alloc: Global, cluster: Cluster, is_whole: bool) -> Result<Database, AllocError>
        ensures { IfOk result (λ database. IsFirst cluster database) }
    {
        let transactions = none_each(alloc)?;
        Ok(Database {
            cluster,
            transactions,
            unreported: VecDeque::new(alloc),
            commits: CommitLog::new(alloc, is_whole),
        })
    }

    // The database at the start.
    pub(crate) fn new(
        alloc: Global,
        config: &Config,
        is_whole: bool,
    ) -> Result<Database, ConfigError>
        ensures made { IfOk result (λ database. IsFirst (first_cluster config.now) database) }
        ensures allowed { OnOk result (IsNone (config_refusal config.now)) }
        ensures refused { IfErr result (λ error.
            (error ≡ ConfigError.Memory) ⊎ (config_refusal config.now ≡ Some error)) }
    {
        let cluster = Cluster::new(alloc, config)?;
        let database = Database::of(alloc, cluster, is_whole)?;
        Ok(database)
    }

    // The database over the map of these pairs. Nobody is given the list of its transactions.
    pub(crate) fn over(
        alloc: Global,
        config: &Config,
        pairs: Vec<Pair>,
    ) -> Result<Database, ConfigError>
        requires { 1 ≤ config.now.start }
        ensures made { IfOk result (λ database.
            IsFirst (first_cluster_over (from_entries pairs.items) config.now) database) }
        ensures allowed { OnOk result (IsNone (config_refusal config.now)) }
        ensures refused { IfErr result (λ error.
            (error ≡ ConfigError.Memory) ⊎ (config_refusal config.now ≡ Some error)) }
    {
        let cluster = Cluster::over(alloc, config, pairs)?;
        let database = Database::of(alloc, cluster, false)?;
        Ok(database)
    }
}
