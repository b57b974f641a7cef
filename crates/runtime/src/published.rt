// The published state, and the operations on it. Used by `publication`, `publisher`,
// `commit_state`, `in_flight` and `published_reads`.
ghost use Rattle.std.specs.Prelude.{◌≡◌, ◌⊎◌, ◌≤◌, [], Some, IfOk, IfErr, IsNone, OnOk};
ghost use Rattle.cluster_core.specs.Configuration.{config_refusal, first_tier_over};
ghost use Rattle.replay.specs.Replaying.{IsLogged};
ghost use Rattle.runtime.specs.Origins.{origin_of};
ghost use Rattle.runtime.specs.Publication.{IsFold};

use crate::base::Base;
use crate::log_entry::Submitted;
use crate::log_prefix::LogPrefix;
use crate::recent_outcomes::RecentOutcomes;
use cluster_core::{Config, ConfigError, Tier};
use kv_core::Mutations;
use std::alloc::Global;

/// What readers enter: the servers and the outcomes of each client's last submissions, with the log
/// that they have pulled.
#[derive(Drop)]
pub struct Published {
    pub tier: Tier,
    pub recent: RecentOutcomes,
    pub prefix: LogPrefix,
}

/// One operation: a submission's entry, what the logs have of it, its version, 0 where it is
/// refused, and the log that ends with it.
#[derive(Drop)]
pub struct Step {
    pub submitted: Submitted,
    pub mutations: Mutations,
    pub version: u64,
    pub prefix: LogPrefix,
}

/// What a thread has seen of the published state: the last log. No value of it is made.
pub struct View {
    pub named: bool,
    pub prefix: LogPrefix,
}

/// The servers of a database that goes on from this, at the first version. It is refused as
/// `Tier::new` refuses the configuration.
#[tactic(auto, using(crate::proofs::Bases::bases))]
fn tier_over(alloc: Global, config: &Config, base: &Base) -> Result<Tier, ConfigError>
    requires logged { IsLogged base.now.entries.items base.now.image }
    requires above { base.now.image.version ≤ config.now.start }
    ensures made { IfOk result (λ tier. tier ≡ first_tier_over base.now.image.map config.now) }
    ensures allowed { OnOk result (IsNone (config_refusal config.now)) }
    ensures refused { IfErr result (λ error.
        (error ≡ ConfigError.Memory) ⊎ (config_refusal config.now ≡ Some error)) }
{
    if base.version() == 0 {
        return Tier::new(alloc, config);
    }
    let pairs = base.image.pairs(alloc)?;
    Tier::over(alloc, config, pairs)
}

impl Published {
    /// The state of a new history of a database that goes on from this. It is refused as
    /// `Tier::new` refuses the configuration.
    #[tactic(auto, using(crate::proofs::Bases::tier_begins))]
    pub fn new(
        alloc: Global,
        config: &Config,
        base: &Base,
        prefix: &LogPrefix,
    ) -> Result<Published, ConfigError>
        requires prefix { (prefix.now.log ≡ [])
            × (prefix.now.name.origin ≡ origin_of config.now base.now.entries.items) }
        requires logged { IsLogged base.now.entries.items base.now.image }
        requires above { base.now.image.version ≤ config.now.start }
        ensures made { IfOk result (λ p. (p.prefix ≡ prefix.now) × IsFold p) }
        ensures refused { IfErr result (λ error.
            (error ≡ ConfigError.Memory) ⊎ (config_refusal config.now ≡ Some error)) }
    {
        let tier = tier_over(alloc, config, base)?;
        let recent = RecentOutcomes::new(alloc, config.places as usize)?;
        let prefix = prefix.again();
        Ok(Published {
            tier,
            recent,
            prefix,
        })
    }
}
