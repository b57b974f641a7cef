// The steps of a schedule, one and one after another. Called by `run_schedule` in `lib` and by
// `stepwise`.
ghost use Rattle.std.specs.Prelude.{◌≡◌, ◌⊎◌, ◌≤◌, Some, IfOk, IfErr, OnOk, IsNone, true};
ghost use Rattle.std.specs.FinMap.{from_entries};
ghost use Rattle.cluster_core.specs.declared.answers.Config.{Config as Configuration};
ghost use Rattle.cluster_core.specs.Configuration.{config_refusal, first_cluster, first_cluster_over};
ghost use Rattle.cluster_core.specs.declared.answers.ConfigError.{ConfigError as ConfigRefusal};
ghost use Rattle.schedule.specs.Holds.{IsHeld};
ghost use Rattle.schedule.specs.Past.{Past};
ghost use Rattle.schedule.specs.Running.{HasRun, IsFirst, IsSteppedWith, StandsAfter};

use crate::database::Database;
use crate::kept_plans::KeptPlans;
use crate::known::Known;
use crate::reply::Reply;
use crate::step::Step;
use crate::transcript::ScheduleError;
use cluster_core::{Config, ConfigError};
use kv_core::Pair;
use std::alloc::{AllocError, Global};

impl Database {
    // Does one step. Stores may stay open between the commands of a transaction only where the
    // cluster's base is known to hold some.
    pub(crate) fn step(
        &mut self,
        alloc: Global,
        kept: &KeptPlans,
        known: &mut Known,
        stays_open: bool,
        step: &Step,
    ) -> Result<Reply, AllocError>
        requires stands { (past : Past) × StandsAfter past self.old }
        requires held { stays_open ≡ true → IsHeld self.old.cluster.base }
        ensures { IfOk result (λ reply. IsSteppedWith kept.now.plans.items step.now reply self.old self.new) }
    {
        match step {
            Step::Begin(client, number) => Ok(self.begin(alloc, *client, *number)),
            Step::Perform(client, command) => self.perform(
                alloc, *client, command, known, stays_open,
            ),
            Step::Execute(client) => self.execute(alloc, kept, *client, known, stays_open),
            Step::Commit(client) => self.commit(*client),
            Step::Abandon(client) => Ok(self.abandon(*client)),
            Step::Resolve(resolver) => self.resolve(*resolver),
            Step::Log(log) => self.append(*log),
            Step::Pull(server) => self.pull(*server),
            Step::Report => self.report(alloc),
            Step::Lost => self.lose(alloc),
            Step::Settle => self.settle(alloc),
        }
    }

    // Does steps one after another, and answers their replies.
    pub(crate) fn steps(&mut self, alloc: Global, steps: &[Step]) -> Result<Vec<Reply>, AllocError>
        requires { (config : Configuration) × IsFirst (first_cluster config) self.old }
        ensures { IfOk result (λ replies. (config : Configuration) → IsFirst (first_cluster config) self.old
            → HasRun (first_cluster config) steps.now replies.items self.new) }
    {
        let mut kept = KeptPlans::new(alloc)?;
        let mut known = Known::new();
        let mut replies = Vec::new(alloc);
        for step in steps {
            let reply = self.step(alloc, &kept, &mut known, true, step)?;
            kept.keep(step, &reply)?;
            replies.push(reply)?;
        }
        Ok(replies)
    }
}

// The database at the start, whose transactions are listed as bytes where the list is wanted whole.
pub(crate) fn start(
    alloc: Global,
    config: &Config,
    is_whole: bool,
) -> Result<Database, ScheduleError>
    ensures made { IfOk result (λ database. IsFirst (first_cluster config.now) database) }
    ensures allowed { OnOk result (IsNone (config_refusal config.now)) }
    ensures refused { IfErr result (λ error.
        (error ≡ ScheduleError.Memory)
        ⊎ ((why : ConfigRefusal) × (error ≡ ScheduleError.Config why) × (config_refusal config.now ≡ Some why))) }
{
    match Database::new(alloc, config, is_whole) {
        Ok(database) => Ok(database),
        Err(ConfigError::Memory) => Err(ScheduleError::Memory),
        Err(error) => Err(ScheduleError::Config(error)),
    }
}

// The database over the map of these pairs.
pub(crate) fn start_over(
    alloc: Global,
    config: &Config,
    pairs: Vec<Pair>,
) -> Result<Database, ScheduleError>
    requires { 1 ≤ config.now.start }
    ensures made { IfOk result (λ database.
        IsFirst (first_cluster_over (from_entries pairs.items) config.now) database) }
    ensures allowed { OnOk result (IsNone (config_refusal config.now)) }
    ensures refused { IfErr result (λ error.
        (error ≡ ScheduleError.Memory)
        ⊎ ((why : ConfigRefusal) × (error ≡ ScheduleError.Config why) × (config_refusal config.now ≡ Some why))) }
{
    let database = match Database::over(alloc, config, pairs) {
        Ok(database) => database,
        Err(ConfigError::Memory) => return Err(ScheduleError::Memory),
        Err(why) => return Err(ScheduleError::Config(why)),
    };
    Ok(database)
}
