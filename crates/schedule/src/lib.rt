//! Schedules: the steps of clients and of the database's roles, one at a time, and what each replies.
#![tactic(auto)]

ghost use Rattle.std.specs.Prelude.{◌≡◌, ◌⊎◌, Some, IfOk, IfErr, OnOk, IsNone};
ghost use Rattle.cluster_core.specs.Configuration.{config_refusal};
ghost use Rattle.cluster_core.specs.declared.answers.ConfigError.{ConfigError as ConfigRefusal};
ghost use Rattle.schedule.specs.Exact.{IsExactRun};
ghost use Rattle.schedule.specs.Headline.{IsHeadline};
ghost use Rattle.schedule.specs.Right.{IsRightRun};

mod accepted;
mod asked_query;
mod building;
mod clients;
mod commands;
mod commit_log;
mod database;
mod executing;
mod index_commands;
mod kept_plans;
mod known;
mod performing;
mod planning;
mod refusal;
mod reply;
mod reporting;
mod roles;
mod running;
mod settle;
mod shared_plan;
mod starting;
mod step;
mod stepwise;
mod transcript;

pub use asked_query::AskedQuery;
use cluster_core::Config;
pub use known::Known;
pub use performing::{perform, perform_knowing, perform_open};
pub use refusal::Refusal;
pub use reply::{Reply, Report, Reports};
use running::start;
pub use shared_plan::SharedPlan;
use starting::laws_of;
use std::alloc::{AllocError, Global};
pub use step::{CLIENTS, Command, Step};
pub use stepwise::Schedule;
pub use transcript::{Commands, CommitEntry, Commits, Replies, ScheduleError, Transcript};

/// Runs a schedule over an empty database, one step at a time.
///
/// It answers what each step replied, the transactions that are committed, and the cluster after
/// the last step. A refused step is a reply. The schedule is refused with `Config` where the
/// configuration is, and else with `Memory` where memory runs out.
pub fn run_schedule(
    alloc: Global,
    config: &Config,
    steps: &[Step],
) -> Result<Transcript, ScheduleError>
    ensures right { IfOk result (IsRightRun config.now steps.now) }
    ensures exact { IfOk result (IsExactRun config.now steps.now) }
    ensures headline { IfOk result (IsHeadline steps.now) }
    ensures allowed { OnOk result (IsNone (config_refusal config.now)) }
    ensures refused { IfErr result (λ error. (error ≡ ScheduleError.Memory)
        ⊎ ((why : ConfigRefusal) × (error ≡ ScheduleError.Config why) × (config_refusal config.now ≡ Some why))) }
{
    let mut database = start(alloc, config, true)?;
    let replies = match database.steps(alloc, steps) {
        Ok(replies) => replies,
        Err(AllocError) => return Err(ScheduleError::Memory),
    };
    laws_of(&database.cluster);
    match database.commits.into_commits() {
        Some(commits) => Ok(Transcript {
            replies: Replies::new(replies),
            commits,
            cluster: database.cluster,
        }),
        None => Err(ScheduleError::Memory),
    }
}
