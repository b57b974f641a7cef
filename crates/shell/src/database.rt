// The database over which steps are done, in memory alone or with a log. Used by most modules here,
// and by `recordctl`.
ghost use Rattle.std.specs.Prelude.{◌≡◌, ◌⊎◌, [], Some, IfOk, IfErr, OnOk, IsNone};
ghost use Rattle.cluster_core.specs.Cluster.{forget};
ghost use Rattle.cluster_core.specs.Configuration.{config_refusal};
ghost use Rattle.cluster_core.specs.declared.answers.ConfigError.{ConfigError as ConfigRefusal};
ghost use Rattle.schedule.specs.Exact.{IsExactOver, IsExactRun};
ghost use Rattle.schedule.specs.Headline.{IsHeadline, IsHeadlineOver};
ghost use Rattle.schedule.specs.Right.{IsRightOver, IsRightRun};
ghost use Rattle.schedule.specs.Stepwise.{DoesNext, HasDone, IsSoFar, IsSoFarOver, whole_cluster};

use cluster_core::{Cluster, Config};
use journal_file::FileDevice;
use logged_schedule::{LoggedSchedule, StepError};
use schedule::{Reply, Schedule, ScheduleError, Step};
use std::alloc::Global;
use std::marker::Model;

// Where what is committed is kept.
#[derive(Drop)]
enum Held {
    // In memory alone.
    Passing(Schedule),
    // In memory, and in a log in a file.
    Logged(LoggedSchedule<FileDevice>),
}

/// A schedule after the steps that were done so far, in memory alone, or with its commits in a log
/// in a folder.
#[derive(Drop)]
pub struct Database {
    held: Held,
}

impl Model for Database {
    ghost use Rattle.schedule.specs.Stepwise.{StepwiseState};
    ghost use Rattle.schedule.specs.contracts.step.Command as command;
    ghost use Rattle.schedule.specs.contracts.shared_plan.SharedPlan as plan;
    ghost use Rattle.std.specs.Coded.{codes};
    ghost use Rattle.cluster_core.specs.TierCode.{map_code};
    ghost use Rattle.shell.specs.Held.{held_state};

    ghost Value = { StepwiseState };

    ghost coded = { Prim.hlevel (codes, map_code, command.the_row.coded, plan.the_row.coded) };

    ghost view = { λ d. held_state d.held };
}

impl Database {
    ghost use Rattle.logged_schedule.specs.Standing.{schedule_of};

    /// A database of no steps, in memory alone. Refused as `Schedule::new` is.
    pub fn new(alloc: Global, config: &Config) -> Result<Database, ScheduleError>
        ensures begun { IfOk result (HasDone config.now [] []) }
        ensures allowed { OnOk result (IsNone (config_refusal config.now)) }
        ensures refused { IfErr result (λ error. (error ≡ ScheduleError.Memory)
            ⊎ ((why : ConfigRefusal) × (error ≡ ScheduleError.Config why)
            × (config_refusal config.now ≡ Some why))) }
    {
        let schedule = Schedule::new(alloc, config)?;
        Ok(Database {
            held: Held::Passing(schedule),
        })
    }

    // The database of a schedule with a log.
    pub(crate) fn logged(schedule: LoggedSchedule<FileDevice>) -> Database
        ensures { result ≡ schedule_of schedule }
    {
        Database {
            held: Held::Logged(schedule),
        }
    }

    /// Whether what is committed is in a log.
    pub fn is_logged(&self) -> bool {
        matches!(self.held, Held::Logged(_))
    }

    /// Does one step more, and answers its reply, once what it commits is in the log where there is
    /// one. It is refused with `Memory` where memory runs out, and as `LoggedSchedule::step` where
    /// the log doesn't go on. The database has ended then.
    pub fn step(self, alloc: Global, step: &Step) -> Result<(Database, Reply), StepError>
        ensures { IfOk result (λ done. DoesNext step.now done.1 self done.0) }
    {
        match self.held {
            Held::Passing(schedule) => {
                let (schedule, reply) = schedule.step(alloc, step)?;
                let held = Held::Passing(schedule);
                Ok((Database { held }, reply))
            }
            Held::Logged(schedule) => match schedule.step(alloc, step) {
                Ok((schedule, reply)) => {
                    let held = Held::Logged(schedule);
                    Ok((Database { held }, reply))
                }
                Err(stopped) => Err(stopped.error),
            },
        }
    }

    /// The cluster after the steps so far. Whatever steps those were and whatever they replied: the
    /// transcript of them is one that `run_schedule` may answer, but that of the requests only
    /// those are kept of which a role or a server may still ask. Over a log it is so for the stores
    /// that the log comes to.
    pub fn cluster(&self) -> &Cluster
        ensures now { whole_cluster result.now ≡ self.now.database.cluster }
        ensures forgotten { result.now ≡ forget result.now }
        ensures right { IsSoFar IsRightRun self.now }
        ensures exact { IsSoFar IsExactRun self.now }
        ensures headline { IsSoFar (λ _. IsHeadline) self.now }
        ensures right_over { IsSoFarOver IsRightOver self.now }
        ensures exact_over { IsSoFarOver IsExactOver self.now }
        ensures headline_over { IsSoFarOver (λ _. IsHeadlineOver) self.now }
    {
        match &self.held {
            Held::Passing(schedule) => schedule.cluster(),
            Held::Logged(schedule) => schedule.schedule().cluster(),
        }
    }
}
