//! A schedule that is made a step at a time, for who has no list of steps: a person at a shell.
ghost use Rattle.std.specs.Prelude.{◌≡◌, ◌⊎◌, ◌≤◌, [], Some, IfOk, IfErr, OnOk, IsNone, true};
ghost use Rattle.std.specs.FinMap.{from_entries};
ghost use Rattle.cluster_core.specs.Cluster.{forget};
ghost use Rattle.cluster_core.specs.Configuration.{config_refusal, first_cluster_over};
ghost use Rattle.cluster_core.specs.declared.answers.ConfigError.{ConfigError as ConfigRefusal};
ghost use Rattle.schedule.specs.Exact.{IsExactOver, IsExactRun};
ghost use Rattle.schedule.specs.Headline.{IsHeadline, IsHeadlineOver};
ghost use Rattle.schedule.specs.Holds.{IsHeld};
ghost use Rattle.schedule.specs.Right.{IsRightOver, IsRightRun};
ghost use Rattle.schedule.specs.Stepwise.{DoesNext, HasDone, HasDoneFrom, IsSoFar, IsSoFarOver};
ghost use Rattle.schedule.specs.Stepwise.{whole_cluster};

use crate::database::Database;
use crate::kept_plans::KeptPlans;
use crate::known::Known;
use crate::reply::Reply;
use crate::running::{start, start_over};
use crate::starting::laws_of;
use crate::step::Step;
use crate::transcript::ScheduleError;
use cluster_core::{Cluster, Config};
use kv_core::Pair;
use std::alloc::{AllocError, Global};
use std::marker::Model;

// What a schedule has.
#[derive(Drop)]
struct Parts {
    database: Database,
    kept: KeptPlans,
    known: Known,
    // Whether stores stay open between the commands of a transaction: not where it isn't known that
    // the database began over stores.
    stays_open: bool,
}

/// A schedule after the steps that were done so far. It keeps no list of committed transactions, and
/// of the requests no more bytes than a role or a server may still ask for, so that its memory is
/// that of the database, of its window and of what is open.
pub struct Schedule {
    // Boxed, since a schedule goes into each step and comes out of it by value.
    parts: Box<Parts>,
}

// Written out, so that no proof of a caller has to take the database apart where one is dropped.
impl Drop for Schedule {
    fn drop(self) {
        let Schedule { parts } = self;
        drop(parts);
    }
}

impl Model for Schedule {
    ghost use Rattle.schedule.specs.Stepwise.{IsReached, StepwiseState, stepwise_state};
    ghost use Rattle.schedule.specs.contracts.step.Command as command;
    ghost use Rattle.schedule.specs.contracts.shared_plan.SharedPlan as plan;
    ghost use Rattle.std.specs.Coded.{codes};
    ghost use Rattle.cluster_core.specs.TierCode.{map_code};

    ghost Value = { StepwiseState };

    ghost coded = { Prim.hlevel (codes, map_code, command.the_row.coded, plan.the_row.coded) };

    ghost view = { λ s. stepwise_state s.parts.value.database s.parts.value.kept.plans.items };

    ghost invariant = { λ s. IsReached s.parts.value.database
        s.parts.value.kept.plans.items s.parts.value.stays_open };
}

impl Database {
    // Lets go the bytes of the requests of which nobody asks again.
    fn let_go(&mut self)
        ensures { self.new ≡ record self.old { cluster = forget self.old.cluster } }
    {
        self.cluster.forget();
    }
}

impl Schedule {
    /// A schedule of no steps, over an empty database. Refused as `run_schedule` is.
    pub fn new(alloc: Global, config: &Config) -> Result<Schedule, ScheduleError>
        ensures begun { IfOk result (HasDone config.now [] []) }
        ensures allowed { OnOk result (IsNone (config_refusal config.now)) }
        ensures refused { IfErr result (λ error. (error ≡ ScheduleError.Memory)
            ⊎ ((why : ConfigRefusal) × (error ≡ ScheduleError.Config why) × (config_refusal config.now ≡ Some why))) }
    {
        let database = start(alloc, config, false)?;
        let kept = match KeptPlans::new(alloc) {
            Ok(kept) => kept,
            Err(AllocError) => return Err(ScheduleError::Memory),
        };
        let known = Known::new();
        let parts = Parts {
            database,
            kept,
            known,
            stays_open: true,
        };
        match Box::new(alloc, parts) {
            Ok(parts) => Ok(Schedule { parts }),
            Err(_) => Err(ScheduleError::Memory),
        }
    }

    /// A schedule of no steps, over the map of these pairs, as a checkpoint or a log gives them. It
    /// stands at the configuration's first version, which isn't 0. Where a key is there more than
    /// once, the first of its pairs stands. Refused as `run_schedule` is.
    ///
    /// What is promised of the schedule's steps is so for all stores that the pairs hold. Where the
    /// caller knows that they hold some (`of_stores`) a store stays open from one command of a
    /// transaction to the next one; else each command opens it anew, since nothing is known of it.
    pub fn over(
        alloc: Global,
        config: &Config,
        pairs: Vec<Pair>,
        of_stores: bool,
    ) -> Result<Schedule, ScheduleError>
        requires start { 1 ≤ config.now.start }
        requires stores { of_stores ≡ true → IsHeld (from_entries pairs.items) }
        ensures begun { IfOk result (
            HasDoneFrom (first_cluster_over (from_entries pairs.items) config.now) [] []) }
        ensures allowed { OnOk result (IsNone (config_refusal config.now)) }
        ensures refused { IfErr result (λ error. (error ≡ ScheduleError.Memory)
            ⊎ ((why : ConfigRefusal) × (error ≡ ScheduleError.Config why) × (config_refusal config.now ≡ Some why))) }
    {
        let database = start_over(alloc, config, pairs)?;
        let kept = match KeptPlans::new(alloc) {
            Ok(kept) => kept,
            Err(AllocError) => return Err(ScheduleError::Memory),
        };
        let known = Known::new();
        let parts = Parts {
            database,
            kept,
            known,
            stays_open: of_stores,
        };
        match Box::new(alloc, parts) {
            Ok(parts) => Ok(Schedule { parts }),
            Err(_) => Err(ScheduleError::Memory),
        }
    }

    /// Does one step more, and answers its reply. Where memory runs out the schedule has ended.
    pub fn step(self, alloc: Global, step: &Step) -> Result<(Schedule, Reply), AllocError>
        ensures { IfOk result (λ done. DoesNext step.now done.1 self done.0) }
    {
        let Schedule { mut parts } = self;
        let Parts {
            database,
            kept,
            known,
            stays_open,
        } = &mut *parts;
        let reply = database.step(alloc, kept, known, *stays_open, step)?;
        kept.keep(step, &reply)?;
        database.let_go();
        let longer = Schedule { parts };
        Ok((longer, reply))
    }

    /// The cluster after the steps so far. Whatever steps those were and whatever they replied: the
    /// transcript of them is one that `run_schedule` may answer, but that of the requests only those
    /// are kept of which a role or a server may still ask. Over a base it is so for all stores that the
    /// base holds.
    pub fn cluster(&self) -> &Cluster
        ensures now { whole_cluster result.now ≡ self.now.database.cluster }
        ensures forgotten { result.now ≡ forget result.now }
        ensures right { IsSoFar IsRightRun self.now }
        ensures exact { IsSoFar IsExactRun self.now }
        ensures headline { IsSoFar (λ _. IsHeadline) self.now }
        ensures right_over { IsSoFarOver IsRightOver self.now }
        ensures exact_over { IsSoFarOver IsExactOver self.now }
        ensures headline_over { IsSoFarOver (λ _. IsHeadlineOver) self.now }
    {
        let parts = self.parts.as_ref();
        laws_of(&parts.database.cluster);
        &parts.database.cluster
    }
}
