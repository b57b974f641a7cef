// A schedule, and what is followed beside it. Stepped by `logged` and `again`.
ghost use Rattle.std.specs.Prelude.{◌≡◌, ◌≤◌, true, List, [], IfErr, IfOk, IsNone, OnOk, map};
ghost use Rattle.std.specs.FinMap.{empty};
ghost use Rattle.kv_core.specs.Map.{Map};
ghost use Rattle.cluster_core.specs.Configuration.{config_refusal, first_cluster_over};
ghost use Rattle.command_log.specs.declared.entry.Entry.{Entry as EntryValue};
ghost use Rattle.replay.specs.Replaying.{IsLogged};
ghost use Rattle.schedule.specs.Stepwise.{DoesNext, HasDoneFrom};
ghost use Rattle.logged_schedule.specs.Refusals.{IsNotBegun};
ghost use Rattle.logged_schedule.specs.Runs.{done_as, lost, told_as};
ghost use Rattle.logged_schedule.specs.Standing.{BeginsFollowed, StepsFollowed};

use crate::error::OpenError;
use crate::following::Following;
use cluster_core::Config;
use command_log::Entry;
use replay::Image;
use schedule::{Reply, Report, Reports, Schedule, Step};
use std::alloc::{AllocError, Global};

// A schedule, and what is followed of its clients.
#[derive(Drop)]
pub(crate) struct Followed {
    pub(crate) schedule: Schedule,
    pub(crate) following: Following,
}

// A schedule after a step, what the step replied, and the entries of what is committed by it.
#[derive(Drop)]
pub(crate) struct Stepped {
    pub(crate) followed: Followed,
    pub(crate) reply: Reply,
    pub(crate) told: Vec<Entry>,
}

impl Followed {
    // A schedule of no steps, over an empty database.
    pub(crate) fn new(alloc: Global, config: &Config) -> Result<Followed, OpenError>
        ensures begun { IfOk result (BeginsFollowed [] config.now) }
        ensures over_none { IfOk result (λ followed.
            HasDoneFrom (first_cluster_over empty config.now) [] [] followed.schedule) }
        ensures allowed { OnOk result (IsNone (config_refusal config.now)) }
        ensures refused { IfErr result (IsNotBegun config.now) }
    {
        let schedule = Schedule::new(alloc, config)?;
        let following = Following::new(alloc)?;
        Ok(Followed {
            schedule,
            following,
        })
    }

    // One over a database, as that to which a lawful log has come (`of_stores`).
    pub(crate) fn over(
        alloc: Global,
        config: &Config,
        image: Image,
        of_stores: bool,
    ) -> Result<Followed, OpenError>
        requires start { 1 ≤ config.now.start }
        requires logged { of_stores ≡ true → (entries : List EntryValue) × IsLogged entries image }
        ensures begun { IfOk result (λ followed. (entries : List EntryValue)
            → IsLogged entries image → BeginsFollowed entries config.now followed) }
        ensures over_some { IfOk result (λ followed. (base : Map)
            × HasDoneFrom (first_cluster_over base config.now) [] [] followed.schedule) }
        ensures allowed { OnOk result (IsNone (config_refusal config.now)) }
        ensures refused { IfErr result (IsNotBegun config.now) }
    {
        let pairs = image.pairs(alloc)?;
        drop(image);
        let schedule = Schedule::over(alloc, config, pairs, of_stores)?;
        let following = Following::new(alloc)?;
        Ok(Followed {
            schedule,
            following,
        })
    }

    // Does a step in this way.
    fn step_as(self, alloc: Global, step: &Step, way: &Step) -> Result<Stepped, AllocError>
        requires { way.now ≡ done_as step.now }
        ensures next { IfOk result (λ stepped.
            DoesNext (done_as step.now) stepped.reply self.schedule stepped.followed.schedule) }
        ensures told { IfOk result (λ stepped. DoesNext step.now
            (told_as step.now stepped.reply) self.schedule stepped.followed.schedule) }
        ensures followed { IfOk result (StepsFollowed step.now self) }
    {
        let Followed {
            schedule,
            mut following,
        } = self;
        let (schedule, reply) = schedule.step(alloc, way)?;
        let _version = schedule.cluster().read_version(); // The clocks stand in order.
        let told = following.note(alloc, way, &reply)?;
        let followed = Followed {
            schedule,
            following,
        };
        Ok(Stepped {
            followed,
            reply,
            told,
        })
    }

    // Does a step. One whose report is lost is done as one that is reported, so that the reply says
    // what became of the transaction.
    pub(crate) fn step(self, alloc: Global, step: &Step) -> Result<Stepped, AllocError>
        ensures next { IfOk result (λ stepped.
            DoesNext (done_as step.now) stepped.reply self.schedule stepped.followed.schedule) }
        ensures told { IfOk result (λ stepped. DoesNext step.now
            (told_as step.now stepped.reply) self.schedule stepped.followed.schedule) }
        ensures followed { IfOk result (StepsFollowed step.now self) }
    {
        match step {
            Step::Lost => self.step_as(alloc, step, &Step::Report),
            _ => self.step_as(alloc, step, step),
        }
    }
}

// A report that is lost.
fn lost(report: &Report) -> Report
    ensures { result ≡ lost report.now }
{
    match report {
        Report::Committed { client, .. }
        | Report::Conflict { client, .. }
        | Report::Unknown { client } => Report::Unknown { client: *client },
    }
}

// Reports that are lost.
fn lost_each(alloc: Global, reports: &[Report]) -> Result<Vec<Report>, AllocError>
    ensures { IfOk result (λ out. out.items ≡ map lost reports.now) }
{
    let mut out = Vec::with_capacity(alloc, reports.len())?;
    for report in reports {
        out.push(lost(report))?;
    }
    Ok(out)
}

// What is told of a step that was done with this reply.
pub(crate) fn told_as(alloc: Global, step: &Step, reply: Reply) -> Result<Reply, AllocError>
    ensures { IfOk result (λ told. told ≡ told_as step.now reply) }
{
    match (step, reply) {
        (Step::Lost, Reply::Reported(reports)) => {
            let lost = lost_each(alloc, reports.as_slice())?;
            Ok(Reply::Reported(Reports::new(lost)))
        }
        (_, reply) => Ok(reply),
    }
}
