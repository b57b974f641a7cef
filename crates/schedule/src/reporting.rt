// The steps that report a version, to its client or to nobody. Called by `running` and `settle`.
ghost use Rattle.std.specs.Prelude.{◌≡◌, ◌++◌, ◌∷◌, [], IfOk, OnOk, if◌then◌else◌};
ghost use Rattle.schedule.specs.Contract.{report_to, reports_reply};
ghost use Rattle.schedule.specs.Running.{IsReported, IsStepped, IsTelling, unreported_entry};
ghost use Rattle.schedule.specs.Standing.{is_told};

use crate::commit_log::{CommitLog, Listed};
use crate::database::{Database, Told, Unreported};
use crate::reply::{Reply, Report, Reports};
use crate::step::Step;
use cluster_core::Reported;
use std::alloc::{AllocError, Global};

// The reply that reports are.
pub(crate) fn reports_reply(reports: Vec<Report>) -> Reply
    ensures { result ≡ reports_reply reports.items }
{
    if reports.is_empty() {
        return Reply::Nothing;
    }
    Reply::Reported(Reports::new(reports))
}

// Adds the report of what is told.
fn push_report(reports: &mut Vec<Report>, told: Told) -> Result<(), AllocError>
    ensures { OnOk result (reports.new.items ≡ reports.old.items ++ report_to told.client told.reported) }
{
    let client = told.client;
    match told.reported {
        Reported::Committed(version) => reports.push(Report::Committed { client, version })?,
        Reported::Conflict { seen, range } => reports.push(Report::Conflict {
            client,
            seen,
            range,
        })?,
        Reported::NothingToDo => {}
    }
    Ok(())
}

// Lists what was reported next, where it is committed at this version.
fn list_commit(
    commits: &mut CommitLog,
    version: u64,
    next: Unreported,
    reported: &Reported,
) -> Result<(), AllocError>
    ensures { OnOk result (commits.new
        ≡ commits.old ++ (if is_told reported.now then unreported_entry version next ∷ []
        else [])) }
{
    if let Reported::Committed(_) = reported {
        commits.push(Listed {
            version,
            client: next.client,
            store: next.store,
            read_version: next.read_version,
            commands: next.commands,
        })?;
    }
    Ok(())
}

impl Database {
    // Reports the next version, lists its transaction where it is committed, and answers whose it
    // was and what is told of it.
    fn report_next(&mut self) -> Result<Option<Told>, AllocError>
        ensures { IfOk result (λ told. IsReported told self.old self.new) }
    {
        let reported = self.cluster.report();
        let version = self.cluster.read_version();
        if let Reported::NothingToDo = reported {
            return Ok(None);
        }
        match self.unreported.pop_front() {
            Some(next) => {
                let client = next.client;
                list_commit(&mut self.commits, version, next, &reported)?;
                Ok(Some(Told { client, reported }))
            }
            None => Ok(None),
        }
    }

    // Reports the next version to its client, and answers whether there was one.
    pub(crate) fn report_into(&mut self, reports: &mut Vec<Report>) -> Result<bool, AllocError>
        ensures { IfOk result (λ done. IsTelling reports.old.items done reports.new.items self.old self.new) }
    {
        match self.report_next()? {
            Some(told) => {
                push_report(reports, told)?;
                Ok(true)
            }
            None => Ok(false),
        }
    }

    // The next version is reported to its client.
    pub(crate) fn report(&mut self, alloc: Global) -> Result<Reply, AllocError>
        ensures { IfOk result (λ reply. IsStepped Step.Report reply self.old self.new) }
    {
        let mut reports = Vec::new(alloc);
        self.report_into(&mut reports)?;
        Ok(reports_reply(reports))
    }

    // The next version is reported, and the report is lost.
    pub(crate) fn lose(&mut self, alloc: Global) -> Result<Reply, AllocError>
        ensures { IfOk result (λ reply. IsStepped Step.Lost reply self.old self.new) }
    {
        match self.report_next()? {
            Some(told) => {
                let mut reports = Vec::new(alloc);
                reports.push(Report::Unknown {
                    client: told.client,
                })?;
                Ok(Reply::Reported(Reports::new(reports)))
            }
            None => Ok(Reply::Nothing),
        }
    }
}
