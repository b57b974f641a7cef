// The step that has all roles catch up. Called by `running`.
ghost use Rattle.std.specs.Prelude.{◌≡◌, IfOk, length};
ghost use Rattle.cluster_core.specs.Cluster.{may_pull};
ghost use Rattle.schedule.specs.Past.{Past};
ghost use Rattle.schedule.specs.Running.{IsStepped, StandsAfter};
ghost use Rattle.schedule.specs.Settling.{HaveWorked, Rounds, has_worked, log_may, resolver_may};

use crate::database::Database;
use crate::reply::{Reply, Report};
use crate::reporting::reports_reply;
use crate::starting::laws_of;
use crate::step::Step;
use cluster_core::Work;
use std::alloc::{AllocError, Global};

// Whether a role did something.
fn has_worked(work: Work) -> bool
    ensures { result ≡ has_worked work }
{
    matches!(work, Work::Done)
}

impl Database {
    // Each resolver answers for its next version, and whether one did.
    fn resolve_each(&mut self) -> Result<bool, AllocError>
        ensures { IfOk result (λ done.
            HaveWorked resolver_may (length self.old.cluster.pipeline.resolved) done self.old self.new) }
    {
        let count = self.cluster.resolvers();
        let mut done = false;
        for resolver in 0..count {
            laws_of(&self.cluster);
            let work = self.cluster.resolve(resolver)?;
            done |= has_worked(work);
        }
        Ok(done)
    }

    // Each log appends its next version, and whether one did.
    fn append_each(&mut self) -> Result<bool, AllocError>
        ensures { IfOk result (λ done.
            HaveWorked log_may (length self.old.cluster.pipeline.logged) done self.old self.new) }
    {
        let count = self.cluster.logs();
        let mut done = false;
        for log in 0..count {
            laws_of(&self.cluster);
            let work = self.cluster.append_log(log)?;
            done |= has_worked(work);
        }
        Ok(done)
    }

    // Each storage server pulls its next version, and whether one did.
    fn pull_each(&mut self) -> Result<bool, AllocError>
        ensures { IfOk result (λ done. HaveWorked may_pull (length self.old.cluster.pulled) done self.old self.new) }
    {
        let count = self.cluster.servers();
        let mut done = false;
        for server in 0..count {
            laws_of(&self.cluster);
            let work = self.cluster.pull(server)?;
            done |= has_worked(work);
        }
        Ok(done)
    }

    // Each role does its next step, and whether one did.
    fn round(&mut self, reports: &mut Vec<Report>) -> Result<bool, AllocError>
        ensures { IfOk result (λ done. Rounds reports.old.items done reports.new.items self.old self.new) }
    {
        let resolved = self.resolve_each()?;
        let appended = self.append_each()?;
        let reported = self.report_into(reports)?;
        let pulled = self.pull_each()?;
        laws_of(&self.cluster);
        Ok(resolved | appended | reported | pulled)
    }

    // All roles do what there is to do, and every version is reported: rounds, until one has
    // nothing to do.
    pub(crate) fn settle(&mut self, alloc: Global) -> Result<Reply, AllocError>
        requires { (past : Past) × StandsAfter past self.old }
        ensures { IfOk result (λ reply. IsStepped Step.Settle reply self.old self.new) }
    {
        let mut reports = Vec::new(alloc);
        let mut busy = true;
        while busy {
            busy = self.round(&mut reports)?;
        }
        Ok(reports_reply(reports))
    }
}
