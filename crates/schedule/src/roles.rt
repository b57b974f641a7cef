// The steps of single roles: of a resolver, a log or a storage server. Called by `running`.
ghost use Rattle.std.specs.Prelude.{◌≡◌, IfOk};
ghost use Rattle.schedule.specs.Running.{IsStepped, work_reply};

use crate::database::Database;
use crate::refusal::Refusal;
use crate::reply::Reply;
use crate::starting::laws_of;
use crate::step::Step;
use cluster_core::Work;
use std::alloc::AllocError;

// The reply to a step of a role that there is.
fn work_reply(work: Work) -> Reply
    ensures { result ≡ work_reply work }
{
    match work {
        Work::Done => Reply::Done,
        Work::NothingToDo => Reply::Nothing,
    }
}

impl Database {
    // A resolver answers for its next version.
    pub(crate) fn resolve(&mut self, resolver: u64) -> Result<Reply, AllocError>
        ensures { IfOk result (λ reply. IsStepped (Step.Resolve resolver) reply self.old self.new) }
    {
        if resolver >= self.cluster.resolvers() as u64 {
            return Ok(Reply::Refused(Refusal::NoSuchRole));
        }
        let work = self.cluster.resolve(resolver as usize)?;
        Ok(work_reply(work))
    }

    // A log appends its next version.
    pub(crate) fn append(&mut self, log: u64) -> Result<Reply, AllocError>
        ensures { IfOk result (λ reply. IsStepped (Step.Log log) reply self.old self.new) }
    {
        if log >= self.cluster.logs() as u64 {
            return Ok(Reply::Refused(Refusal::NoSuchRole));
        }
        let work = self.cluster.append_log(log as usize)?;
        Ok(work_reply(work))
    }

    // A storage server pulls its next version.
    pub(crate) fn pull(&mut self, server: u64) -> Result<Reply, AllocError>
        ensures { IfOk result (λ reply. IsStepped (Step.Pull server) reply self.old self.new) }
    {
        if server >= self.cluster.servers() as u64 {
            return Ok(Reply::Refused(Refusal::NoSuchRole));
        }
        laws_of(&self.cluster);
        let work = self.cluster.pull(server as usize)?;
        Ok(work_reply(work))
    }
}
