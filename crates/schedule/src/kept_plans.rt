//! The plans that clients keep. Used by `running` and `clients`.
ghost use Rattle.std.specs.Prelude.{◌≡◌, ◌<◌, ◌≤◌, ◌∷◌, [], IfOk, IfSome, OnOk, None, Some, get_or, option_map};
ghost use Rattle.std.specs.Prelude.{slice_set, vec_len};
ghost use Rattle.schedule.specs.Past.{Past};
ghost use Rattle.schedule.specs.Running.{AreKept};
ghost use Rattle.schedule.specs.declared.step.TheConstants.{CLIENTS};

use crate::reply::Reply;
use crate::shared_plan::SharedPlan;
use crate::starting::none_each;
use crate::step::{CLIENTS, Step};
use std::alloc::{AllocError, Global};

// The plan that each client keeps: that of its last command that was planned.
#[derive(Drop)]
pub(crate) struct KeptPlans {
    pub(crate) plans: Vec<Option<SharedPlan>>,
    ghost place_each: { vec_len plans ≡ CLIENTS },
}

impl KeptPlans {
    // No client keeps a plan.
    pub(crate) fn new(alloc: Global) -> Result<KeptPlans, AllocError>
        ensures { IfOk result (λ kept. AreKept [] kept.plans.items) }
    {
        let plans = none_each(alloc)?;
        Ok(KeptPlans { plans })
    }

    // The plan that a client keeps.
    pub(crate) fn plan_of(&self, client: u64) -> Option<&SharedPlan>
        ensures plan { option_map (λ plan. plan.now) result ≡ get_or self.now.plans.items client None }
        ensures within { IfSome result (λ _. client < CLIENTS) }
    {
        if client >= CLIENTS as u64 {
            return None;
        }
        self.plans[client as usize].as_ref()
    }

    // A client keeps a plan.
    fn set(&mut self, client: u64, plan: SharedPlan)
        ensures there { client < CLIENTS
            → self.new.plans.items ≡ slice_set self.old.plans.items client (Some plan) }
        ensures away { CLIENTS ≤ client → self.new.plans.items ≡ self.old.plans.items }
    {
        if client < CLIENTS as u64 {
            self.plans[client as usize] = Some(plan);
        }
    }

    // A client keeps the plan that a step replied, if it did.
    pub(crate) fn keep(&mut self, step: &Step, reply: &Reply) -> Result<(), AllocError>
        ensures { OnOk result ((past : Past) → AreKept past self.old.plans.items
            → AreKept ((step.now, reply.now) ∷ past) self.new.plans.items) }
    {
        match (step, reply) {
            (Step::Perform(client, _), Reply::Planned(plan)) => {
                let plan = plan.copy()?;
                self.set(*client, plan);
                Ok(())
            }
            _ => Ok(()),
        }
    }
}
