// Shared plans. Used by `planning`, `reply`, `step`, `kept_plans` and `executing`, by `runtime`,
// and by `script`, which prints them.
ghost use Rattle.std.specs.Prelude.{◌≡◌, IfOk};

use planner::Plan;
use std::alloc::{AllocError, Global};
use std::marker::Model;
use std::rc::Rc;

/// A plan that a reply shares with the client that keeps it.
pub struct SharedPlan {
    plan: Rc<Plan>,
}

// Written out, so that no proof of a caller has to take its parts apart where one is dropped.
impl Drop for SharedPlan {
    fn drop(self) {
        let SharedPlan { plan } = self;
        drop(plan);
    }
}

impl Model for SharedPlan {
    ghost use Rattle.planner.specs.Asked.{AskedPlan};
    ghost use Rattle.planner.specs.contracts.plan.Plan as of_plan;
    ghost use Rattle.std.specs.Coded.{codes};

    ghost Value = { AskedPlan };

    ghost coded = { Prim.hlevel (codes, of_plan.the_row.coded) };

    ghost view = { λ s. s.plan.value };
}

impl SharedPlan {
    /// This plan.
    pub fn new(alloc: Global, plan: Plan) -> Result<SharedPlan, AllocError>
        ensures { IfOk result (λ shared. shared ≡ plan) }
    {
        let plan = Rc::new(alloc, plan)?;
        Ok(SharedPlan { plan })
    }

    /// The plan.
    pub fn plan(&self) -> &Plan
        ensures { result.now ≡ self.now }
    {
        &self.plan
    }

    /// The same plan.
    pub fn copy(&self) -> Result<SharedPlan, AllocError>
        ensures { IfOk result (λ copy. copy ≡ self.now) }
    {
        let plan = self.plan.clone()?;
        Ok(SharedPlan { plan })
    }
}
