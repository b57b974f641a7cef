// Steps, done one after another. Called by `session`, `importing` and `scripts`.
ghost use Rattle.std.specs.Prelude.{IfOk};
ghost use Rattle.shell.specs.Further.{HasDoneNext, IsFurther};

use crate::database::Database;
use crate::error::ShellError;
use crate::stores::Stores;
use crate::telling::{Telling, tell};
use schedule::Step;
use std::alloc::Global;
use std::io::Write;

/// Does these steps, and tells what each replies.
pub(crate) fn do_steps<W: Write>(
    alloc: Global,
    telling: Telling,
    stores: &mut Stores,
    schedule: Database,
    steps: &[Step],
    output: &mut W,
) -> Result<Database, ShellError>
    ensures next { IfOk result (HasDoneNext steps.now schedule) }
    ensures further { IfOk result (IsFurther schedule) }
{
    let mut schedule = schedule;
    for step in steps {
        let (after, reply) = schedule.step(alloc, step)?;
        schedule = after;
        stores.note(step, &reply);
        tell(
            alloc,
            telling,
            stores,
            schedule.cluster(),
            step,
            &reply,
            output,
        )?;
    }
    Ok(schedule)
}
