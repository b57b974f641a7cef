// What replies tell: the answers of the calls that perform a command. Used by `transaction`,
// `index_worker` and `trace`.
ghost use Rattle.std.specs.Prelude.{◌≡◌, ℕ, ℤ, Bool, List, Option, IfOk};
ghost use Rattle.metadata.specs.declared.cells.Cell.{Cell};
ghost use Rattle.planner.specs.Asked.{AskedPlan};
ghost use Rattle.kv_core.specs.Range.{KeyRange};
ghost use Rattle.runtime.specs.Calls.{found_reply, marked_reply, part_reply, removed_reply};
ghost use Rattle.runtime.specs.Calls.{saved_reply, told_result};
ghost use Rattle.runtime.specs.Errors.{accepted_reply};
ghost use Rattle.schedule.specs.Past.{is_accepted};

use crate::answers::CommandError;
use crate::published_reads::EnterError;
use kv_core::KeyRange as BuiltRange;
use metadata::Cells;
use packed_rows::Rows;
use schedule::{Reply, SharedPlan};

/// Whether the reply accepts its command.
pub(crate) fn is_accepted(reply: &Reply) -> bool
    ensures { result ≡ is_accepted reply.now }
{
    !matches!(
        reply,
        Reply::Refused(_) | Reply::Corrupt(_) | Reply::Stopped
    )
}

/// The reply, where it accepts its command.
pub(crate) fn accepted(reply: Result<Reply, EnterError>) -> Result<Reply, CommandError>
    ensures { result ≡ accepted_reply reply }
{
    match reply? {
        Reply::Refused(refusal) => Err(CommandError::Refused(refusal)),
        Reply::Corrupt(key) => Err(CommandError::Corrupt(key)),
        Reply::Stopped => Err(CommandError::Memory),
        reply => Ok(reply),
    }
}

/// By the reply the record that was there before a save.
pub(crate) fn saved(reply: Result<Reply, CommandError>) -> Result<Option<Cells>, CommandError>
    requires { IfOk reply (λ told. (answer : Option (List Cell)) × (told ≡ saved_reply answer)) }
    ensures { reply ≡ told_result saved_reply result }
{
    match reply? {
        Reply::SavedNew => Ok(None),
        Reply::SavedOver(cells) => Ok(Some(cells)),
        _ => unreachable!(),
    }
}

/// By the reply the record that was found.
pub(crate) fn found(reply: Result<Reply, CommandError>) -> Result<Option<Cells>, CommandError>
    requires { IfOk reply (λ told. (answer : Option (List Cell)) × (told ≡ found_reply answer)) }
    ensures { reply ≡ told_result found_reply result }
{
    match reply? {
        Reply::Absent => Ok(None),
        Reply::Found(cells) => Ok(Some(cells)),
        _ => unreachable!(),
    }
}

/// By the reply whether a record was taken out.
pub(crate) fn removed(reply: Result<Reply, CommandError>) -> Result<bool, CommandError>
    requires { IfOk reply (λ told. (answer : Bool) × (told ≡ removed_reply answer)) }
    ensures { reply ≡ told_result removed_reply result }
{
    match reply? {
        Reply::Removed => Ok(true),
        Reply::Absent => Ok(false),
        _ => unreachable!(),
    }
}

/// By the reply the plan of a query.
pub(crate) fn planned(reply: Result<Reply, CommandError>) -> Result<SharedPlan, CommandError>
    requires { IfOk reply (λ told. (answer : AskedPlan) × (told ≡ Reply.Planned answer)) }
    ensures { reply ≡ told_result Reply.Planned result }
{
    match reply? {
        Reply::Planned(plan) => Ok(plan),
        _ => unreachable!(),
    }
}

/// By the reply the rows of a plan.
pub(crate) fn rows(reply: Result<Reply, CommandError>) -> Result<Rows, CommandError>
    requires { IfOk reply (λ told. (answer : List (List Cell)) × (told ≡ Reply.Rows answer)) }
    ensures { reply ≡ told_result Reply.Rows result }
{
    match reply? {
        Reply::Rows(rows) => Ok(rows),
        _ => unreachable!(),
    }
}

/// By the reply the total of a group.
pub(crate) fn total(reply: Result<Reply, CommandError>) -> Result<i64, CommandError>
    requires { IfOk reply (λ told. (answer : ℤ) × (told ≡ Reply.Total answer)) }
    ensures { reply ≡ told_result Reply.Total result }
{
    match reply? {
        Reply::Total(total) => Ok(total),
        _ => unreachable!(),
    }
}

/// By the reply how many records a step of a builder built, and where. None where all are built.
pub(crate) fn part(
    reply: Result<Reply, CommandError>,
) -> Result<Option<(usize, BuiltRange)>, CommandError>
    requires { IfOk reply (λ told.
        (answer : Option (ℕ × KeyRange)) × (told ≡ part_reply answer)) }
    ensures { reply ≡ told_result part_reply result }
{
    match reply? {
        Reply::Built { records, range } => Ok(Some((records, range))),
        Reply::Finished => Ok(None),
        _ => unreachable!(),
    }
}

/// By the reply that an index is marked.
pub(crate) fn marked(reply: Result<Reply, CommandError>) -> Result<(), CommandError>
    requires { IfOk reply (λ told. (answer : Unit {0}) × (told ≡ marked_reply answer)) }
    ensures { reply ≡ told_result marked_reply result }
{
    match reply? {
        Reply::Done => Ok(()),
        _ => unreachable!(),
    }
}
