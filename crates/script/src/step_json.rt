// Steps and commands from JSON. Called by `script`; a builder's limit also by `race`.
ghost use Rattle.std.specs.Prelude.{◌≡◌, Some, None, IfOk, IfErr, map};
ghost use Rattle.serde_json.specs.View.{view};
ghost use Rattle.json_forms.specs.QueryJson.{query_in};
ghost use Rattle.script.specs.Steps.{command_on, command_with, common_step, limit_in};
ghost use Rattle.script.specs.Steps.{numbered_step, step_in, step_of_number, step_with_part};

use json_forms::{
    PartError, cells_of, field_of, index_of, list_of, number_of, schema_of, str_of, text_of,
    type_of,
};
use schedule::{AskedQuery, Command, Step};
use serde_json::Value;
use std::alloc::Global;

// The store of a transaction whose beginning names none.
const FIRST_STORE: u64 = 1;

// The query of a command.
fn query_of(alloc: Global, value: &Value) -> Result<AskedQuery, PartError>
    ensures ok { IfOk result (λ query. query_in (view value.now) ≡ Some query) }
    ensures err { IfErr result (λ error. error ≡ PartError.BadForm → query_in (view value.now) ≡ None) }
{
    let query = json_forms::query_of(alloc, value)?;
    Ok(AskedQuery::new(alloc, query)?)
}

// A command with one part behind the client.
pub(crate) fn command_of_one(alloc: Global, name: &str, part: &Value) -> Result<Command, PartError>
    ensures ok { IfOk result (λ command. command_with name.now (view part.now) ≡ Some command) }
    ensures err { IfErr result (λ error. error ≡ PartError.BadForm → command_with name.now (view part.now) ≡ None) }
{
    match name {
        "create" => Ok(Command::Create(schema_of(alloc, part)?)),
        "type" => Ok(Command::Type(type_of(alloc, part)?)),
        "query" => Ok(Command::Query(query_of(alloc, part)?)),
        "plan" => Ok(Command::Plan(query_of(alloc, part)?)),
        "index" => Ok(Command::Index(index_of(alloc, part)?)),
        "drop" => Ok(Command::Drop(text_of(alloc, part)?)),
        "disable" => Ok(Command::Disable(text_of(alloc, part)?)),
        "write_only" => Ok(Command::WriteOnly(text_of(alloc, part)?)),
        "readable" => Ok(Command::Readable(text_of(alloc, part)?)),
        "state" => Ok(Command::State(text_of(alloc, part)?)),
        _ => Err(PartError::BadForm),
    }
}

// A whole number of 32 bits without sign.
pub(crate) fn limit_of(value: &Value) -> Result<u32, PartError>
    ensures ok { IfOk result (λ limit. limit_in (view value.now) ≡ Some limit) }
    ensures err { IfErr result (λ error. error ≡ PartError.BadForm → limit_in (view value.now) ≡ None) }
{
    let number = number_of(value)?;
    if number < 1 << 32 {
        Ok(number as u32)
    } else {
        Err(PartError::BadForm)
    }
}

// A command with the name of a type, or of an index, and cells, a limit or a field behind the client.
pub(crate) fn command_on(
    alloc: Global,
    name: &str,
    owner: &Value,
    part: &Value,
) -> Result<Command, PartError>
    ensures ok { IfOk result (λ command. command_on name.now (view owner.now) (view part.now) ≡ Some command) }
    ensures err { IfErr result (λ error. error ≡ PartError.BadForm
        → command_on name.now (view owner.now) (view part.now) ≡ None) }
{
    let owner = text_of(alloc, owner)?;
    match name {
        "save" => Ok(Command::Save(owner, cells_of(alloc, part)?)),
        "load" => Ok(Command::Load(owner, cells_of(alloc, part)?)),
        "remove" => Ok(Command::Remove(owner, cells_of(alloc, part)?)),
        "aggregate" => Ok(Command::Aggregate(owner, cells_of(alloc, part)?)),
        "build" => Ok(Command::Build(owner, limit_of(part)?)),
        "field" => Ok(Command::Field(owner, field_of(alloc, part)?)),
        _ => Err(PartError::BadForm),
    }
}

// A step with just the number of a client or of a role.
pub(crate) fn step_of_number(name: &str, number: u64) -> Result<Step, PartError>
    ensures ok { IfOk result (λ step. step_of_number name.now number ≡ Some step) }
    ensures err { IfErr result (λ error. error ≡ PartError.BadForm → step_of_number name.now number ≡ None) }
{
    match name {
        "begin" => Ok(Step::Begin(number, FIRST_STORE)),
        "execute" => Ok(Step::Execute(number)),
        "commit" => Ok(Step::Commit(number)),
        "abandon" => Ok(Step::Abandon(number)),
        "resolve" => Ok(Step::Resolve(number)),
        "log" => Ok(Step::Log(number)),
        "pull" => Ok(Step::Pull(number)),
        _ => Err(PartError::BadForm),
    }
}

// A step with a client's number and one part: a transaction is begun in the store of a number, or
// a command is performed.
pub(crate) fn step_with_part(
    alloc: Global,
    name: &str,
    number: u64,
    part: &Value,
) -> Result<Step, PartError>
    ensures ok { IfOk result (λ step. step_with_part name.now number (view part.now) ≡ Some step) }
    ensures err { IfErr result (λ error. error ≡ PartError.BadForm
        → step_with_part name.now number (view part.now) ≡ None) }
{
    match name {
        "begin" => Ok(Step::Begin(number, number_of(part)?)),
        _ => Ok(Step::Perform(number, command_of_one(alloc, name, part)?)),
    }
}

// A step with a number, and what stands behind it.
fn numbered_step(alloc: Global, name: &str, number: u64, parts: &[Value]) -> Result<Step, PartError>
    ensures ok { IfOk result (λ step. numbered_step name.now number (map view parts.now) ≡ Some step) }
    ensures err { IfErr result (λ error. error ≡ PartError.BadForm
        → numbered_step name.now number (map view parts.now) ≡ None) }
{
    match parts {
        [] => step_of_number(name, number),
        [part] => step_with_part(alloc, name, number, part),
        [owner, part] => {
            let command = command_on(alloc, name, owner, part)?;
            Ok(Step::Perform(number, command))
        }
        _ => Err(PartError::BadForm),
    }
}

// A step that is a name alone.
pub(crate) fn common_step(name: &str) -> Result<Step, PartError>
    ensures ok { IfOk result (λ step. common_step name.now ≡ Some step) }
    ensures err { IfErr result (λ error. error ≡ PartError.BadForm → common_step name.now ≡ None) }
{
    match name {
        "report" => Ok(Step::Report),
        "lost" => Ok(Step::Lost),
        "settle" => Ok(Step::Settle),
        _ => Err(PartError::BadForm),
    }
}

// A step: a list of its name and its parts.
pub(crate) fn step_of(alloc: Global, value: &Value) -> Result<Step, PartError>
    ensures ok { IfOk result (λ step. step_in (view value.now) ≡ Some step) }
    ensures err { IfErr result (λ error. error ≡ PartError.BadForm → step_in (view value.now) ≡ None) }
{
    match list_of(value)? {
        [] => Err(PartError::BadForm),
        [name] => common_step(str_of(name)?),
        [name, number, parts @ ..] => {
            numbered_step(alloc, str_of(name)?, number_of(number)?, parts)
        }
    }
}
