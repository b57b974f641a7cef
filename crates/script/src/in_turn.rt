// Scripts whose steps are made one after another as their text is read. Called by `script`.
ghost use Rattle.std.specs.Prelude.{◌≡◌, ◌<◌, List, [], ◌∷◌, length, Some, IfOk, OnOk, codes};
ghost use Rattle.json.specs.Token.{begin_object, end_object, key};
ghost use Rattle.serde_json.specs.Data.{Data};
ghost use Rattle.serde_json.specs.View.{view};
ghost use Rattle.json_forms.specs.InTurn.{IsNextOf, IsRest, IsRestOfList, value_read};
ghost use Rattle.json_forms.specs.Json.{all_in};
ghost use Rattle.script.specs.Script.{IsScript, steps_alone};
ghost use Rattle.script.specs.Steps.{command_on, numbered_step, step_in, step_with};

use crate::script::{Script, default_config};
use crate::step_json::{command_on, common_step, step_of_number, step_with_part};
use json::{Reader, Scratch, Token};
use json_forms::{
    MAX_TEXT_BYTES, PartError, next_cells, next_token, next_value, text_from, whole_of,
};
use schedule::{Command, Step};
use serde_json::Value;
use std::alloc::Global;

// How deep lists and objects may nest in a script, in the list of its steps, in a step and in a
// part of a step.
const SCRIPT_DEPTH: usize = 127;

const STEPS_DEPTH: usize = 126;

const STEP_DEPTH: usize = 125;

const PART_DEPTH: usize = 124;

// The command with a type or an index and the next value.
fn next_command_on(
    alloc: Global,
    reader: &mut Reader<'_>,
    name: &str,
    owner: Value,
) -> Result<Command, PartError>
    ensures ok { IfOk result (λ command.
        IsNextOf (command_on name.now (view owner)) PART_DEPTH reader.old command reader.new) }
    ensures shorter { OnOk result (length reader.new < length reader.old) }
{
    match name {
        "save" => Ok(Command::Save(text_from(owner)?, next_cells(alloc, reader, PART_DEPTH)?)),
        "load" => Ok(Command::Load(text_from(owner)?, next_cells(alloc, reader, PART_DEPTH)?)),
        _ => {
            let part = next_value(alloc, reader, PART_DEPTH)?;
            command_on(alloc, name, &owner, &part)
        }
    }
}

// The step of this name and number, with the values up to the end of its list.
fn next_numbered_step(
    alloc: Global,
    reader: &mut Reader<'_>,
    name: &str,
    number: u64,
) -> Result<Step, PartError>
    ensures ok { IfOk result (λ step. (parts : List Data)
        × IsRest PART_DEPTH reader.old parts reader.new
        × (numbered_step name.now number parts ≡ Some step)) }
    ensures shorter { OnOk result (length reader.new < length reader.old) }
{
    if reader.take_end_array() {
        return step_of_number(name, number);
    }
    let first = next_value(alloc, reader, PART_DEPTH)?;
    if reader.take_end_array() {
        return step_with_part(alloc, name, number, &first);
    }
    let command = next_command_on(alloc, reader, name, first)?;
    if reader.take_end_array() {
        Ok(Step::Perform(number, command))
    } else {
        Err(PartError::BadForm)
    }
}

// The step of this name, with the values up to the end of its list.
fn next_named_step(alloc: Global, reader: &mut Reader<'_>, name: &str) -> Result<Step, PartError>
    ensures ok { IfOk result (λ step. (parts : List Data)
        × IsRest PART_DEPTH reader.old parts reader.new
        × (step_with name.now parts ≡ Some step)) }
    ensures shorter { OnOk result (length reader.new < length reader.old) }
{
    if reader.take_end_array() {
        return common_step(name);
    }
    match next_token(reader)? {
        Token::Number(text) => next_numbered_step(alloc, reader, name, whole_of(text)?),
        _ => Err(PartError::BadForm),
    }
}

// The step that the next value stands for.
fn next_step(alloc: Global, reader: &mut Reader<'_>) -> Result<Step, PartError>
    ensures ok { IfOk result (λ step. IsNextOf step_in STEP_DEPTH reader.old step reader.new) }
    ensures shorter { OnOk result (length reader.new < length reader.old) }
{
    let Token::BeginArray = next_token(reader)? else {
        return Err(PartError::BadForm);
    };
    match next_token(reader)? {
        Token::String(name) => next_named_step(alloc, reader, name),
        _ => Err(PartError::BadForm),
    }
}

// The steps up to the end of their list.
fn rest_of_steps(alloc: Global, reader: &mut Reader<'_>) -> Result<Vec<Step>, PartError>
    ensures { IfOk result (λ steps.
        IsRestOfList step_in STEP_DEPTH reader.old steps.items reader.new) }
{
    let mut steps = Vec::new(alloc);
    'steps: while !reader.take_end_array() {
        steps.push(next_step(alloc, reader)?)?;
    }
    Ok(steps)
}

// The steps that the next value stands for.
fn next_steps(alloc: Global, reader: &mut Reader<'_>) -> Result<Vec<Step>, PartError>
    ensures { IfOk result (λ steps.
        IsNextOf (all_in step_in) STEPS_DEPTH reader.old steps.items reader.new) }
{
    match next_token(reader)? {
        Token::BeginArray => rest_of_steps(alloc, reader),
        _ => Err(PartError::BadForm),
    }
}

// Takes the beginning of an object with the key `steps` first.
fn take_frame(reader: &mut Reader<'_>) -> Result<(), PartError>
    ensures { OnOk result (reader.old ≡ begin_object ∷ key (codes "steps") ∷ reader.new) }
{
    match (next_token(reader)?, next_token(reader)?) {
        (Token::BeginObject, Token::Key("steps")) => Ok(()),
        _ => Err(PartError::BadForm),
    }
}

// Takes the end of an object that is the whole text.
fn take_end(reader: &mut Reader<'_>) -> Result<(), PartError>
    ensures { OnOk result (reader.old ≡ end_object ∷ []) }
{
    match (next_token(reader)?, reader.next()) {
        (Token::EndObject, None) => Ok(()),
        _ => Err(PartError::BadForm),
    }
}

// The steps of a text that is an object with the key `steps` alone.
fn steps_alone(alloc: Global, reader: &mut Reader<'_>) -> Result<Vec<Step>, PartError>
    ensures { IfOk result (λ steps. (written : Data)
        × (value_read SCRIPT_DEPTH reader.old ≡ Some (steps_alone written, []))
        × (all_in step_in written ≡ Some steps.items)) }
{
    take_frame(reader)?;
    let steps = next_steps(alloc, reader)?;
    take_end(reader)?;
    Ok(steps)
}

/// The script of a text of JSON that has the key `steps` alone and no numbers but whole ones. Each
/// step is made as it is read, and nothing else of the text is kept. `BadForm` of another text, and
/// where a step is bad: `script_of` then reads the text as a whole.
pub(crate) fn script_in_turn(
    alloc: Global,
    scratch: &mut Scratch,
    bytes: &[u8],
) -> Result<Script, PartError>
    ensures { IfOk result (λ script. IsScript bytes.now script.config script.steps.items) }
{
    if bytes.len() > MAX_TEXT_BYTES {
        return Err(PartError::BadForm);
    }
    let Ok(text) = simdutf8::compat::from_utf8(bytes) else {
        return Err(PartError::BadForm);
    };
    let mut reader = Reader::new(text, scratch)?;
    let steps = steps_alone(alloc, &mut reader)?;
    let config = default_config(alloc)?;
    Ok(Script { config, steps })
}
