// Scripts from JSON. Called by `recordctl`; the configuration also by `race`.
ghost use Rattle.std.specs.Prelude.{◌≡◌, ◌<◌, ◌≤◌, Some, None, Err, length, map, IsUtf8, IfOk, IfErr};
ghost use Rattle.serde_json.specs.Data.{no_members, object};
ghost use Rattle.serde_json.specs.View.{view};
ghost use Rattle.json_forms.specs.Config.{config_in};
ghost use Rattle.json_forms.specs.Json.{each_in};
ghost use Rattle.script.specs.Steps.{step_in};
ghost use Rattle.script.specs.Script.{IsScript, explains_script, explains_step};
ghost use Rattle.script.specs.Script.{explains_steps, frame_in, script_config};

use crate::error::ScriptError;
use crate::in_turn::script_in_turn;
use crate::step_json::step_of;
use cluster_core::Config;
use json::Scratch;
use json_forms::{PartError, config_of, has_only, list_of, member, value_of};
use schedule::Step;
use serde_json::{Map, Value};
use std::alloc::Global;

// The keys that a script may have.
const SCRIPT_KEYS: [&str; 2] = ["config", "steps"];

/// A script: the configuration of its database, and its steps.
#[derive(Drop)]
pub struct Script {
    /// The configuration of the database.
    pub config: Config,
    /// The steps, in order.
    pub steps: Vec<Step>,
}

// The steps of a script, each still as it is written.
fn frame_of(script: &Value) -> Result<&[Value], PartError>
    ensures ok { IfOk result (λ items. frame_in (view script.now) ≡ Some (map view items.now)) }
    ensures err { IfErr result (λ error. (error ≡ PartError.BadForm) × (frame_in (view script.now) ≡ None)) }
{
    if !has_only(script, &SCRIPT_KEYS) {
        return Err(PartError::BadForm);
    }
    list_of(member(script, "steps")?)
}

// The configuration that the empty object stands for.
pub(crate) fn default_config(alloc: Global) -> Result<Config, PartError>
    ensures ok { IfOk result (λ config. config_in (object no_members) ≡ Some config) }
    ensures err { IfErr result (λ error.
        error ≡ PartError.BadForm → config_in (object no_members) ≡ None) }
{
    config_of(alloc, &Value::Object(Map::new(alloc)))
}

// The configuration of a script, where `config` is the empty object if it isn't there.
pub(crate) fn script_config(alloc: Global, script: &Value) -> Result<Config, PartError>
    ensures ok { IfOk result (λ config. script_config (view script.now) ≡ Some config) }
    ensures err { IfErr result (λ error. error ≡ PartError.BadForm → script_config (view script.now) ≡ None) }
{
    match script.get("config") {
        Some(config) => config_of(alloc, config),
        None => default_config(alloc),
    }
}

// The step of this number, counted from 1.
fn step_at(alloc: Global, item: &Value, number: usize) -> Result<Step, ScriptError>
    ensures ok { IfOk result (λ step. step_in (view item.now) ≡ Some step) }
    ensures err { IfErr result (explains_step (view item.now) number) }
{
    step_of(alloc, item).map_err(|error| ScriptError::at(number, error))
}

// What the steps of a script stand for.
fn steps_of(alloc: Global, items: &[Value]) -> Result<Vec<Step>, ScriptError>
    ensures ok { IfOk result (λ steps. each_in step_in (map view items.now) ≡ Some steps.items) }
    ensures err { IfErr result (explains_steps (map view items.now)) }
{
    let mut steps = Vec::new(alloc);
    for (index, item) in items.iter().enumerate() {
        steps.push(step_at(alloc, item, index + 1)?)?;
    }
    Ok(steps)
}

// The script that a text of JSON stands for, which is read as a whole before its steps are made.
fn whole_script_of(alloc: Global, bytes: &[u8]) -> Result<Script, ScriptError>
    ensures ok { IfOk result (λ script. IsScript bytes.now script.config script.steps.items) }
    ensures err { IfErr result (explains_script bytes.now) }
{
    let value = value_of(alloc, bytes).map_err(|error| ScriptError::at(0, error))?;
    let items = frame_of(&value).map_err(|error| ScriptError::at(0, error))?;
    let config = script_config(alloc, &value).map_err(|error| ScriptError::at(0, error))?;
    let steps = steps_of(alloc, items)?;
    Ok(Script { config, steps })
}

/// The script that a text of JSON stands for, with the keys `steps` and perhaps `config`. It
/// answers `BadScript(0)` where the text isn't JSON of at most 4,000,000 bytes or its frame or
/// its configuration is bad, and else `BadScript` with the first step that is bad, or `OutOfMemory`
/// where memory is wanting.
pub fn script_of(alloc: Global, bytes: &[u8]) -> Result<Script, ScriptError>
    ensures ok { IfOk result (λ script. IsScript bytes.now script.config script.steps.items) }
    ensures err { IfErr result (explains_script bytes.now) }
{
    let mut scratch = Scratch::new(alloc);
    script_with(alloc, &mut scratch, bytes)
}

/// The same with room that is kept from one text to the next: it takes a short text longer to be
/// given room than to be read.
pub fn script_with(
    alloc: Global,
    scratch: &mut Scratch,
    bytes: &[u8],
) -> Result<Script, ScriptError>
    ensures ok { IfOk result (λ script. IsScript bytes.now script.config script.steps.items) }
    ensures err { IfErr result (explains_script bytes.now) }
{
    match script_in_turn(alloc, scratch, bytes) {
        Ok(script) => Ok(script),
        Err(PartError::OutOfMemory) => Err(ScriptError::OutOfMemory),
        Err(PartError::BadForm) => whole_script_of(alloc, bytes),
    }
}
