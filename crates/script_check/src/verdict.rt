// What the readers of scripts, races and queries say of a text. Called by `places`.
ghost use Rattle.std.specs.Prelude.{◌≡◌, ◌↔◌, ◌≤◌, IfOk, IsNone, None, option_map};
ghost use Rattle.cluster_core.specs.Configuration.{config_refusal};
ghost use Rattle.json_forms.specs.Json.{value_in};
ghost use Rattle.explain.specs.Planning.{text_refusal};
ghost use Rattle.script_check.specs.Good.{IsGood, IsGoodRace, IsRunnable, file_form_in, is_good_as};

use crate::file_form::{FileForm, form_of};
use cluster_core::{Cluster, Config, ConfigError};
use explain::{ExplainError, plan_asked};
use json_forms::{PartError, value_of};
use script::{ScriptError, race_of, script_of};
use std::alloc::{AllocError, Global};

/// What is wrong with a text as a whole.
#[derive(Clone, Copy, Drop)]
pub(crate) enum Verdict {
    /// Nothing.
    Good,
    /// It is no JSON, or too long.
    NoJson,
    /// A step of a script, or its frame (0).
    BadStep(usize),
    /// The form of a race.
    BadRace,
    /// The configuration, of a script or of a race.
    BadConfig(ConfigError),
    /// The form of what a plan is asked for with, or what is asked.
    NoPlan(ExplainError),
}

// How many places for readers a race takes.
const RACE_PLACES: u64 = 4;

// The verdict on a configuration, as whoever makes a database of it says.
fn on_config(alloc: Global, config: &Config) -> Result<Verdict, AllocError>
    ensures { IfOk result (λ verdict.
        (verdict ≡ Verdict.Good) ↔ IsNone (config_refusal config.now)) }
{
    match Cluster::new(alloc, config) {
        Ok(_) => Ok(Verdict::Good),
        Err(ConfigError::Memory) => Err(AllocError),
        Err(ConfigError::BadCount) => Ok(Verdict::BadConfig(ConfigError::BadCount)),
        Err(ConfigError::BadSplits) => Ok(Verdict::BadConfig(ConfigError::BadSplits)),
    }
}

// The same for a race.
fn on_race_config(alloc: Global, config: &Config) -> Result<Verdict, AllocError>
    ensures { IfOk result (λ verdict. (verdict ≡ Verdict.Good)
        ↔ ((4 ≤ config.now.places) × IsNone (config_refusal config.now))) }
{
    if config.places < RACE_PLACES {
        return Ok(Verdict::BadConfig(ConfigError::BadCount));
    }
    on_config(alloc, config)
}

// The verdict on a script.
#[tactic(auto, using(crate::proofs::Verdicts::no_script))]
fn on_script(alloc: Global, text: &[u8]) -> Result<Verdict, AllocError>
    ensures { IfOk result (λ verdict. (verdict ≡ Verdict.Good) ↔ IsRunnable text.now) }
{
    match script_of(alloc, text) {
        Ok(script) => on_config(alloc, &script.config),
        Err(ScriptError::BadScript(step)) => Ok(Verdict::BadStep(step)),
        Err(ScriptError::OutOfMemory) => Err(AllocError),
    }
}

// The verdict on a race.
fn on_race(alloc: Global, text: &[u8]) -> Result<Verdict, AllocError>
    ensures { IfOk result (λ verdict. (verdict ≡ Verdict.Good) ↔ IsGoodRace text.now) }
{
    match race_of(alloc, text) {
        Ok(race) => on_race_config(alloc, &race.config),
        Err(ScriptError::BadScript(_)) => Ok(Verdict::BadRace),
        Err(ScriptError::OutOfMemory) => Err(AllocError),
    }
}

// The verdict on what a plan is asked for with.
fn on_plan(alloc: Global, text: &[u8]) -> Result<Verdict, AllocError>
    ensures { IfOk result (λ verdict.
        (verdict ≡ Verdict.Good) ↔ (text_refusal text.now ≡ None)) }
{
    match plan_asked(alloc, text) {
        Ok(_) => Ok(Verdict::Good),
        Err(ExplainError::OutOfMemory) => Err(AllocError),
        Err(why) => Ok(Verdict::NoPlan(why)),
    }
}

// The verdict on a text of a form.
fn verdict_as(alloc: Global, text: &[u8], form: FileForm) -> Result<Verdict, AllocError>
    ensures { IfOk result (λ verdict. (verdict ≡ Verdict.Good) ↔ is_good_as text.now form) }
{
    match form {
        FileForm::Script => on_script(alloc, text),
        FileForm::Race => on_race(alloc, text),
        FileForm::Plan => on_plan(alloc, text),
    }
}

// The form that a text is taken to have, none where it is no JSON.
fn form_in(alloc: Global, text: &[u8]) -> Result<Option<FileForm>, AllocError>
    ensures { IfOk result (λ form. form ≡ option_map file_form_in (value_in text.now)) }
{
    match value_of(alloc, text) {
        Ok(value) => Ok(Some(form_of(&value))),
        Err(PartError::BadForm) => Ok(None),
        Err(PartError::OutOfMemory) => Err(AllocError),
    }
}

/// The verdict on a text.
pub(crate) fn verdict_of(alloc: Global, text: &[u8]) -> Result<Verdict, AllocError>
    ensures { IfOk result (λ verdict. (verdict ≡ Verdict.Good) ↔ IsGood text.now) }
{
    match form_in(alloc, text)? {
        Some(form) => verdict_as(alloc, text, form),
        None => Ok(Verdict::NoJson),
    }
}
