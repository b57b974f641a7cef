// The problems that are found. Used by every module here.
ghost use Rattle.std.specs.Prelude.{◌<◌, OnOk, length};

use json_places::{Form, Written};
use std::alloc::{AllocError, Global};

/// Something that is wrong with a text.
#[derive(Debug, Drop)]
pub struct Problem {
    /// Its place in the text, from 0.
    pub at: usize,
    /// The step in which it is, counted from 1; 0 outside the steps.
    pub step: usize,
    /// What is wrong.
    pub reason: String,
}

/// What is found so far, and the step that is looked at.
#[derive(Drop)]
pub(crate) struct Finder {
    pub alloc: Global,
    pub step: usize,
    pub problems: Vec<Problem>,
}

// What a value is, for a message.
fn kind_of(value: &Written) -> &'static str {
    match &value.form {
        Form::Null => "null",
        Form::Bool(_) => "a boolean",
        Form::Number(_) => "a number",
        Form::Text(_) => "a text",
        Form::List(_) => "a list",
        Form::Object(_) => "an object",
    }
}

impl Finder {
    /// Tells what is wrong at a place.
    pub(crate) fn tell(&mut self, at: usize, reason: String) -> Result<(), AllocError>
        ensures { OnOk result (0 < length self.new.problems.items) }
    {
        let step = self.step;
        self.problems.push(Problem { at, step, reason })?;
        Ok(())
    }

    /// The same of a text that is no value's.
    pub(crate) fn say(&mut self, at: usize, reason: &str) -> Result<(), AllocError>
        ensures { OnOk result (0 < length self.new.problems.items) }
    {
        let reason = String::from_str(self.alloc, reason)?;
        self.tell(at, reason)
    }

    /// Tells that something else stands at the place of what is wanted.
    pub(crate) fn tell_wanted(&mut self, wanted: &str, value: &Written) -> Result<(), AllocError> {
        let kind = kind_of(value);
        let reason = format!(in self.alloc; "{wanted} is wanted here, not {kind}")?;
        self.tell(value.begin, reason)
    }
}
