// All that is wrong with a text. Called by `recordctl`.
ghost use Rattle.std.specs.Prelude.{◌≡◌, ◌↔◌, ◌<◌, [], IfOk, OnOk, length};
ghost use Rattle.script_check.specs.Good.{IsGood};

use crate::checking::check_object;
use crate::file_form::{FileForm, form_of_written};
use crate::finder::{Finder, Problem};
use crate::shapes::Shape;
use crate::verdict::{Verdict, verdict_of};
use explain::ExplainError;
use json_forms::MAX_TEXT_BYTES;
use json_places::{Flaw, Reading, Written, read};
use std::alloc::{AllocError, Global};

// More than lists and objects may nest in a text.
const MOST_LEVELS: usize = 1_000;

// Tells where a text is no JSON.
fn tell_flaws(finder: &mut Finder, flaws: &[Flaw]) -> Result<(), AllocError> {
    for flaw in flaws {
        let kind = flaw.kind;
        let reason = format!(in finder.alloc; "{kind}")?;
        finder.tell(flaw.at, reason)?;
    }
    Ok(())
}

// Looks for what is wrong in a value of a form.
fn look_in(finder: &mut Finder, value: &Written) -> Result<(), AllocError> {
    let (shape, words) = match form_of_written(value) {
        FileForm::Script => (Shape::Script, "a script, an object of the key \"steps\","),
        FileForm::Race => (Shape::Race, "a race"),
        FileForm::Plan => (Shape::Plan, "an object of a schema and a query"),
    };
    check_object(finder, shape, words, value, MOST_LEVELS)
}

// The place of what stands at a key of an object, or else that of the object.
fn place_at(value: &Written, key: &str) -> usize {
    value
        .get(key)
        .map_or(value.begin, |member| member.value.begin)
}

// The place of the step of a number, counted from 1, or else that of the script.
fn place_of_step(value: &Written, number: usize) -> usize {
    let steps = value.get("steps").and_then(|member| member.value.items());
    let step = steps.and_then(|steps| steps.get(number.saturating_sub(1)));
    step.map_or(value.begin, |step| step.begin)
}

// Tells why there is no plan of what is asked.
fn tell_no_plan(finder: &mut Finder, value: &Written, why: ExplainError) -> Result<(), AllocError> {
    let (key, reason) = match why {
        ExplainError::BadForm | ExplainError::OutOfMemory => return Ok(()),
        ExplainError::BadSchema(refusal) => {
            (
                "schema",
                format!(in finder.alloc; "refused {refusal:?}: {refusal}")?,
            )
        }
        ExplainError::UnknownIndex => {
            (
                "states",
                format!(in finder.alloc; "refused UnknownIndex: {why}")?,
            )
        }
        ExplainError::BadQuery(error) => {
            (
                "query",
                format!(in finder.alloc; "refused {error:?}: {error}")?,
            )
        }
        ExplainError::SortNotServed => {
            (
                "query",
                format!(in finder.alloc; "refused SortNotServed: {why}")?,
            )
        }
    };
    finder.tell(place_at(value, key), reason)
}

// Tells what is wrong with a value as a whole, where nothing in it was found.
fn tell_whole(finder: &mut Finder, value: &Written, verdict: Verdict) -> Result<(), AllocError> {
    match verdict {
        Verdict::Good | Verdict::NoJson | Verdict::BadRace => Ok(()),
        Verdict::BadStep(number) => {
            finder.step = number;
            finder.say(place_of_step(value, number), "this is no step of a script")
        }
        Verdict::BadConfig(why) => {
            let reason = format!(in finder.alloc; "bad config {why:?}")?;
            finder.tell(place_at(value, "config"), reason)
        }
        Verdict::NoPlan(why) => tell_no_plan(finder, value, why),
    }
}

// Looks for what is wrong with a value, in it or as a whole.
fn look_at(finder: &mut Finder, value: &Written, verdict: Verdict) -> Result<(), AllocError> {
    look_in(finder, value)?;
    if finder.problems.is_empty() {
        tell_whole(finder, value, verdict)?;
    }
    Ok(())
}

// Looks for what is wrong in a text.
fn look(finder: &mut Finder, text: &[u8], verdict: Verdict) -> Result<(), AllocError> {
    if text.len() > MAX_TEXT_BYTES {
        return finder.say(MAX_TEXT_BYTES, "a text has at most 4,000,000 bytes");
    }
    let Reading { value, flaws } = read(finder.alloc, text)?;
    tell_flaws(finder, flaws.as_slice())?;
    match value {
        Some(value) => look_at(finder, &value, verdict),
        None => Ok(()),
    }
}

// What is wrong with a text of which a verdict says that something is.
fn problems_of(alloc: Global, text: &[u8], verdict: Verdict) -> Result<Vec<Problem>, AllocError>
    ensures { IfOk result (λ problems. 0 < length problems.items) }
{
    let problems = Vec::new(alloc);
    let mut finder = Finder {
        alloc,
        step: 0,
        problems,
    };
    look(&mut finder, text, verdict)?;
    finder.problems.sort_by_key(|problem| problem.at)?;
    if finder.problems.is_empty() {
        finder.say(0, "this isn't of the form that is wanted")?;
    }
    Ok(finder.problems)
}

/// All that is wrong with the text of a script, a race, or of a query whose plan is asked for, in
/// the order of places: nothing exactly where `run`, `race` or `explain` takes it. It is taken for
/// a script where it has the key `steps`, else for a race where it has `clients`, else for what a
/// plan is asked for with where it has `query` or `schema`, and else for a script.
pub fn check(alloc: Global, text: &[u8]) -> Result<Vec<Problem>, AllocError>
    ensures { IfOk result (λ problems. (problems.items ≡ []) ↔ IsGood text.now) }
{
    let verdict = verdict_of(alloc, text)?;
    match verdict {
        Verdict::Good => Ok(Vec::new(alloc)),
        _ => problems_of(alloc, text, verdict),
    }
}
