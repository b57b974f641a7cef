// The steps that words stand for. Called by `line`.
ghost use Rattle.std.specs.Prelude.{◌≡◌, ◌++◌, List, ℕ, IfOk, OnOk, string_bytes};
ghost use Rattle.shell_line.specs.Said.{IsAfterClient, IsSaid, build_after, cells_after};
ghost use Rattle.shell_line.specs.Said.{schema_after, step_alone, step_end, store_after};
ghost use Rattle.shell_line.specs.Said.{index_after, role_step, step_name};

use crate::defining::{push_count, push_field, push_sum, push_type, push_value};
use crate::flaw::LineError;
use crate::querying::push_query;
use crate::topics::topic_of;
use crate::word::{Word, WordKind, Words, name_at, wanted};
use crate::writing::{push_joined, push_opened, push_quoted};
use std::alloc::Global;

/// What stands after the word that begins a line.
#[derive(Clone, Copy, Debug, PartialEq, Eq, Drop)]
pub(crate) enum Form {
    /// Nothing, and no client takes the step.
    Alone,
    /// Nothing.
    Bare,
    /// The number of a store, or nothing.
    Begin,
    /// Nothing, and then all roles do what there is to do.
    Commit,
    /// The number of a role.
    Role,
    /// The name of an index.
    Named,
    /// The name of an index, and how many records are built.
    Build,
    /// The name of a type or of an index, and cells.
    Cells,
    /// A query.
    Query,
    /// A schema, or nothing.
    Create,
    /// A type.
    Type,
    /// The name of a type, that of a field and its kind.
    Field,
    /// An index.
    Value,
    /// An index that counts.
    Count,
    /// An index that sums.
    Sum,
}

/// What stands after a word that begins a line, none where it begins no step.
pub(crate) fn form_of(word: &str) -> Option<Form> {
    match word {
        "report" | "lost" | "settle" => Some(Form::Alone),
        "execute" | "abandon" => Some(Form::Bare),
        "begin" => Some(Form::Begin),
        "commit" => Some(Form::Commit),
        "resolve" | "log" | "pull" => Some(Form::Role),
        "state" | "drop" | "disable" | "write_only" | "readable" => Some(Form::Named),
        "build" => Some(Form::Build),
        "save" | "load" | "remove" | "aggregate" => Some(Form::Cells),
        "query" | "plan" => Some(Form::Query),
        "create" => Some(Form::Create),
        "type" => Some(Form::Type),
        "field" => Some(Form::Field),
        "index" => Some(Form::Value),
        "count" => Some(Form::Count),
        "sum" => Some(Form::Sum),
        _ => None,
    }
}

// Tells that the words after a verb aren't those that it takes.
fn other_form(alloc: Global, verb: &Word<'_>) -> LineError {
    let (at, word) = (verb.at, verb.text);
    match topic_of(word) {
        Some(topic) => {
            let form = topic.form;
            LineError::told(at, format!(in alloc; "the form is: {form}"))
        }
        None => LineError::told(at, format!(in alloc; "these aren't the words after {word}")),
    }
}

// Writes the number of a store, where one is named.
fn push_store(
    alloc: Global,
    out: &mut String,
    verb: &Word<'_>,
    words: Words<'_, '_>,
) -> Result<(), LineError>
    ensures { OnOk result (string_bytes out.new
        ≡ string_bytes out.old ++ store_after words.entry.list.now) }
{
    match words.list {
        [] => {}
        [store] if store.kind == WordKind::Number && !store.text.starts_with("-") => {
            out.push_str(",")?;
            out.push_str(store.text)?;
        }
        [_] => return Err(wanted(alloc, words, 0, "the number of a store")),
        _ => return Err(other_form(alloc, verb)),
    }
    Ok(())
}

// Writes the name of an index.
fn push_named(
    alloc: Global,
    out: &mut String,
    verb: &Word<'_>,
    words: Words<'_, '_>,
) -> Result<(), LineError>
    ensures { OnOk result (string_bytes out.new
        ≡ string_bytes out.old ++ index_after words.entry.list.now) }
{
    let [index] = words.list else {
        return Err(other_form(alloc, verb));
    };
    name_at(alloc, words, 0, "an index's name")?;
    out.push_str(",")?;
    push_quoted(out, index.text)?;
    Ok(())
}

// Writes the name of an index, and how many records are built: 100 where nothing is said.
fn push_build(
    alloc: Global,
    out: &mut String,
    verb: &Word<'_>,
    words: Words<'_, '_>,
) -> Result<(), LineError>
    ensures { OnOk result (string_bytes out.new
        ≡ string_bytes out.old ++ build_after words.entry.list.now) }
{
    name_at(alloc, words, 0, "an index's name")?;
    match words.list {
        [index] => {
            out.push_str(",")?;
            push_quoted(out, index.text)?;
            out.push_str(",100")?;
        }
        [index, limit] if limit.kind == WordKind::Number => {
            out.push_str(",")?;
            push_quoted(out, index.text)?;
            out.push_str(",")?;
            out.push_str(limit.text)?;
        }
        [_, _] => return Err(wanted(alloc, words, 1, "a number of records")),
        _ => return Err(other_form(alloc, verb)),
    }
    Ok(())
}

// Tells which of the words after the first one isn't a cell.
fn check_cells(alloc: Global, words: Words<'_, '_>) -> Result<(), LineError> {
    for place in 1..words.list.len() {
        if !words.list[place].is_cell() {
            let what = "a cell (a number, a text in quotes, {\"hex\":\"..\"} or null)";
            return Err(wanted(alloc, words, place, what));
        }
    }
    Ok(())
}

// Writes the name of a type or of an index, and cells.
fn push_cells(alloc: Global, out: &mut String, words: Words<'_, '_>) -> Result<(), LineError>
    ensures { OnOk result (string_bytes out.new
        ≡ string_bytes out.old ++ cells_after words.entry.list.now) }
{
    let [owner, cells @ ..] = words.list else {
        return Err(wanted(alloc, words, 0, "a name"));
    };
    name_at(alloc, words, 0, "a name")?;
    check_cells(alloc, words)?;
    out.push_str(",")?;
    push_quoted(out, owner.text)?;
    out.push_str(",[")?;
    push_joined(out, cells)?;
    out.push_str("]")?;
    Ok(())
}

// Writes a schema, which has no types where nothing is said.
fn push_schema(
    alloc: Global,
    out: &mut String,
    verb: &Word<'_>,
    words: Words<'_, '_>,
) -> Result<(), LineError>
    ensures { OnOk result (string_bytes out.new
        ≡ string_bytes out.old ++ schema_after words.entry.list.now) }
{
    match words.list {
        [] => out.push_str(",{\"types\":[]}")?,
        [schema] if schema.kind == WordKind::Object => {
            out.push_str(",")?;
            out.push_str(schema.text)?;
        }
        _ => return Err(other_form(alloc, verb)),
    }
    Ok(())
}

// The text of a query, of a type or of an index, with a comma before it.
fn free_text(alloc: Global, form: Form, words: Words<'_, '_>) -> Result<String, LineError> {
    let mut text = String::new(alloc);
    match form {
        Form::Query => push_query(alloc, &mut text, words)?,
        Form::Type => push_type(alloc, &mut text, words)?,
        Form::Count => push_count(alloc, &mut text, words)?,
        Form::Sum => push_sum(alloc, &mut text, words)?,
        _ => push_value(alloc, &mut text, words)?,
    }
    Ok(text)
}

// Writes a query, a type or an index.
fn push_free(
    alloc: Global,
    out: &mut String,
    form: Form,
    words: Words<'_, '_>,
) -> Result<(), LineError>
    ensures { OnOk result ((text : List ℕ)
        × (string_bytes out.new ≡ string_bytes out.old ++ text)) }
{
    let text = free_text(alloc, form, words)?;
    out.push_str(text.as_str())?;
    Ok(())
}

// Writes what stands after the client of a step.
fn push_after(
    alloc: Global,
    out: &mut String,
    form: Form,
    verb: &Word<'_>,
    words: Words<'_, '_>,
) -> Result<(), LineError>
    ensures { OnOk result ((text : List ℕ) × IsAfterClient form words.entry.list.now text
        × (string_bytes out.new ≡ string_bytes out.old ++ text)) }
{
    match form {
        Form::Begin => push_store(alloc, out, verb, words),
        Form::Named => push_named(alloc, out, verb, words),
        Form::Build => push_build(alloc, out, verb, words),
        Form::Cells => push_cells(alloc, out, words),
        Form::Create => push_schema(alloc, out, verb, words),
        Form::Field => push_field(alloc, out, words),
        Form::Query => push_free(alloc, out, form, words),
        Form::Type => push_free(alloc, out, form, words),
        Form::Value => push_free(alloc, out, form, words),
        Form::Count => push_free(alloc, out, form, words),
        Form::Sum => push_free(alloc, out, form, words),
        Form::Alone | Form::Bare | Form::Commit | Form::Role => match words.list {
            [] => Ok(()),
            _ => Err(other_form(alloc, verb)),
        },
    }
}

// The name of the step that a word begins.
fn name_of<'a>(form: Form, word: &'a str) -> &'a str
    ensures { result.now ≡ step_name form word.now }
{
    match form {
        Form::Count | Form::Sum => "index",
        _ => word,
    }
}

// What a step ends with.
fn end_of(form: Form) -> &'static str
    ensures { result.now ≡ step_end form }
{
    match form {
        Form::Commit => "],[\"settle\"]",
        _ => "]",
    }
}

// The text of a step without a client.
fn alone(alloc: Global, verb: &Word<'_>, words: Words<'_, '_>) -> Result<String, LineError>
    ensures { IfOk result (λ text. string_bytes text ≡ step_alone verb.now.text.now) }
{
    if !words.list.is_empty() {
        return Err(other_form(alloc, verb));
    }
    let mut out = String::from_str(alloc, "[")?;
    push_quoted(&mut out, verb.text)?;
    out.push_str("]")?;
    Ok(out)
}

// The text of a role's step.
fn of_role(alloc: Global, verb: &Word<'_>, words: Words<'_, '_>) -> Result<String, LineError>
    ensures { IfOk result (λ text.
        string_bytes text ≡ role_step verb.now.text.now words.entry.list.now) }
{
    match words.list {
        [role] if role.kind == WordKind::Number => {
            let mut out = String::new(alloc);
            push_opened(&mut out, verb.text, role.text)?;
            out.push_str("]")?;
            Ok(out)
        }
        _ => Err(other_form(alloc, verb)),
    }
}

// How many bytes the text of a step mostly has at most.
const MOSTLY: usize = 120;

/// The text of the steps that a word and those after it stand for, as they stand in the list of a
/// script's steps.
pub(crate) fn steps_text(
    alloc: Global,
    client: &str,
    form: Form,
    verb: &Word<'_>,
    words: Words<'_, '_>,
) -> Result<String, LineError>
    ensures { IfOk result (λ text.
        IsSaid form client.now verb.now.text.now words.entry.list.now (string_bytes text)) }
{
    match form {
        Form::Alone => alone(alloc, verb, words),
        Form::Role => of_role(alloc, verb, words),
        _ => {
            let mut out = String::with_capacity(alloc, MOSTLY)?;
            push_opened(&mut out, name_of(form, verb.text), client)?;
            push_after(alloc, &mut out, form, verb, words)?;
            out.push_str(end_of(form))?;
            Ok(out)
        }
    }
}
