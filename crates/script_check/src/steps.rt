// Which steps there are, and which parts each has. Called by `checking`.
use crate::finder::Finder;
use crate::parts::Part;
use std::alloc::AllocError;

/// The names of steps.
pub(crate) static STEP_NAMES: [&str; 26] = [
    "begin",
    "create",
    "type",
    "field",
    "drop",
    "disable",
    "write_only",
    "readable",
    "abandon",
    "index",
    "state",
    "build",
    "aggregate",
    "save",
    "load",
    "remove",
    "query",
    "plan",
    "execute",
    "commit",
    "resolve",
    "log",
    "pull",
    "report",
    "lost",
    "settle",
];

static NOTHING: [Part; 0] = [];

static CLIENT: [Part; 1] = [Part::Client];

static BEGIN: [Part; 2] = [Part::Client, Part::Store];

static RESOLVER: [Part; 1] = [Part::Resolver];

static LOG: [Part; 1] = [Part::Log];

static SERVER: [Part; 1] = [Part::Server];

static CREATE: [Part; 2] = [Part::Client, Part::Schema];

static TYPE: [Part; 2] = [Part::Client, Part::Type];

static FIELD: [Part; 3] = [Part::Client, Part::TypeName, Part::Field];

static INDEX: [Part; 2] = [Part::Client, Part::Index];

static QUERY: [Part; 2] = [Part::Client, Part::Query];

static NAMED: [Part; 2] = [Part::Client, Part::IndexName];

static BUILD: [Part; 3] = [Part::Client, Part::IndexName, Part::Limit];

static AGGREGATE: [Part; 3] = [Part::Client, Part::IndexName, Part::GroupCells];

static SAVE: [Part; 3] = [Part::Client, Part::TypeName, Part::Cells];

static LOAD: [Part; 3] = [Part::Client, Part::TypeName, Part::KeyCells];

/// The parts of the step of a name, none where no step has it.
pub(crate) fn parts_of(name: &str) -> Option<&'static [Part]> {
    match name {
        "begin" => Some(&BEGIN),
        "execute" | "commit" | "abandon" => Some(&CLIENT),
        "resolve" => Some(&RESOLVER),
        "log" => Some(&LOG),
        "pull" => Some(&SERVER),
        "report" | "lost" | "settle" => Some(&NOTHING),
        "create" => Some(&CREATE),
        "type" => Some(&TYPE),
        "field" => Some(&FIELD),
        "index" => Some(&INDEX),
        "query" | "plan" => Some(&QUERY),
        "drop" | "disable" | "write_only" | "readable" | "state" => Some(&NAMED),
        "build" => Some(&BUILD),
        "aggregate" => Some(&AGGREGATE),
        "save" => Some(&SAVE),
        "load" | "remove" => Some(&LOAD),
        _ => None,
    }
}

/// How many parts a step of a name has at least: a store may be left out.
pub(crate) fn needed_of(name: &str, parts: &[Part]) -> usize {
    if name == "begin" { 1 } else { parts.len() }
}

// What stands before the part at a place of a step.
fn before(part: Part, index: usize, is_last: bool) -> &'static str {
    match part {
        _ if index == 0 => "",
        Part::Store => " and, where wanted, ",
        _ if is_last => " and ",
        _ => ", ",
    }
}

// Writes what a step takes: `a client, a type's name and cells`.
fn push_parts(line: &mut String, parts: &[Part]) -> Result<(), AllocError> {
    for (index, part) in parts.iter().enumerate() {
        let is_last = index + 1 == parts.len();
        line.push_str(before(*part, index, is_last))?;
        line.push_str(part.words())?;
    }
    Ok(())
}

/// Tells at a place that a step has another number of parts than it takes.
pub(crate) fn tell_parts(
    finder: &mut Finder,
    at: usize,
    name: &str,
    parts: &[Part],
) -> Result<(), AllocError> {
    let mut line = format!(in finder.alloc; "{name:?} takes ")?;
    if parts.is_empty() {
        line.push_str("nothing")?;
    } else {
        push_parts(&mut line, parts)?;
    }
    finder.tell(at, line)
}
