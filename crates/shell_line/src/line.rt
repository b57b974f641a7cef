// What a line stands for. Called by `shell`.
ghost use Rattle.std.specs.Prelude.{IfOk};
ghost use Rattle.shell_line.specs.Said.{IsTypedLine};

use crate::flaw::LineError;
use crate::forms::{form_of, steps_text};
use crate::lexing::{blanks, words_of};
use crate::querying::push_query;
use crate::topics::{Topic, near_topic, topic_of};
use crate::word::{Word, Words};
use std::alloc::{AllocError, Global};

/// What is shown beside the steps, or done with a file.
#[derive(Debug, Drop)]
pub enum Show {
    /// Types, their fields and keys.
    Schema,
    /// Indexes and their states.
    Indexes,
    /// The plan of the query that this text of JSON stands for.
    Plan(String),
    /// A script that makes what is committed.
    Dump,
    /// What the lines of this file, or the steps of the script that it is, stand for.
    Read(String),
    /// The records of this file, of the type of this name.
    Import(String, String),
}

/// What a line stands for.
#[derive(Debug, Drop)]
pub enum Line {
    /// Nothing.
    Blank,
    /// A step in the form of a script.
    Json(String),
    /// The steps for which words stand, as the text that they have in the list of a script's steps.
    Steps(String),
    /// What is told of all words.
    Help,
    /// What is told of a word.
    HelpOf(&'static Topic),
    /// Something that the client of this number is shown, or has done with a file.
    Show(u64, Show),
    /// The end.
    Quit,
}

// The number of a client before a line and a colon, and how many bytes these have.
fn client_of(line: &str) -> (&str, usize) {
    match line.split_once(":") {
        Some((client, _)) if is_client(client) => (client, client.len().saturating_add(1)),
        _ => ("0", 0),
    }
}

// The client of a number that is written.
fn number_of(client: &str) -> u64 {
    client.parse::<u64>().unwrap_or(0)
}

// Whether a text is a client's number.
fn is_client(text: &str) -> bool {
    let has_zeros = text.len() > 1 && text.starts_with("0");
    !text.is_empty()
        && text.len() < 10
        && !has_zeros
        && text.as_bytes().iter().all(|byte| byte.is_ascii_digit())
}

// What stands after the word `help`, where a line begins with it.
fn after_help(line: &str) -> Option<&str> {
    let after = line.strip_prefix("help")?;
    if after.is_empty() || after.starts_with(" ") {
        Some(after)
    } else {
        None
    }
}

// The word after a dot with which a line begins.
fn dotted(line: &str) -> Option<&str> {
    let end = line.find(" ").unwrap_or(line.len());
    match line.get(..end) {
        Some(word) if word.starts_with(".") => Some(word),
        _ => None,
    }
}

// A text without the blanks at its end.
fn trimmed(text: &str) -> &str {
    text.trim_end_matches(|letter: char| letter.is_ascii_whitespace() || letter == ',')
}

// Tells that no line begins with a word.
fn unknown(alloc: Global, at: usize, word: &str) -> LineError {
    let reason = match near_topic(alloc, word) {
        Ok(Some(near)) => format!(in alloc; "no line begins with {word}; did you mean {near}?"),
        Ok(None) => format!(in alloc; "no line begins with {word}; help tells what does"),
        Err(AllocError) => Err(AllocError),
    };
    LineError::told(at, reason)
}

// What is told of the word after `help`, or of all.
fn help_line(alloc: Global, line: &str, from: usize) -> Result<Line, LineError>
    ensures { IfOk result IsTypedLine }
{
    let rest = line.get(from..).unwrap_or("");
    let word = trimmed(rest.get(blanks(rest.as_bytes())..).unwrap_or(""));
    if word.is_empty() {
        return Ok(Line::Help);
    }
    match topic_of(word) {
        Some(topic) => Ok(Line::HelpOf(topic)),
        None => Err(unknown(alloc, from, word)),
    }
}

// The plan that words after a place ask for.
fn plan_shown(alloc: Global, line: &str, from: usize) -> Result<Show, LineError> {
    let words = words_of(alloc, line, from)?;
    let list = words.as_slice();
    let end = line.len();
    let mut query = String::new(alloc);
    push_query(alloc, &mut query, Words { list, end })?;
    let text = query.as_str().strip_prefix(",").unwrap_or("");
    Ok(Show::Plan(String::from_str(alloc, text)?))
}

// The file that stands after `.read`.
fn read_shown(alloc: Global, from: usize, rest: &str) -> Result<Show, LineError> {
    if rest.is_empty() {
        return Err(LineError::said(alloc, from, "a file is wanted here"));
    }
    Ok(Show::Read(String::from_str(alloc, rest)?))
}

// The file and the name of a type that stand after `.import`.
fn import_shown(alloc: Global, from: usize, rest: &str) -> Result<Show, LineError> {
    match rest.rsplit_once(" ") {
        Some((file, type_name)) => {
            let file = String::from_str(alloc, trimmed(file))?;
            let type_name = String::from_str(alloc, type_name)?;
            Ok(Show::Import(file, type_name))
        }
        None => Err(LineError::said(alloc, from, "a file is wanted here, and a type's name")),
    }
}

// Whether a text is what stands before or after the steps of a script that has a step a line.
fn is_frame(text: &str) -> bool {
    text == "{\"steps\":[" || text == "]}"
}

// A line of a client that begins with a dot at a place.
fn dotted_line(alloc: Global, client: u64, line: &str, begin: usize) -> Result<Line, LineError>
    ensures { IfOk result IsTypedLine }
{
    let rest = line.get(begin..).unwrap_or("");
    let word = dotted(trimmed(rest)).unwrap_or("");
    let from = begin.saturating_add(word.len());
    let after = line.get(from..).unwrap_or("");
    let after = trimmed(after.get(blanks(after.as_bytes())..).unwrap_or(""));
    match word {
        ".plan" => Ok(Line::Show(client, plan_shown(alloc, line, from)?)),
        ".read" => Ok(Line::Show(client, read_shown(alloc, from, after)?)),
        ".import" => Ok(Line::Show(client, import_shown(alloc, from, after)?)),
        _ if !after.is_empty() => Err(LineError::said(alloc, from, "nothing is wanted here")),
        ".schema" => Ok(Line::Show(client, Show::Schema)),
        ".indexes" => Ok(Line::Show(client, Show::Indexes)),
        ".dump" => Ok(Line::Show(client, Show::Dump)),
        ".help" => Ok(Line::Help),
        ".quit" => Ok(Line::Quit),
        _ => Err(unknown(alloc, begin, word)),
    }
}

// The steps that words stand for, the first of which is the verb.
fn verb_line(alloc: Global, line: &str, client: &str, words: &[Word<'_>]) -> Result<Line, LineError>
    ensures { IfOk result IsTypedLine }
{
    let [verb, list @ ..] = words else {
        return Err(LineError::said(alloc, line.len(), "a step of the client is wanted here"));
    };
    let Some(form) = form_of(verb.text) else {
        return Err(unknown(alloc, verb.at, verb.text));
    };
    let end = line.len();
    Ok(Line::Steps(steps_text(alloc, client, form, verb, Words { list, end })?))
}

// A line of words after the number of a client, or without it.
fn typed_line(alloc: Global, line: &str, begin: usize) -> Result<Line, LineError>
    ensures { IfOk result IsTypedLine }
{
    let rest = line.get(begin..).unwrap_or("");
    if let Some(after) = after_help(rest) {
        return help_line(alloc, line, line.len().saturating_sub(after.len()));
    }
    let (client, length) = client_of(rest);
    let after = rest.get(length..).unwrap_or("");
    let from = begin.saturating_add(length);
    let place = from.saturating_add(blanks(after.as_bytes()));
    if line.as_bytes().get(place) == Some(&b'.') {
        return dotted_line(alloc, number_of(client), line, place);
    }
    let words = words_of(alloc, line, from)?;
    verb_line(alloc, line, client, words.as_slice())
}

/// What a line stands for.
pub fn line_of(alloc: Global, line: &str) -> Result<Line, LineError>
    ensures { IfOk result IsTypedLine }
{
    let begin = blanks(line.as_bytes());
    match line.as_bytes().get(begin) {
        None | Some(b'#') => Ok(Line::Blank),
        Some(b'{' | b']') if is_frame(trimmed(line.get(begin..).unwrap_or(""))) => Ok(Line::Blank),
        Some(b'[') => {
            let step = trimmed(line.get(begin..).unwrap_or(""));
            Ok(Line::Json(String::from_str(alloc, step)?))
        }
        Some(_) => typed_line(alloc, line, begin),
    }
}

/// The place in a line of what stands at a place in the text of its steps, so far as both have it:
/// a list, or an object. Else that of the line's first word.
pub fn place_in_line(line: &str, text: &str, at: usize) -> usize {
    let begin = blanks(line.as_bytes());
    let bracket = match line.as_bytes().get(begin) {
        Some(b'[') => "[",
        _ => "{",
    };
    match (line.find(bracket), text.find(bracket)) {
        (Some(here), Some(there)) if there <= at => here.saturating_add(at - there),
        _ => begin,
    }
}
