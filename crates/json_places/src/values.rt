// Values with their places from the tokens of a text, one after another. Called by `mending`.
ghost use Rattle.std.specs.Prelude.{◌<◌, OnOk, length};

use crate::flaw::{Flaw, FlawKind};
use crate::written::{Form, Member, Written};
use json::{Reader, Token};
use std::alloc::{AllocError, AllocFailed, Global};

/// Why no value is read.
#[derive(Drop)]
pub(crate) enum ReadError {
    /// The reader of tokens stops at this place, which says nothing of why.
    Stopped(usize),
    /// The tokens are those of no value.
    Flawed(Flaw),
    /// There isn't memory enough.
    OutOfMemory,
}

impl From<AllocError> for ReadError {
    fn from(_error: AllocError) -> ReadError {
        ReadError::OutOfMemory
    }
}

impl<T: Drop> From<AllocFailed<T>> for ReadError {
    fn from(_error: AllocFailed<T>) -> ReadError {
        ReadError::OutOfMemory
    }
}

// The error of this flaw at a place.
fn flawed(at: usize, kind: FlawKind) -> ReadError {
    ReadError::Flawed(Flaw { at, kind })
}

// The next token, where one is to stand: at the end of the text it is told what isn't closed.
fn next_token<'a>(reader: &mut Reader<'a>, open: Flaw) -> Result<Token<'a>, ReadError>
    ensures { OnOk result (length reader.new < length reader.old) }
{
    match reader.next() {
        Some(Token::Bad) => Err(ReadError::Stopped(reader.offset())),
        Some(token) => Ok(token),
        None => Err(ReadError::Flawed(open)),
    }
}

/// The next value of a text, in which lists and objects nest so deep at most, and what isn't closed
/// where the text ends before it.
#[cycle(reading)]
pub(crate) fn next_written(
    alloc: Global,
    reader: &mut Reader<'_>,
    depth: usize,
    open: Flaw,
) -> Result<Written, ReadError>
    ensures { OnOk result (length reader.new < length reader.old) }
{
    let begin = reader.offset();
    let form = match next_token(reader, open)? {
        Token::Null => Form::Null,
        Token::Bool(flag) => Form::Bool(flag),
        Token::Number(text) => Form::Number(String::from_str(alloc, text)?),
        Token::String(text) => Form::Text(String::from_str(alloc, text)?),
        Token::BeginArray if depth > 0 => {
            Form::List(rest_of_list(alloc, reader, depth - 1, begin)?)
        }
        Token::BeginObject if depth > 0 => {
            Form::Object(rest_of_object(alloc, reader, depth - 1, begin)?)
        }
        Token::BeginArray | Token::BeginObject => return Err(flawed(begin, FlawKind::TooDeep)),
        Token::Key(_) => return Err(flawed(begin, FlawKind::KeyOutside)),
        Token::EndArray | Token::EndObject => return Err(flawed(begin, FlawKind::WrongBracket)),
        Token::Bad => return Err(ReadError::Stopped(begin)),
    };
    let end = reader.offset();
    Ok(Written { begin, end, form })
}

// The values up to the end of their list, which begins at a place.
#[cycle(reading)]
fn rest_of_list(
    alloc: Global,
    reader: &mut Reader<'_>,
    depth: usize,
    begin: usize,
) -> Result<Vec<Written>, ReadError>
    ensures { OnOk result (length reader.new < length reader.old) }
{
    let open = Flaw {
        at: begin,
        kind: FlawKind::OpenList,
    };
    let mut found = Vec::new(alloc);
    'items: while !reader.take_end_array() {
        found.push(next_written(alloc, reader, depth, open)?)?;
    }
    Ok(found)
}

// The next key, none at the end of the object, which begins at a place.
fn next_key<'a>(reader: &mut Reader<'a>, begin: usize) -> Result<Option<&'a str>, ReadError>
    ensures { OnOk result (length reader.new < length reader.old) }
{
    let at = reader.offset();
    match next_token(
        reader,
        Flaw {
            at: begin,
            kind: FlawKind::OpenObject,
        },
    )? {
        Token::Key(name) => Ok(Some(name)),
        Token::EndObject => Ok(None),
        Token::EndArray => Err(flawed(at, FlawKind::WrongBracket)),
        Token::String(_) => Err(flawed(at, FlawKind::ColonMissing)),
        _ => Err(flawed(at, FlawKind::KeyWanted)),
    }
}

// What stands at the next key, none at the end of the object.
#[cycle(reading)]
fn next_member(
    alloc: Global,
    reader: &mut Reader<'_>,
    depth: usize,
    object: usize,
) -> Result<Option<Member>, ReadError>
    ensures { OnOk result (length reader.new < length reader.old) }
{
    let begin = reader.offset();
    let Some(name) = next_key(reader, object)? else {
        return Ok(None);
    };
    let key = String::from_str(alloc, name)?;
    let open = Flaw {
        at: object,
        kind: FlawKind::OpenObject,
    };
    let value = next_written(alloc, reader, depth, open)?;
    Ok(Some(Member { begin, key, value }))
}

// The members up to the end of their object, which begins at a place.
#[cycle(reading)]
fn rest_of_object(
    alloc: Global,
    reader: &mut Reader<'_>,
    depth: usize,
    begin: usize,
) -> Result<Vec<Member>, ReadError>
    ensures { OnOk result (length reader.new < length reader.old) }
{
    let mut found = Vec::new(alloc);
    'members: while let Some(member) = next_member(alloc, reader, depth, begin)? {
        found.push(member)?;
    }
    Ok(found)
}
