// Types, fields and indexes. Called by `forms`.
ghost use Rattle.std.specs.Prelude.{◌≡◌, ◌++◌, OnOk, string_bytes};
ghost use Rattle.shell_line.specs.Said.{field_after, field_text};

use crate::flaw::LineError;
use crate::word::{Word, Words, check_names, cut, name_at, only_object, wanted};
use crate::writing::{push_comma, push_names, push_object, push_quoted};
use std::alloc::{AllocError, Global};

// Whether a word is the name of a kind of field.
fn is_kind(word: &Word<'_>) -> bool {
    word.is("int") || word.is("text") || word.is("bytes")
}

// Writes a field: its name and its kind.
fn push_named_kind(out: &mut String, name: &Word<'_>, kind: &Word<'_>) -> Result<(), AllocError>
    ensures { OnOk result (string_bytes out.new
        ≡ string_bytes out.old ++ field_text name.now kind.now) }
{
    out.push_str("[")?;
    push_quoted(out, name.text)?;
    out.push_str(",")?;
    push_quoted(out, kind.text)?;
    out.push_str("]")
}

// Writes the field that two words at a place are.
fn push_field_at(
    alloc: Global,
    out: &mut String,
    words: Words<'_, '_>,
    place: usize,
) -> Result<(), LineError> {
    name_at(alloc, words, place, "a field's name")?;
    match words.list.get(place..) {
        Some([name, kind, ..]) if is_kind(kind) => {
            push_named_kind(out, name, kind)?;
            Ok(())
        }
        _ => Err(wanted(
            alloc,
            words,
            place.saturating_add(1),
            "a kind (int, text or bytes)",
        )),
    }
}

// Writes fields, each of two words, with a comma between each two.
fn push_fields(alloc: Global, out: &mut String, words: Words<'_, '_>) -> Result<(), LineError> {
    for index in 0..words.list.len().div_ceil(2) {
        push_comma(out, index)?;
        push_field_at(alloc, out, words, index * 2)?;
    }
    Ok(())
}

/// Writes a type: `NAME FIELD KIND .. key FIELD ..`, or the object that it is in a script.
pub(crate) fn push_type(
    alloc: Global,
    out: &mut String,
    words: Words<'_, '_>,
) -> Result<(), LineError> {
    if let Some(object) = only_object(words.list) {
        push_object(out, object)?;
        return Ok(());
    }
    let name = name_at(alloc, words, 0, "a type's name")?;
    let (fields, key) = cut(words.from(1), "key");
    let Some(key) = key else {
        return Err(wanted(
            alloc,
            words,
            words.list.len(),
            "key, and the fields of the key,",
        ));
    };
    check_names(alloc, key, "a field's name")?;
    out.push_str(",{\"name\":")?;
    push_quoted(out, name)?;
    out.push_str(",\"fields\":[")?;
    push_fields(alloc, out, fields)?;
    out.push_str("],\"key\":[")?;
    push_names(out, key.list)?;
    out.push_str("]}")?;
    Ok(())
}

/// Writes a field of a type: `TYPE NAME KIND`.
pub(crate) fn push_field(
    alloc: Global,
    out: &mut String,
    words: Words<'_, '_>,
) -> Result<(), LineError>
    ensures { OnOk result (string_bytes out.new
        ≡ string_bytes out.old ++ field_after words.entry.list.now) }
{
    check_names(alloc, words, "a name")?;
    match words.list {
        [owner, name, kind] if is_kind(kind) => {
            out.push_str(",")?;
            push_quoted(out, owner.text)?;
            out.push_str(",")?;
            push_named_kind(out, name, kind)?;
            Ok(())
        }
        [_, _, _] => Err(wanted(alloc, words, 2, "a kind (int, text or bytes)")),
        _ => Err(wanted(
            alloc,
            words,
            3,
            "a type, a field and its kind, and no more,",
        )),
    }
}

// Writes an index of a kind over columns of a type, and what stands after them: `TYPE COLUMN ..`.
fn push_index(
    alloc: Global,
    out: &mut String,
    name: &str,
    kind: &str,
    owner: Words<'_, '_>,
    after: &str,
) -> Result<(), LineError> {
    check_names(alloc, owner, "a name")?;
    let type_name = name_at(alloc, owner, 0, "a type's name")?;
    out.push_str(",{\"name\":")?;
    push_quoted(out, name)?;
    out.push_str(",\"kind\":")?;
    push_quoted(out, kind)?;
    out.push_str(",\"type\":")?;
    push_quoted(out, type_name)?;
    out.push_str(",\"columns\":[")?;
    push_names(out, owner.list.get(1..).unwrap_or(&[]))?;
    out.push_str("]")?;
    out.push_str(after)?;
    out.push_str("}")?;
    Ok(())
}

// The name of an index before the word `on`, and what stands after it.
fn before_on<'w, 'a>(
    alloc: Global,
    words: Words<'w, 'a>,
) -> Result<(&'a str, Words<'w, 'a>), LineError> {
    let name = name_at(alloc, words, 0, "an index's name")?;
    match words.list.get(1) {
        Some(on) if on.is("on") => Ok((name, words.from(2))),
        _ => Err(wanted(alloc, words, 1, "on, and a type's name,")),
    }
}

/// Writes an index: `NAME on TYPE COLUMN ..`, or the object that it is in a script.
pub(crate) fn push_value(
    alloc: Global,
    out: &mut String,
    words: Words<'_, '_>,
) -> Result<(), LineError> {
    if let Some(object) = only_object(words.list) {
        push_object(out, object)?;
        return Ok(());
    }
    let (name, owner) = before_on(alloc, words)?;
    push_index(alloc, out, name, "value", owner, "")
}

/// Writes a COUNT: `NAME on TYPE COLUMN .. [clear_when_zero]`.
pub(crate) fn push_count(
    alloc: Global,
    out: &mut String,
    words: Words<'_, '_>,
) -> Result<(), LineError> {
    let (name, owner) = before_on(alloc, words)?;
    let (columns, cleared) = cut(owner, "clear_when_zero");
    match cleared {
        Some(_) => push_index(
            alloc,
            out,
            name,
            "count",
            columns,
            ",\"clear_when_zero\":true",
        ),
        None => push_index(alloc, out, name, "count", columns, ""),
    }
}

/// Writes a SUM: `NAME of FIELD on TYPE COLUMN ..`.
pub(crate) fn push_sum(
    alloc: Global,
    out: &mut String,
    words: Words<'_, '_>,
) -> Result<(), LineError> {
    let name = name_at(alloc, words, 0, "an index's name")?;
    let Some(of) = words.list.get(1) else {
        return Err(wanted(alloc, words, 1, "of, and a field's name,"));
    };
    if !of.is("of") {
        return Err(wanted(alloc, words, 1, "of, and a field's name,"));
    }
    let (summed, owner) = before_on(alloc, words.from(2))?;
    let mut after = String::from_str(alloc, ",\"summed\":")?;
    push_quoted(&mut after, summed)?;
    push_index(alloc, out, name, "sum", owner, after.as_str())
}
