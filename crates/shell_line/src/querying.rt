// Queries. Called by `forms`.

use crate::flaw::LineError;
use crate::word::{Word, WordKind, Words, check_names, cut, name_at, only_object, wanted};
use crate::writing::{push_names, push_object, push_quoted};
use std::alloc::{AllocError, Global};

// Writes a condition of a word, a field and a cell.
fn push_compared(
    out: &mut String,
    word: &str,
    field: &Word<'_>,
    cell: &Word<'_>,
) -> Result<(), AllocError> {
    out.push_str("[")?;
    push_quoted(out, word)?;
    out.push_str(",")?;
    push_quoted(out, field.text)?;
    out.push_str(",")?;
    out.push_str(cell.text)?;
    out.push_str("]")
}

// Writes that a field is null.
fn push_null(out: &mut String, field: &Word<'_>) -> Result<(), AllocError> {
    out.push_str("[\"null\",")?;
    push_quoted(out, field.text)?;
    out.push_str("]")
}

// Writes that a field isn't null.
fn push_some(out: &mut String, field: &Word<'_>) -> Result<(), AllocError> {
    out.push_str("[\"not\",")?;
    push_null(out, field)?;
    out.push_str("]")
}

// Tells what is wrong with a condition.
fn no_condition(alloc: Global, words: Words<'_, '_>) -> LineError {
    if let Err(error) = name_at(alloc, words, 0, "a field's name") {
        return error;
    }
    let place = match words.list {
        [_, sign, ..] if sign.kind == WordKind::Sign || sign.is("starts") => 2,
        _ => 1,
    };
    match words.list {
        [_, _, cell, ..] if place == 2 && cell.is_cell() => {
            wanted(alloc, words, 3, "and, or, order or the line's end")
        }
        _ if place == 2 => wanted(
            alloc,
            words,
            2,
            "a number, a text in quotes or {\"hex\":\"..\"}",
        ),
        _ => wanted(
            alloc,
            words,
            1,
            "one of = != < <= > >=, starts, is null, is not null",
        ),
    }
}

// Writes a condition: `FIELD SIGN CELL`, `FIELD starts CELL`, `FIELD is null`, `FIELD is not null`,
// or `not` before one.
fn push_condition(alloc: Global, out: &mut String, words: Words<'_, '_>) -> Result<(), LineError> {
    match words.list {
        [not, rest @ ..] if not.is("not") => {
            out.push_str("[\"not\",")?;
            let end = words.end;
            push_condition(alloc, out, Words { list: rest, end })?;
            out.push_str("]")?;
        }
        [field, is, null] if field.kind == WordKind::Name && is.is("is") && null.is("null") => {
            push_null(out, field)?;
        }
        [field, is, not, null]
            if field.kind == WordKind::Name && is.is("is") && not.is("not") && null.is("null") => {
            push_some(out, field)?;
        }
        [field, sign, cell]
            if field.kind == WordKind::Name
                && (sign.kind == WordKind::Sign || sign.is("starts"))
                && cell.is_cell() => {
            push_compared(out, sign.text, field, cell)?;
        }
        _ => return Err(no_condition(alloc, words)),
    }
    Ok(())
}

// The words of a part of these.
fn part_of<'w, 'a>(words: Words<'_, '_>, part: &'w [Word<'a>]) -> Words<'w, 'a> {
    let end = match part.last() {
        Some(word) => word.at.saturating_add(word.text.len()),
        None => words.end,
    };
    Words { list: part, end }
}

// Writes conditions between which `and` stands, or the only one.
fn push_all(alloc: Global, out: &mut String, words: Words<'_, '_>) -> Result<(), LineError> {
    if !words.list.iter().any(|word| word.is("and")) {
        return push_condition(alloc, out, words);
    }
    out.push_str("[\"and\"")?;
    for part in words.list.split(|word| word.is("and")) {
        out.push_str(",")?;
        push_condition(alloc, out, part_of(words, part))?;
    }
    out.push_str("]")?;
    Ok(())
}

// Writes a filter: conditions between which `and` and `or` stand, where `and` binds more.
fn push_filter(alloc: Global, out: &mut String, words: Words<'_, '_>) -> Result<(), LineError> {
    if !words.list.iter().any(|word| word.is("or")) {
        return push_all(alloc, out, words);
    }
    out.push_str("[\"or\"")?;
    for part in words.list.split(|word| word.is("or")) {
        out.push_str(",")?;
        push_all(alloc, out, part_of(words, part))?;
    }
    out.push_str("]")?;
    Ok(())
}

// Writes what stands after the type: nothing, or `where` and a filter.
fn push_where(alloc: Global, out: &mut String, words: Words<'_, '_>) -> Result<(), LineError> {
    match words.list {
        [] => Ok(()),
        [first, ..] if first.is("where") => {
            out.push_str(",\"filter\":")?;
            push_filter(alloc, out, words.from(1))
        }
        _ => Err(wanted(alloc, words, 0, "where, order or the line's end")),
    }
}

// The fields of a sort, and whether its order is turned round.
fn sorted<'w, 'a>(words: &'w [Word<'a>]) -> (&'w [Word<'a>], bool) {
    match words {
        [fields @ .., last] if last.is("desc") => (fields, true),
        _ => (words, false),
    }
}

// Writes what stands after `order`: `by FIELD .. [desc]`.
fn push_order(alloc: Global, out: &mut String, words: Words<'_, '_>) -> Result<(), LineError> {
    match words.list {
        [first, ..] if first.is("by") => {}
        _ => return Err(wanted(alloc, words, 0, "by, and the fields of the order,")),
    }
    let (fields, is_reverse) = sorted(words.list.get(1..).unwrap_or(&[]));
    check_names(alloc, part_of(words, fields), "a field's name")?;
    out.push_str(",\"sort\":[")?;
    push_names(out, fields)?;
    out.push_str(if is_reverse {
        "],\"reverse\":true"
    } else {
        "]"
    })?;
    Ok(())
}

/// Writes a query: `TYPE [where CONDITION ..] [order by FIELD .. [desc]]`, or the object that it is
/// in a script.
pub(crate) fn push_query(
    alloc: Global,
    out: &mut String,
    words: Words<'_, '_>,
) -> Result<(), LineError> {
    if let Some(object) = only_object(words.list) {
        push_object(out, object)?;
        return Ok(());
    }
    let type_name = name_at(alloc, words, 0, "a type's name")?;
    let (filter, order) = cut(words.from(1), "order");
    out.push_str(",{\"type\":")?;
    push_quoted(out, type_name)?;
    push_where(alloc, out, filter)?;
    if let Some(order) = order {
        push_order(alloc, out, order)?;
    }
    out.push_str("}")?;
    Ok(())
}
