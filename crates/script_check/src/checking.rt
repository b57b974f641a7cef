// What stands at a place against what may stand there. Called by `places`.
use crate::configs::check_splits;
use crate::filters::{Operands, operands_of, tell_operands, tell_word};
use crate::finder::Finder;
use crate::leaves::{check_cell, check_flag, check_hex, check_named, check_text, check_whole};
use crate::names::tell_unknown;
use crate::parts::Part;
use crate::shapes::Shape;
use crate::steps::{STEP_NAMES, needed_of, parts_of, tell_parts};
use json_places::{Member, Written};
use std::alloc::AllocError;

// The part that each item of a list is.
fn item_of(part: Part) -> Option<Part> {
    match part {
        Part::Cells | Part::KeyCells | Part::GroupCells => Some(Part::Cell),
        Part::Rows => Some(Part::Cells),
        Part::FieldNames => Some(Part::FieldName),
        Part::Fields => Some(Part::Field),
        Part::Types => Some(Part::Type),
        Part::Indexes => Some(Part::Index),
        Part::Racers => Some(Part::Rows),
        _ => None,
    }
}

// The object that a part is, where the value says which index it is.
fn shape_of(part: Part, value: &Written) -> Option<Shape> {
    match part {
        Part::Config => Some(Shape::Config),
        Part::RaceConfig => Some(Shape::RaceConfig),
        Part::Schema => Some(Shape::Schema),
        Part::Type => Some(Shape::Type),
        Part::Query => Some(Shape::Query),
        Part::Index => {
            let kind = value.get("kind").and_then(|kind| kind.value.text());
            match kind {
                Some("count") => Some(Shape::Count),
                Some("sum") => Some(Shape::Sum),
                _ => Some(Shape::Index),
            }
        }
        _ => None,
    }
}

// Looks at what has no parts.
fn check_leaf(finder: &mut Finder, part: Part, value: &Written) -> Result<(), AllocError> {
    match part {
        Part::Whole(least, most) => check_whole(finder, part, least, most, value),
        Part::Client | Part::Store | Part::Resolver | Part::Log | Part::Server => {
            check_whole(finder, part, 0, u64::MAX, value)
        }
        Part::Limit => check_whole(finder, part, 0, u32::MAX as u64, value),
        Part::Kind | Part::IndexKind | Part::State => check_named(finder, part, value),
        Part::Flag => check_flag(finder, value),
        Part::Cell => check_cell(finder, value),
        Part::Split => check_hex(finder, value),
        Part::Splits => check_splits(finder, value),
        _ => check_text(finder, part, value),
    }
}

/// Looks at what stands at a place, in which lists and objects nest so deep at most.
#[cycle(checking)]
pub(crate) fn check_part(
    finder: &mut Finder,
    part: Part,
    value: &Written,
    levels: usize,
) -> Result<(), AllocError> {
    if levels == 0 {
        return Ok(());
    }
    if let Some(item) = item_of(part) {
        return check_list(finder, part, item, value, levels - 1);
    }
    if let Some(shape) = shape_of(part, value) {
        return check_object(finder, shape, part.words(), value, levels - 1);
    }
    match part {
        Part::Filter => check_filter(finder, value, levels - 1),
        Part::Field => check_field(finder, value),
        Part::States => check_states(finder, value),
        Part::Step => check_step(finder, value, levels - 1),
        Part::Steps => check_steps(finder, value, levels - 1),
        _ => check_leaf(finder, part, value),
    }
}

// Looks at each of some values.
#[cycle(checking)]
fn check_each(
    finder: &mut Finder,
    part: Part,
    items: &[Written],
    levels: usize,
) -> Result<(), AllocError> {
    for item in items {
        check_part(finder, part, item, levels)?;
    }
    Ok(())
}

// Looks at a list.
#[cycle(checking)]
fn check_list(
    finder: &mut Finder,
    part: Part,
    item: Part,
    value: &Written,
    levels: usize,
) -> Result<(), AllocError> {
    let Some(items) = value.items() else {
        return finder.tell_wanted(part.words(), value);
    };
    if matches!(part, Part::Racers) && items.len() != 2 {
        finder.say(
            value.begin,
            "there are two clients, each with a list of records",
        )?;
    }
    check_each(finder, item, items, levels)
}

// Looks at what stands at a key of an object.
#[cycle(checking)]
fn check_member(
    finder: &mut Finder,
    shape: Shape,
    member: &Member,
    levels: usize,
) -> Result<(), AllocError> {
    let key = member.key.as_str();
    match shape.part_at(key) {
        Some(part) => check_part(finder, part, &member.value, levels),
        None => tell_unknown(finder, member.begin, shape.key_words(), key, shape.keys()),
    }
}

// Tells which keys of an object are missing.
fn check_missing(finder: &mut Finder, shape: Shape, value: &Written) -> Result<(), AllocError> {
    for key in shape.keys().iter().take(shape.needed()) {
        if value.get(key).is_none() {
            let reason = format!(in finder.alloc; "the key {key:?} is missing")?;
            finder.tell(value.begin, reason)?;
        }
    }
    Ok(())
}

/// Looks at an object whose keys are known.
#[cycle(checking)]
pub(crate) fn check_object(
    finder: &mut Finder,
    shape: Shape,
    words: &str,
    value: &Written,
    levels: usize,
) -> Result<(), AllocError> {
    let Some(members) = value.members() else {
        return finder.tell_wanted(words, value);
    };
    check_missing(finder, shape, value)?;
    for member in members {
        check_member(finder, shape, member, levels)?;
    }
    Ok(())
}

// Looks at a field.
fn check_field(finder: &mut Finder, value: &Written) -> Result<(), AllocError> {
    match value.items() {
        Some([name, kind]) => {
            check_text(finder, Part::FieldName, name)?;
            check_named(finder, Part::Kind, kind)
        }
        Some(_) => finder.say(value.begin, "a field is a list of its name and its kind"),
        None => finder.tell_wanted("a field, as [\"k\",\"int\"],", value),
    }
}

// Looks at states beside the names of indexes.
fn check_states(finder: &mut Finder, value: &Written) -> Result<(), AllocError> {
    let Some(members) = value.members() else {
        return finder.tell_wanted(Part::States.words(), value);
    };
    for member in members {
        check_named(finder, Part::State, &member.value)?;
    }
    Ok(())
}

// Looks at what stands after the word of a filter.
#[cycle(checking)]
fn check_operands(
    finder: &mut Finder,
    form: Operands,
    rest: &[Written],
    levels: usize,
) -> Result<bool, AllocError> {
    match (form, rest) {
        (Operands::FieldAndCell, [field, cell]) => {
            check_text(finder, Part::FieldName, field)?;
            check_cell(finder, cell)?;
        }
        (Operands::Field, [field]) => check_text(finder, Part::FieldName, field)?,
        (Operands::Filter, [part]) => check_part(finder, Part::Filter, part, levels)?,
        (Operands::Filters, parts) => check_each(finder, Part::Filter, parts, levels)?,
        _ => return Ok(false),
    }
    Ok(true)
}

// Looks at a filter.
#[cycle(checking)]
fn check_filter(finder: &mut Finder, value: &Written, levels: usize) -> Result<(), AllocError> {
    let Some([first, rest @ ..]) = value.items() else {
        return finder.tell_wanted("a filter, as [\"=\",\"a\",5],", value);
    };
    let Some(word) = first.text() else {
        return finder.tell_wanted("the word of a filter", first);
    };
    let Some(form) = operands_of(word) else {
        return tell_word(finder, first.begin, word);
    };
    if check_operands(finder, form, rest, levels)? {
        Ok(())
    } else {
        tell_operands(finder, value.begin, word, form)
    }
}

// Looks at the parts of a step.
#[cycle(checking)]
fn check_parts(
    finder: &mut Finder,
    parts: &[Part],
    values: &[Written],
    levels: usize,
) -> Result<(), AllocError> {
    for (part, value) in parts.iter().zip(values.iter()) {
        check_part(finder, *part, value, levels)?;
    }
    Ok(())
}

// Looks at a step of this name.
#[cycle(checking)]
fn check_named_step(
    finder: &mut Finder,
    at: usize,
    name: &str,
    values: &[Written],
    levels: usize,
) -> Result<(), AllocError> {
    let Some(parts) = parts_of(name) else {
        return tell_unknown(finder, at, "step", name, &STEP_NAMES);
    };
    if values.len() < needed_of(name, parts) || values.len() > parts.len() {
        let place = values.get(parts.len()).map_or(at, |extra| extra.begin);
        tell_parts(finder, place, name, parts)?;
    }
    check_parts(finder, parts, values, levels)
}

// Looks at a step.
#[cycle(checking)]
fn check_step(finder: &mut Finder, value: &Written, levels: usize) -> Result<(), AllocError> {
    let Some([first, rest @ ..]) = value.items() else {
        return finder.tell_wanted("a step, a list of its name and its parts,", value);
    };
    match first.text() {
        Some(name) => check_named_step(finder, first.begin, name, rest, levels),
        None => finder.tell_wanted("the name of a step", first),
    }
}

// Looks at the steps of a script.
#[cycle(checking)]
fn check_steps(finder: &mut Finder, value: &Written, levels: usize) -> Result<(), AllocError> {
    let Some(steps) = value.items() else {
        return finder.tell_wanted(Part::Steps.words(), value);
    };
    for (index, step) in steps.iter().enumerate() {
        finder.step = index + 1;
        check_part(finder, Part::Step, step, levels)?;
    }
    finder.step = 0;
    Ok(())
}
