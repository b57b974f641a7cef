// Byte strings, ranges of keys, lists of ranges and what ranges cover. Run as a test.
use kv_core::{Bytes, Coverage, KeyRange, RangeList};
use std::alloc::Global;
use std::test::Fail;
use test_parts::{alike, are_ranges, bytes_of, has_digits, holds, range_of, ranges_of, tells};

/// What is asked: a row has two texts and what is told of them.
#[derive(Clone, Copy)]
enum Call {
    /// Whether every comparison says that the first byte string comes before the second.
    Rise,
    /// The first byte string behind a key.
    Next,
    /// Whether copies of a key are equal to it.
    Copied,
    /// Whether a range has a key.
    Contains,
    /// Whether there is a range of this begin and end.
    Lawful,
    /// Of two ranges: whether a copy of the first is equal to it and not to the second, and every comparison says that
    /// it comes before the second; whether it is empty; whether they have a key in common.
    Ordered,
    /// The part of the range `61-65` before a key, or from it on.
    Upto,
    From,
    /// The list that ranges make, added one by one: each once.
    Added,
    /// Whether the list of ranges as they stand stays the same where a range that it has is added.
    Stands,
    /// Whether ranges and another one have a key in common, by the list of them added one by one, and as they stand.
    Meets,
    /// Whether the ranges `63-65 61-63 68-69 64-66` cover a key; from how far before it, and up to how far past it,
    /// there is no gap.
    Covered,
    Before,
    Past,
}

use Call::{
    Added, Before, Contains, Copied, Covered, From, Lawful, Meets, Next, Ordered, Past, Rise,
    Stands, Upto,
};

const TWICE: &str = "61-63 62-64 61-63";

const SCATTERED: &str = "66-66 61-65 62-63 61-65 64-68";

type Row = (Call, &'static str, &'static str, &'static str);

static ROWS: [Row; 59] = [
    (Rise, "", "61", "true"),
    (Rise, "61", "6100", "true"),
    (Rise, "6100", "62", "true"),
    (Rise, "62", "ff", "true"),
    (Next, "61", "", "6100"),
    (Copied, "61", "", "true"),
    (Contains, "61", "61", "true"),
    (Contains, "61", "6100", "false"),
    (Next, "", "", "00"),
    (Copied, "", "", "true"),
    (Contains, "", "", "true"),
    (Contains, "", "00", "false"),
    (Next, "61ff", "", "61ff00"),
    (Copied, "61ff", "", "true"),
    (Contains, "61ff", "61ff", "true"),
    (Contains, "61ff", "61ff00", "false"),
    (Lawful, "61", "62", "true"),
    (Lawful, "61", "61", "true"),
    (Lawful, "62", "61", "false"),
    (Lawful, "61", "ff", "true"),
    (Lawful, "61", "ff00", "false"),
    (Ordered, "61-62", "61-63", "(true, false, true)"),
    (Ordered, "61-63", "62-62", "(true, false, false)"),
    (Ordered, "61-62", "62-62", "(true, false, false)"),
    (Ordered, "62-62", "62-63", "(true, true, false)"),
    (Upto, "60", "", "61-61"),
    (From, "60", "", "61-65"),
    (Upto, "63", "", "61-63"),
    (From, "63", "", "63-65"),
    (Upto, "66", "", "61-65"),
    (From, "66", "", "65-65"),
    (Added, TWICE, "", "61-63 62-64"),
    (Added, SCATTERED, "", "66-66 61-65 62-63 64-68"),
    (Stands, SCATTERED, "61-65", ""),
    (Meets, TWICE, "63-65", "(true, true)"),
    (Meets, TWICE, "64-65", "(false, false)"),
    (Meets, SCATTERED, "60-61", "(false, false)"),
    (Meets, SCATTERED, "60-62", "(true, true)"),
    (Meets, SCATTERED, "63-63", "(false, false)"),
    (Meets, SCATTERED, "65-66", "(true, true)"),
    (Meets, SCATTERED, "68-69", "(false, false)"),
    (Covered, "60", "", "false"),
    (Before, "60", "", "60"),
    (Past, "60", "", "60"),
    (Covered, "61", "", "true"),
    (Before, "61", "", "61"),
    (Past, "61", "", "66"),
    (Covered, "65", "", "true"),
    (Before, "65", "", "61"),
    (Past, "65", "", "66"),
    (Covered, "66", "", "false"),
    (Before, "66", "", "61"),
    (Past, "66", "", "66"),
    (Covered, "67", "", "false"),
    (Before, "67", "", "67"),
    (Past, "67", "", "67"),
    (Covered, "69", "", "false"),
    (Before, "69", "", "68"),
    (Past, "69", "", "69"),
];

fn are_rising(first: &Bytes, second: &Bytes) -> bool {
    first.compare(second).is_lt()
        && first.is_before(second)
        && first.is_upto(second)
        && !second.is_upto(first)
        && *first < *second
}

fn rise(alloc: Global, first: &str, second: &str, told: &str) -> Result<(), Fail> {
    let first = bytes_of(alloc, first)?;
    let second = bytes_of(alloc, second)?;
    tells(alloc, &are_rising(&first, &second), told)
}

fn next(alloc: Global, key: &str, told: &str) -> Result<(), Fail> {
    let behind = bytes_of(alloc, key)?.next()?;
    has_digits(alloc, behind.as_slice(), told)
}

fn is_copied(key: &Bytes) -> Result<bool, Fail> {
    let copy = key.copy()?;
    let clone = key.clone()?;
    Ok(copy == *key && clone == *key)
}

fn copied(alloc: Global, key: &str, told: &str) -> Result<(), Fail> {
    let key = bytes_of(alloc, key)?;
    tells(alloc, &is_copied(&key)?, told)
}

fn contains(alloc: Global, range: &str, key: &str, told: &str) -> Result<(), Fail> {
    let range = range_of(alloc, range)?;
    tells(alloc, &range.contains(&bytes_of(alloc, key)?), told)
}

fn lawful(alloc: Global, begin: &str, end: &str, told: &str) -> Result<(), Fail> {
    let begin = bytes_of(alloc, begin)?;
    let range = KeyRange::new(begin, bytes_of(alloc, end)?);
    tells(alloc, &range.is_some(), told)
}

fn is_own_copy(first: &KeyRange, second: &KeyRange) -> Result<bool, Fail> {
    let copy = first.copy()?;
    Ok(*first == copy && first.is_same(&copy) && !first.is_same(second))
}

fn order_of(first: &KeyRange, second: &KeyRange) -> Result<(bool, bool, bool), Fail> {
    let rises = *first < *second && first.compare(second).is_lt();
    let orders = is_own_copy(first, second)? && rises;
    Ok((orders, first.is_empty(), first.meets(second)))
}

fn ordered(alloc: Global, first: &str, second: &str, told: &str) -> Result<(), Fail> {
    let first = range_of(alloc, first)?;
    let second = range_of(alloc, second)?;
    tells(alloc, &order_of(&first, &second)?, told)
}

/// A part of the range `61-65`.
fn part_of(call: Call, range: &KeyRange, key: &Bytes) -> Result<KeyRange, Fail> {
    match call {
        Upto => Ok(range.upto(key)?),
        _ => Ok(range.starting_at(key)?),
    }
}

fn part(alloc: Global, call: Call, key: &str, told: &str) -> Result<(), Fail> {
    let range = range_of(alloc, "61-65")?;
    let key = bytes_of(alloc, key)?;
    let part = part_of(call, &range, &key)?;
    alike(alloc, &part, &range_of(alloc, told)?)
}

/// The list of the ranges of a text, added one by one.
fn list_of(alloc: Global, text: &str) -> Result<RangeList, Fail> {
    let mut list = RangeList::new(alloc);
    for range in &ranges_of(alloc, text)? {
        list.add(range.copy()?)?;
    }
    Ok(list)
}

fn has_each(list: &RangeList, ranges: &str) -> Result<(), Fail> {
    for range in list.as_slice() {
        holds(list.has(range), ranges)?;
    }
    Ok(())
}

/// A list has each of its ranges.
fn added(alloc: Global, ranges: &str, told: &str) -> Result<(), Fail> {
    let list = list_of(alloc, ranges)?;
    has_each(&list, ranges)?;
    are_ranges(alloc, list.as_slice(), told)
}

/// A copy of the list of ranges as they stand.
fn standing(alloc: Global, ranges: &str) -> Result<RangeList, Fail> {
    Ok(RangeList::from_ranges(alloc, ranges_of(alloc, ranges)?)?.copy()?)
}

fn stands(alloc: Global, ranges: &str, range: &str) -> Result<(), Fail> {
    let mut list = standing(alloc, ranges)?;
    list.add(range_of(alloc, range)?)?;
    are_ranges(alloc, list.as_slice(), ranges)
}

fn meet(alloc: Global, ranges: &str, other: &str, told: &str) -> Result<(), Fail> {
    let other = range_of(alloc, other)?;
    let added = list_of(alloc, ranges)?.intersects(&other);
    let standing = standing(alloc, ranges)?.intersects(&other);
    tells(alloc, &(added, standing), told)
}

/// A copy of what the ranges `63-65 61-63 68-69 64-66` cover.
fn coverage(alloc: Global) -> Result<Coverage, Fail> {
    let mut coverage = Coverage::new(alloc);
    for range in &ranges_of(alloc, "63-65 61-63 68-69 64-66")? {
        coverage.add(range)?;
    }
    Ok(coverage.copy()?)
}

fn covered(alloc: Global, key: &str, told: &str) -> Result<(), Fail> {
    let coverage = coverage(alloc)?;
    tells(alloc, &coverage.covers(&bytes_of(alloc, key)?), told)
}

fn edge_of(call: Call, coverage: &Coverage, key: &Bytes) -> Result<Bytes, Fail> {
    match call {
        Before => Ok(coverage.before(key)?),
        _ => Ok(coverage.past(key)?),
    }
}

fn edge(alloc: Global, call: Call, key: &str, told: &str) -> Result<(), Fail> {
    let coverage = coverage(alloc)?;
    let key = bytes_of(alloc, key)?;
    let edge = edge_of(call, &coverage, &key)?;
    has_digits(alloc, edge.as_slice(), told)
}

fn answer(alloc: Global, call: Call, texts: (&str, &str), told: &str) -> Result<(), Fail> {
    let (first, second) = texts;
    match call {
        Rise => rise(alloc, first, second, told),
        Next => next(alloc, first, told),
        Copied => copied(alloc, first, told),
        Contains => contains(alloc, first, second, told),
        Lawful => lawful(alloc, first, second, told),
        Ordered => ordered(alloc, first, second, told),
        Upto | From => part(alloc, call, first, told),
        Added => added(alloc, first, told),
        Stands => stands(alloc, first, second),
        Meets => meet(alloc, first, second, told),
        Covered => covered(alloc, first, told),
        Before | Past => edge(alloc, call, first, told),
    }
}

#[test]
fn ranges_answer(rt: HostRuntime) -> Result<(), Fail> {
    for (call, first, second, told) in &ROWS {
        answer(rt.alloc(), *call, (first, second), told)?;
    }
    Ok(())
}
