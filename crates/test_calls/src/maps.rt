// Maps, mutations, their sums and their sizes. Run as a test; `transactions` compares values by it.
use kv_core::{
    Bytes, KeyRange, KvMap, MAX_TRANSACTION_BYTES, Mutation, Mutations, add_le, total_size,
};
use std::alloc::Global;
use std::mem;
use std::test::Fail;
use test_parts::{
    alike, are_pairs, bytes_of, has_digits, holds, mutation_of, mutations_of, pair_of, pairs_of,
    range_of, request_of, same, tells,
};

/// What is done with a map, or asked: a row has a number, a text and what is told.
#[derive(Clone, Copy)]
enum Step {
    /// Begins anew with the pairs of the text, of which the first with a key stands.
    New,
    Insert,
    Apply,
    /// Applies copies of the mutations of the text, and goes on with a copy of the map.
    ApplyAll,
    /// The value of a key, or `none`.
    Get,
    /// The pairs of the range, up to the number, from the front or from the back.
    Range,
    Back,
    /// The sum of the stored value, or of none, and of the operand.
    Sum,
    /// Whether a copy of a request with the mutations of the text is equal to it.
    Copy,
    /// The value that the mutations `62-63 64=04` make of the byte 01 at a key.
    After,
    /// The size of a mutation by its sign and its numbers of bytes: of its key or begin, and of its value or end.
    Size,
    /// The size of so many bytes of a transaction, and of the mutations of the text behind them.
    Total,
}

use Step::{After, Apply, ApplyAll, Back, Copy, Get, Insert, New, Range, Size, Sum, Total};

type Row = (Step, usize, &'static str, &'static str);

static STEPS: [Row; 56] = [
    // Sums, by the call alone and at a key of a map.
    (Sum, 0, "none+0100", "0100"),
    (Sum, 0, "ff+0100", "0001"),
    (Sum, 0, "010203+ff", "00"),
    (Sum, 0, "01+", ""),
    (New, 0, "", ""),
    (Apply, 0, "61+0100", ""),
    (Get, 0, "61", "0100"),
    (New, 0, "61=ff", ""),
    (Apply, 0, "61+0100", ""),
    (Get, 0, "61", "0001"),
    (New, 0, "61=010203", ""),
    (Apply, 0, "61+ff", ""),
    (Get, 0, "61", "00"),
    (New, 0, "61=01", ""),
    (Apply, 0, "61+", ""),
    (Get, 0, "61", ""),
    (Copy, 0, "", ""),
    (Copy, 0, "61=01", ""),
    (Copy, 0, "61-63", ""),
    (Copy, 0, "61+0102", ""),
    (Copy, 0, "62-63 64=04 64+01", ""),
    // A map is read, from the front and from the back.
    (New, 0, "63=03 61=01 62=02 61=09", ""),
    (ApplyAll, 0, "62-63 64=04", ""),
    (Range, 9, "61-ff", "61=01 63=03 64=04"),
    (Range, 2, "61-ff", "61=01 63=03"),
    (Back, 2, "61-ff", "64=04 63=03"),
    (Back, 9, "61-ff", "64=04 63=03 61=01"),
    (Back, 9, "62-64", "63=03"),
    (Range, 0, "61-ff", ""),
    (Get, 0, "61", "01"),
    (Get, 0, "62", "none"),
    (Get, 0, "64", "04"),
    (After, 0, "61", "01"),
    (After, 0, "62", "none"),
    (After, 0, "64", "04"),
    // A value comes in the place of another one.
    (New, 0, "61=07", ""),
    (Insert, 0, "61=01", ""),
    (Get, 0, "61", "01"),
    (Insert, 0, "61=02", ""),
    (Get, 0, "61", "02"),
    (Insert, 0, "61=", ""),
    (Get, 0, "61", ""),
    (Size, 10_000, "=0", "Ok(10000)"),
    (Size, 10_001, "=0", "Err(KeyTooLarge)"),
    (Size, 1, "=100000", "Ok(100001)"),
    (Size, 1, "=100001", "Err(ValueTooLarge)"),
    (Size, 10_000, "+0", "Ok(10000)"),
    (Size, 10_001, "+0", "Err(KeyTooLarge)"),
    (Size, 1, "+100000", "Ok(100001)"),
    (Size, 1, "+100001", "Err(ValueTooLarge)"),
    (Size, 0, "-10001", "Ok(10001)"),
    (Size, 0, "-10002", "Err(KeyTooLarge)"),
    (Total, 9_999_998, "61=01", "Ok(10000000)"),
    (Total, 9_999_999, "61=01", "Err(TransactionTooLarge)"),
    (Total, 0, "61=01 ff=", "Err(KeyOutside)"),
    (Total, 0, "61+01 61-63", "Ok(4)"),
];

/// Fails where a value isn't that of these digits, or there is one where `none` is wanted.
pub(crate) fn has_value(alloc: Global, value: Option<&Bytes>, told: &str) -> Result<(), Fail> {
    match value {
        Some(value) => has_digits(alloc, value.as_slice(), told),
        None => same("none", told),
    }
}

/// The list of the mutations of a text, pushed one by one.
fn pushed(alloc: Global, text: &str) -> Result<Mutations, Fail> {
    let mut mutations = Mutations::new(Vec::new(alloc));
    for word in text.split_whitespace() {
        mutations.push(mutation_of(alloc, word)?)?;
    }
    Ok(mutations)
}

fn with_all(alloc: Global, map: KvMap, text: &str) -> Result<KvMap, Fail> {
    let mutations = pushed(alloc, text)?.copy()?;
    Ok(map.with_all(mutations.as_slice())?.copy()?)
}

fn insert(alloc: Global, map: &mut KvMap, text: &str) -> Result<(), Fail> {
    let (key, value) = pair_of(alloc, text)?;
    Ok(map.insert(key, value)?)
}

/// Changes a map.
fn change(alloc: Global, map: &mut KvMap, step: Step, text: &str) -> Result<(), Fail> {
    match step {
        New => *map = KvMap::from_pairs(alloc, pairs_of(alloc, text)?)?,
        Apply => map.apply(&mutation_of(alloc, text)?)?,
        _ => *map = with_all(alloc, mem::replace(map, KvMap::new(alloc)), text)?,
    }
    Ok(())
}

fn read(
    alloc: Global,
    map: &KvMap,
    range: &str,
    limit: usize,
    reverse: bool,
    told: &str,
) -> Result<(), Fail> {
    let pairs = map.range(&range_of(alloc, range)?, limit, reverse)?;
    are_pairs(alloc, &pairs, told)
}

/// The sum of a stored value, or of `none`, and an operand.
fn sum_of(alloc: Global, stored: &str, operand: &[u8]) -> Result<Vec<u8>, Fail> {
    if stored == "none" {
        return Ok(add_le(alloc, None, operand)?);
    }
    let stored = bytes_of(alloc, stored)?;
    Ok(add_le(alloc, Some(stored.as_slice()), operand)?)
}

fn sum(alloc: Global, text: &str, told: &str) -> Result<(), Fail> {
    let (stored, operand) = text.split_once('+').ok_or("no sum")?;
    let operand = bytes_of(alloc, operand)?;
    let sum = sum_of(alloc, stored, operand.as_slice())?;
    has_digits(alloc, sum.as_slice(), told)
}

fn copied(alloc: Global, mutations: &str) -> Result<(), Fail> {
    let request = request_of(alloc, 7, "61-62", mutations)?;
    let copy = request.copy()?;
    holds(copy.mutations.is_empty() == mutations.is_empty(), mutations)?;
    alike(alloc, &copy, &request)
}

/// The mutations of two texts, those of the second put behind those of the first.
fn appended(alloc: Global, first: &str, second: &str) -> Result<Mutations, Fail> {
    let mut mutations = Mutations::new(mutations_of(alloc, first)?);
    mutations.append(mutations_of(alloc, second)?)?;
    Ok(mutations)
}

fn after(alloc: Global, key: &str, told: &str) -> Result<(), Fail> {
    let mutations = appended(alloc, "62-63", "64=04")?;
    let key = bytes_of(alloc, key)?;
    let value = mutations.value_after(&key, Some(bytes_of(alloc, "01")?))?;
    has_value(alloc, value.as_ref(), told)
}

/// The mutation of this sign whose key or begin, and value, operand or end, have so many bytes.
fn of_zeros(alloc: Global, sign: &str, first: usize, second: usize) -> Result<Mutation, Fail> {
    let key = Bytes::new(vec![in alloc; 0; first]?);
    let value = Bytes::new(vec![in alloc; 0; second]?);
    match sign {
        "=" => Ok(Mutation::Set { key, value }),
        "+" => Ok(Mutation::Add {
            key,
            operand: value,
        }),
        _ => Ok(Mutation::ClearRange(KeyRange::new(key, value).ok_or("no range")?)),
    }
}

fn sized(alloc: Global, first: usize, text: &str, told: &str) -> Result<(), Fail> {
    let (sign, second) = text.split_at_checked(1).ok_or("no sign")?;
    let mutation = of_zeros(alloc, sign, first, second.parse::<usize>()?)?;
    tells(alloc, &mutation.size(), told)
}

fn total(alloc: Global, before: usize, mutations: &str, told: &str) -> Result<(), Fail> {
    let list = mutations_of(alloc, mutations)?;
    let before = (before as u64).min(MAX_TRANSACTION_BYTES);
    tells(alloc, &total_size(before, list.as_slice()), told)
}

fn take(
    alloc: Global,
    map: &mut KvMap,
    step: Step,
    number: usize,
    texts: (&str, &str),
) -> Result<(), Fail> {
    let (text, told) = texts;
    match step {
        New | Apply | ApplyAll => change(alloc, map, step, text),
        Insert => insert(alloc, map, text),
        Get => has_value(alloc, map.get(&bytes_of(alloc, text)?), told),
        Range => read(alloc, map, text, number, false, told),
        Back => read(alloc, map, text, number, true, told),
        Sum => sum(alloc, text, told),
        Copy => copied(alloc, text),
        After => after(alloc, text, told),
        Size => sized(alloc, number, text, told),
        Total => total(alloc, number, text, told),
    }
}

#[test]
fn maps_take_steps(rt: HostRuntime) -> Result<(), Fail> {
    let mut map = KvMap::new(rt.alloc());
    for (step, number, text, told) in &STEPS {
        take(rt.alloc(), &mut map, *step, *number, (text, told))?;
    }
    Ok(())
}
