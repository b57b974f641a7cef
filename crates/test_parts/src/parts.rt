// Ranges, pairs, mutations and requests of words, and comparisons, for `test_calls`, `test_stores` and
// `test_memory`. A range is `61-63`, or a key; a mutation is `61=01`, `61+01` or the range that
// it clears. Nothing is promised here: so a test that calls many functions is proved over little.
use crate::words::{bytes_of, digits_of};
use cluster_core::Reported;
use kv_core::{Bytes, CommitRequest, KeyRange, Mutation, Mutations, Pair, RangeList};
use std::alloc::Global;
use std::fmt::Debug;
use std::test::Fail;

/// Fails where two texts differ.
pub fn same(found: &str, wanted: &str) -> Result<(), Fail> {
    if found == wanted {
        return Ok(());
    }
    Err(Fail::new(format_args!("found {found}, wanted {wanted}")))
}

/// Fails where a fact doesn't hold of a row.
pub fn holds(fact: bool, row: &str) -> Result<(), Fail> {
    if fact {
        return Ok(());
    }
    Err(Fail::new(format_args!("not so at {row}")))
}

/// How a value is printed for a programmer.
pub fn shown<D: Debug>(alloc: Global, value: &D) -> Result<String, Fail> {
    Ok(format!(in alloc; "{value:?}")?)
}

/// Fails where two values aren't printed alike.
pub fn alike<D: Debug>(alloc: Global, found: &D, wanted: &D) -> Result<(), Fail> {
    let wanted = shown(alloc, wanted)?;
    same(shown(alloc, found)?.as_str(), wanted.as_str())
}

/// Fails where a value isn't printed so.
pub fn tells<D: Debug>(alloc: Global, found: &D, wanted: &str) -> Result<(), Fail> {
    same(shown(alloc, found)?.as_str(), wanted)
}

/// Fails where bytes don't have these digits.
pub fn has_digits(alloc: Global, found: &[u8], wanted: &str) -> Result<(), Fail> {
    same(digits_of(alloc, found)?.as_str(), wanted)
}

/// Fails where ranges aren't those of words.
pub fn are_ranges(alloc: Global, found: &[KeyRange], wanted: &str) -> Result<(), Fail> {
    alike(alloc, &found, &ranges_of(alloc, wanted)?.as_slice())
}

/// Fails where pairs aren't those of words.
pub fn are_pairs(alloc: Global, found: &[Pair], wanted: &str) -> Result<(), Fail> {
    alike(alloc, &found, &pairs_of(alloc, wanted)?.as_slice())
}

/// Fails where mutations aren't those of words.
pub fn are_mutations(alloc: Global, found: &[Mutation], wanted: &str) -> Result<(), Fail> {
    alike(alloc, &found, &mutations_of(alloc, wanted)?.as_slice())
}

/// The bytes of two texts of digits.
fn both_of(alloc: Global, first: &str, second: &str) -> Result<(Bytes, Bytes), Fail> {
    let first = bytes_of(alloc, first)?;
    Ok((first, bytes_of(alloc, second)?))
}

fn point_of(alloc: Global, word: &str) -> Result<KeyRange, Fail> {
    let key = bytes_of(alloc, word)?;
    if !key.is_key() {
        return Err(Fail::from("no key"));
    }
    Ok(KeyRange::point(alloc, &key)?)
}

/// The range of a word, or the point of a key.
pub fn range_of(alloc: Global, word: &str) -> Result<KeyRange, Fail> {
    match word.split_once('-') {
        Some((begin, end)) => {
            let (begin, end) = both_of(alloc, begin, end)?;
            Ok(KeyRange::new(begin, end).ok_or("no lawful range")?)
        }
        None => point_of(alloc, word),
    }
}

/// The ranges of words.
pub fn ranges_of(alloc: Global, text: &str) -> Result<Vec<KeyRange>, Fail> {
    let mut ranges = Vec::new(alloc);
    for word in text.split_whitespace() {
        ranges.push(range_of(alloc, word)?)?;
    }
    Ok(ranges)
}

/// The pair of a word, as `61=01`.
pub fn pair_of(alloc: Global, word: &str) -> Result<Pair, Fail> {
    let (key, value) = word.split_once('=').ok_or("no pair")?;
    both_of(alloc, key, value)
}

/// The pairs of words.
pub fn pairs_of(alloc: Global, text: &str) -> Result<Vec<Pair>, Fail> {
    let mut pairs = Vec::new(alloc);
    for word in text.split_whitespace() {
        pairs.push(pair_of(alloc, word)?)?;
    }
    Ok(pairs)
}

/// The mutation of a word.
pub fn mutation_of(alloc: Global, word: &str) -> Result<Mutation, Fail> {
    if let Some((key, operand)) = word.split_once('+') {
        let (key, operand) = both_of(alloc, key, operand)?;
        return Ok(Mutation::Add { key, operand });
    }
    if let Some((key, operand)) = word.split_once('?') {
        let (key, operand) = both_of(alloc, key, operand)?;
        return Ok(Mutation::CompareAndClear { key, operand });
    }
    if word.contains('-') {
        return Ok(Mutation::ClearRange(range_of(alloc, word)?));
    }
    let (key, value) = pair_of(alloc, word)?;
    Ok(Mutation::Set { key, value })
}

/// The mutations of words.
pub fn mutations_of(alloc: Global, text: &str) -> Result<Vec<Mutation>, Fail> {
    let mut mutations = Vec::new(alloc);
    for word in text.split_whitespace() {
        mutations.push(mutation_of(alloc, word)?)?;
    }
    Ok(mutations)
}

/// A request that read these ranges at a version, and makes these mutations.
pub fn request_of(
    alloc: Global,
    read_version: u64,
    reads: &str,
    writes: &str,
) -> Result<CommitRequest, Fail> {
    let reads = RangeList::from_ranges(alloc, ranges_of(alloc, reads)?)?;
    let mutations = Mutations::new(mutations_of(alloc, writes)?);
    Ok(CommitRequest {
        read_version,
        reads,
        mutations,
    })
}

fn conflict_text(alloc: Global, seen: u64, range: &KeyRange) -> Result<String, Fail> {
    let begin = digits_of(alloc, range.begin().as_slice())?;
    let end = digits_of(alloc, range.end().as_slice())?;
    Ok(format!(in alloc; "conflict {seen} {}-{}", begin.as_str(), end.as_str())?)
}

/// What a report tells: of a conflict the version seen and the range.
pub fn report_text(alloc: Global, reported: &Reported) -> Result<String, Fail> {
    match reported {
        Reported::Committed(version) => Ok(format!(in alloc; "committed {version}")?),
        Reported::Conflict { seen, range } => conflict_text(alloc, *seen, range),
        Reported::NothingToDo => Ok(String::from_str(alloc, "NothingToDo")?),
    }
}
