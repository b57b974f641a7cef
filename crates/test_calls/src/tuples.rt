// The order of tuples, keys under a prefix, and copies of texts and byte strings. Run as a test.
use std::alloc::Global;
use std::test::Fail;
use test_parts::{bytes_of, digits_of, has_digits, same, tells, text_of};
use tuple_codec::{ByteString, Subspace, Tuple, compare, pack_into, strinc, unpack};

/// What is asked: a row has two texts and what is told of them.
#[derive(Clone, Copy)]
enum Call {
    /// How the tuple of the first pack is ordered beside that of the second, and the other way round.
    Compare,
    /// A copy of a text, and one of a byte string.
    CopyText,
    CopyBytes,
    /// Whether the subspace `1501` has a key.
    Has,
    /// The tuple of a key there: its key and then its pack behind the byte aa, or why there is none.
    Strip,
    /// The range of the keys of a subspace.
    Range,
    /// The first string behind those that begin with these bytes, or `none`.
    Behind,
}

use Call::{Behind, Compare, CopyBytes, CopyText, Has, Range, Strip};

type Row = (Call, &'static str, &'static str, &'static str);

/// Tuples rise element by element, by kind and then by value, a prefix first.
static ROWS: [Row; 33] = [
    (Compare, "", "00", "(Less, Greater)"),
    (Compare, "00", "0000", "(Less, Greater)"),
    (Compare, "0027", "0100", "(Less, Greater)"),
    (Compare, "01ff00", "0200", "(Less, Greater)"),
    (Compare, "026100", "026200", "(Less, Greater)"),
    (Compare, "027a00", "0500", "(Less, Greater)"),
    (Compare, "052700", "12feff", "(Less, Greater)"),
    (Compare, "12feff", "1300", "(Less, Greater)"),
    (Compare, "160100", "26", "(Less, Greater)"),
    (
        Compare,
        "27",
        "3000000000000000000000000000000001",
        "(Less, Greater)",
    ),
    (CopyText, "", "", ""),
    (CopyText, "F\u{d4}O\0bar", "", "F\u{d4}O\0bar"),
    (CopyText, "a", "", "a"),
    (CopyBytes, "", "", ""),
    (CopyBytes, "46c3944f00626172", "", "46c3944f00626172"),
    (CopyBytes, "61", "", "61"),
    (Has, "150114", "", "true"),
    (Has, "1501", "", "true"),
    (Has, "15010026", "", "true"),
    (Has, "1502", "", "false"),
    (Has, "15", "", "false"),
    (Has, "15011500", "", "true"),
    (Strip, "150114", "", "150114 aa14"),
    (Strip, "1501", "", "1501 aa"),
    (Strip, "15010026", "", "15010026 aa0026"),
    (Strip, "1502", "", "outside the subspace"),
    (Strip, "15", "", "outside the subspace"),
    (
        Strip,
        "15011500",
        "",
        "refused behind the prefix: NotMinimal at 0",
    ),
    (Range, "1501", "", "150100 1501ff"),
    (Behind, "61ff", "", "62"),
    (Behind, "ff", "", "none"),
    (Behind, "", "", "none"),
    (Behind, "6100", "", "6101"),
];

fn unpacked(alloc: Global, digits: &str) -> Result<Tuple, Fail> {
    Ok(unpack(alloc, bytes_of(alloc, digits)?.as_slice())?)
}

fn order(alloc: Global, first: &str, second: &str, told: &str) -> Result<(), Fail> {
    let first = unpacked(alloc, first)?;
    let second = unpacked(alloc, second)?;
    tells(
        alloc,
        &(compare(&first, &second), compare(&second, &first)),
        told,
    )
}

fn text_copied(alloc: Global, text: &str, told: &str) -> Result<(), Fail> {
    let copy = text_of(alloc, text)?.copy()?;
    same(copy.as_str(), told)
}

fn bytes_copied(alloc: Global, digits: &str, told: &str) -> Result<(), Fail> {
    let copy = ByteString::new(hex::decode(alloc, digits)?).copy()?;
    has_digits(alloc, copy.into_vec().as_slice(), told)
}

fn subspace(alloc: Global) -> Result<Subspace, Fail> {
    Ok(Subspace::new(hex::decode(alloc, "1501")?))
}

fn has(alloc: Global, key: &str, told: &str) -> Result<(), Fail> {
    let key = bytes_of(alloc, key)?;
    tells(alloc, &subspace(alloc)?.contains(key.as_slice()), told)
}

/// Two byte strings in digits.
fn both(alloc: Global, first: &[u8], second: &[u8]) -> Result<String, Fail> {
    let first = digits_of(alloc, first)?;
    let second = digits_of(alloc, second)?;
    Ok(format!(in alloc; "{} {}", first.as_str(), second.as_str())?)
}

/// The key of a tuple, and its pack behind a byte.
fn spelled(alloc: Global, subspace: &Subspace, tuple: &Tuple) -> Result<String, Fail> {
    let mut bytes = Vec::from_slice(alloc, &[0xaa])?;
    pack_into(tuple, &mut bytes)?;
    both(
        alloc,
        subspace.key(alloc, tuple)?.as_slice(),
        bytes.as_slice(),
    )
}

fn stripped(alloc: Global, key: &str, told: &str) -> Result<(), Fail> {
    let subspace = subspace(alloc)?;
    match subspace.strip(alloc, bytes_of(alloc, key)?.as_slice()) {
        Ok(tuple) => same(spelled(alloc, &subspace, &tuple)?.as_str(), told),
        Err(error) => same(error.to_string(alloc)?.as_str(), told),
    }
}

fn within(alloc: Global, prefix: &str, told: &str) -> Result<(), Fail> {
    let range = Subspace::new(hex::decode(alloc, prefix)?).range(alloc)?;
    same(
        both(alloc, range.begin.as_slice(), range.end.as_slice())?.as_str(),
        told,
    )
}

fn behind(alloc: Global, digits: &str, told: &str) -> Result<(), Fail> {
    match strinc(alloc, bytes_of(alloc, digits)?.as_slice())? {
        Some(end) => has_digits(alloc, end.as_slice(), told),
        None => same("none", told),
    }
}

fn answer(alloc: Global, call: Call, texts: (&str, &str), told: &str) -> Result<(), Fail> {
    match call {
        Compare => order(alloc, texts.0, texts.1, told),
        CopyText => text_copied(alloc, texts.0, told),
        CopyBytes => bytes_copied(alloc, texts.0, told),
        Has => has(alloc, texts.0, told),
        Strip => stripped(alloc, texts.0, told),
        Range => within(alloc, texts.0, told),
        Behind => behind(alloc, texts.0, told),
    }
}

#[test]
fn tuples_answer(rt: HostRuntime) -> Result<(), Fail> {
    for (call, first, second, told) in &ROWS {
        answer(rt.alloc(), *call, (first, second), told)?;
    }
    Ok(())
}
