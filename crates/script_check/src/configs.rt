// Splits of the keys. Called by `checking`.
use crate::finder::Finder;
use crate::leaves::check_hex;
use json_places::Written;
use std::alloc::AllocError;

// How many splits there may be, and how many digits the bytes of one have at most.
const MOST_SPLITS: usize = 15;

const MOST_DIGITS: usize = 20_000;

// Whether digits come before others as bytes do, whatever case their letters have.
fn is_before(one: &[u8], other: &[u8]) -> bool {
    for (left, right) in one.iter().zip(other.iter()) {
        let (left, right) = (left.to_ascii_lowercase(), right.to_ascii_lowercase());
        if left != right {
            return left < right;
        }
    }
    one.len() < other.len()
}

// Looks at a split after another one.
fn check_split(finder: &mut Finder, before: &str, value: &Written) -> Result<(), AllocError> {
    let Some(text) = value.text() else {
        return check_hex(finder, value);
    };
    if text.len() > MOST_DIGITS {
        finder.say(value.begin, "a split has at most 10,000 bytes")?;
    } else if !is_before(before.as_bytes(), text.as_bytes()) {
        finder.say(
            value.begin,
            "splits rise, the first from above the empty key",
        )?;
    } else if !is_before(text.as_bytes(), b"ff") {
        finder.say(value.begin, "a split stays below ff")?;
    }
    check_hex(finder, value)
}

/// Looks at the splits of a configuration.
pub(crate) fn check_splits(finder: &mut Finder, value: &Written) -> Result<(), AllocError> {
    let Some(splits) = value.items() else {
        return finder.tell_wanted("a list of splits", value);
    };
    if splits.len() > MOST_SPLITS {
        finder.say(value.begin, "there are at most 15 splits")?;
    }
    let mut before = "";
    for split in splits {
        check_split(finder, before, split)?;
        before = split.text().unwrap_or(before);
    }
    Ok(())
}
