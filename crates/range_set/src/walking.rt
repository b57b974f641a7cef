// The first gap of ranges in order. Called by `ranges`.
ghost use Rattle.std.specs.Prelude.{◌≡◌, [], IfOk, IsTrue, None};
ghost use Rattle.kv_core.specs.Bytes.{end_of_keys, key_le};
ghost use Rattle.range_set.specs.Steps.{gap_between, gap_from};

use kv_core::{Bytes, KeyRange};
use std::alloc::{AllocError, Global};

/// The byte FF, which every position comes before.
const END_OF_POSITIONS: [u8; 1] = [0xff];

// The gap from one position to another, if there is a position between them.
fn gap_between(begin: &Bytes, end: &Bytes) -> Result<Option<KeyRange>, AllocError>
    requires { IsTrue (key_le end.now end_of_keys) }
    ensures { IfOk result (λ gap. gap ≡ gap_between begin.now end.now None) }
{
    if !begin.is_before(end) {
        return Ok(None);
    }
    match KeyRange::new(begin.copy()?, end.copy()?) {
        Some(gap) => Ok(Some(gap)),
        None => unreachable!(),
    }
}

/// The first gap of ranges in order, which are disjoint.
pub(crate) fn first_gap_of(
    alloc: Global,
    ranges: &[KeyRange],
) -> Result<Option<KeyRange>, AllocError>
    ensures { IfOk result (λ gap. gap ≡ gap_from [] ranges.now) }
{
    let mut begin = Bytes::new(Vec::new(alloc));
    for range in ranges {
        let gap = gap_between(&begin, range.begin())?;
        if gap.is_some() {
            return Ok(gap);
        }
        begin = range.end().copy()?;
    }
    let end = Bytes::new(Vec::from_slice(alloc, &END_OF_POSITIONS)?);
    let gap = gap_between(&begin, &end)?;
    Ok(gap)
}
