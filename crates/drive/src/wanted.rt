// What a host is to read next: the first part of a read that isn't covered. Used by `partial`,
// `ahead` and `answering`.
ghost use Rattle.std.specs.Prelude.{◌≡◌, true, false, IfOk, IfSome, IfNone};
ghost use Rattle.drive.specs.Wanted.{IsAllCovered, IsLeftBetween, IsRemainder, IsUncoveredFrom};

use kv_core::{Coverage, KeyRange, Pair};
use std::alloc::AllocError;

/// A range that a host is to read: the first pairs of it, or with `reverse` the last ones, so many
/// as are needed now. It may read fewer, one at least where there is one, or more.
#[derive(Drop)]
pub struct Want {
    /// The range.
    pub range: KeyRange,
    /// How many pairs are needed.
    pub limit: usize,
    /// Whether they are the last ones of the range.
    pub reverse: bool,
}

/// What is left of a range after its first keys that are covered, or None where all of it is.
fn rest_forward(covered: &Coverage, range: &KeyRange) -> Result<Option<KeyRange>, AllocError>
    ensures some { IfOk result (λ rest. IfSome rest (IsUncoveredFrom covered.now false)) }
    ensures left { IfOk result (λ rest. IfSome rest (IsRemainder covered.now range.now)) }
    ensures none { IfOk result (λ rest. IfNone rest (IsAllCovered covered.now range.now)) }
{
    let place = covered.past(range.begin())?;
    if !place.is_before(range.end()) {
        return Ok(None);
    }
    Ok(KeyRange::new(place, range.end().copy()?))
}

/// What is left of a range before its last keys that are covered, or None where all of it is.
fn rest_reverse(covered: &Coverage, range: &KeyRange) -> Result<Option<KeyRange>, AllocError>
    ensures some { IfOk result (λ rest. IfSome rest (IsUncoveredFrom covered.now true)) }
    ensures left { IfOk result (λ rest. IfSome rest (IsRemainder covered.now range.now)) }
    ensures none { IfOk result (λ rest. IfNone rest (IsAllCovered covered.now range.now)) }
    ensures begin { IfOk result (λ rest. IfSome rest (λ part. part.begin ≡ range.now.begin)) }
{
    let place = covered.before(range.end())?;
    if !range.begin().is_before(&place) {
        return Ok(None);
    }
    Ok(KeyRange::new(range.begin().copy()?, place))
}

/// The part of a range that is still to be read from one end, or None where all of it is covered.
pub(crate) fn rest_of(
    covered: &Coverage,
    range: &KeyRange,
    reverse: bool,
) -> Result<Option<KeyRange>, AllocError>
    ensures some { IfOk result (λ rest. IfSome rest (IsUncoveredFrom covered.now reverse)) }
    ensures none { IfOk result (λ rest. IfNone rest (IsAllCovered covered.now range.now)) }
{
    if reverse {
        rest_reverse(covered, range)
    } else {
        rest_forward(covered, range)
    }
}

/// What is left of a range between its first keys and its last ones that are covered, or None where
/// all of it is covered.
pub(crate) fn rest_between(
    covered: &Coverage,
    range: &KeyRange,
) -> Result<Option<KeyRange>, AllocError>
    ensures left { IfOk result (λ rest. IfSome rest (IsLeftBetween covered.now range.now)) }
    ensures none { IfOk result (λ rest. IfNone rest (IsAllCovered covered.now range.now)) }
{
    let Some(rest) = rest_forward(covered, range)? else {
        return Ok(None);
    };
    rest_reverse(covered, &rest)
}

/// What of a read isn't covered and is needed, where it found these pairs in what is given.
pub(crate) fn wanted(
    covered: &Coverage,
    range: &KeyRange,
    limit: usize,
    reverse: bool,
    found: &[Pair],
) -> Result<Option<Want>, AllocError> {
    let Some(rest) = rest_of(covered, range, reverse)? else {
        return Ok(None);
    };
    let mut left = limit;
    for (key, _) in found {
        let is_before = if reverse {
            rest.end().is_upto(key)
        } else {
            key.is_before(rest.begin())
        };
        if !is_before {
            break;
        }
        left = left.saturating_sub(1);
    }
    if left == 0 {
        return Ok(None);
    }
    Ok(Some(Want {
        range: rest,
        limit: left,
        reverse,
    }))
}
