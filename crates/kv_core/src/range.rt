// Half-open ranges of keys, which are read, cleared and checked for conflicts. Used by most modules
// here and by the crates above.
ghost use Rattle.std.specs.Prelude.{◌≡◌, IsTrue, IfOk, IfNone, IfSome, MatchBool, Some, not, false, refl};
ghost use Rattle.std.specs.Ordering.{eq_by_cmp};
ghost use Rattle.std.specs.Cmp.{eq_by_cmp_equiv, partial_equiv_from_equiv, partial_order_from_agreeing_total};
ghost use Rattle.kv_core.specs.Bytes.{key_lt, key_max, key_min, end_of_keys};
ghost use Rattle.kv_core.specs.Range.{KeyRange as Range, is_key_range, has_keys, contains, meets, part_before};
ghost use Rattle.kv_core.specs.Range.{part_from, point, is_same_range, range_cmp, range_cmp_total};

use crate::bytes::Bytes;
use std::alloc::{AllocError, Global};
use std::cmp::Ordering;
use std::marker::Model;

/// The keys from a begin up to, and not including, an end.
///
/// The begin isn't after the end, nor the end after the byte FF. A range may be empty. Ranges are
/// ordered by their begins, and those with one begin by their ends.
#[derive(Debug, Drop)]
pub struct KeyRange {
    begin: Bytes,
    end: Bytes,
}

impl Model for KeyRange {
    ghost use Rattle.std.specs.Prelude.{IsTrue};
    ghost use Rattle.kv_core.specs.Range.{KeyRange as Range, is_key_range};

    ghost Value = { Range };

    ghost view = { λ a. record { begin = a.begin; end = a.end } };

    ghost invariant = { λ a. IsTrue (is_key_range (record { begin = a.begin; end = a.end })) };
}

impl PartialEq for KeyRange {
    ghost eq = { eq_by_cmp range_cmp };

    ghost laws = { partial_equiv_from_equiv (eq_by_cmp_equiv range_cmp_total) };

    fn eq(&self, other: &KeyRange) -> bool {
        self.compare(other).is_eq()
    }
}

impl Eq for KeyRange {
    ghost laws = { eq_by_cmp_equiv range_cmp_total };
}

impl PartialOrd for KeyRange {
    ghost partial_cmp = { λ x y. Some (range_cmp x y) };

    ghost laws = { partial_order_from_agreeing_total range_cmp range_cmp_total (λ x y. refl) (λ x y. refl) };

    fn partial_cmp(&self, other: &KeyRange) -> Option<Ordering> {
        Some(self.compare(other))
    }
}

impl Ord for KeyRange {
    ghost cmp = { range_cmp };

    ghost total = { range_cmp_total };

    ghost matches_partial_cmp = { λ x y. refl };

    ghost matches_eq = { λ x y. refl };

    fn cmp(&self, other: &KeyRange) -> Ordering {
        self.compare(other)
    }
}

impl Clone for KeyRange {
    ghost is_clone = { λ x y. y ≡ x };

    fn clone(&self) -> Result<KeyRange, AllocError> {
        self.copy()
    }
}

/// The later of two byte strings.
fn later<'a>(first: &'a Bytes, second: &'a Bytes) -> &'a Bytes
    ensures { result.now ≡ key_max first.now second.now }
{
    if first.is_before(second) {
        second
    } else {
        first
    }
}

/// The earlier of two byte strings.
fn earlier<'a>(first: &'a Bytes, second: &'a Bytes) -> &'a Bytes
    ensures { result.now ≡ key_min first.now second.now }
{
    if second.is_before(first) {
        second
    } else {
        first
    }
}

impl KeyRange {
    /// The range with this begin and this end. It is None exactly where the begin comes after the
    /// end or the end after the byte FF, and takes no memory.
    pub fn new(begin: Bytes, end: Bytes) -> Option<KeyRange>
        ensures some { IfSome result (λ range. range ≡ record { begin = begin; end = end }) }
        ensures lawful { IfSome result (λ range. IsTrue (is_key_range range)) }
        ensures none { IfNone result (is_key_range (record { begin = begin; end = end }) ≡ false) }
    {
        if begin.is_upto(&end) && end.is_range_end() {
            Some(KeyRange { begin, end })
        } else {
            None
        }
    }

    /// The range that has this key alone, from the key up to the next one, unless memory runs
    /// out. `Bytes::is_key` tells whether a byte string is a key.
    pub fn point(alloc: Global, key: &Bytes) -> Result<KeyRange, AllocError>
        requires { IsTrue (key_lt key.now end_of_keys) }
        ensures { IfOk result (λ range. range ≡ point key.now) }
    {
        let begin = key.copy()?;
        let end = key.next()?;
        Ok(KeyRange { begin, end })
    }

    /// The first byte string of the range, if any lies in it.
    pub fn begin(&self) -> &Bytes
        ensures value { result.now ≡ self.now.begin }
        ensures lawful { IsTrue (is_key_range self.now) }
    {
        &self.begin
    }

    /// The first byte string past the range.
    pub fn end(&self) -> &Bytes
        ensures { result.now ≡ self.now.end }
    {
        &self.end
    }

    /// Whether the key lies in the range.
    pub fn contains(&self, key: &Bytes) -> bool
        ensures { result ≡ contains self.now key.now }
    {
        self.begin.is_upto(key) && key.is_before(self.end())
    }

    /// Whether some key lies in both ranges.
    pub fn meets(&self, other: &KeyRange) -> bool
        ensures { result ≡ meets self.now other.now }
    {
        let begin = later(self.begin(), other.begin());
        let end = earlier(self.end(), other.end());
        begin.is_before(end)
    }

    /// How this range compares with another one, as the type's order says.
    pub fn compare(&self, other: &KeyRange) -> Ordering
        ensures { result ≡ range_cmp self.now other.now }
    {
        let by_begin = self.begin.compare(&other.begin);
        if by_begin.is_ne() {
            return by_begin;
        }
        self.end.compare(&other.end)
    }

    /// Whether the range has its begin alone: whether it is the point of a key.
    pub fn is_point(&self) -> bool
        ensures { MatchBool result (self.now ≡ point self.now.begin)
            (self.now ≡ point self.now.begin → ⊥) }
    {
        self.end.is_next_of(&self.begin)
    }

    /// Whether no key lies in the range.
    pub fn is_empty(&self) -> bool
        ensures { result ≡ not (has_keys self.now) }
    {
        !self.begin.is_before(&self.end)
    }

    /// The part of the range before a byte string, unless memory runs out. It begins where the
    /// range does, and is empty where the byte string doesn't come after that.
    pub fn upto(&self, key: &Bytes) -> Result<KeyRange, AllocError>
        ensures { IfOk result (λ part. part ≡ part_before key.now self.now) }
    {
        let end = later(self.begin(), earlier(key, self.end()));
        let begin = self.begin().copy()?;
        let end = end.copy()?;
        Ok(KeyRange { begin, end })
    }

    /// The part of the range from a byte string on, unless memory runs out. It ends where the range
    /// does, and is empty where the byte string doesn't come before that.
    pub fn starting_at(&self, key: &Bytes) -> Result<KeyRange, AllocError>
        ensures { IfOk result (λ part. part ≡ part_from key.now self.now) }
    {
        let begin = earlier(self.end(), later(self.begin(), key));
        let begin = begin.copy()?;
        let end = self.end().copy()?;
        Ok(KeyRange { begin, end })
    }

    /// Whether both ranges have the same begin and the same end.
    pub fn is_same(&self, other: &KeyRange) -> bool
        ensures { result ≡ is_same_range self.now other.now }
    {
        self.begin == other.begin && self.end == other.end
    }

    /// An equal range, unless memory runs out.
    pub fn copy(&self) -> Result<KeyRange, AllocError>
        ensures { IfOk result (λ copy. copy ≡ self.now) }
    {
        let begin = self.begin.copy()?;
        let end = self.end.copy()?;
        Ok(KeyRange { begin, end })
    }
}
