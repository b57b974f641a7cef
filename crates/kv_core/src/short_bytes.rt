// Byte strings that lie in their value. Used by `bytes`.
ghost use Rattle.std.specs.Prelude.{◌≡◌, ◌≢◌, ◌≤◌, length, IfNone, IfSome, MatchBool};
ghost use Rattle.std.specs.Ordering.{nat_cmp};
ghost use Rattle.kv_core.specs.Bytes.{key_cmp, key_lt, next_key};
ghost use Rattle.kv_core.specs.declared.short_bytes.TheConstants.{SHORT_BYTES};

use crate::words::{half_at, quarter_at, word_at};
use std::alloc::Global;
use std::cmp::Ordering;
use std::marker::Model;

/// How long a byte string may be that lies in its value.
pub(crate) const SHORT_BYTES: usize = 30;

/// A short byte string: the first bytes of an array, behind which all others are zero.
///
/// So two are compared by the words of their whole arrays, and by their lengths where these are
/// equal.
#[derive(Debug, Drop)]
pub(crate) struct ShortBytes {
    count: u8,
    bytes: [u8; SHORT_BYTES],
    alloc: Global,
}

impl Model for ShortBytes {
    ghost use Rattle.std.specs.Prelude.{ℕ, ◌≤◌, List, take};
    ghost use Rattle.kv_core.specs.ShortBytes.{AreZeroFrom};
    ghost use Rattle.kv_core.specs.declared.short_bytes.TheConstants.{SHORT_BYTES};

    ghost Value = { List ℕ };

    ghost view = { λ a. take a.count a.bytes };

    ghost invariant = { λ a. (a.count ≤ SHORT_BYTES) × AreZeroFrom a.count a.bytes };
}

/// The first numbers that two arrays spell otherwise, or None where they are equal: of three words,
/// then a half and a quarter of one. None of them overlap, so that the compiler loads each at once.
#[inline(always)]
fn first_differing(bytes: &[u8; SHORT_BYTES], others: &[u8; SHORT_BYTES]) -> Option<(u64, u64)>
    ensures same { IfNone result (bytes.now ≡ others.now) }
    ensures differ { IfSome result (λ pair. bytes.now ≢ others.now) }
    ensures order { IfSome result (λ pair. nat_cmp pair.0 pair.1 ≡ key_cmp bytes.now others.now) }
{
    let (word, other) = (word_at(bytes, 0), word_at(others, 0));
    if word != other {
        return Some((word, other));
    }
    let (word, other) = (word_at(bytes, 8), word_at(others, 8));
    if word != other {
        return Some((word, other));
    }
    let (word, other) = (word_at(bytes, 16), word_at(others, 16));
    if word != other {
        return Some((word, other));
    }
    let (half, other) = (half_at(bytes, 24), half_at(others, 24));
    if half != other {
        return Some((u64::from(half), u64::from(other)));
    }
    let (quarter, other) = (quarter_at(bytes, 28), quarter_at(others, 28));
    if quarter != other {
        return Some((u64::from(quarter), u64::from(other)));
    }
    None
}

impl ShortBytes {
    /// A copy of these bytes.
    pub fn new(alloc: Global, own: &[u8]) -> ShortBytes
        requires { length own.now ≤ SHORT_BYTES }
        ensures { result ≡ own.now }
    {
        let mut bytes = [0; SHORT_BYTES];
        bytes[..own.len()].copy_from_slice(own);
        ShortBytes {
            count: own.len() as u8,
            bytes,
            alloc,
        }
    }

    /// The bytes, in order.
    pub fn as_slice(&self) -> &[u8]
        ensures { result.now ≡ self.now }
    {
        &self.bytes[..self.count as usize]
    }

    /// How this byte string compares with another one.
    #[inline(always)]
    pub fn compare(&self, other: &ShortBytes) -> Ordering
        ensures { result ≡ key_cmp self.now other.now }
    {
        match first_differing(&self.bytes, &other.bytes) {
            Some((word, other)) => word.cmp(&other),
            None => self.count.cmp(&other.count),
        }
    }

    /// Whether this byte string comes before another one.
    #[inline(always)]
    pub fn is_before(&self, other: &ShortBytes) -> bool
        ensures { result ≡ key_lt self.now other.now }
    {
        match first_differing(&self.bytes, &other.bytes) {
            Some((word, other)) => word < other,
            None => self.count < other.count,
        }
    }

    /// An equal byte string.
    pub fn copy(&self) -> ShortBytes
        ensures { result ≡ self.now }
    {
        ShortBytes {
            count: self.count,
            bytes: self.bytes,
            alloc: self.alloc,
        }
    }

    /// The byte string followed by a zero byte, unless it is as long as a short one may be.
    pub fn next(&self) -> Option<ShortBytes>
        ensures some { IfSome result (λ next. next ≡ next_key self.now) }
        ensures none { IfNone result (SHORT_BYTES ≤ length self.now) }
    {
        if self.count as usize >= SHORT_BYTES {
            return None;
        }
        Some(ShortBytes {
            count: self.count + 1,
            bytes: self.bytes,
            alloc: self.alloc,
        })
    }

    /// Whether this byte string is another one followed by a zero byte.
    pub fn is_next_of(&self, other: &ShortBytes) -> bool
        ensures { MatchBool result (self.now ≡ next_key other.now)
            (self.now ≡ next_key other.now → ⊥) }
    {
        self.count == other.count + 1 && first_differing(&self.bytes, &other.bytes).is_none()
    }

    /// The allocator that the byte string keeps.
    pub fn allocator(&self) -> Global {
        self.alloc
    }
}
