// Byte strings in lexicographic order. Used by most modules here, and by every crate above that
// reads or writes pairs.
ghost use Rattle.std.specs.Prelude.{◌≡◌, List, ℕ, IfOk, MatchBool, Some, refl};
ghost use Rattle.std.specs.Ordering.{eq_by_cmp};
ghost use Rattle.std.specs.Cmp.{eq_by_cmp_equiv, partial_equiv_from_equiv, partial_order_from_agreeing_total};
ghost use Rattle.std.specs.Cmp.Lexicographic.{nat_list_cmp_total};
ghost use Rattle.kv_core.specs.Bytes.{key_cmp, key_lt, key_le, end_of_keys, next_key};

use crate::short_bytes::{SHORT_BYTES, ShortBytes};
use crate::words::order_of;
use std::alloc::{AllocError, Global};
use std::cmp::Ordering;
use std::fmt;
use std::marker::Model;

/// Where the keys end: every key comes before this byte string.
const END_OF_KEYS: [u8; 1] = [0xff];

/// A byte string: a key, a value, or an end of a range.
///
/// Byte strings are ordered by their first byte that differs, and a prefix comes before what it
/// begins. They keep the allocator of their bytes, so that their methods take none. Short ones,
/// as most keys are, lie in the value itself, so that to make or copy one takes no memory.
#[derive(Debug)]
pub struct Bytes {
    kept: Kept,
}

/// Where the bytes lie: in the value itself, or in memory of their own.
#[derive(Debug, Drop)]
enum Kept {
    Short(ShortBytes),
    Long(Vec<u8>),
}

// Written out, so that no proof has to tell short from long ones where a byte string is dropped.
impl Drop for Bytes {
    fn drop(self) {
        let Bytes { kept } = self;
        drop(kept);
    }
}

impl Model for Bytes {
    ghost use Rattle.std.specs.Prelude.{ℕ, List};

    ghost Value = { List ℕ };

    ghost use Rattle.kv_core.specs.Kept.{kept_bytes};

    ghost view = { λ a. kept_bytes a.kept };
}

impl PartialEq for Bytes {
    ghost eq = { eq_by_cmp key_cmp };

    ghost laws = { partial_equiv_from_equiv (eq_by_cmp_equiv nat_list_cmp_total) };

    fn eq(&self, other: &Bytes) -> bool {
        self.compare(other).is_eq()
    }
}

impl Eq for Bytes {
    ghost laws = { eq_by_cmp_equiv nat_list_cmp_total };
}

impl PartialOrd for Bytes {
    ghost partial_cmp = { λ x y. Some (key_cmp x y) };

    ghost laws = { partial_order_from_agreeing_total key_cmp nat_list_cmp_total (λ x y. refl) (λ x y. refl) };

    fn partial_cmp(&self, other: &Bytes) -> Option<Ordering> {
        Some(self.compare(other))
    }
}

impl Ord for Bytes {
    ghost cmp = { key_cmp };

    ghost total = { nat_list_cmp_total };

    ghost matches_partial_cmp = { λ x y. refl };

    ghost matches_eq = { λ x y. refl };

    fn cmp(&self, other: &Bytes) -> Ordering {
        self.compare(other)
    }
}

/// The bytes in lower-case hexadecimal, two digits each.
impl fmt::Display for Bytes {
    fn fmt<W: fmt::Write>(&self, f: &mut fmt::Formatter<W>) -> fmt::Result {
        for byte in self.as_slice() {
            write!(f, "{byte:02x}")?;
        }
        Ok(())
    }
}

impl Clone for Bytes {
    ghost is_clone = { λ x y. y ≡ x };

    fn clone(&self) -> Result<Bytes, AllocError> {
        self.copy()
    }
}

/// Whether two runs of bytes are equal.
fn is_equal(bytes: &[u8], others: &[u8]) -> bool
    ensures { MatchBool result (bytes.now ≡ others.now) (bytes.now ≡ others.now → ⊥) }
{
    bytes == others
}

/// Whether a run of bytes is another one followed by a zero byte.
fn is_next(bytes: &[u8], others: &[u8]) -> bool
    ensures { MatchBool result (bytes.now ≡ next_key others.now)
        (bytes.now ≡ next_key others.now → ⊥) }
{
    match bytes.split_last() {
        Some((last, front)) => *last == 0 && is_equal(front, others),
        None => false,
    }
}

impl Bytes {
    /// The byte string of these bytes, which it takes over with their allocator.
    pub fn new(bytes: Vec<u8>) -> Bytes
        ensures { result ≡ bytes.items }
    {
        if bytes.len() <= SHORT_BYTES {
            // The copy in the value itself gives the allocation back.
            let short = ShortBytes::new(*bytes.allocator(), bytes.as_slice());
            return Bytes {
                kept: Kept::Short(short),
            };
        }
        Bytes {
            kept: Kept::Long(bytes),
        }
    }

    /// A copy of these bytes, which takes memory only where they are many.
    pub fn from_slice(alloc: Global, bytes: &[u8]) -> Result<Bytes, AllocError>
        ensures { IfOk result (λ copy. copy ≡ bytes.now) }
    {
        let kept = if bytes.len() <= SHORT_BYTES {
            Kept::Short(ShortBytes::new(alloc, bytes))
        } else {
            Kept::Long(Vec::from_slice(alloc, bytes)?)
        };
        Ok(Bytes { kept })
    }

    /// The bytes, in order.
    pub fn as_slice(&self) -> &[u8]
        ensures { result.now ≡ self.now }
    {
        match &self.kept {
            Kept::Short(short) => short.as_slice(),
            Kept::Long(bytes) => bytes.as_slice(),
        }
    }

    /// How this byte string compares with another one, as the type's order says.
    #[inline(always)]
    pub fn compare(&self, other: &Bytes) -> Ordering
        ensures { result ≡ key_cmp self.now other.now }
    {
        match (&self.kept, &other.kept) {
            (Kept::Short(short), Kept::Short(other)) => short.compare(other),
            _ => order_of(self.as_slice(), other.as_slice()),
        }
    }

    /// Whether this byte string comes before another one.
    #[inline(always)]
    pub fn is_before(&self, other: &Bytes) -> bool
        ensures { result ≡ key_lt self.now other.now }
    {
        match (&self.kept, &other.kept) {
            (Kept::Short(short), Kept::Short(other)) => short.is_before(other),
            _ => order_of(self.as_slice(), other.as_slice()).is_lt(),
        }
    }

    /// Whether this byte string is another one or comes before it.
    pub fn is_upto(&self, other: &Bytes) -> bool
        ensures { result ≡ key_le self.now other.now }
    {
        !other.is_before(self)
    }

    /// Whether this byte string is a key, of any length: it comes before the byte FF.
    pub fn is_key(&self) -> bool
        ensures { result ≡ key_lt self.now end_of_keys }
    {
        self.as_slice().cmp(END_OF_KEYS.as_slice()).is_lt()
    }

    /// Whether a range may end with this byte string: it doesn't come after the byte FF.
    pub(crate) fn is_range_end(&self) -> bool
        ensures { result ≡ key_le self.now end_of_keys }
    {
        self.as_slice().cmp(END_OF_KEYS.as_slice()).is_le()
    }

    /// An equal byte string, unless memory runs out.
    pub fn copy(&self) -> Result<Bytes, AllocError>
        ensures { IfOk result (λ copy. copy ≡ self.now) }
    {
        let kept = match &self.kept {
            Kept::Short(short) => Kept::Short(short.copy()),
            Kept::Long(bytes) => Kept::Long(Vec::from_slice(*bytes.allocator(), bytes.as_slice())?),
        };
        Ok(Bytes { kept })
    }

    /// The first byte string after this one, which is this one followed by a zero byte, unless
    /// memory runs out.
    pub fn next(&self) -> Result<Bytes, AllocError>
        ensures { IfOk result (λ next. next ≡ next_key self.now) }
    {
        if let Kept::Short(short) = &self.kept
            && let Some(next) = short.next()
        {
            return Ok(Bytes {
                kept: Kept::Short(next),
            });
        }
        let own = self.as_slice();
        let mut next = Vec::with_capacity(self.allocator(), own.len() + 1)?;
        next.extend_from_slice(own)?;
        next.push(0)?;
        Ok(Bytes {
            kept: Kept::Long(next),
        })
    }

    /// Whether this byte string is the first one after another one.
    pub(crate) fn is_next_of(&self, other: &Bytes) -> bool
        ensures { MatchBool result (self.now ≡ next_key other.now)
            (self.now ≡ next_key other.now → ⊥) }
    {
        match (&self.kept, &other.kept) {
            (Kept::Short(short), Kept::Short(other)) => short.is_next_of(other),
            _ => is_next(self.as_slice(), other.as_slice()),
        }
    }

    /// The allocator of the bytes.
    pub(crate) fn allocator(&self) -> Global {
        match &self.kept {
            Kept::Short(short) => short.allocator(),
            Kept::Long(bytes) => *bytes.allocator(),
        }
    }
}
