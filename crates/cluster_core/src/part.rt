// The share of the keys that one resolver or storage server owns. Used by `resolver`, `kept`,
// `points`, `segments`, `pipeline`, `server` and `tier`.
ghost use Rattle.std.specs.Prelude.{◌≡◌, IfOk};
ghost use Rattle.kv_core.specs.Bytes.{key_max, key_min};
ghost use Rattle.kv_core.specs.Range.{has_keys};
ghost use Rattle.cluster_core.specs.Decision.{cut, owners, owns};

use kv_core::{Bytes, KeyRange};
use std::alloc::{AllocError, Global};
use std::marker::Model;

/// The keys that one role owns: those from `from` on, before `upto` where there is one.
#[derive(Debug, Drop)]
pub(crate) struct Part {
    from: Bytes,
    upto: Option<Bytes>,
}

impl Model for Part {
    ghost use Rattle.cluster_core.specs.Decision.{Owned};

    ghost Value = { Owned };

    ghost view = { λ a. record { from = a.from; upto = a.upto } };
}

/// The part of each owner between the splits, in key order.
pub(crate) fn parts_between(alloc: Global, splits: &[Bytes]) -> Result<Vec<Part>, AllocError>
    ensures { IfOk result (λ parts. parts.items ≡ owners splits.now) }
{
    let mut parts = Vec::new(alloc);
    let mut from = Bytes::new(Vec::new(alloc));
    for split in splits {
        parts.push(Part::new(from, Some(split.copy()?)))?;
        from = split.copy()?;
    }
    parts.push(Part::new(from, None))?;
    Ok(parts)
}

/// The later of two keys.
fn later<'a>(a: &'a Bytes, b: &'a Bytes) -> &'a Bytes
    ensures { result.now ≡ key_max a.now b.now }
{
    if a.is_before(b) { b } else { a }
}

/// The earlier of two keys.
fn earlier<'a>(a: &'a Bytes, b: &'a Bytes) -> &'a Bytes
    ensures { result.now ≡ key_min a.now b.now }
{
    if b.is_before(a) { b } else { a }
}

impl Part {
    /// The part from one key on, before another one if there is one.
    pub fn new(from: Bytes, upto: Option<Bytes>) -> Part
        ensures { result ≡ record { from = from; upto = upto } }
    {
        Part { from, upto }
    }

    /// Whether the key is the owner's.
    pub fn owns(&self, key: &Bytes) -> bool
        ensures { result ≡ owns self.now key.now }
    {
        if !self.from.is_upto(key) {
            return false;
        }
        match &self.upto {
            Some(upto) => key.is_before(upto),
            None => true,
        }
    }

    /// The first key of the range that may be the owner's.
    pub fn begin_in<'a>(&'a self, range: &'a KeyRange) -> &'a Bytes
        ensures { result.now ≡ (cut self.now range.now).begin }
    {
        later(&self.from, range.begin())
    }

    /// Where the keys of the range that are the owner's end.
    pub fn end_in<'a>(&'a self, range: &'a KeyRange) -> &'a Bytes
        ensures { result.now ≡ (cut self.now range.now).end }
    {
        match &self.upto {
            Some(upto) => earlier(upto, range.end()),
            None => range.end(),
        }
    }

    /// Whether a key of the range is the owner's.
    pub fn meets(&self, range: &KeyRange) -> bool
        ensures { result ≡ has_keys (cut self.now range.now) }
    {
        self.begin_in(range).is_before(self.end_in(range))
    }
}
