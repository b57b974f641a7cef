// Keys under a prefix. Called by `record_store` and `range_set`; `strinc` by `planner` and
// `explain`.
ghost use Rattle.std.specs.Prelude.{◌≡◌, ◌↔◌, ◌++◌, ◌<◌, ◌^◌, ◌∷◌, List, ℕ, ℤ, [], All, IfOk, IfErr};
ghost use Rattle.std.specs.Prelude.{Err, None, Some, option_map, true, MatchBool, MatchOption};
ghost use Rattle.tuple_codec.specs.Codes.{highest_byte};
ghost use Rattle.tuple_codec.specs.Item.{Item, int, magnitude, IsTuple, AreBytes};
ghost use Rattle.tuple_codec.specs.Spelling.{spelling};
ghost use Rattle.tuple_codec.specs.Order.{bytes_cmp, tuple_cmp};
ghost use Rattle.tuple_codec.specs.Subspace.{BeginsWith, subspace_key, range_begin, range_end};
ghost use Rattle.tuple_codec.specs.Subspace.{strinc, IsWithin};
ghost use Rattle.tuple_codec.specs.Subspace.{SpellsUnder, RefusesUnder, StripFails, StripsTuple, StripsRefusal};
ghost use Rattle.tuple_codec.specs.declared.UnpackErrorKind.{UnpackErrorKind};
ghost use Rattle.tuple_codec.specs.declared.StripError.TheVariants.{Outside};

use crate::codes::HIGHEST_BYTE;
use crate::unpacking::unpack;
use crate::write::pack_into;
use crate::{StripError, Subspace, SubspaceRange, Tuple, UnpackErrorKind, UnpackFailure};
use std::alloc::{AllocError, Global};

impl Subspace {
    /// The keys that begin with the prefix.
    pub fn new(prefix: Vec<u8>) -> Subspace
        ensures { result ≡ prefix.items }
    {
        Subspace { prefix }
    }

    /// The key of a tuple.
    pub fn key(&self, alloc: Global, tuple: &Tuple) -> Result<Vec<u8>, AllocError>
        ensures { IfOk result (λ key. key.items ≡ subspace_key self.now tuple.now) }
    {
        let mut key = Vec::from_slice(alloc, &self.prefix)?;
        pack_into(tuple, &mut key)?;
        Ok(key)
    }

    /// Whether the key begins with the prefix.
    pub fn contains(&self, key: &[u8]) -> bool
        ensures { MatchBool result (BeginsWith self.now key.now) (BeginsWith self.now key.now → ⊥) }
    {
        key.starts_with(&self.prefix)
    }

    // What stands behind the prefix in the key.
    fn behind<'a>(&self, key: &'a [u8]) -> Option<&'a [u8]>
        ensures { MatchOption result (BeginsWith self.now key.now → ⊥) (λ rest. key.now ≡ self.now ++ rest.now) }
    {
        key.strip_prefix(&self.prefix)
    }

    /// The tuple of a key of this subspace.
    pub fn strip(&self, alloc: Global, key: &[u8]) -> Result<Tuple, StripError>
        ensures spelled { IfOk result (λ tuple. SpellsUnder self.now tuple key.now) }
        ensures refused { IfErr result (StripFails self.now key.now) }
        ensures outside { (BeginsWith self.now key.now → ⊥) → result ≡ Err Outside }
        ensures reads { (t : List Item) → SpellsUnder self.now t key.now → StripsTuple t result }
        ensures refuses { (at : ℕ) (kind : UnpackErrorKind) → RefusesUnder self.now key.now at kind →
            StripsRefusal at kind result }
    {
        let Some(rest) = self.behind(key) else {
            return Err(StripError::Outside);
        };
        match unpack(alloc, rest) {
            Ok(tuple) => Ok(tuple),
            Err(UnpackFailure::Memory) => Err(StripError::Memory),
            Err(UnpackFailure::Refused(error)) => Err(StripError::Bad(error)),
        }
    }

    /// The range of the keys of all tuples but the empty one.
    pub fn range(&self, alloc: Global) -> Result<SubspaceRange, AllocError>
        ensures { IfOk result (λ range.
            (range.begin.items ≡ range_begin self.now) × (range.end.items ≡ range_end self.now)) }
    {
        let mut begin = Vec::from_slice(alloc, &self.prefix)?;
        begin.push(0x00)?;
        let mut end = Vec::from_slice(alloc, &self.prefix)?;
        end.push(HIGHEST_BYTE)?;
        Ok(SubspaceRange { begin, end })
    }
}

/// The first string behind those that begin with the bytes. None where there is no such string: all the bytes are FF.
pub fn strinc(alloc: Global, bytes: &[u8]) -> Result<Option<Vec<u8>>, AllocError>
    ensures { IfOk result (λ end. option_map (λ v. v.items) end ≡ strinc bytes.now) }
{
    let mut rest = bytes;
    while let Some((last, front)) = rest.split_last() {
        if *last != HIGHEST_BYTE {
            let mut end = Vec::from_slice(alloc, front)?;
            end.push(*last + 1)?;
            return Ok(Some(end));
        }
        rest = front;
    }
    Ok(None)
}

/// A key spells its tuple behind the prefix, and keys are ordered as their tuples. A subspace's
/// range has the key of every tuple but the empty one.
pub fn keys_are_tuples()
    ensures spelled { (prefix : List ℕ) (t : List Item) → IsTuple t → SpellsUnder prefix t (subspace_key prefix t) }
    ensures ordered { (prefix : List ℕ) (t u : List Item) → IsTuple t → IsTuple u
        → bytes_cmp (subspace_key prefix t) (subspace_key prefix u) ≡ tuple_cmp t u }
    ensures within { (prefix : List ℕ) (t : List Item) → IsTuple t
        → IsWithin (range_begin prefix) (Some (range_end prefix))
        (subspace_key prefix t) ↔ (t ≡ [] → ⊥) }
{}

/// Of the packs of two different whole numbers neither begins the other.
pub fn integers_do_not_begin_each_other()
    ensures { (z w : ℤ) → magnitude z < 2 ^ 64 → magnitude w < 2 ^ 64 →
        BeginsWith (spelling (int z ∷ [])) (spelling (int w ∷ [])) → z ≡ w }
{}

/// The strings that begin with x are those from x on and before `strinc` of x, which is None
/// exactly where all bytes of x are FF.
pub fn prefixes_are_ranges()
    ensures ranges { (x key : List ℕ) → AreBytes x → AreBytes key → BeginsWith x key ↔ IsWithin x (strinc x) key }
    ensures none { (x : List ℕ) → (strinc x ≡ None) ↔ All (λ b. b ≡ highest_byte) x }
{}
