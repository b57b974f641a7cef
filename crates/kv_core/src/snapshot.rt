// Snapshots: the trait of what is read from, met by a map, and by clusters and storage servers; why a
// read isn't answered. A transaction reads from one, and so does each call above that reads in a
// transaction.
ghost use Rattle.std.specs.Prelude.{◌≡◌, ◌⊎◌, ℕ, ◌≤◌, IfOk, IfErr, OnOk, IsTrue};
ghost use Rattle.std.specs.FinMap.{get};
ghost use Rattle.kv_core.specs.Bytes.{key_lt, end_of_keys};
ghost use Rattle.kv_core.specs.Map.{Map};
ghost use Rattle.kv_core.specs.Parts.{IsPart};
ghost use Rattle.kv_core.specs.Range.{KeyRange as Range, point};
ghost use Rattle.kv_core.specs.Read.{NeverRefuses, read_of};
ghost use Rattle.kv_core.specs.declared.snapshot.ReadError.{ReadError as Refused};
ghost use Rattle.kv_core.specs.declared.snapshot.ReadError.TheVariants.{Memory};

use crate::bytes::Bytes;
use crate::kv_map::KvMap;
use crate::pair::Pair;
use crate::range::KeyRange;
use std::alloc::AllocError;
use thiserror::Error;

/// Why a read isn't answered.
#[derive(Clone, Copy, Debug, PartialEq, Eq, Error)]
pub enum ReadError {
    /// The version isn't there yet.
    #[error("the version isn't there yet")]
    FutureVersion,
    /// The version lies longer ago than the window allows.
    #[error("the version lies too long ago")]
    TooOld,
    /// Memory ran out.
    #[error("out of memory")]
    Memory,
}

impl From<AllocError> for ReadError {
    ghost from_gives = { λ _ e. e ≡ Memory };

    fn from(_e: AllocError) -> ReadError {
        ReadError::Memory
    }
}

/// A database that can be read at versions.
pub trait Snapshot {
    /// The map at a version.
    ghost map_at: { Self → ℕ → Map };

    /// With what a read of the range at a version may be refused; want of memory apart.
    ghost may_refuse: { Self → Range → ℕ → Refused → Type 0 };

    /// That each read of the range at a version is refused.
    ghost must_refuse: { Self → Range → ℕ → Type 0 };

    /// The pairs of the range at the version: the first ones in the order of their keys, or with
    /// `reverse` the last ones with the last one first, as many as there are up to the limit.
    ///
    /// The read is refused with `FutureVersion` where the version isn't there yet, with `TooOld`
    /// where it lies longer ago than the window allows, and else with `Memory` where memory runs
    /// out. It may be refused at one time and not at another.
    fn read(
        &self,
        range: &KeyRange,
        version: u64,
        limit: usize,
        reverse: bool,
    ) -> Result<Vec<Pair>, ReadError>
        requires { 1 ≤ limit }
        ensures pairs { IfOk result (λ pairs.
            pairs.items ≡ read_of (map_at self.now version) range.now limit reverse) }
        ensures allowed { OnOk result (must_refuse self.now range.now version → ⊥) }
        ensures refused { IfErr result (λ error.
            (error ≡ ReadError.Memory) ⊎ may_refuse self.now range.now version error) };

    /// The value at a key at the version, or None where there is none. Only the value is copied.
    ///
    /// It is refused as a read of the key's point is.
    fn value(&self, key: &Bytes, version: u64) -> Result<Option<Bytes>, ReadError>
        requires { IsTrue (key_lt key.now end_of_keys) }
        ensures value { IfOk result (λ value. value ≡ get (map_at self.now version) key.now) }
        ensures allowed { OnOk result (must_refuse self.now (point key.now) version → ⊥) }
        ensures refused { IfErr result (λ error.
            (error ≡ ReadError.Memory) ⊎ may_refuse self.now (point key.now) version error) };

    /// Whether a read of the range at the version is refused at this time, which takes no memory:
    /// what was read of it before need not be read again to know.
    ///
    /// It is refused as a read of the range is, apart from memory.
    fn check(&self, range: &KeyRange, version: u64) -> Result<(), ReadError>
        ensures allowed { OnOk result (must_refuse self.now range.now version → ⊥) }
        ensures refused { IfErr result (λ error. may_refuse self.now range.now version error) };

    /// With what a part of a range may be refused the whole may be too, unless it always is.
    ghost narrows: { (snapshot : Self) (whole part : Range) (version : ℕ) (error : Refused) →
        IsPart part whole → may_refuse snapshot part version error →
        may_refuse snapshot whole version error ⊎ must_refuse snapshot whole version };
}

/// One map, which stands at each version and refuses no read but where memory runs out.
impl Snapshot for KvMap {
    ghost map_at = { λ stored version. stored };

    ghost may_refuse = { λ stored. NeverRefuses };

    ghost must_refuse = { λ stored range version. ⊥ };

    ghost narrows = { λ stored whole part version error inside refused. absurd refused };

    fn read(
        &self,
        range: &KeyRange,
        _version: u64,
        limit: usize,
        reverse: bool,
    ) -> Result<Vec<Pair>, ReadError> {
        let pairs = self.range(range, limit, reverse)?;
        Ok(pairs)
    }

    fn value(&self, key: &Bytes, _version: u64) -> Result<Option<Bytes>, ReadError> {
        match self.get(key) {
            Some(value) => Ok(Some(value.copy()?)),
            None => Ok(None),
        }
    }

    fn check(&self, _range: &KeyRange, _version: u64) -> Result<(), ReadError> {
        Ok(())
    }
}
