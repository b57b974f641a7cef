// The errors of calls on schemas and records. Used by `schema`, `index_change`, `record` and
// `written`, and by whoever calls these.
ghost use Rattle.std.specs.Prelude.{◌≡◌};
ghost use Rattle.metadata.specs.declared.refusal.MetadataError.TheVariants.{Memory};

use std::alloc::{AllocError, AllocFailed};
use thiserror::Error;

/// Why what is asked of schemas and records is refused.
#[derive(Clone, Copy, Debug, PartialEq, Eq, Drop, Error)]
pub enum Refusal {
    /// A name isn't 1 to 32 of `a-z A-Z 0-9 _`.
    #[error("a name isn't 1 to 32 of a-z A-Z 0-9 _")]
    BadName,
    /// A name is given twice, or stands already.
    #[error("a name is given twice, or stands already")]
    NameTaken,
    /// The schema has no type of this name.
    #[error("there is no type of this name")]
    UnknownType,
    /// The schema has no index of this name.
    #[error("there is no index of this name")]
    UnknownIndex,
    /// The type has no field of this name.
    #[error("the type has no field of this name")]
    UnknownField,
    /// A cell isn't of its field's kind, or there are not as many cells as fields; or a SUM is over
    /// a field that isn't a whole number.
    #[error("a cell isn't of its field's kind, or there are not as many cells as fields")]
    WrongKind,
    /// A key field is null.
    #[error("a key field is null")]
    NullKey,
    /// A type has no key field, or one twice; an index has a column twice, a VALUE has none, or a
    /// summed field stands where there is none to be, or is wanting; or bytes are those of no
    /// schema.
    #[error("the schema isn't one")]
    BadSchema,
    /// More types, fields, key fields, indexes or columns than there may be, or no index number is left.
    #[error("there are more types, fields, key fields, indexes or columns than there may be")]
    TooMany,
}

/// Why a call on schemas and records isn't answered.
#[derive(Debug, Drop, Error)]
pub enum MetadataError {
    /// Memory is wanting.
    #[error("out of memory")]
    Memory,
    /// The call is refused.
    #[error("{0}")]
    Refused(Refusal),
}

impl From<AllocError> for MetadataError {
    ghost from_gives = { λ _ error. error ≡ Memory };

    fn from(_error: AllocError) -> MetadataError {
        MetadataError::Memory
    }
}

impl<T: Drop> From<AllocFailed<T>> for MetadataError {
    ghost from_gives = { λ _ error. error ≡ Memory };

    fn from(_error: AllocFailed<T>) -> MetadataError {
        MetadataError::Memory
    }
}
