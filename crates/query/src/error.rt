// The refusals of a query's check. Used by `checking`, and by the crates above that pass them on.
use thiserror::Error;

/// Why a query is refused.
#[derive(Clone, Copy, Debug, PartialEq, Eq, Error)]
pub enum QueryError {
    /// The schema has no type of this name.
    #[error("there is no type of this name")]
    UnknownType,
    /// The filter has more than 32 levels.
    #[error("the filter has more than 32 levels")]
    TooDeep,
    /// The filter has more than 256 nodes, or there are more than 8 sort fields.
    #[error("the filter has more than 256 nodes, or there are more than 8 sort fields")]
    TooLarge,
    /// The type has no field of this name.
    #[error("the type has no field of this name")]
    UnknownField,
    /// A value isn't of its field's kind, or null, or a prefix stands for a whole number.
    #[error("a value isn't of its field's kind")]
    WrongKind,
    /// A sort field stands twice.
    #[error("a sort field stands twice")]
    SortTwice,
}
