// The refusals of steps and commands. Used by the modules here that reply, and by `runtime`, `race`
// and `recordctl`; `script` prints their names.
ghost use Rattle.std.specs.Prelude.{◌≡◌};
ghost use Rattle.schedule.specs.Refusals.{of_query, of_schema, refusal_name};

use metadata::Refusal as SchemaRefusal;
use query::QueryError;

/// Why a step is refused. A refused step changes nothing, but that a refused commit ends its
/// transaction.
#[derive(Clone, Copy, Debug, PartialEq, Eq, Drop)]
pub enum Refusal {
    /// There is no client of this number.
    NoSuchClient,
    /// There is no store of this number.
    NoSuchStore,
    /// There is no role of this number.
    NoSuchRole,
    /// The client has an open transaction.
    Busy,
    /// The client has no open transaction.
    NoTransaction,
    /// The client keeps no plan.
    NoPlan,
    /// A name isn't 1 to 32 of `a-z A-Z 0-9 _`.
    BadName,
    /// A name is given twice, or stands already.
    NameTaken,
    /// The schema has no type of this name.
    UnknownType,
    /// The schema has no index of this name.
    UnknownIndex,
    /// The type has no field of this name.
    UnknownField,
    /// A cell isn't of its field's kind, or there are not as many cells as fields; or a SUM is over
    /// a field that isn't a whole number.
    WrongKind,
    /// A key field is null.
    NullKey,
    /// A type has no key field, or one twice; an index has a column twice, a VALUE has none, or a
    /// summed field stands where there is none to be, or is lacking.
    BadSchema,
    /// More types, fields, key fields, indexes or columns than there may be, or no index number is
    /// left.
    TooMany,
    /// A filter has more than 32 levels.
    TooDeep,
    /// A filter has more than 256 nodes, or a query has more than 8 sort fields.
    TooLarge,
    /// A sort field stands twice.
    SortTwice,
    /// Neither the primary key nor a readable VALUE index of the type serves the sort.
    SortNotServed,
    /// The store is there already.
    AlreadyThere,
    /// There is no store.
    NoStore,
    /// The record's or the plan's type isn't that of the store's schema.
    OtherSchema,
    /// An index of the plan isn't there with its definition, or isn't readable.
    IndexNotReadable,
    /// The index is a VALUE index, which has no totals.
    NotAggregate,
    /// The index isn't readable.
    NotReadable,
    /// The index isn't write-only.
    WrongState,
    /// Not every position of the index is built.
    NotBuilt,
    /// A step of a builder is to build no record.
    BadLimit,
    /// A server doesn't have the version yet.
    FutureVersion,
    /// The version lies longer ago than the window allows.
    TooOld,
    /// The last version was given.
    VersionsExhausted,
    /// A key lies outside the keys of the database.
    KeyOutside,
    /// A key is too large.
    KeyTooLarge,
    /// A value is too large.
    ValueTooLarge,
    /// The transaction's mutations are too large together.
    TransactionTooLarge,
}

impl From<SchemaRefusal> for Refusal {
    ghost from_gives = { λ refusal made. made ≡ of_schema refusal };

    fn from(refusal: SchemaRefusal) -> Refusal {
        match refusal {
            SchemaRefusal::BadName => Refusal::BadName,
            SchemaRefusal::NameTaken => Refusal::NameTaken,
            SchemaRefusal::UnknownType => Refusal::UnknownType,
            SchemaRefusal::UnknownIndex => Refusal::UnknownIndex,
            SchemaRefusal::UnknownField => Refusal::UnknownField,
            SchemaRefusal::WrongKind => Refusal::WrongKind,
            SchemaRefusal::NullKey => Refusal::NullKey,
            SchemaRefusal::BadSchema => Refusal::BadSchema,
            SchemaRefusal::TooMany => Refusal::TooMany,
        }
    }
}

impl From<QueryError> for Refusal {
    ghost from_gives = { λ error made. made ≡ of_query error };

    fn from(error: QueryError) -> Refusal {
        match error {
            QueryError::UnknownType => Refusal::UnknownType,
            QueryError::TooDeep => Refusal::TooDeep,
            QueryError::TooLarge => Refusal::TooLarge,
            QueryError::UnknownField => Refusal::UnknownField,
            QueryError::WrongKind => Refusal::WrongKind,
            QueryError::SortTwice => Refusal::SortTwice,
        }
    }
}

impl Refusal {
    /// The name of the refusal, as it is printed.
    pub fn name(self) -> &'static str
        ensures { result.now ≡ refusal_name self }
    {
        match self {
            Refusal::NoSuchClient => "NoSuchClient",
            Refusal::NoSuchStore => "NoSuchStore",
            Refusal::NoSuchRole => "NoSuchRole",
            Refusal::Busy => "Busy",
            Refusal::NoTransaction => "NoTransaction",
            Refusal::NoPlan => "NoPlan",
            Refusal::BadName => "BadName",
            Refusal::NameTaken => "NameTaken",
            Refusal::UnknownType => "UnknownType",
            Refusal::UnknownIndex => "UnknownIndex",
            Refusal::UnknownField => "UnknownField",
            Refusal::WrongKind => "WrongKind",
            Refusal::NullKey => "NullKey",
            Refusal::BadSchema => "BadSchema",
            Refusal::TooMany => "TooMany",
            Refusal::TooDeep => "TooDeep",
            Refusal::TooLarge => "TooLarge",
            Refusal::SortTwice => "SortTwice",
            Refusal::SortNotServed => "SortNotServed",
            Refusal::AlreadyThere => "AlreadyThere",
            Refusal::NoStore => "NoStore",
            Refusal::OtherSchema => "OtherSchema",
            Refusal::IndexNotReadable => "IndexNotReadable",
            Refusal::NotAggregate => "NotAggregate",
            Refusal::NotReadable => "NotReadable",
            Refusal::WrongState => "WrongState",
            Refusal::NotBuilt => "NotBuilt",
            Refusal::BadLimit => "BadLimit",
            Refusal::FutureVersion => "FutureVersion",
            Refusal::TooOld => "TooOld",
            Refusal::VersionsExhausted => "VersionsExhausted",
            Refusal::KeyOutside => "KeyOutside",
            Refusal::KeyTooLarge => "KeyTooLarge",
            Refusal::ValueTooLarge => "ValueTooLarge",
            Refusal::TransactionTooLarge => "TransactionTooLarge",
        }
    }
}
