// The texts of errors. Run as a test.
use cluster_core::{ConfigError, ReadError, Reported, SubmitError};
use commits::HoldError;
use explain::ExplainError;
use kv_core::{Bytes, WriteError};
use metadata::{MetadataError, Refusal};
use plan_exec::ExecError;
use planner::PlanError;
use query::QueryError;
use record_store::StoreError;
use std::alloc::{AllocError, Global};
use std::fmt::Display;
use std::test::Fail;
use test_parts::same;
use tuple_codec::{StripError, UnpackError, UnpackErrorKind, UnpackFailure};

/// An error of any of the libraries.
#[derive(Clone, Copy)]
enum AnyError {
    Write(WriteError),
    Config(ConfigError),
    Submit(SubmitError),
    Read(ReadError),
    Held(SubmitError),
    HeldUnknown,
    HeldBehind,
    Schema(Refusal),
    Metadata(Refusal),
    MetadataMemory,
    StoreMemory,
    StoreRead(ReadError),
    StoreWrite(WriteError),
    StoreCorrupt,
    StoreRefused(Refusal),
    NoStore,
    AlreadyThere,
    OtherSchema,
    NotAggregate,
    NotReadable,
    WrongState,
    NotBuilt,
    ExecSchema,
    ExecIndex,
    ExecRead(ReadError),
    ExecCorrupt,
    ExecMemory,
    Unpack(UnpackError),
    Failure(UnpackFailure),
    Strip(StripError),
    Query(QueryError),
    Plan(PlanError),
    Explain(ExplainError),
}

const TRUNCATED: UnpackError = UnpackError {
    at: 7,
    kind: UnpackErrorKind::Truncated,
};

/// Every error, and its text.
static TEXTS: [(AnyError, &str); 65] = [
    (
        AnyError::Write(WriteError::KeyOutside),
        "the key lies outside the keys, which end before the byte FF",
    ),
    (
        AnyError::Write(WriteError::KeyTooLarge),
        "the key is too large",
    ),
    (
        AnyError::Write(WriteError::ValueTooLarge),
        "the value is too large",
    ),
    (
        AnyError::Write(WriteError::TransactionTooLarge),
        "the transaction is too large",
    ),
    (AnyError::Write(WriteError::Memory), "out of memory"),
    (
        AnyError::Config(ConfigError::BadCount),
        "the number of a role or the window is out of its bounds",
    ),
    (
        AnyError::Config(ConfigError::BadSplits),
        "the splits don't rise, or one of them is empty, too long or beyond the keys",
    ),
    (AnyError::Config(ConfigError::Memory), "out of memory"),
    (
        AnyError::Submit(SubmitError::VersionsExhausted),
        "there is no version left",
    ),
    (
        AnyError::Submit(SubmitError::TooOld),
        "the request read too long ago",
    ),
    (AnyError::Submit(SubmitError::Memory), "out of memory"),
    (
        AnyError::Read(ReadError::FutureVersion),
        "the version isn't there yet",
    ),
    (
        AnyError::Read(ReadError::TooOld),
        "the version lies too long ago",
    ),
    (AnyError::Read(ReadError::Memory), "out of memory"),
    (
        AnyError::Held(SubmitError::VersionsExhausted),
        "there is no version left",
    ),
    (
        AnyError::HeldUnknown,
        "out of memory before the request was reported",
    ),
    (
        AnyError::HeldBehind,
        "out of memory before the servers had pulled the request",
    ),
    (
        AnyError::Schema(Refusal::BadName),
        "a name isn't 1 to 32 of a-z A-Z 0-9 _",
    ),
    (
        AnyError::Schema(Refusal::NameTaken),
        "a name is given twice, or stands already",
    ),
    (
        AnyError::Schema(Refusal::UnknownType),
        "there is no type of this name",
    ),
    (
        AnyError::Schema(Refusal::UnknownIndex),
        "there is no index of this name",
    ),
    (
        AnyError::Schema(Refusal::UnknownField),
        "the type has no field of this name",
    ),
    (
        AnyError::Schema(Refusal::WrongKind),
        "a cell isn't of its field's kind, or there are not as many cells as fields",
    ),
    (AnyError::Schema(Refusal::NullKey), "a key field is null"),
    (AnyError::Schema(Refusal::BadSchema), "the schema isn't one"),
    (
        AnyError::Schema(Refusal::TooMany),
        "there are more types, fields, key fields, indexes or columns than there may be",
    ),
    (AnyError::Metadata(Refusal::NullKey), "a key field is null"),
    (AnyError::MetadataMemory, "out of memory"),
    (AnyError::StoreMemory, "out of memory"),
    (
        AnyError::StoreRead(ReadError::TooOld),
        "the version lies too long ago",
    ),
    (
        AnyError::StoreWrite(WriteError::KeyTooLarge),
        "the key is too large",
    ),
    (
        AnyError::StoreCorrupt,
        "the pair of the key 1501ff isn't one that a store has there",
    ),
    (
        AnyError::StoreRefused(Refusal::UnknownType),
        "there is no type of this name",
    ),
    (AnyError::NoStore, "there is no store"),
    (AnyError::AlreadyThere, "the store is there already"),
    (
        AnyError::OtherSchema,
        "the record's type isn't that of the store's schema",
    ),
    (
        AnyError::NotAggregate,
        "the index is neither a COUNT nor a SUM index",
    ),
    (AnyError::NotReadable, "the index isn't readable"),
    (AnyError::WrongState, "the index isn't write-only"),
    (
        AnyError::NotBuilt,
        "not every position of the index is built",
    ),
    (
        AnyError::ExecSchema,
        "the plan's type isn't that of the store's schema",
    ),
    (AnyError::ExecIndex, "an index of the plan isn't readable"),
    (
        AnyError::ExecRead(ReadError::TooOld),
        "the version lies too long ago",
    ),
    (
        AnyError::ExecCorrupt,
        "the pair of the key 1501ff isn't one that a store has there",
    ),
    (AnyError::ExecMemory, "out of memory"),
    (AnyError::Unpack(TRUNCATED), "Truncated at 7"),
    (AnyError::Failure(UnpackFailure::Memory), "out of memory"),
    (
        AnyError::Failure(UnpackFailure::Refused(TRUNCATED)),
        "refused: Truncated at 7",
    ),
    (AnyError::Strip(StripError::Memory), "out of memory"),
    (AnyError::Strip(StripError::Outside), "outside the subspace"),
    (
        AnyError::Strip(StripError::Bad(TRUNCATED)),
        "refused behind the prefix: Truncated at 7",
    ),
    (
        AnyError::Query(QueryError::UnknownType),
        "there is no type of this name",
    ),
    (
        AnyError::Query(QueryError::TooDeep),
        "the filter has more than 32 levels",
    ),
    (
        AnyError::Query(QueryError::TooLarge),
        "the filter has more than 256 nodes, or there are more than 8 sort fields",
    ),
    (
        AnyError::Query(QueryError::UnknownField),
        "the type has no field of this name",
    ),
    (
        AnyError::Query(QueryError::WrongKind),
        "a value isn't of its field's kind",
    ),
    (
        AnyError::Query(QueryError::SortTwice),
        "a sort field stands twice",
    ),
    (
        AnyError::Plan(PlanError::SortNotServed),
        "neither the primary key nor an index serves the sort",
    ),
    (AnyError::Plan(PlanError::Memory), "out of memory"),
    (AnyError::Explain(ExplainError::BadForm), "bad form"),
    (
        AnyError::Explain(ExplainError::BadSchema(Refusal::NullKey)),
        "a key field is null",
    ),
    (
        AnyError::Explain(ExplainError::UnknownIndex),
        "there is no index of this name",
    ),
    (
        AnyError::Explain(ExplainError::BadQuery(QueryError::SortTwice)),
        "a sort field stands twice",
    ),
    (
        AnyError::Explain(ExplainError::SortNotServed),
        "neither the primary key nor an index serves the sort",
    ),
    (
        AnyError::Explain(ExplainError::OutOfMemory),
        "out of memory",
    ),
];

/// A key under the states of the store that the schedules use.
fn damaged_key(alloc: Global) -> Result<Bytes, AllocError> {
    Ok(Bytes::new(Vec::from_slice(alloc, &[0x15, 0x01, 0xff])?))
}

/// The text of an error, which is let go.
fn text<E: Display + Drop>(alloc: Global, error: E) -> Result<String, AllocError> {
    error.to_string(alloc)
}

fn printed(alloc: Global, error: AnyError) -> Result<String, AllocError> {
    match error {
        AnyError::Write(error) => text(alloc, error),
        AnyError::Config(error) => text(alloc, error),
        AnyError::Submit(error) => text(alloc, error),
        AnyError::Read(error) => text(alloc, error),
        AnyError::Held(error) => text(alloc, HoldError::Submit(error)),
        AnyError::HeldUnknown => text(alloc, HoldError::Unknown),
        AnyError::HeldBehind => text(alloc, HoldError::Behind(Reported::NothingToDo)),
        AnyError::Schema(refusal) => text(alloc, refusal),
        AnyError::Metadata(refusal) => text(alloc, MetadataError::Refused(refusal)),
        AnyError::MetadataMemory => text(alloc, MetadataError::Memory),
        AnyError::StoreMemory => text(alloc, StoreError::Memory),
        AnyError::StoreRead(error) => text(alloc, StoreError::Read(error)),
        AnyError::StoreWrite(error) => text(alloc, StoreError::Write(error)),
        AnyError::StoreCorrupt => text(alloc, StoreError::Corrupt(damaged_key(alloc)?)),
        AnyError::StoreRefused(refusal) => text(alloc, StoreError::Refused(refusal)),
        AnyError::NoStore => text(alloc, StoreError::NoStore),
        AnyError::AlreadyThere => text(alloc, StoreError::AlreadyThere),
        AnyError::OtherSchema => text(alloc, StoreError::OtherSchema),
        AnyError::NotAggregate => text(alloc, StoreError::NotAggregate),
        AnyError::NotReadable => text(alloc, StoreError::NotReadable),
        AnyError::WrongState => text(alloc, StoreError::WrongState),
        AnyError::NotBuilt => text(alloc, StoreError::NotBuilt),
        AnyError::ExecSchema => text(alloc, ExecError::OtherSchema),
        AnyError::ExecIndex => text(alloc, ExecError::IndexNotReadable),
        AnyError::ExecRead(error) => text(alloc, ExecError::Read(error)),
        AnyError::ExecCorrupt => text(alloc, ExecError::Corrupt(damaged_key(alloc)?)),
        AnyError::ExecMemory => text(alloc, ExecError::Memory),
        AnyError::Unpack(error) => text(alloc, error),
        AnyError::Failure(error) => text(alloc, error),
        AnyError::Strip(error) => text(alloc, error),
        AnyError::Query(error) => text(alloc, error),
        AnyError::Plan(error) => text(alloc, error),
        AnyError::Explain(error) => text(alloc, error),
    }
}

#[test]
fn errors_are_printed(rt: HostRuntime) -> Result<(), Fail> {
    for (error, text) in &TEXTS {
        same(printed(rt.alloc(), *error)?.as_str(), text)?;
    }
    Ok(())
}
