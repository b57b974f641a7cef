// What may stand at a place. Used by every module that checks.

/// What is wanted at a place.
#[derive(Clone, Copy, Drop)]
pub(crate) enum Part {
    /// A client's number.
    Client,
    /// A store's number.
    Store,
    /// A resolver's number.
    Resolver,
    /// A log's number.
    Log,
    /// A storage server's number.
    Server,
    /// A whole number in these bounds.
    Whole(u64, u64),
    /// How much a builder builds at once in a script.
    Limit,
    /// The name of a type.
    TypeName,
    /// The name of an index.
    IndexName,
    /// The name of a field.
    FieldName,
    /// The names of fields.
    FieldNames,
    /// The name of the kind of a field.
    Kind,
    /// The name of the kind of an index.
    IndexKind,
    /// The name of an index's state.
    State,
    /// Whether an order is turned round.
    Flag,
    /// A cell.
    Cell,
    /// The cells of a record.
    Cells,
    /// The cells of a key.
    KeyCells,
    /// The cells of a group.
    GroupCells,
    /// The cells of some records.
    Rows,
    /// The cells of the records of two clients.
    Racers,
    /// A field: its name and its kind.
    Field,
    /// Fields.
    Fields,
    /// A type.
    Type,
    /// Types.
    Types,
    /// An index.
    Index,
    /// Indexes.
    Indexes,
    /// A schema.
    Schema,
    /// A filter.
    Filter,
    /// A query.
    Query,
    /// A split of the keys, in hexadecimal digits.
    Split,
    /// Splits of the keys.
    Splits,
    /// A configuration for a script.
    Config,
    /// A configuration for a race.
    RaceConfig,
    /// States by the names of indexes.
    States,
    /// A step of a script.
    Step,
    /// The steps of a script.
    Steps,
}

impl Part {
    /// What it is called in a message.
    pub(crate) fn words(self) -> &'static str {
        match self {
            Part::Client => "a client",
            Part::Store => "a store",
            Part::Resolver => "a resolver",
            Part::Log => "a log",
            Part::Server => "a storage server",
            Part::Whole(_, _) => "a whole number",
            Part::Limit => "a limit",
            Part::TypeName => "a type's name",
            Part::IndexName => "an index's name",
            Part::FieldName => "a field's name",
            Part::FieldNames => "a list of fields' names",
            Part::Kind => "the name of a field's kind",
            Part::IndexKind => "the name of an index's kind",
            Part::State => "the name of a state",
            Part::Flag => "true or false",
            Part::Cell => "a cell",
            Part::Cells => "cells",
            Part::KeyCells => "a key's cells",
            Part::GroupCells => "a group's cells",
            Part::Rows => "a list of records",
            Part::Racers => "the records of two clients",
            Part::Field => "a field",
            Part::Fields => "a list of fields",
            Part::Type => "a type",
            Part::Types => "a list of types",
            Part::Index => "an index",
            Part::Indexes => "a list of indexes",
            Part::Schema => "a schema",
            Part::Filter => "a filter",
            Part::Query => "a query",
            Part::Split => "a text of hexadecimal digits",
            Part::Splits => "a list of splits",
            Part::Config | Part::RaceConfig => "a configuration",
            Part::States => "an object of states",
            Part::Step => "a step",
            Part::Steps => "a list of steps",
        }
    }
}
