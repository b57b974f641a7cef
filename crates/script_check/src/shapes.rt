// The keys that objects may have, and what stands there. Called by `checking` and `places`.
use crate::parts::Part;

// The keys of each object, those that it must have first.
static SCRIPT: [&str; 2] = ["steps", "config"];

static RACE: [&str; 7] = [
    "schema", "type", "before", "index", "limit", "clients", "config",
];

static PLAN: [&str; 3] = ["schema", "query", "states"];

static CONFIG: [&str; 6] = [
    "logs",
    "window",
    "start",
    "places",
    "resolver_splits",
    "storage_splits",
];

static SCHEMA: [&str; 2] = ["types", "indexes"];

static TYPE: [&str; 3] = ["name", "fields", "key"];

static INDEX: [&str; 4] = ["name", "kind", "type", "columns"];

static COUNT: [&str; 5] = ["name", "kind", "type", "columns", "clear_when_zero"];

static SUM: [&str; 5] = ["name", "kind", "type", "columns", "summed"];

static QUERY: [&str; 4] = ["type", "filter", "sort", "reverse"];

/// An object whose keys are known.
#[derive(Clone, Copy, Debug, PartialEq, Eq, Drop)]
pub(crate) enum Shape {
    /// A script.
    Script,
    /// A race.
    Race,
    /// What a plan is asked for with.
    Plan,
    /// The configuration of a script.
    Config,
    /// That of a race.
    RaceConfig,
    /// A schema.
    Schema,
    /// A type.
    Type,
    /// An index that is no COUNT and no SUM.
    Index,
    /// An index that counts.
    Count,
    /// One that sums a field.
    Sum,
    /// A query.
    Query,
}

impl Shape {
    /// What a key of it is called in a message.
    pub(crate) fn key_words(self) -> &'static str {
        match self {
            Shape::Script => "key of a script",
            Shape::Race => "key of a race",
            Shape::Plan => "key beside a query",
            Shape::Config | Shape::RaceConfig => "key of a configuration",
            Shape::Schema => "key of a schema",
            Shape::Type => "key of a type",
            Shape::Index => "key of a value index",
            Shape::Count => "key of a count",
            Shape::Sum => "key of a sum",
            Shape::Query => "key of a query",
        }
    }

    /// Its keys, those that it must have first.
    pub(crate) fn keys(self) -> &'static [&'static str] {
        match self {
            Shape::Script => &SCRIPT,
            Shape::Race => &RACE,
            Shape::Plan => &PLAN,
            Shape::Config | Shape::RaceConfig => &CONFIG,
            Shape::Schema => &SCHEMA,
            Shape::Type => &TYPE,
            Shape::Index => &INDEX,
            Shape::Count => &COUNT,
            Shape::Sum => &SUM,
            Shape::Query => &QUERY,
        }
    }

    /// How many of its keys it must have.
    pub(crate) fn needed(self) -> usize {
        match self {
            Shape::Config | Shape::RaceConfig => 0,
            Shape::Script | Shape::Schema | Shape::Query => 1,
            Shape::Plan => 2,
            Shape::Type => 3,
            Shape::Index | Shape::Count => 4,
            Shape::Sum => 5,
            Shape::Race => 6,
        }
    }

    /// What stands at a key of it.
    pub(crate) fn part_at(self, key: &str) -> Option<Part> {
        match self {
            Shape::Script => script_part(key),
            Shape::Race => race_part(key),
            Shape::Plan => plan_part(key),
            Shape::Config => config_part(key, 1),
            Shape::RaceConfig => config_part(key, 4),
            Shape::Schema => schema_part(key),
            Shape::Type => type_part(key),
            Shape::Index => index_part(key),
            Shape::Count if key == "clear_when_zero" => Some(Part::Flag),
            Shape::Sum if key == "summed" => Some(Part::FieldName),
            Shape::Count | Shape::Sum => index_part(key),
            Shape::Query => query_part(key),
        }
    }
}

fn script_part(key: &str) -> Option<Part> {
    match key {
        "steps" => Some(Part::Steps),
        "config" => Some(Part::Config),
        _ => None,
    }
}

fn race_part(key: &str) -> Option<Part> {
    match key {
        "schema" => Some(Part::Schema),
        "type" => Some(Part::TypeName),
        "before" => Some(Part::Rows),
        "index" => Some(Part::Index),
        "limit" => Some(Part::Whole(1, u32::MAX as u64)),
        "clients" => Some(Part::Racers),
        "config" => Some(Part::RaceConfig),
        _ => None,
    }
}

fn plan_part(key: &str) -> Option<Part> {
    match key {
        "schema" => Some(Part::Schema),
        "query" => Some(Part::Query),
        "states" => Some(Part::States),
        _ => None,
    }
}

// What stands at a key of a configuration that has so many places at least.
fn config_part(key: &str, places: u64) -> Option<Part> {
    match key {
        "resolver_splits" | "storage_splits" => Some(Part::Splits),
        "logs" => Some(Part::Whole(1, 16)),
        "window" => Some(Part::Whole(1, 1_000_000)),
        "start" => Some(Part::Whole(0, u64::MAX)),
        "places" => Some(Part::Whole(places, 16)),
        _ => None,
    }
}

fn schema_part(key: &str) -> Option<Part> {
    match key {
        "types" => Some(Part::Types),
        "indexes" => Some(Part::Indexes),
        _ => None,
    }
}

fn type_part(key: &str) -> Option<Part> {
    match key {
        "name" => Some(Part::TypeName),
        "fields" => Some(Part::Fields),
        "key" => Some(Part::FieldNames),
        _ => None,
    }
}

fn index_part(key: &str) -> Option<Part> {
    match key {
        "name" => Some(Part::IndexName),
        "kind" => Some(Part::IndexKind),
        "type" => Some(Part::TypeName),
        "columns" => Some(Part::FieldNames),
        _ => None,
    }
}

fn query_part(key: &str) -> Option<Part> {
    match key {
        "type" => Some(Part::TypeName),
        "filter" => Some(Part::Filter),
        "sort" => Some(Part::FieldNames),
        "reverse" => Some(Part::Flag),
        _ => None,
    }
}
