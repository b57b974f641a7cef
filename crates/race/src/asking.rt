// The query that a race ends with, and whether its index counts all. Called by `telling`.
ghost use Rattle.std.specs.Prelude.{◌≡◌, IfOk};
ghost use Rattle.std.specs.Option.{option_copied};
ghost use Rattle.std.specs.Str.{bytes_eq};
ghost use Rattle.query.specs.View.{query_of};
ghost use Rattle.race.specs.Racing.{all_records, counts_all, first_named, key_fields};

use metadata::{IndexKind, IndexRequest, Names, TypeRequest};
use query::{Filter, Query};
use script::Race;
use std::alloc::{AllocError, Global};

// Whether a type has this name.
fn is_named(one: &TypeRequest, name: &str) -> bool
    ensures { result ≡ bytes_eq one.now.name name.now }
{
    one.name.as_str() == name
}

// The first type of this name.
fn first_named<'a>(types: &'a [TypeRequest], name: &str) -> Option<&'a TypeRequest>
    ensures { option_copied result ≡ first_named types.now name.now }
{
    types.iter().find(|one| is_named(one, name))
}

// The names of the key fields of the type of this name, none where there is no such type.
fn key_fields(alloc: Global, types: &[TypeRequest], name: &str) -> Result<Names, AllocError>
    ensures { IfOk result (λ names. names ≡ key_fields types.now name.now) }
{
    match first_named(types, name) {
        Some(one) => one.key.copy(),
        None => Ok(Names::new(Vec::new(alloc))),
    }
}

/// The query for all records of a race's type, in the order of their primary keys.
pub fn all_records(alloc: Global, race: &Race) -> Result<Query, AllocError>
    ensures { IfOk result (λ query. query_of query ≡ all_records race.now) }
{
    let sort = key_fields(alloc, race.schema.types(), race.record_type.as_str())?;
    let record_type = race.record_type.copy()?;
    Ok(Query {
        record_type,
        filter: Filter::And(Vec::new(alloc)),
        sort,
        reverse: false,
    })
}

/// Whether an index counts all records together.
pub fn counts_all(index: &IndexRequest) -> bool
    ensures { result ≡ counts_all index.now }
{
    matches!(index.kind, IndexKind::Count) && index.columns.as_slice().is_empty()
}
