// The store of a work, and the database before it. Called by `calls`.
use cluster_core::{Config, Splits};
use metadata::{Field, Fields, IndexKind, IndexRequest, Kind, Names, SchemaRequest, TypeRequest};
use schedule::{Command, Schedule};
use std::alloc::{AllocError, Global};
use tuple_codec::Text;

/// A database of no steps, as a script without a configuration has it.
pub fn begun(alloc: Global) -> Option<Schedule> {
    let config = Config {
        resolver_splits: Splits::new(Vec::new(alloc)),
        storage_splits: Splits::new(Vec::new(alloc)),
        logs: 1,
        window: 1_000,
        start: 0,
        places: 4,
    };
    Schedule::new(alloc, &config).ok()
}

fn names(alloc: Global, words: &[&str]) -> Result<Names, AllocError> {
    let mut names = Vec::new(alloc);
    for word in words {
        names.push(Text::from_str(alloc, word)?)?;
    }
    Ok(Names::new(names))
}

fn index(alloc: Global, name: &str, columns: &[&str]) -> Result<IndexRequest, AllocError> {
    Ok(IndexRequest {
        name: Text::from_str(alloc, name)?,
        kind: IndexKind::Value,
        type_name: Text::from_str(alloc, "t")?,
        columns: names(alloc, columns)?,
        summed: None,
        clear_when_zero: false,
    })
}

fn field(alloc: Global, name: &str, kind: Kind) -> Result<Field, AllocError> {
    let name = Text::from_str(alloc, name)?;
    Ok(Field { name, kind })
}

// The type of the records, whose last field is of this kind.
fn type_of(alloc: Global, last: Kind) -> Result<TypeRequest, AllocError> {
    let mut fields = Vec::new(alloc);
    fields.push(field(alloc, "k", Kind::Int)?)?;
    fields.push(field(alloc, "a", Kind::Int)?)?;
    fields.push(field(alloc, "b", last)?)?;
    Ok(TypeRequest {
        name: Text::from_str(alloc, "t")?,
        fields: Fields::new(fields),
        key: names(alloc, &["k"])?,
    })
}

/// Makes the store, with so many of its two indexes.
pub fn create(alloc: Global, last: Kind, indexes: u64) -> Result<Command, AllocError> {
    let mut types = Vec::new(alloc);
    types.push(type_of(alloc, last)?)?;
    let mut made = Vec::new(alloc);
    if indexes >= 1 {
        made.push(index(alloc, "by_a", &["a"])?)?;
    }
    if indexes >= 2 {
        made.push(index(alloc, "by_b", &["b", "a"])?)?;
    }
    Ok(Command::Create(SchemaRequest::new(types, made)))
}
