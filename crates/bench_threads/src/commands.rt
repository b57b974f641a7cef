// Commands on the type t of whole numbers k and v, whose key is k. Called by `clients`, `threads`,
// `kept_commits` and `kept_opening`.
use record_layer::CellRef::Int;
use record_layer::{Command, IndexOf, Kind, SchemaMaker, cells_of, name};
use std::alloc::{AllocError, Global};

/// Makes the store, with an index over v.
pub fn create_indexed(alloc: Global) -> Result<Command, AllocError> {
    let fields = [("k", Kind::Int), ("v", Kind::Int)];
    let asked = SchemaMaker::new(alloc).with_type("t", &fields, &["k"])?;
    let asked = asked.with_index(IndexOf::Value, "by_v", "t", &["v"])?;
    Ok(Command::Create(asked.into_request()))
}

/// Makes the store.
pub fn create(alloc: Global) -> Result<Command, AllocError> {
    let fields = [("k", Kind::Int), ("v", Kind::Int)];
    let asked = SchemaMaker::new(alloc).with_type("t", &fields, &["k"])?;
    Ok(Command::Create(asked.into_request()))
}

/// Saves a record.
pub fn save(alloc: Global, key: i64, value: i64) -> Result<Command, AllocError> {
    let cells = cells_of(alloc, &[Int(key), Int(value)])?;
    Ok(Command::Save(name(alloc, "t")?, cells))
}

/// Loads the record of a key.
pub fn load(alloc: Global, key: i64) -> Result<Command, AllocError> {
    let key = cells_of(alloc, &[Int(key)])?;
    Ok(Command::Load(name(alloc, "t")?, key))
}
