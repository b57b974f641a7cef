// Cells and schemas of texts of JSON. Called by `test_calls` and `test_stores`.
use json_forms::{cells_of, schema_of};
use metadata::{Cells, Schema, SchemaRequest};
use serde_json::Value;
use std::alloc::Global;
use std::test::Fail;

/// The cells of a text of JSON.
pub fn cells_asked(alloc: Global, text: &str) -> Result<Cells, Fail> {
    let value = Value::from_str(alloc, text)?;
    Ok(cells_of(alloc, &value)?)
}

/// The schema that a text of JSON asks for.
pub fn request_asked(alloc: Global, text: &str) -> Result<SchemaRequest, Fail> {
    let value = Value::from_str(alloc, text)?;
    Ok(schema_of(alloc, &value)?)
}

/// The schema made of a text of JSON.
pub fn schema_asked(alloc: Global, text: &str) -> Result<Schema, Fail> {
    let request = request_asked(alloc, text)?;
    Ok(Schema::of_request(alloc, &request)?)
}
