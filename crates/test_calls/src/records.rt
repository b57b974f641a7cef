// Records read from bytes. Run as a test.
use metadata::{Record, Schema, TypeDefinition};
use std::alloc::{AllocError, Global};
use std::test::Fail;
use test_parts::{bytes_of, schema_asked, tells};

/// The schema of the type t of whole numbers k, a and b, whose key is k.
const SCHEMA: &str =
    r#"{"types":[{"name":"t","fields":[["k","int"],["a","int"],["b","int"]],"key":["k"]}]}"#;

/// The pack of a primary key and that of cells: whether they are those of a record of the type t, by both readers.
static READ: [(&str, &str, &str); 6] = [
    ("15011501", "1501150500", "(true, true)"),
    // Another key, another type's key, a text, no k, and bytes cut off.
    ("15011502", "1501150500", "(false, false)"),
    ("15021501", "1501150500", "(false, false)"),
    ("15011501", "150102780000", "(false, false)"),
    ("150100", "00150500", "(false, false)"),
    ("15011501", "150115", "(false, false)"),
];

/// Whether bytes are those of a record of a type, as its two readers tell.
fn are_one(
    alloc: Global,
    definition: &TypeDefinition,
    key: &[u8],
    value: &[u8],
) -> Result<(bool, bool), AllocError> {
    let is_record = Record::decode(alloc, definition, key, value)?.is_some();
    let has_cells = definition.cells_in(alloc, key, value)?.is_some();
    Ok((is_record, has_cells))
}

fn read(alloc: Global, schema: &Schema, key: &str, value: &str, told: &str) -> Result<(), Fail> {
    let definition = schema.types().first().ok_or("no type")?;
    let key = bytes_of(alloc, key)?;
    let value = bytes_of(alloc, value)?;
    let found = are_one(alloc, definition, key.as_slice(), value.as_slice())?;
    tells(alloc, &found, told)
}

#[test]
fn records_are_read(rt: HostRuntime) -> Result<(), Fail> {
    let schema = schema_asked(rt.alloc(), SCHEMA)?;
    for (key, value, told) in &READ {
        read(rt.alloc(), &schema, key, value, told)?;
    }
    Ok(())
}
