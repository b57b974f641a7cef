// What keeping an index writes. Run as a test.
use index_maint::{Maintainer, ValueIndex};
use kv_core::Mutation;
use metadata::{IndexDefinition, Record, Schema};
use std::alloc::Global;
use std::test::Fail;
use test_parts::{are_mutations, cells_asked, schema_asked, text_of};

/// What the store's keys begin with.
const PREFIX: [u8; 2] = [0x15, 0x01];

/// The schema of the type t of whole numbers k, a and b, whose key is k, with an index over a.
const SCHEMA: &str = r#"{
    "types":[{"name":"t","fields":[["k","int"],["a","int"],["b","int"]],"key":["k"]}],
    "indexes":[{"name":"i","kind":"value","type":"t","columns":["a"]}]
}"#;

/// A record and the one that comes in its place, and what the index writes: the old entry goes and the new one comes,
/// or neither.
static WRITTEN: [(&str, &str, &str); 2] = [
    (
        "[1,5,0]",
        "[1,6,7]",
        "150115021501150515011501-15011502150115051501150100 150115021501150615011501=",
    ),
    ("[1,5,0]", "[1,5,7]", ""),
];

fn record_asked(alloc: Global, schema: &Schema, cells: &str) -> Result<Record, Fail> {
    let name = text_of(alloc, "t")?;
    let record = Record::new(alloc, schema, &name, cells_asked(alloc, cells)?)?;
    Ok(record.copy()?)
}

/// What a maintainer writes where a record gives way to another one.
fn changes<M: Maintainer>(
    alloc: Global,
    index: &IndexDefinition,
    old: &Record,
    new: &Record,
) -> Result<Vec<Mutation>, Fail> {
    let (old, new) = (old.lend(), new.lend());
    Ok(M::changes(alloc, &PREFIX, index, Some(&old), Some(&new))?)
}

/// What the first index of a schema writes.
fn written(alloc: Global, schema: &Schema, old: &str, new: &str) -> Result<Vec<Mutation>, Fail> {
    let index = schema.indexes().first().ok_or("no index")?;
    let old = record_asked(alloc, schema, old)?;
    let new = record_asked(alloc, schema, new)?;
    changes::<ValueIndex>(alloc, index, &old, &new)
}

#[test]
fn entries_follow_records(rt: HostRuntime) -> Result<(), Fail> {
    let schema = schema_asked(rt.alloc(), SCHEMA)?;
    for (old, new, told) in &WRITTEN {
        let found = written(rt.alloc(), &schema, old, new)?;
        are_mutations(rt.alloc(), &found, told)?;
    }
    Ok(())
}
