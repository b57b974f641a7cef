// The schema of a store of books. Called by `copies`.
use record_layer::IndexOf::Value;
use record_layer::{Kind, MetadataError, Schema, SchemaMaker};
use std::alloc::Global;

/// Books by their titles, with how many copies there are of each, and an index by that number.
pub(crate) fn books(alloc: Global) -> Result<Schema, MetadataError> {
    let fields = [("title", Kind::Text), ("copies", Kind::Int)];
    SchemaMaker::new(alloc)
        .with_type("book", &fields, &["title"])?
        .with_index(Value, "by_copies", "book", &["copies"])?
        .into_schema()
}
