// Schemas, records, queries and plans: `json_forms`, `metadata`, `query`, `planner`, `explain` and
// `index_maint`. Called by `main` and `stores`.
ghost use Rattle.std.specs.Prelude.{◌≡◌, IfSome, None};
ghost use Rattle.query.specs.Checked.{query_refusal};
ghost use Rattle.query.specs.View.{query_of};

use explain::explain;
use index_maint::push_kept_changes;
use json_forms::{cells_text, query_of, schema_of, value_of};
use metadata::{Cell, Cells, Record, Schema, SchemaRequest, State};
use planner::{Plan, plan_query};
use query::{Query, Truth, truth};
use std::alloc::Global;
use tuple_codec::Text;

const BOOKS: &str = r#"{"types":[{"name":"book","key":["title"],
    "fields":[["title","text"],["copies","int"]]}],
    "indexes":[{"name":"by_copies","kind":"value","type":"book","columns":["copies"]}]}"#;

const MANY: &str = r#"{"type":"book","filter":[">=","copies",3],"sort":["copies"]}"#;

/// The schema that a text asks for.
pub(crate) fn asked_books(alloc: Global) -> Option<SchemaRequest> {
    schema_of(alloc, &value_of(alloc, BOOKS.as_bytes()).ok()?).ok()
}

/// The schema, made.
pub(crate) fn books(alloc: Global) -> Option<Schema> {
    Schema::of_request(alloc, &asked_books(alloc)?).ok()
}

/// The cells of a book.
fn cells(alloc: Global, title: &str, copies: i64) -> Option<Cells> {
    let title = Cell::Text(Text::from_str(alloc, title).ok()?);
    Some(Cells::new(vec![in alloc; title, Cell::Int(copies)].ok()?))
}

/// A record of the type `book`.
pub(crate) fn book(alloc: Global, schema: &Schema, title: &str, copies: i64) -> Option<Record> {
    let name = Text::from_str(alloc, "book").ok()?;
    Record::new(alloc, schema, &name, cells(alloc, title, copies)?).ok()
}

/// The query that a text asks for.
fn asked_many(alloc: Global) -> Option<Query> {
    query_of(alloc, &value_of(alloc, MANY.as_bytes()).ok()?).ok()
}

/// The query, which may be asked under the schema.
pub(crate) fn many(alloc: Global, schema: &Schema) -> Option<Query>
    ensures { IfSome result (λ query. query_refusal schema.now (query_of query) ≡ None) }
{
    let query = asked_many(alloc)?;
    query.check(schema).ok()?;
    Some(query)
}

/// How many pairs the index of a schema is to get for a record.
fn pairs(alloc: Global, schema: &Schema, new: &Record) -> Option<usize> {
    let index = schema.indexes().first()?;
    let (state, mut into) = (State::Readable, Vec::new(alloc));
    push_kept_changes(
        alloc,
        &[0x15, 0x01],
        index,
        state,
        false,
        None,
        Some(&new.lend()),
        &mut into,
    )
    .ok()?;
    Some(into.len())
}

/// What a record is as JSON, and how many pairs its index is to get.
fn book_line(alloc: Global, schema: &Schema, book: &Record) -> Option<String> {
    let pairs = pairs(alloc, schema, book)?;
    let cells = cells_text(alloc, book.cells()).ok()?;
    format!(in alloc; "metadata, json_forms, index_maint: {cells}, {pairs} pair").ok()
}

/// This of a record.
pub(crate) fn record_line(alloc: Global) -> Option<String> {
    let schema = books(alloc)?;
    book_line(alloc, &schema, &book(alloc, &schema, "Emma", 3)?)
}

/// Whether a query selects a record.
fn is_selected(alloc: Global, schema: &Schema) -> Option<bool> {
    let query = many(alloc, schema)?;
    Some(truth(&query.filter, &book(alloc, schema, "Emma", 3)?) == Truth::True)
}

/// This in a line.
pub(crate) fn truth_line(alloc: Global) -> Option<String> {
    let is_selected = is_selected(alloc, &books(alloc)?)?;
    format!(in alloc; "query: {is_selected}").ok()
}

/// The plan of a query where the first index is readable. One without a state isn't.
fn plan(alloc: Global, schema: &Schema) -> Option<Plan> {
    let query = many(alloc, schema)?;
    plan_query(alloc, schema, &[(1, State::Readable)], &query).ok()
}

/// The plan in a line.
pub(crate) fn plan_line(alloc: Global) -> Option<String> {
    let text = explain(alloc, &plan(alloc, &books(alloc)?)?).ok()?;
    format!(in alloc; "planner, explain: {text}").ok()
}
