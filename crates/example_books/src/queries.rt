// A query, planned and executed. Called by `main`.
use record_layer::CellRef::Int;
use record_layer::{
    Error, Operator, Plan, QueryMaker, Record, Session, compare, explain, int_named, text_named,
};
use std::alloc::{AllocError, Global};

/// The query for the books of which there are at least so many copies, the most first.
fn at_least(alloc: Global, copies: i64) -> Result<QueryMaker, AllocError> {
    let many = compare(alloc, "copies", Operator::AtLeast, Int(copies))?;
    let asked = QueryMaker::of(alloc, "book")?.with_filter(many);
    Ok(asked.sorted_by(alloc, &["copies"])?.reversed())
}

/// A book in a line.
fn book_line(alloc: Global, book: &Record) -> Result<String, AllocError> {
    match (text_named(book, "title"), int_named(book, "copies")) {
        (Some(title), Some(copies)) => {
            let title = title.as_str();
            format!(in alloc; "{title}: {copies} copies")
        }
        _ => String::from_str(alloc, "a book without its copies"),
    }
}

/// Adds a plan, and the books that it has found, in a line each.
fn push_lines(
    alloc: Global,
    plan: &Plan,
    found: &[Record],
    lines: &mut Vec<String>,
) -> Result<(), Error> {
    lines.push(explain(alloc, plan)?)?;
    for book in found {
        lines.push(book_line(alloc, book)?)?;
    }
    Ok(())
}

/// Adds the plan that finds the books of which there are at least so many copies, and these books,
/// in a line each.
pub(crate) fn push_books(
    alloc: Global,
    session: &mut Session<'_>,
    copies: i64,
    lines: &mut Vec<String>,
) -> Result<(), Error> {
    let plan = session.plan(at_least(alloc, copies)?)?;
    let found = session.execute(&plan)?;
    push_lines(alloc, &plan, found.as_slice(), lines)
}
