// What is done with the copies of a book. Called by `main`.
use crate::books::books;
use record_layer::CellRef::{Int, Text};
use record_layer::{Database, Error, Session, int_named};
use std::alloc::Global;

/// Makes the store, and answers the version.
pub(crate) fn make_store(alloc: Global, db: &mut Database) -> Result<u64, Error> {
    let schema = books(alloc)?;
    Ok(db.create(alloc, &schema)?)
}

/// How many copies of a book there are, as the session sees it.
pub(crate) fn copies(session: &mut Session<'_>, title: &str) -> Result<i64, Error> {
    let found = session.load("book", &[Text(title)])?;
    Ok(
        found
            .and_then(|book| int_named(&book, "copies"))
            .unwrap_or(0),
    )
}

/// Adds copies of a book.
pub(crate) fn add_copies(session: &mut Session<'_>, title: &str, more: i64) -> Result<(), Error> {
    let copies = copies(session, title)?.saturating_add(more);
    session.save("book", &[Text(title), Int(copies)])?;
    Ok(())
}
