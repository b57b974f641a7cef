// The commands on a store of books. Called by `clerks`.
ghost use Rattle.std.specs.Prelude.{◌≡◌};
ghost use Rattle.record_layer.specs.Runs.{Continues};

use record_layer::CellRef::{Int, Text};
use record_layer::{
    Cell, Cells, Command, CommandError, End, Kind, SchemaMaker, Txn, cells_of, name,
};
use std::alloc::{AllocError, Global};

/// Makes the store of books: a title, which is the key, and how many copies there are.
pub(crate) fn make_store(alloc: Global) -> Result<Command, AllocError> {
    let fields = [("title", Kind::Text), ("copies", Kind::Int)];
    let asked = SchemaMaker::new(alloc).with_type("book", &fields, &["title"])?;
    Ok(Command::Create(asked.into_request()))
}

/// Saves how many copies there are of a book.
pub(crate) fn save_copies<E: End>(
    alloc: Global,
    tx: &mut Txn<'_, E>,
    title: &str,
    copies: i64,
) -> Result<(), CommandError>
    ensures same_reference { tx.new.client.ghost_name ≡ tx.old.client.ghost_name }
    ensures continues { Continues tx.old.client.now tx.new.client.now }
{
    let cells = cells_of(alloc, &[Text(title), Int(copies)])?;
    tx.save(name(alloc, "book")?, cells)?;
    Ok(())
}

/// How many copies there are of a book.
pub(crate) fn copies<E: End>(
    alloc: Global,
    tx: &mut Txn<'_, E>,
    title: &str,
) -> Result<i64, CommandError>
    ensures same_reference { tx.new.client.ghost_name ≡ tx.old.client.ghost_name }
    ensures continues { Continues tx.old.client.now tx.new.client.now }
{
    let key = cells_of(alloc, &[Text(title)])?;
    let found = tx.load(name(alloc, "book")?, key)?;
    Ok(found.map_or(0, |book| copies_in(&book)))
}

/// How many copies there are of a book with these cells.
fn copies_in(book: &Cells) -> i64 {
    match book.as_slice() {
        [_, Cell::Int(copies)] => *copies,
        _ => 0,
    }
}
