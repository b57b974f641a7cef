// What the tests are written with: names, cells, and what is asked of a schema.
use command_log::{Change, Changes};
use metadata::{
    Cell, Cells, Field, Fields, IndexKind, IndexRequest, Kind, Names, SchemaRequest, TypeRequest,
};
use std::alloc::Global;
use std::test::Fail;
use tuple_codec::Text;

/// Fails where a fact doesn't hold of a row.
pub fn holds(fact: bool, row: &str) -> Result<(), Fail> {
    match fact {
        true => Ok(()),
        false => Err(Fail::new(format_args!("not so at {row}"))),
    }
}

/// A name.
pub fn name(alloc: Global, text: &str) -> Result<Text, Fail> {
    Ok(Text::from_str(alloc, text)?)
}

fn names(alloc: Global, texts: &[&str]) -> Result<Names, Fail> {
    let mut made = Vec::new(alloc);
    for text in texts {
        made.push(name(alloc, text)?)?;
    }
    Ok(Names::new(made))
}

/// A field of this name.
pub fn field(alloc: Global, text: &str, kind: Kind) -> Result<Field, Fail> {
    Ok(Field {
        name: name(alloc, text)?,
        kind,
    })
}

fn fields_of(alloc: Global, fields: &[(&str, Kind)]) -> Result<Fields, Fail> {
    let mut made = Vec::new(alloc);
    for (text, kind) in fields {
        made.push(field(alloc, text, *kind)?)?;
    }
    Ok(Fields::new(made))
}

/// The name of the first field.
fn key_of(alloc: Global, fields: &[(&str, Kind)]) -> Result<Names, Fail> {
    match fields.first() {
        Some((key, _)) => names(alloc, &[*key]),
        None => names(alloc, &[]),
    }
}

/// A type of these fields, of which the first is the key.
fn typed(alloc: Global, text: &str, fields: &[(&str, Kind)]) -> Result<TypeRequest, Fail> {
    let key = key_of(alloc, fields)?;
    let fields = fields_of(alloc, fields)?;
    let name = name(alloc, text)?;
    Ok(TypeRequest { name, fields, key })
}

/// An index of books by their author.
pub fn by_author(alloc: Global, text: &str, kind: IndexKind) -> Result<IndexRequest, Fail> {
    let summed = match kind {
        IndexKind::Sum => Some(name(alloc, "pages")?),
        IndexKind::Value | IndexKind::Count => None,
    };
    Ok(IndexRequest {
        name: name(alloc, text)?,
        kind,
        type_name: name(alloc, "book")?,
        columns: names(alloc, &["author"])?,
        summed,
        clear_when_zero: false,
    })
}

fn indexes(alloc: Global) -> Result<Vec<IndexRequest>, Fail> {
    let authors = by_author(alloc, "authors", IndexKind::Value)?;
    let sums = by_author(alloc, "sums", IndexKind::Sum)?;
    Ok(vec![in alloc; authors, sums]?)
}

/// Makes the store: books, and an index of each kind but COUNT over them.
pub fn store(alloc: Global) -> Result<Change, Fail> {
    let fields = [
        ("id", Kind::Int),
        ("author", Kind::Text),
        ("pages", Kind::Int),
    ];
    let types = vec![in alloc; typed(alloc, "book", &fields)?]?;
    Ok(Change::Create(SchemaRequest::new(types, indexes(alloc)?)))
}

/// A type of authors.
pub fn authors(alloc: Global) -> Result<Change, Fail> {
    let request = typed(alloc, "author", &[("name", Kind::Text)])?;
    Ok(Change::Type(request))
}

fn cells(alloc: Global, id: i64, author: &str, pages: i64) -> Result<Cells, Fail> {
    let author = Cell::Text(name(alloc, author)?);
    Ok(Cells::new(vec![in alloc; Cell::Int(id), author, Cell::Int(pages)]?))
}

/// A book.
pub fn save(alloc: Global, id: i64, author: &str, pages: i64) -> Result<Change, Fail> {
    let book = name(alloc, "book")?;
    Ok(Change::Save(book, cells(alloc, id, author, pages)?))
}

/// No book of this number.
pub fn remove(alloc: Global, id: i64) -> Result<Change, Fail> {
    let cells = Cells::new(vec![in alloc; Cell::Int(id)]?);
    Ok(Change::Remove(name(alloc, "book")?, cells))
}

/// One change.
pub fn one(alloc: Global, change: Change) -> Result<Changes, Fail> {
    Ok(Changes::new(vec![in alloc; change]?))
}

/// Two changes.
pub fn two(alloc: Global, first: Change, second: Change) -> Result<Changes, Fail> {
    Ok(Changes::new(vec![in alloc; first, second]?))
}
