// Lines, read as steps. Called by `calls`.
use crate::call_store::create;
use metadata::{Cell, Cells, Kind, Names};
use query::{Filter, Operator, Query};
use schedule::{AskedQuery, Command, Step};
use std::alloc::Global;
use std::str::Split;
use tuple_codec::Text;

// The words of a line, which stand between tabs.
type Words<'a> = Split<'a, char>;

// The number of the store of all steps.
const STORE: u64 = 1;

// The value that a word is: a text after a `'`, else a whole number.
fn cell_of(alloc: Global, word: &str) -> Option<Cell> {
    match word.strip_prefix('\'') {
        Some(text) => Some(Cell::Text(Text::from_str(alloc, text).ok()?)),
        None => Some(Cell::Int(word.parse::<i64>().ok()?)),
    }
}

// The values that the other words are.
fn cells_of(alloc: Global, words: Words<'_>) -> Option<Cells> {
    let mut cells = Vec::with_capacity(alloc, 3).ok()?;
    for word in words {
        cells.push(cell_of(alloc, word)?).ok()?;
    }
    Some(Cells::new(cells))
}

// The query for the records of which this filter is true.
fn query_of(alloc: Global, filter: Filter) -> Option<Command> {
    let query = Query {
        record_type: Text::from_str(alloc, "t").ok()?,
        filter,
        sort: Names::new(Vec::new(alloc)),
        reverse: false,
    };
    Some(Command::Query(AskedQuery::new(alloc, query).ok()?))
}

// The filter that the field `a` has this value.
fn equal(alloc: Global, value: Cell) -> Option<Filter> {
    Some(Filter::Compare {
        field: Text::from_str(alloc, "a").ok()?,
        operator: Operator::Equal,
        value,
    })
}

// The query for the records with a value of the field `a`.
fn asked(alloc: Global, words: Words<'_>) -> Option<Command> {
    let mut words = words;
    let value = cell_of(alloc, words.next()?)?;
    query_of(alloc, equal(alloc, value)?)
}

// What makes the store: how many indexes, and a value of the kind of the last field.
fn created(alloc: Global, words: Words<'_>) -> Option<Command> {
    let mut words = words;
    let indexes = words.next()?.parse::<u64>().ok()?;
    let last = match cell_of(alloc, words.next()?)? {
        Cell::Text(_) => Kind::Text,
        _ => Kind::Int,
    };
    create(alloc, last, indexes).ok()
}

// The command of a client.
fn command_of(alloc: Global, kind: &str, words: Words<'_>) -> Option<Command> {
    let name = Text::from_str(alloc, "t").ok()?;
    match kind {
        "t" => created(alloc, words),
        "s" => Some(Command::Save(name, cells_of(alloc, words)?)),
        "l" => Some(Command::Load(name, cells_of(alloc, words)?)),
        "q" => asked(alloc, words),
        "w" => query_of(alloc, Filter::And(Vec::new(alloc))),
        _ => None,
    }
}

/// The step that a line is, where it is one.
pub fn step_of(alloc: Global, line: &str) -> Option<Step> {
    let mut words = line.split('\t');
    let kind = words.next()?;
    if kind == "e" {
        return Some(Step::Settle);
    }
    let client = words.next()?.parse::<u64>().ok()?;
    match kind {
        "b" => Some(Step::Begin(client, STORE)),
        "c" => Some(Step::Commit(client)),
        _ => Some(Step::Perform(client, command_of(alloc, kind, words)?)),
    }
}
