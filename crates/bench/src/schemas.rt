// Schemas of 32 types of 32 fields with 64 indexes: written and read; records of them, and their
// primary keys. Called by `main` for `bench schemas`.
use metadata::{
    Cell, Cells, Field, Fields, IndexKind, IndexRequest, Kind, MetadataError, Names, Record,
    Schema, TypeRequest,
};
use std::alloc::{AllocError, Global};
use std::io;
use std::io::ErrorKind;
use std::time::Instant;
use tuple_codec::{Text, pack, unpack};

const TYPES: u32 = 32;

const FIELDS: u32 = 32;

const INDEXES: u32 = 64;

// How often a schema is written and read, and how many records are made.
const TURNS: u32 = 200;

const RECORDS: u32 = 20_000;

fn out_of(_error: MetadataError) -> io::Error {
    io::Error::from(ErrorKind::InvalidData)
}

fn name(alloc: Global, letter: char, number: u32) -> Result<Text, AllocError> {
    Ok(Text::new(format!(in alloc; "{letter}{number}")?))
}

// A type of 32 whole numbers, the first one of which is its key.
fn type_request(alloc: Global, number: u32) -> Result<TypeRequest, AllocError> {
    let mut fields = Vec::new(alloc);
    for place in 0..FIELDS {
        fields.push(Field {
            name: name(alloc, 'f', place)?,
            kind: Kind::Int,
        })?;
    }
    let key = vec![in alloc; name(alloc, 'f', 0)?]?;
    Ok(TypeRequest {
        name: name(alloc, 't', number)?,
        fields: Fields::new(fields),
        key: Names::new(key),
    })
}

// An index over one of the types, by two of its fields.
fn index_request(alloc: Global, number: u32) -> Result<IndexRequest, AllocError> {
    let mut columns = Vec::new(alloc);
    for place in [1, 31] {
        columns.push(name(alloc, 'f', place)?)?;
    }
    Ok(IndexRequest {
        name: name(alloc, 'i', number)?,
        kind: IndexKind::Value,
        type_name: name(alloc, 't', number % TYPES)?,
        columns: Names::new(columns),
        summed: None,
        clear_when_zero: false,
    })
}

fn schema_with_all(alloc: Global) -> io::Result<Schema> {
    let mut schema = Schema::new(alloc);
    for number in 0..TYPES {
        schema
            .add_type(&type_request(alloc, number)?)
            .map_err(out_of)?;
    }
    for number in 0..INDEXES {
        schema
            .add_index(&index_request(alloc, number)?)
            .map_err(out_of)?;
    }
    Ok(schema)
}

fn encode_each(alloc: Global, schema: &Schema) -> io::Result<usize> {
    let mut total = 0usize;
    for _ in 0..TURNS {
        total = total.wrapping_add(schema.encode(alloc)?.len());
    }
    Ok(total)
}

fn decode_each(alloc: Global, bytes: &[u8]) -> io::Result<usize> {
    let mut total = 0usize;
    for _ in 0..TURNS {
        let schema = Schema::decode(alloc, bytes).map_err(out_of)?;
        total = total.wrapping_add(schema.indexes().len());
    }
    Ok(total)
}

// What of reading a schema is the reading of its tuple.
fn unpack_each(alloc: Global, bytes: &[u8]) -> io::Result<usize> {
    let mut total = 0usize;
    for _ in 0..TURNS {
        match unpack(alloc, bytes) {
            Ok(tuple) => total = total.wrapping_add(tuple.elements().len()),
            Err(_) => return Err(io::Error::from(ErrorKind::InvalidData)),
        }
    }
    Ok(total)
}

// Records of the last type.
fn records(alloc: Global, schema: &Schema) -> io::Result<Vec<Record>> {
    let type_name = name(alloc, 't', TYPES - 1)?;
    let mut records = Vec::new(alloc);
    for number in 0..RECORDS {
        let mut cells = Vec::new(alloc);
        for place in 0..FIELDS {
            cells.push(Cell::Int(i64::from(number) + i64::from(place)))?;
        }
        let made = Record::new(alloc, schema, &type_name, Cells::new(cells));
        records.push(made.map_err(out_of)?)?;
    }
    Ok(records)
}

fn keys_of_each(alloc: Global, records: &[Record]) -> io::Result<usize> {
    let mut total = 0usize;
    for record in records {
        total = total.wrapping_add(record.primary_key(alloc)?.elements().len());
    }
    Ok(total)
}

// The bytes that a record is stored in: its key's, and its value.
#[derive(Drop)]
struct Stored {
    key: Vec<u8>,
    value: Vec<u8>,
}

fn rows_of(alloc: Global, records: &[Record]) -> io::Result<Vec<Stored>> {
    let mut rows = Vec::new(alloc);
    for record in records {
        let key = pack(alloc, &record.primary_key(alloc)?)?;
        let value = pack(alloc, &record.cells().tuple(alloc)?)?;
        rows.push(Stored { key, value })?;
    }
    Ok(rows)
}

fn read_each(alloc: Global, schema: &Schema, rows: &[Stored]) -> io::Result<usize> {
    let mut total = 0usize;
    let Some(definition) = schema.types().last() else {
        return Ok(0);
    };
    for row in rows {
        match Record::decode(alloc, definition, row.key.as_slice(), row.value.as_slice())? {
            Some(found) => total = total.wrapping_add(found.cells().as_slice().len()),
            None => return Err(io::Error::from(ErrorKind::InvalidData)),
        }
    }
    Ok(total)
}

fn unpack_values(alloc: Global, rows: &[Stored]) -> io::Result<usize> {
    let mut total = 0usize;
    for row in rows {
        match unpack(alloc, row.value.as_slice()) {
            Ok(tuple) => total = total.wrapping_add(tuple.elements().len()),
            Err(_) => return Err(io::Error::from(ErrorKind::InvalidData)),
        }
    }
    Ok(total)
}

// Prints how many records are read from their bytes in a second, and how many of their values are unpacked.
fn measure_stored(rt: &HostRuntime, schema: &Schema, records: &[Record]) -> io::Result<()> {
    let alloc = rt.alloc();
    let rows = rows_of(alloc, records)?;
    let start = Instant::now(rt)?;
    unpack_values(alloc, rows.as_slice())?;
    let unpacked = rate(RECORDS, start.elapsed(rt)?.as_millis());
    let start = Instant::now(rt)?;
    read_each(alloc, schema, rows.as_slice())?;
    let read = rate(RECORDS, start.elapsed(rt)?.as_millis());
    println!(rt; "read {read} records from their bytes, unpack {unpacked} of their values a second")
}

// So many in a second, where this many took the time.
fn rate(count: u32, milliseconds: u128) -> u128 {
    u128::from(count) * 1000 / milliseconds.max(1)
}

fn measure_schemas(rt: &HostRuntime, schema: &Schema) -> io::Result<()> {
    let alloc = rt.alloc();
    let bytes = schema.encode(alloc)?;
    let start = Instant::now(rt)?;
    encode_each(alloc, schema)?;
    let encoded = rate(TURNS, start.elapsed(rt)?.as_millis());
    println!(rt;
        "encode {encoded} schemas of {} bytes a second",
        bytes.len()
    )?;
    let start = Instant::now(rt)?;
    unpack_each(alloc, bytes.as_slice())?;
    let unpacked = rate(TURNS, start.elapsed(rt)?.as_millis());
    let start = Instant::now(rt)?;
    decode_each(alloc, bytes.as_slice())?;
    let decoded = rate(TURNS, start.elapsed(rt)?.as_millis());
    println!(rt; "decode {decoded} of them a second, unpack {unpacked} of their tuples")
}

/// Prints how many schemas are written and read in a second, and how many records and primary keys are made.
pub fn measure(rt: &HostRuntime) -> io::Result<()> {
    let alloc = rt.alloc();
    let schema = schema_with_all(alloc)?;
    measure_schemas(rt, &schema)?;
    let start = Instant::now(rt)?;
    let made = records(alloc, &schema)?;
    let recorded = rate(RECORDS, start.elapsed(rt)?.as_millis());
    let start = Instant::now(rt)?;
    keys_of_each(alloc, made.as_slice())?;
    let keyed = rate(RECORDS, start.elapsed(rt)?.as_millis());
    println!(rt; "make {recorded} records of {FIELDS} fields and {keyed} primary keys a second")?;
    measure_stored(rt, &schema, made.as_slice())
}
