// Plans of queries over a type of 32 fields with 64 indexes of 8 columns each. Called by `main` for
// `bench plans`.
use metadata::{
    Cell, Field, Fields, IndexKind, IndexRequest, Kind, MetadataError, Names, Schema, State,
    TypeRequest,
};
use planner::plan_query;
use query::{Filter, Operator, Query};
use std::alloc::{AllocError, Global};
use std::io;
use std::io::ErrorKind;
use std::time::Instant;
use tuple_codec::Text;

const FIELDS: u32 = 32;

const INDEXES: u32 = 64;

const COLUMNS: u32 = 8;

// How many nodes the filters have.
const NODES: [u32; 3] = [64, 128, 256];

// How often each query is planned in a round, and how many rounds there are, of which the best one counts.
const TURNS: u32 = 50;

const ROUNDS: u32 = 40;

// What the filters are made of.
#[derive(Clone, Copy, Drop)]
enum Shape {
    // One `and` of comparisons, of which the last ones alone say what the columns of indexes are.
    And,
    // One `or` of comparisons.
    Or,
    // One `or` of `and`s of two comparisons.
    OrOfAnds,
}

fn out_of(_error: MetadataError) -> io::Error {
    io::Error::from(ErrorKind::InvalidData)
}

// The name of a field; a number that is too large goes on from the first field behind the key.
fn field(alloc: Global, number: u32) -> Result<Text, AllocError> {
    let place = number % (FIELDS - 1) + 1;
    Ok(Text::new(format!(in alloc; "f{place}")?))
}

// A type of 32 whole numbers, the first one of which is its key.
fn type_request(alloc: Global) -> Result<TypeRequest, AllocError> {
    let mut fields = Vec::new(alloc);
    for place in 0..FIELDS {
        let name = Text::new(format!(in alloc; "f{place}")?);
        fields.push(Field {
            name,
            kind: Kind::Int,
        })?;
    }
    let key = vec![in alloc; Text::from_str(alloc, "f0")?]?;
    Ok(TypeRequest {
        name: Text::from_str(alloc, "t")?,
        fields: Fields::new(fields),
        key: Names::new(key),
    })
}

// An index over eight fields in a row.
fn index_request(alloc: Global, number: u32) -> Result<IndexRequest, AllocError> {
    let mut columns = Vec::new(alloc);
    for place in 0..COLUMNS {
        columns.push(field(alloc, number.wrapping_add(place))?)?;
    }
    Ok(IndexRequest {
        name: Text::new(format!(in alloc; "i{number}")?),
        kind: IndexKind::Value,
        type_name: Text::from_str(alloc, "t")?,
        columns: Names::new(columns),
        summed: None,
        clear_when_zero: false,
    })
}

fn schema(alloc: Global) -> io::Result<Schema> {
    let mut schema = Schema::new(alloc);
    schema.add_type(&type_request(alloc)?).map_err(out_of)?;
    for number in 0..INDEXES {
        schema
            .add_index(&index_request(alloc, number)?)
            .map_err(out_of)?;
    }
    Ok(schema)
}

// All indexes are readable.
fn states(alloc: Global, schema: &Schema) -> Result<Vec<(u64, State)>, AllocError> {
    let mut states = Vec::new(alloc);
    for index in schema.indexes() {
        states.push((index.number, State::Readable))?;
    }
    Ok(states)
}

// The field of this number is the number.
fn equality(alloc: Global, number: u32) -> Result<Filter, AllocError> {
    Ok(Filter::Compare {
        field: field(alloc, number)?,
        operator: Operator::Equal,
        value: Cell::Int(i64::from(number)),
    })
}

// Comparisons of fields in turn.
fn equalities(alloc: Global, count: u32) -> Result<Vec<Filter>, AllocError> {
    let mut parts = Vec::new(alloc);
    for number in 0..count {
        parts.push(equality(alloc, number)?)?;
    }
    Ok(parts)
}

// Comparisons of the key alone, and behind them one of each other field.
fn keys_first(alloc: Global, count: u32) -> Result<Vec<Filter>, AllocError> {
    let mut parts = Vec::new(alloc);
    for number in FIELDS..count {
        parts.push(Filter::Compare {
            field: Text::from_str(alloc, "f0")?,
            operator: Operator::NotEqual,
            value: Cell::Int(i64::from(number)),
        })?;
    }
    for number in 0..FIELDS.min(count) {
        parts.push(equality(alloc, number)?)?;
    }
    Ok(parts)
}

// An `and` of two comparisons for every three nodes.
fn pairs(alloc: Global, count: u32) -> Result<Vec<Filter>, AllocError> {
    let mut parts = Vec::new(alloc);
    for number in 0..count / 3 {
        let mut pair = Vec::new(alloc);
        pair.push(equality(alloc, number)?)?;
        pair.push(equality(alloc, number + 1)?)?;
        parts.push(Filter::And(pair))?;
    }
    Ok(parts)
}

// A filter of so many nodes.
fn filter(alloc: Global, shape: Shape, nodes: u32) -> Result<Filter, AllocError> {
    let below = nodes.saturating_sub(1);
    match shape {
        Shape::And => Ok(Filter::And(keys_first(alloc, below)?)),
        Shape::Or => Ok(Filter::Or(equalities(alloc, below)?)),
        Shape::OrOfAnds => Ok(Filter::Or(pairs(alloc, below)?)),
    }
}

fn query(alloc: Global, shape: Shape, nodes: u32) -> Result<Query, AllocError> {
    Ok(Query {
        record_type: Text::from_str(alloc, "t")?,
        filter: filter(alloc, shape, nodes)?,
        sort: Names::new(Vec::new(alloc)),
        reverse: false,
    })
}

fn plan_once(
    alloc: Global,
    schema: &Schema,
    states: &[(u64, State)],
    query: &Query,
) -> io::Result<()> {
    if query.check(schema).is_err() {
        return Err(io::Error::from(ErrorKind::InvalidInput));
    }
    match plan_query(alloc, schema, states, query) {
        Ok(_plan) => Ok(()),
        Err(_) => Err(io::Error::from(ErrorKind::OutOfMemory)),
    }
}

// The microseconds in which a query is planned, one time of a round.
fn round_time(
    rt: &HostRuntime,
    schema: &Schema,
    states: &[(u64, State)],
    query: &Query,
) -> io::Result<u128> {
    let start = Instant::now(rt)?;
    for _ in 0..TURNS {
        plan_once(rt.alloc(), schema, states, query)?;
    }
    Ok(start.elapsed(rt)?.as_micros() / u128::from(TURNS))
}

// Plans a query many times, and prints the time of one in microseconds.
fn measure_query(
    rt: &HostRuntime,
    schema: &Schema,
    states: &[(u64, State)],
    shape: Shape,
    nodes: u32,
) -> io::Result<()> {
    let query = query(rt.alloc(), shape, nodes)?;
    let mut best = u128::MAX;
    for _ in 0..ROUNDS {
        best = best.min(round_time(rt, schema, states, &query)?);
    }
    let told = match shape {
        Shape::And => "an and of comparisons",
        Shape::Or => "an or of comparisons",
        Shape::OrOfAnds => "an or of ands of two comparisons",
    };
    println!(rt; "{told}, {nodes} nodes, {INDEXES} indexes: {best} us")
}

/// Prints how long queries take to be checked and planned.
pub fn measure(rt: &HostRuntime) -> io::Result<()> {
    let schema = schema(rt.alloc())?;
    let states = states(rt.alloc(), &schema)?;
    for shape in [Shape::And, Shape::Or, Shape::OrOfAnds] {
        for nodes in NODES {
            measure_query(rt, &schema, states.as_slice(), shape, nodes)?;
        }
    }
    Ok(())
}
