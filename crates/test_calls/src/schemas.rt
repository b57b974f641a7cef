// Schemas as a caller makes, changes, asks, writes and reads them. Run as a test.
use json_forms::{index_of, type_of};
use metadata::{IndexKind, IndexRequest, MetadataError, Schema};
use serde_json::Value as Json;
use std::alloc::Global;
use std::test::Fail;
use test_parts::{bytes_of, has_digits, request_asked, same, tells, text_of};
use tuple_codec::Text;

/// What is done with a schema, or asked: a row has two texts and what is told.
#[derive(Clone, Copy)]
enum Step {
    /// Takes the schema that a text of JSON asks for.
    Ask,
    /// Adds the type that a text of JSON asks for.
    Type,
    /// Adds the index of this kind that a text of JSON asks for, whose own kind doesn't matter; the second text is the
    /// summed field, where there is one.
    Value,
    Count,
    Sum,
    /// Drops the index of this name.
    Drop,
    /// The number of the type or the index of this name, as a copy of the schema tells it.
    Number,
    /// The bytes of the schema.
    Encode,
    /// Takes the schema of these bytes.
    Decode,
}

use Step::{Ask, Count, Decode, Drop, Encode, Number, Sum, Type, Value};

type Row = (Step, &'static str, &'static str, &'static str);

const PLAIN: &str =
    "1501150114050515010274000505026b0015010005026100150100050262001501000005140000000500";

const COUNTED: &str = "150115011501\
    050515010274000505026b001501000502610015010005026200150100000514000000\
    05051501027600150215010515010000ff0000";

/// Indexes are added with numbers that aren't given twice, or are refused for the first reason.
static STEPS: [Row; 51] = [
    (Ask, r#"{"types":[]}"#, "", "done"),
    (
        Type,
        r#"{"name":"t","fields":[["k","int"],["a","int"],["b","int"]],"key":["k"]}"#,
        "",
        "Ok(())",
    ),
    (
        Type,
        r#"{"name":"u","fields":[["s","text"],["y","bytes"]],"key":["s"]}"#,
        "",
        "Ok(())",
    ),
    (
        Value,
        r#"{"name":"v","kind":"value","type":"t","columns":["a","b"]}"#,
        "",
        "Ok(())",
    ),
    (
        Value,
        r#"{"name":"d","kind":"value","type":"u","columns":["y"]}"#,
        "",
        "Ok(())",
    ),
    (
        Count,
        r#"{"name":"c","kind":"value","type":"u","columns":[]}"#,
        "",
        "Ok(())",
    ),
    (
        Sum,
        r#"{"name":"w","kind":"value","type":"t","columns":["a"]}"#,
        "b",
        "Ok(())",
    ),
    (Drop, "d", "", "Ok(())"),
    // The front, the types t and u, and the indexes v, c and w.
    (
        Encode,
        "",
        "",
        "150115021504\
         050515010274000505026b0015010005026100150100050262001501000005140000\
         051502027500050502730015020005027900150300000514000000\
         050515010276001501150105150115020000ff00\
         05150302630015021502050000ff00\
         051504027700150315010515010015020000",
    ),
    (
        Value,
        r#"{"name":"","kind":"value","type":"z","columns":["z"]}"#,
        "",
        "Err(Refused(BadName))",
    ),
    (
        Value,
        r#"{"name":"v","kind":"value","type":"z","columns":["z"]}"#,
        "",
        "Err(Refused(NameTaken))",
    ),
    (
        Value,
        r#"{"name":"n","kind":"value","type":"z","columns":["z"]}"#,
        "",
        "Err(Refused(UnknownType))",
    ),
    (
        Value,
        r#"{"name":"n","kind":"value","type":"t","columns":["z"]}"#,
        "",
        "Err(Refused(UnknownField))",
    ),
    (
        Sum,
        r#"{"name":"n","kind":"value","type":"t","columns":[]}"#,
        "z",
        "Err(Refused(UnknownField))",
    ),
    (
        Sum,
        r#"{"name":"n","kind":"value","type":"u","columns":[]}"#,
        "s",
        "Err(Refused(WrongKind))",
    ),
    (
        Value,
        r#"{"name":"n","kind":"value","type":"t","columns":[]}"#,
        "",
        "Err(Refused(BadSchema))",
    ),
    (
        Count,
        r#"{"name":"n","kind":"value","type":"t","columns":["a","a"]}"#,
        "",
        "Err(Refused(BadSchema))",
    ),
    (
        Sum,
        r#"{"name":"n","kind":"value","type":"t","columns":["a"]}"#,
        "",
        "Err(Refused(BadSchema))",
    ),
    (
        Count,
        r#"{"name":"n","kind":"value","type":"t","columns":[]}"#,
        "b",
        "Err(Refused(BadSchema))",
    ),
    (
        Value,
        r#"{"name":"n","kind":"value","type":"t","columns":["a"]}"#,
        "b",
        "Err(Refused(BadSchema))",
    ),
    (Number, "w", "", "Some(4)"),
    (Drop, "w", "", "Ok(())"),
    (Drop, "w", "", "Err(UnknownIndex)"),
    (Number, "w", "", "None"),
    (
        Value,
        r#"{"name":"w","kind":"value","type":"t","columns":["k"]}"#,
        "",
        "Ok(())",
    ),
    (Number, "w", "", "Some(5)"),
    (Number, "v", "", "Some(1)"),
    (Number, "c", "", "Some(3)"),
    (Number, "t", "", "Some(1)"),
    (Number, "u", "", "Some(2)"),
    // A type and indexes are asked for together, or are refused for the first reason.
    (
        Ask,
        r#"{"types":[{"name":"t","fields":[["k","int"],["a","int"],["b","int"]],"key":["k"]}],
            "indexes":[{"name":"v","kind":"value","type":"t","columns":["a"]},
            {"name":"w","kind":"value","type":"t","columns":["a"]}]}"#,
        "",
        "done",
    ),
    (Number, "v", "", "Some(1)"),
    (Number, "w", "", "Some(2)"),
    (
        Ask,
        r#"{"types":[{"name":"t","fields":[["k","int"],["a","int"],["b","int"]],"key":["k"]}],
            "indexes":[{"name":"v","kind":"value","type":"t","columns":["a"]},
            {"name":"v","kind":"value","type":"t","columns":["a"]}]}"#,
        "",
        "Refused(NameTaken)",
    ),
    (
        Ask,
        r#"{"types":[{"name":"t","fields":[["k","int"],["a","int"],["b","int"]],"key":["k"]}],
            "indexes":[{"name":"v","kind":"value","type":"t","columns":["a"]},
            {"name":"w","kind":"value","type":"u","columns":["a"]}]}"#,
        "",
        "Refused(UnknownType)",
    ),
    (Number, "v", "", "Some(1)"),
    (Number, "w", "", "Some(2)"),
    // The bytes of a schema are read back as that schema: of the type t, then with a COUNT index v over the column a.
    (
        Ask,
        r#"{"types":[{"name":"t","fields":[["k","int"],["a","int"],["b","int"]],"key":["k"]}]}"#,
        "",
        "done",
    ),
    (Encode, "", "", PLAIN),
    (Decode, PLAIN, "", "done"),
    (Number, "t", "", "Some(1)"),
    (Encode, "", "", PLAIN),
    (Decode, COUNTED, "", "done"),
    (Number, "v", "", "Some(1)"),
    // Nothing for the last byte; another form, last type number, type number, name, kind, and key field.
    (
        Decode,
        "1501150114050515010274000505026b00150100050261001501000502620015010000051400000005",
        "",
        "Refused(BadSchema)",
    ),
    (
        Decode,
        "1502150114050515010274000505026b0015010005026100150100050262001501000005140000000500",
        "",
        "Refused(BadSchema)",
    ),
    (
        Decode,
        "1501150214050515010274000505026b0015010005026100150100050262001501000005140000000500",
        "",
        "Refused(BadSchema)",
    ),
    (
        Decode,
        "1501150114050515020274000505026b0015010005026100150100050262001501000005140000000500",
        "",
        "Refused(BadSchema)",
    ),
    (
        Decode,
        "150115011405051501022d000505026b0015010005026100150100050262001501000005140000000500",
        "",
        "Refused(BadSchema)",
    ),
    (
        Decode,
        "1501150114050515010274000505026b0015040005026100150100050262001501000005140000000500",
        "",
        "Refused(BadSchema)",
    ),
    (
        Decode,
        "1501150114050515010274000505026b0015010005026100150100050262001501000005260000000500",
        "",
        "Refused(BadSchema)",
    ),
];

fn taken(
    alloc: Global,
    schema: &mut Schema,
    answer: Result<Schema, MetadataError>,
    told: &str,
) -> Result<(), Fail> {
    match answer {
        Ok(found) => *schema = found,
        Err(error) => return tells(alloc, &error, told),
    }
    same("done", told)
}

fn ask(alloc: Global, schema: &mut Schema, text: &str, told: &str) -> Result<(), Fail> {
    let request = request_asked(alloc, text)?.copy()?;
    taken(alloc, schema, Schema::of_request(alloc, &request), told)
}

fn add_type(alloc: Global, schema: &mut Schema, text: &str, told: &str) -> Result<(), Fail> {
    let request = type_of(alloc, &Json::from_str(alloc, text)?)?;
    tells(alloc, &schema.add_type(&request), told)
}

fn index_asked(
    alloc: Global,
    kind: IndexKind,
    text: &str,
    summed: &str,
) -> Result<IndexRequest, Fail> {
    let mut request = index_of(alloc, &Json::from_str(alloc, text)?)?;
    request.kind = kind;
    if !summed.is_empty() {
        request.summed = Some(text_of(alloc, summed)?);
    }
    Ok(request)
}

fn add_index(
    alloc: Global,
    schema: &mut Schema,
    kind: IndexKind,
    (text, summed): (&str, &str),
    told: &str,
) -> Result<(), Fail> {
    let request = index_asked(alloc, kind, text, summed)?.copy()?;
    tells(alloc, &schema.add_index(&request), told)
}

fn number_of(schema: &Schema, name: &Text) -> Option<u64> {
    match (schema.type_named(name), schema.index_named(name)) {
        (Some(found), _) => Some(found.number),
        (None, Some(found)) => Some(found.number),
        (None, None) => None,
    }
}

fn number(alloc: Global, schema: &Schema, name: &str, told: &str) -> Result<(), Fail> {
    let name = text_of(alloc, name)?;
    tells(alloc, &number_of(&schema.copy()?, &name), told)
}

fn encode(alloc: Global, schema: &Schema, told: &str) -> Result<(), Fail> {
    let bytes = schema.encode(alloc)?;
    has_digits(alloc, &bytes, told)
}

fn decode(alloc: Global, schema: &mut Schema, digits: &str, told: &str) -> Result<(), Fail> {
    let bytes = bytes_of(alloc, digits)?;
    taken(alloc, schema, Schema::decode(alloc, bytes.as_slice()), told)
}

fn take(alloc: Global, schema: &mut Schema, row: &Row) -> Result<(), Fail> {
    let (step, text, second, told) = row;
    let texts = (*text, *second);
    match step {
        Ask => ask(alloc, schema, text, told),
        Type => add_type(alloc, schema, text, told),
        Value => add_index(alloc, schema, IndexKind::Value, texts, told),
        Count => add_index(alloc, schema, IndexKind::Count, texts, told),
        Sum => add_index(alloc, schema, IndexKind::Sum, texts, told),
        Drop => tells(alloc, &schema.drop_index(&text_of(alloc, text)?), told),
        Number => number(alloc, schema, text, told),
        Encode => encode(alloc, schema, told),
        Decode => decode(alloc, schema, text, told),
    }
}

#[test]
fn schemas_take_steps(rt: HostRuntime) -> Result<(), Fail> {
    let mut schema = Schema::new(rt.alloc());
    for row in &STEPS {
        take(rt.alloc(), &mut schema, row)?;
    }
    Ok(())
}
