// Races from JSON. Called by `recordctl`; the crate `race` runs them.
ghost use Rattle.std.specs.Prelude.{◌≡◌, ◌<◌, Some, None, IfOk, IfErr};
ghost use Rattle.serde_json.specs.View.{view};
ghost use Rattle.json_forms.specs.CellJson.{rows_in};
ghost use Rattle.script.specs.Race.{explains_race, race_in, race_of, racers_in, turn_limit_in};

use crate::error::ScriptError;
use crate::script::script_config;
use crate::step_json::limit_of;
use cluster_core::Config;
use json_forms::{
    PartError, cells_of, has_only, index_of, list_of, member, schema_of, text_of, value_of,
};
use metadata::{Cells, IndexRequest, SchemaRequest};
use serde_json::Value;
use std::alloc::Global;
use std::marker::Model;
use tuple_codec::Text;

/// The cells of a race's records, in order.
pub struct RaceRows {
    rows: Vec<Cells>,
}

// Written out, so that no proof of a caller has to take its parts apart where one is dropped.
impl Drop for RaceRows {
    fn drop(self) {
        let RaceRows { rows } = self;
        drop(rows);
    }
}

impl Model for RaceRows {
    ghost use Rattle.std.specs.Prelude.{List};
    ghost use Rattle.metadata.specs.declared.cells.Cell.{Cell};

    ghost Value = { List (List Cell) };

    ghost view = { λ r. r.rows.items };
}

impl RaceRows {
    /// The rows.
    pub fn as_slice(&self) -> &[Cells]
        ensures { result.now ≡ self.now }
    {
        self.rows.as_slice()
    }
}

/// The records that two clients save, the first client's and the second's.
#[derive(Drop)]
pub struct Racers {
    /// The cells of the first client's records, in order.
    pub first: RaceRows,
    /// The cells of the second client's records, in order.
    pub second: RaceRows,
}

/// A race: two clients save records of one type while an index is built.
#[derive(Drop)]
pub struct Race {
    /// The configuration of the database.
    pub config: Config,
    /// The schema of the store.
    pub schema: SchemaRequest,
    /// The type of all records.
    pub record_type: Text,
    /// The cells of the records that are there before the race, in order.
    pub before: RaceRows,
    /// The index that is built.
    pub index: IndexRequest,
    /// How many records are built at a time, at most.
    pub limit: u32,
    /// What the clients save.
    pub clients: Racers,
}

// The keys that a race may have.
const RACE_KEYS: [&str; 7] = [
    "config", "schema", "type", "before", "index", "limit", "clients",
];

// The rows that a list of lists of cells stands for.
fn rows_of(alloc: Global, value: &Value) -> Result<RaceRows, PartError>
    ensures ok { IfOk result (λ rows. rows_in (view value.now) ≡ Some rows) }
    ensures err { IfErr result (λ error. error ≡ PartError.BadForm → rows_in (view value.now) ≡ None) }
{
    let mut rows = Vec::new(alloc);
    for item in list_of(value)? {
        rows.push(cells_of(alloc, item)?)?;
    }
    Ok(RaceRows { rows })
}

// A limit of a builder, 1 at least.
fn turn_limit_of(value: &Value) -> Result<u32, PartError>
    ensures ok { IfOk result (λ limit. turn_limit_in (view value.now) ≡ Some limit) }
    ensures some { IfOk result (λ limit. 0 < limit) }
    ensures err { IfErr result (λ error. error ≡ PartError.BadForm → turn_limit_in (view value.now) ≡ None) }
{
    let limit = limit_of(value)?;
    if limit >= 1 {
        Ok(limit)
    } else {
        Err(PartError::BadForm)
    }
}

// The rows of exactly two clients.
fn racers_of(alloc: Global, value: &Value) -> Result<Racers, PartError>
    ensures ok { IfOk result (λ racers. racers_in (view value.now) ≡ Some racers) }
    ensures err { IfErr result (λ error. error ≡ PartError.BadForm → racers_in (view value.now) ≡ None) }
{
    let [first, second] = list_of(value)? else {
        return Err(PartError::BadForm);
    };
    let first = rows_of(alloc, first)?;
    let second = rows_of(alloc, second)?;
    Ok(Racers { first, second })
}

// The race that an object stands for.
fn race_in(alloc: Global, file: &Value) -> Result<Race, PartError>
    ensures ok { IfOk result (λ race. race_in (view file.now) ≡ Some race) }
    ensures limit { IfOk result (λ race. 0 < race.limit) }
    ensures err { IfErr result (λ error. error ≡ PartError.BadForm → race_in (view file.now) ≡ None) }
{
    if !has_only(file, &RACE_KEYS) {
        return Err(PartError::BadForm);
    }
    let config = script_config(alloc, file)?;
    let schema = schema_of(alloc, member(file, "schema")?)?;
    let record_type = text_of(alloc, member(file, "type")?)?;
    let before = rows_of(alloc, member(file, "before")?)?;
    let index = index_of(alloc, member(file, "index")?)?;
    let limit = turn_limit_of(member(file, "limit")?)?;
    let clients = racers_of(alloc, member(file, "clients")?)?;
    Ok(Race {
        config,
        schema,
        record_type,
        before,
        index,
        limit,
        clients,
    })
}

/// The race that a text of JSON stands for, with the keys `schema`, `type`, `before`, `index`,
/// `limit`, `clients` and perhaps `config`. It answers `BadScript(0)` where the text isn't JSON of at
/// most 4,000,000 bytes or not of that form, or `OutOfMemory` where memory is wanting.
pub fn race_of(alloc: Global, bytes: &[u8]) -> Result<Race, ScriptError>
    ensures ok { IfOk result (λ race. race_of bytes.now ≡ Some race) }
    ensures limit { IfOk result (λ race. 0 < race.limit) }
    ensures err { IfErr result (explains_race bytes.now) }
{
    let file = value_of(alloc, bytes).map_err(|error| ScriptError::at(0, error))?;
    race_in(alloc, &file).map_err(|error| ScriptError::at(0, error))
}
