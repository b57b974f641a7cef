// Configurations of a cluster from JSON. Called by `script`.
ghost use Rattle.std.specs.Prelude.{◌≡◌, Some, None, IfOk, IfErr};
ghost use Rattle.serde_json.specs.View.{view};
ghost use Rattle.json_forms.specs.Config.{config_in, number_at, splits_at, splits_in};

use crate::error::PartError;
use crate::form::{has_only, hex_of, list_of, number_of};
use cluster_core::{Config, Splits};
use kv_core::Bytes;
use serde_json::Value;
use std::alloc::Global;

// The keys that a configuration may have.
const CONFIG_KEYS: [&str; 6] = [
    "resolver_splits",
    "storage_splits",
    "logs",
    "window",
    "start",
    "places",
];

// What a configuration has where it doesn't say.
const LOGS: u64 = 1;

const WINDOW: u64 = 1000;

const START: u64 = 0;

const PLACES: u64 = 4;

// The number at a key, or the given one where nothing stands there.
fn number_at(object: &Value, key: &str, given: u64) -> Result<u64, PartError>
    ensures ok { IfOk result (λ number. number_at key.now given (view object.now) ≡ Some number) }
    ensures err { IfErr result (λ error.
        (error ≡ PartError.BadForm) × (number_at key.now given (view object.now) ≡ None)) }
{
    match object.get(key) {
        Some(value) => number_of(value),
        None => Ok(given),
    }
}

// The splits that a list of texts of hexadecimal digits stands for.
fn splits_of(alloc: Global, value: &Value) -> Result<Splits, PartError>
    ensures ok { IfOk result (λ splits. splits_in (view value.now) ≡ Some splits) }
    ensures err { IfErr result (λ error. error ≡ PartError.BadForm → splits_in (view value.now) ≡ None) }
{
    let mut splits = Vec::new(alloc);
    for item in list_of(value)? {
        let split = Bytes::new(hex_of(alloc, item)?);
        splits.push(split)?;
    }
    Ok(Splits::new(splits))
}

// The splits at a key, or none where nothing stands there.
fn splits_at(alloc: Global, object: &Value, key: &str) -> Result<Splits, PartError>
    ensures ok { IfOk result (λ splits. splits_at key.now (view object.now) ≡ Some splits) }
    ensures err { IfErr result (λ error. error ≡ PartError.BadForm → splits_at key.now (view object.now) ≡ None) }
{
    match object.get(key) {
        Some(value) => splits_of(alloc, value),
        None => Ok(Splits::new(Vec::new(alloc))),
    }
}

/// The configuration that an object stands for, which may have the keys `resolver_splits`,
/// `storage_splits`, `logs`, `window`, `start` and `places`: what isn't there has its default, no
/// splits, 1 log, a window of 1000, the start 0 and 4 places. `BadForm` of another value.
pub fn config_of(alloc: Global, value: &Value) -> Result<Config, PartError>
    ensures ok { IfOk result (λ config. config_in (view value.now) ≡ Some config) }
    ensures err { IfErr result (λ error. error ≡ PartError.BadForm → config_in (view value.now) ≡ None) }
{
    if !has_only(value, &CONFIG_KEYS) {
        return Err(PartError::BadForm);
    }
    Ok(Config {
        resolver_splits: splits_at(alloc, value, "resolver_splits")?,
        storage_splits: splits_at(alloc, value, "storage_splits")?,
        logs: number_at(value, "logs", LOGS)?,
        window: number_at(value, "window", WINDOW)?,
        start: number_at(value, "start", START)?,
        places: number_at(value, "places", PLACES)?,
    })
}
