// Filters and queries from JSON. Called by `script` and `explain`.
ghost use Rattle.std.specs.Prelude.{◌≡◌, Some, None, IfOk, IfErr, map, option_map};
ghost use Rattle.serde_json.specs.Find.{as_bool};
ghost use Rattle.serde_json.specs.View.{items_view, view};
ghost use Rattle.query.specs.Filter.{filters_of as filters_in_list, negation};
ghost use Rattle.query.specs.View.{filter_of as filter_meant, query_of as query_meant};
ghost use Rattle.json_forms.specs.QueryJson.{comparison_in, filter_in, filters_in, leaf_in, only_filter};
ghost use Rattle.json_forms.specs.QueryJson.{operator_named, query_filter, query_in, query_reverse, query_sort};
ghost use Rattle.json_forms.specs.QueryJson.{worded_filter};

use crate::cell_json::cell_of;
use crate::error::PartError;
use crate::form::{has_only, member, str_of, text_of};
use crate::schema_json::names_of;
use metadata::Names;
use query::{Filter, Operator, Query};
use serde_json::Value;
use std::alloc::Global;

// The operator of this name.
fn operator_of(word: &str) -> Result<Operator, PartError>
    ensures ok { IfOk result (λ read. operator_named word.now ≡ Some read) }
    ensures err { IfErr result (λ error. error ≡ PartError.BadForm → operator_named word.now ≡ None) }
{
    match word {
        "=" => Ok(Operator::Equal),
        "!=" => Ok(Operator::NotEqual),
        "<" => Ok(Operator::Less),
        "<=" => Ok(Operator::AtMost),
        ">" => Ok(Operator::Greater),
        ">=" => Ok(Operator::AtLeast),
        _ => Err(PartError::BadForm),
    }
}

// The comparison of a field with a value, or what a text or byte string begins with.
fn comparison_of(
    alloc: Global,
    word: &str,
    field: &Value,
    value: &Value,
) -> Result<Filter, PartError>
    ensures ok { IfOk result (λ read.
        comparison_in word.now (view field.now) (view value.now) ≡ Some (filter_meant read)) }
    ensures err { IfErr result (λ error. error ≡ PartError.BadForm →
        comparison_in word.now (view field.now) (view value.now) ≡ None) }
{
    let field = text_of(alloc, field)?;
    let value = cell_of(alloc, value)?;
    if word == "starts" {
        return Ok(Filter::StartsWith { field, value });
    }
    let operator = operator_of(word)?;
    Ok(Filter::Compare {
        field,
        operator,
        value,
    })
}

// The condition on one field that a word and what stands behind it are.
fn leaf_of(alloc: Global, word: &str, rest: &[Value]) -> Result<Filter, PartError>
    ensures ok { IfOk result (λ read. leaf_in word.now (map view rest.now) ≡ Some (filter_meant read)) }
    ensures err { IfErr result (λ error. error ≡ PartError.BadForm → leaf_in word.now (map view rest.now) ≡ None) }
{
    match rest {
        [field] => {
            if word == "null" {
                let field = text_of(alloc, field)?;
                Ok(Filter::IsNull { field })
            } else {
                Err(PartError::BadForm)
            }
        }
        [field, value] => comparison_of(alloc, word, field, value),
        _ => Err(PartError::BadForm),
    }
}

/// The filter that a list stands for, which begins with a word: `["=","a",5]` and so with `!=`,
/// `<`, `<=`, `>` and `>=`, `["null","a"]`, `["starts","s","x"]`, `["and",F,..]`, `["or",F,..]`
/// and `["not",F]`. `BadForm` of another value.
#[cycle(reading)]
pub fn filter_of(alloc: Global, value: &Value) -> Result<Filter, PartError>
    ensures ok { IfOk result (λ read. filter_in (view value.now) ≡ Some (filter_meant read)) }
    ensures err { IfErr result (λ error. error ≡ PartError.BadForm → filter_in (view value.now) ≡ None) }
{
    let Value::Array(items) = value else {
        return Err(PartError::BadForm);
    };
    match items.as_slice() {
        [word, rest @ ..] => worded_filter(alloc, str_of(word)?, rest),
        [] => Err(PartError::BadForm),
    }
}

// The filter of a word and what stands behind it.
#[cycle(reading)]
fn worded_filter(alloc: Global, word: &str, rest: &[Value]) -> Result<Filter, PartError>
    ensures ok { IfOk result (λ read. worded_filter word.now (filters_in (items_view rest.now))
        (only_filter (items_view rest.now)) (map view rest.now) ≡ Some (filter_meant read)) }
    ensures err { IfErr result (λ error. error ≡ PartError.BadForm →
        worded_filter word.now (filters_in (items_view rest.now))
        (only_filter (items_view rest.now)) (map view rest.now) ≡ None) }
{
    match word {
        "and" => Ok(Filter::And(filters_of(alloc, rest)?)),
        "or" => Ok(Filter::Or(filters_of(alloc, rest)?)),
        "not" => opposite_of(alloc, rest),
        _ => leaf_of(alloc, word, rest),
    }
}

// The opposite of the only filter.
#[cycle(reading)]
fn opposite_of(alloc: Global, rest: &[Value]) -> Result<Filter, PartError>
    ensures ok { IfOk result (λ read.
        option_map negation (only_filter (items_view rest.now)) ≡ Some (filter_meant read)) }
    ensures err { IfErr result (λ error. error ≡ PartError.BadForm →
        option_map negation (only_filter (items_view rest.now)) ≡ None) }
{
    match rest {
        [part] => {
            let part = filter_of(alloc, part)?;
            Ok(Filter::Not(Box::new(alloc, part)?))
        }
        _ => Err(PartError::BadForm),
    }
}

// The filters that values stand for.
#[cycle(reading)]
fn filters_of(alloc: Global, items: &[Value]) -> Result<Vec<Filter>, PartError>
    ensures ok { IfOk result (λ read. filters_in (items_view items.now)
        ≡ Some (filters_in_list (map filter_meant read.items))) }
    ensures err { IfErr result (λ error. error ≡ PartError.BadForm → filters_in (items_view items.now) ≡ None) }
{
    let mut filters = Vec::new(alloc);
    for item in items {
        filters.push(filter_of(alloc, item)?)?;
    }
    Ok(filters)
}

// The filter of a query, true everywhere where it has none.
fn filter_in_query(alloc: Global, value: &Value) -> Result<Filter, PartError>
    ensures ok { IfOk result (λ read. query_filter (view value.now) ≡ Some (filter_meant read)) }
    ensures err { IfErr result (λ error. error ≡ PartError.BadForm → query_filter (view value.now) ≡ None) }
{
    match value.get("filter") {
        Some(filter) => filter_of(alloc, filter),
        None => Ok(Filter::And(Vec::new(alloc))),
    }
}

// The sort fields of a query, none where it has no list of them.
fn sort_in_query(alloc: Global, value: &Value) -> Result<Names, PartError>
    ensures ok { IfOk result (λ read. query_sort (view value.now) ≡ Some read) }
    ensures err { IfErr result (λ error. error ≡ PartError.BadForm → query_sort (view value.now) ≡ None) }
{
    match value.get("sort") {
        Some(names) => names_of(alloc, names),
        None => Ok(Names::new(Vec::new(alloc))),
    }
}

// Whether the order of a query is turned round, which it isn't where nothing is said.
fn reverse_in_query(value: &Value) -> Result<bool, PartError>
    ensures ok { IfOk result (λ read. query_reverse (view value.now) ≡ Some read) }
    ensures err { IfErr result (λ error. query_reverse (view value.now) ≡ None) }
{
    match value.get("reverse") {
        Some(turned) => turned.as_bool().ok_or(PartError::BadForm),
        None => Ok(false),
    }
}

// The keys that a query may have.
const QUERY_KEYS: [&str; 4] = ["type", "filter", "sort", "reverse"];

/// The query that an object stands for: at `type` the name of its type, and perhaps its filter at
/// `filter` (else every record is selected), its sort fields at `sort` (else none) and at `reverse`
/// whether their order is turned round (else not), with no other key. `BadForm` of another value.
pub fn query_of(alloc: Global, value: &Value) -> Result<Query, PartError>
    ensures ok { IfOk result (λ read. query_in (view value.now) ≡ Some (query_meant read)) }
    ensures err { IfErr result (λ error. error ≡ PartError.BadForm → query_in (view value.now) ≡ None) }
{
    if !has_only(value, &QUERY_KEYS) {
        return Err(PartError::BadForm);
    }
    let record_type = text_of(alloc, member(value, "type")?)?;
    let filter = filter_in_query(alloc, value)?;
    let sort = sort_in_query(alloc, value)?;
    let reverse = reverse_in_query(value)?;
    Ok(Query {
        record_type,
        filter,
        sort,
        reverse,
    })
}
