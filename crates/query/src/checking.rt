// The semantic check of a query against a schema. Called by `schedule`, `explain`, `record_layer`
// before they plan it; `values_known` by `planner`, for its proof.
ghost use Rattle.std.specs.Prelude.{◌≡◌, ◌+◌, ◌<◌, None, Some, not, is_none, length, map, nat_lt};
ghost use Rattle.std.specs.Prelude.{All, MatchOption, MatchResult};
ghost use Rattle.std.specs.List.{flat_map};
ghost use Rattle.std.specs.Option.{option_copied};
ghost use Rattle.std.specs.Str.{bytes_eq};
ghost use Rattle.metadata.specs.Cell.{IsCell};
ghost use Rattle.query.specs.Checked.{field_named, first_query_refusal, is_prefix_of, is_value_of};
ghost use Rattle.query.specs.Checked.{node_refusal, query_refusal, refusal_in, refusal_unless};
ghost use Rattle.query.specs.Filter.{depth, filters_of, greatest_depth, nodes, nodes_of, leaf_values};
ghost use Rattle.query.specs.View.{filter_of, query_of};
ghost use Rattle.query.specs.declared.error.QueryError.TheVariants.{UnknownField};

use crate::error::QueryError;
use crate::filter::{Filter, Query};
use metadata::{Cell, Field, Kind, Schema};
use tuple_codec::Text;

/// The most levels of a filter; a leaf has one.
pub const MAX_DEPTH: usize = 32;

/// The most nodes of a filter.
pub const MAX_NODES: usize = 256;

/// The most sort fields.
pub const MAX_SORT: usize = 8;

// Whether a field has this name.
fn is_named(field: &Field, name: &Text) -> bool
    ensures { result ≡ bytes_eq field.now.name name.now }
{
    field.name.as_str() == name.as_str()
}

// The field of this name.
fn field_named<'a>(fields: &'a [Field], name: &Text) -> Option<&'a Field>
    ensures { option_copied result ≡ field_named fields.now name.now }
{
    fields.iter().find(|field| is_named(field, name))
}

// Whether a value may be compared with a field: of its kind, and not null.
fn is_value_of(kind: Kind, value: &Cell) -> bool
    ensures { result ≡ is_value_of kind value.now }
{
    !value.is_null() && value.fits(kind)
}

// Whether a value may be a prefix for a field.
fn is_prefix_of(kind: Kind, value: &Cell) -> bool
    ensures { result ≡ is_prefix_of kind value.now }
{
    match kind {
        Kind::Int => false,
        Kind::Text | Kind::Bytes => is_value_of(kind, value),
    }
}

// The refusal where a test fails.
fn unless(ok: bool, error: QueryError) -> Option<QueryError>
    ensures { result ≡ refusal_unless ok error }
{
    if ok { None } else { Some(error) }
}

// Why a single node is refused, its parts aside.
fn node_refusal(fields: &[Field], filter: &Filter) -> Option<QueryError>
    ensures { result ≡ node_refusal fields.now (filter_of filter.now) }
{
    match filter {
        Filter::Compare { field, value, .. } => match field_named(fields, field) {
            Some(found) => unless(is_value_of(found.kind, value), QueryError::WrongKind),
            None => Some(QueryError::UnknownField),
        },
        Filter::IsNull { field } => {
            unless(
                field_named(fields, field).is_some(),
                QueryError::UnknownField,
            )
        }
        Filter::StartsWith { field, value } => match field_named(fields, field) {
            Some(found) => unless(is_prefix_of(found.kind, value), QueryError::WrongKind),
            None => Some(QueryError::UnknownField),
        },
        Filter::And(_) | Filter::Or(_) | Filter::Not(_) => None,
    }
}

// Why a node of a filter is refused: the first, a whole before its parts.
#[cycle(refusals)]
#[tactic(auto, using(crate::proofs::Nodes::first_refusal_append))]
fn nodes_refusal(fields: &[Field], filter: &Filter) -> Option<QueryError>
    ensures { result ≡ first_query_refusal (node_refusal fields.now)
        (nodes (filter_of filter.now)) }
{
    if let Some(error) = node_refusal(fields, filter) {
        return Some(error);
    }
    match filter {
        Filter::Compare { .. } | Filter::IsNull { .. } | Filter::StartsWith { .. } => None,
        Filter::And(parts) | Filter::Or(parts) => parts_refusal(fields, parts.as_slice()),
        Filter::Not(part) => nodes_refusal(fields, part),
    }
}

// The same of the nodes of several filters.
#[cycle(refusals)]
#[tactic(auto, using(crate::proofs::Nodes::first_refusal_append))]
fn parts_refusal(fields: &[Field], parts: &[Filter]) -> Option<QueryError>
    ensures { result ≡ first_query_refusal (node_refusal fields.now) (nodes_of (filters_of (map filter_of parts.now))) }
{
    match parts {
        [] => None,
        [first, rest @ ..] => match nodes_refusal(fields, first) {
            Some(error) => Some(error),
            None => parts_refusal(fields, rest),
        },
    }
}

// Whether a filter has at most so many levels.
#[cycle(levels)]
fn is_within(filter: &Filter, levels: usize) -> bool
    ensures { result ≡ not (nat_lt levels (depth (filter_of filter.now))) }
{
    if levels == 0 {
        return false;
    }
    match filter {
        Filter::Compare { .. } | Filter::IsNull { .. } | Filter::StartsWith { .. } => true,
        Filter::And(parts) | Filter::Or(parts) => are_within(parts.as_slice(), levels - 1),
        Filter::Not(part) => is_within(part, levels - 1),
    }
}

#[cycle(levels)]
fn are_within(parts: &[Filter], levels: usize) -> bool
    ensures { result ≡ not (nat_lt levels (greatest_depth (filters_of (map filter_of parts.now)))) }
{
    match parts {
        [] => true,
        [first, rest @ ..] => is_within(first, levels) && are_within(rest, levels),
    }
}

// What is left of so many nodes after those of a filter, if they are enough.
#[cycle(counting)]
#[tactic(auto, using(crate::proofs::Nodes::length_nodes_of))]
fn left_after(filter: &Filter, room: usize) -> Option<usize>
    ensures { MatchOption result (room < length (nodes (filter_of filter.now)))
        (λ left. length (nodes (filter_of filter.now)) + left ≡ room) }
{
    if room == 0 {
        return None;
    }
    match filter {
        Filter::Compare { .. } | Filter::IsNull { .. } | Filter::StartsWith { .. } => Some(
            room - 1,
        ),
        Filter::And(parts) | Filter::Or(parts) => left_after_all(parts.as_slice(), room - 1),
        Filter::Not(part) => left_after(part, room - 1),
    }
}

#[cycle(counting)]
#[tactic(auto, using(crate::proofs::Nodes::length_nodes_of))]
fn left_after_all(parts: &[Filter], room: usize) -> Option<usize>
    ensures { MatchOption result (room < length (nodes_of (filters_of (map filter_of parts.now))))
        (λ left. length (nodes_of (filters_of (map filter_of parts.now))) + left ≡ room) }
{
    match parts {
        [] => Some(room),
        [first, rest @ ..] => match left_after(first, room) {
            Some(left) => left_after_all(rest, left),
            None => None,
        },
    }
}

// Whether a filter has at most 256 nodes.
fn is_small(filter: &Filter) -> bool
    ensures { result ≡ not (nat_lt 256 (length (nodes (filter_of filter.now)))) }
{
    left_after(filter, MAX_NODES).is_some()
}

// Why one of the names is refused as that of no field.
fn names_refusal(fields: &[Field], names: &[Text]) -> Option<QueryError>
    ensures { result
        ≡ first_query_refusal (λ name. refusal_unless (not (is_none (field_named fields.now name)))
        UnknownField) names.now }
{
    match names {
        [] => None,
        [first, rest @ ..] => {
            if field_named(fields, first).is_none() {
                return Some(QueryError::UnknownField);
            }
            names_refusal(fields, rest)
        }
    }
}

// Why a query is refused for the fields of its type.
fn refusal_in(fields: &[Field], query: &Query) -> Option<QueryError>
    ensures { result ≡ refusal_in fields.now (query_of query.now) }
{
    if !is_within(&query.filter, MAX_DEPTH) {
        return Some(QueryError::TooDeep);
    }
    let sort = query.sort.as_slice();
    if !is_small(&query.filter) || sort.len() > MAX_SORT {
        return Some(QueryError::TooLarge);
    }
    if let Some(error) = nodes_refusal(fields, &query.filter) {
        return Some(error);
    }
    if let Some(error) = names_refusal(fields, sort) {
        return Some(error);
    }
    unless(!query.sort.has_twice(), QueryError::SortTwice)
}

impl Query {
    /// Whether the query may be asked under a schema, which takes no memory.
    ///
    /// Refused, in this order: `UnknownType`; `TooDeep` (a filter of more than 32 levels);
    /// `TooLarge` (more than 256 nodes or 8 sort fields); for the first node that is refused, a
    /// whole before its parts, `UnknownField` or `WrongKind`; then for the sort `UnknownField` of
    /// any field, and last `SortTwice`.
    pub fn check(&self, schema: &Schema) -> Result<(), QueryError>
        ensures { MatchResult result (λ _. query_refusal schema.now (query_of self.now) ≡ None)
            (λ error. query_refusal schema.now (query_of self.now) ≡ Some error) }
    {
        let Some(definition) = schema.type_named(&self.record_type) else {
            return Err(QueryError::UnknownType);
        };
        match refusal_in(definition.fields.as_slice(), self) {
            Some(error) => Err(error),
            None => Ok(()),
        }
    }
}

/// Does nothing: its clause tells a caller's proof that the values of the filter's leaves are values
/// of their type.
#[cycle(known)]
#[tactic(auto, using(crate::proofs::Nodes::values_parts))]
pub fn values_known(filter: &Filter)
    ensures { All IsCell (flat_map leaf_values (nodes (filter_of filter.now))) }
{
    match filter {
        Filter::Compare { value, .. } | Filter::StartsWith { value, .. } => value.known(),
        Filter::IsNull { .. } => {}
        Filter::And(parts) | Filter::Or(parts) => all_known(parts.as_slice()),
        Filter::Not(part) => values_known(part),
    }
}

#[cycle(known)]
#[tactic(auto, using(crate::proofs::Nodes::values_parts))]
fn all_known(parts: &[Filter])
    ensures { All IsCell (flat_map leaf_values (nodes_of (filters_of (map filter_of parts.now)))) }
{
    match parts {
        [] => {}
        [first, rest @ ..] => {
            values_known(first);
            all_known(rest);
        }
    }
}
