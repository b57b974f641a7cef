// Whether a store has the type of a plan and may read its indexes. Called by `execution`.
ghost use Rattle.std.specs.Prelude.{◌≡◌, IfOk, IfErr, IfNone, IfSome, map};
ghost use Rattle.std.specs.List.{list_all, list_any, starts_with};
ghost use Rattle.metadata.specs.Same.{equal_field, same_kind};
ghost use Rattle.metadata.specs.Index.{is_readable};
ghost use Rattle.planner.specs.Planned.{nodes_of};
ghost use Rattle.planner.specs.Right.{indexes_of, indexes_of_all, source_indexes};
ghost use Rattle.planner.specs.View.{node_of, plan_of, source_of};
ghost use Rattle.metadata.specs.declared.definition.TypeDefinition.{TypeDefinition as TypeValue};
ghost use Rattle.plan_exec.specs.Accepting.{Accepts, HasType, IsNotAccepted};
ghost use Rattle.plan_exec.specs.Accepting.{equal_index, equal_kind, equal_place, equal_truth, extends, may_read};

use crate::error::ExecError;
use metadata::{Field, IndexDefinition, IndexKind, Kind, State, TypeDefinition};
use planner::{IndexScan, Node, Plan, Source};
use record_store::Store;

// Whether two kinds of fields are the same.
fn is_same_kind(a: Kind, b: Kind) -> bool
    ensures { result ≡ same_kind a b }
{
    match (a, b) {
        (Kind::Int, Kind::Int) => true,
        (Kind::Text, Kind::Text) => true,
        (Kind::Bytes, Kind::Bytes) => true,
        _ => false,
    }
}

// Whether two fields have the same name and kind.
fn is_equal_field(a: &Field, b: &Field) -> bool
    ensures { result ≡ equal_field a.now b.now }
{
    a.name.as_str() == b.name.as_str() && is_same_kind(a.kind, b.kind)
}

// Whether fields begin with others.
fn begin_with(fields: &[Field], first: &[Field]) -> bool
    ensures { result ≡ starts_with equal_field fields.now first.now }
{
    match first {
        [] => true,
        [one, others @ ..] => match fields {
            [] => false,
            [own, rest @ ..] => is_equal_field(one, own) && begin_with(rest, others),
        },
    }
}

// Whether the type is the plan's, perhaps with fields appended. Both have one name.
fn extends(definition: &TypeDefinition, planned: &TypeDefinition) -> bool
    ensures { result ≡ extends planned.now definition.now }
{
    definition.number == planned.number
        && definition.key.as_slice() == planned.key.as_slice()
        && begin_with(definition.fields.as_slice(), planned.fields.as_slice())
}

// Whether two kinds of indexes are the same.
fn is_equal_kind(a: IndexKind, b: IndexKind) -> bool
    ensures { result ≡ equal_kind a b }
{
    match (a, b) {
        (IndexKind::Value, IndexKind::Value) => true,
        (IndexKind::Count, IndexKind::Count) => true,
        (IndexKind::Sum, IndexKind::Sum) => true,
        _ => false,
    }
}

// Whether two places are the same, or there is none.
fn is_equal_place(a: Option<usize>, b: Option<usize>) -> bool
    ensures { result ≡ equal_place a b }
{
    match (a, b) {
        (None, None) => true,
        (Some(place), Some(other)) => place == other,
        _ => false,
    }
}

// Whether both are so, or neither is.
fn is_equal_truth(a: bool, b: bool) -> bool
    ensures { result ≡ equal_truth a b }
{
    if a { b } else { !b }
}

// Whether two definitions of indexes are the same.
fn is_equal_index(a: &IndexDefinition, b: &IndexDefinition) -> bool
    ensures { result ≡ equal_index a.now b.now }
{
    a.number == b.number
        && a.name.as_str() == b.name.as_str()
        && is_equal_kind(a.kind, b.kind)
        && a.type_number == b.type_number
        && a.columns.as_slice() == b.columns.as_slice()
        && is_equal_place(a.summed, b.summed)
        && is_equal_truth(a.clear_when_zero, b.clear_when_zero)
}

// Whether the index is one of these.
fn is_among(index: &IndexDefinition, indexes: &[IndexDefinition]) -> bool
    ensures { result ≡ list_any (λ own. equal_index own index.now) indexes.now }
{
    indexes.iter().any(|own| is_equal_index(own, index))
}

// Whether an index in this state may be read.
fn is_readable(state: State) -> bool
    ensures { result ≡ is_readable state }
{
    match state {
        State::Readable => true,
        State::WriteOnly => false,
        State::Disabled => false,
    }
}

// Whether the store has the index with this definition, and it is readable.
fn may_read(store: &Store, index: &IndexDefinition) -> bool
    ensures { result ≡ may_read store.now index.now }
{
    is_among(index, store.schema().indexes()) && is_readable(store.state_of(index.number))
}

// Whether the store may read the indexes of some scans.
fn may_read_all(store: &Store, scans: &[IndexScan]) -> bool
    ensures { result ≡ list_all (λ scan. may_read store.now scan.index) scans.now }
{
    scans.iter().all(|scan| may_read(store, &scan.index))
}

// Whether the store may read the indexes from which a fetch gets its keys.
fn may_read_source(store: &Store, source: &Source) -> bool
    ensures { result ≡ list_all (may_read store.now) (source_indexes (source_of source.now)) }
{
    match source {
        Source::IndexScan(scan) => may_read(store, &scan.index),
        Source::Intersection(scans) => may_read_all(store, scans.as_slice()),
    }
}

// Whether the store may read the indexes of a step.
#[cycle(asking)]
fn may_read_node(store: &Store, node: &Node) -> bool
    ensures { result ≡ list_all (may_read store.now) (indexes_of (node_of node.now)) }
{
    match node {
        Node::Scan(_) => true,
        Node::Fetch(source) => may_read_source(store, source),
        Node::Filter(_, part) => may_read_node(store, part),
        Node::Union(parts) => may_read_nodes(store, parts.as_slice()),
        Node::UnorderedUnion(parts) => may_read_nodes(store, parts.as_slice()),
        Node::Distinct(part) => may_read_node(store, part),
    }
}

// Whether the store may read the indexes of some steps.
#[cycle(asking)]
fn may_read_nodes(store: &Store, parts: &[Node]) -> bool
    ensures { result ≡ list_all (may_read store.now) (indexes_of_all (nodes_of (map node_of parts.now))) }
{
    for part in parts {
        if !may_read_node(store, part) {
            return false;
        }
    }
    true
}

// The type of a plan in the schema of a store.
fn type_of<'a>(store: &'a Store, plan: &Plan) -> Option<&'a TypeDefinition>
    ensures found { IfSome result (λ t. HasType store.now (plan_of plan.now) t.now) }
    ensures none { IfNone result ((t : TypeValue) → HasType store.now (plan_of plan.now) t → ⊥) }
{
    match store.schema().type_named(&plan.definition().name) {
        Some(definition) => {
            if extends(definition, plan.definition()) {
                Some(definition)
            } else {
                None
            }
        }
        None => None,
    }
}

// The type of a plan in the schema of a store that accepts the plan.
pub(crate) fn accepted_type<'a>(
    store: &'a Store,
    plan: &Plan,
) -> Result<&'a TypeDefinition, ExecError>
    ensures accepted { IfOk result (λ t. Accepts store.now (plan_of plan.now) t.now) }
    ensures refused { IfErr result (IsNotAccepted store.now (plan_of plan.now)) }
{
    match type_of(store, plan) {
        Some(definition) => {
            if may_read_node(store, plan.root()) {
                Ok(definition)
            } else {
                Err(ExecError::IndexNotReadable)
            }
        }
        None => Err(ExecError::OtherSchema),
    }
}
