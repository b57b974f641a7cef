// The abstract syntax of filters and queries, and the three truth values. Made by `json_forms`,
// `race` and `record_layer`; read by the modules here, by `planner` and by `explain`.
use metadata::{Cell, Names};
use tuple_codec::Text;

/// How a field is compared with a value.
#[derive(Clone, Copy, Debug, PartialEq, Eq, Drop)]
pub enum Operator {
    /// `=`
    Equal,
    /// `!=`
    NotEqual,
    /// `<`
    Less,
    /// `<=`
    AtMost,
    /// `>`
    Greater,
    /// `>=`
    AtLeast,
}

/// The truth of a filter at a record, where a comparison with null is unknown.
#[derive(Clone, Copy, Debug, PartialEq, Eq, Drop)]
pub enum Truth {
    /// The record is selected.
    True,
    /// It isn't.
    False,
    /// It isn't either: null was compared with a value.
    Unknown,
}

/// A condition on records. Fields go by their names.
#[derive(Drop)]
pub enum Filter {
    /// The field compared with the value, which isn't null: unknown where the field is null.
    Compare {
        field: Text,
        operator: Operator,
        value: Cell,
    },
    /// The field is null, which is always known.
    IsNull {
        field: Text,
    },
    /// The text or byte string begins with the value: unknown where the field is null.
    StartsWith {
        field: Text,
        value: Cell,
    },
    /// All are true; so it is without any.
    And(Vec<Filter>),
    /// One of them is true, which isn't so without any.
    Or(Vec<Filter>),
    /// The opposite; that of unknown is unknown.
    Not(Box<Filter>),
}

/// The records of a type at which a filter is true, sorted by fields, null first, or the other way
/// round.
#[derive(Drop)]
pub struct Query {
    pub record_type: Text,
    pub filter: Filter,
    pub sort: Names,
    pub reverse: bool,
}
