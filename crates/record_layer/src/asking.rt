// Filters and queries from texts. Called by applications.
ghost use Rattle.std.specs.Prelude.{◌≡◌, IfOk, MatchResult, None, Some, [], true, false};
ghost use Rattle.metadata.specs.declared.cells.Cell.TheVariants.{Text as TextValue};
ghost use Rattle.query.specs.Checked.{query_refusal};
ghost use Rattle.query.specs.Filter.{all_of, compare, no_filters, null_field, starts};
ghost use Rattle.query.specs.View.{filter_of, query_of};
ghost use Rattle.record_layer.specs.Lent.{lent_cell};
ghost use Rattle.record_layer.specs.Making.{names_of};

use crate::cells::{CellRef, cell_of};
use crate::making::names;
use metadata::{Cell, Names, Schema};
use query::{Filter, Operator, Query, QueryError};
use std::alloc::{AllocError, Global};
use tuple_codec::Text;

/// The condition that a field stands so to a value, which isn't null.
pub fn compare(
    alloc: Global,
    field: &str,
    operator: Operator,
    value: CellRef<'_>,
) -> Result<Filter, AllocError>
    ensures { IfOk result (λ filter.
        filter_of filter ≡ compare field.now operator (lent_cell value.entry)) }
{
    let field = Text::from_str(alloc, field)?;
    let value = cell_of(alloc, value)?;
    Ok(Filter::Compare {
        field,
        operator,
        value,
    })
}

/// The condition that a field is null.
pub fn is_null(alloc: Global, field: &str) -> Result<Filter, AllocError>
    ensures { IfOk result (λ filter. filter_of filter ≡ null_field field.now) }
{
    let field = Text::from_str(alloc, field)?;
    Ok(Filter::IsNull { field })
}

/// The condition that a field's text begins with this one.
pub fn starts_with(alloc: Global, field: &str, front: &str) -> Result<Filter, AllocError>
    ensures { IfOk result (λ filter. filter_of filter ≡ starts field.now (TextValue front.now)) }
{
    let field = Text::from_str(alloc, field)?;
    let value = Cell::Text(Text::from_str(alloc, front)?);
    Ok(Filter::StartsWith { field, value })
}

/// A query that is put together, and checked at its end.
pub struct QueryMaker {
    /// The query so far.
    pub query: Query,
}

// Written out, so that no proof of a caller has to take the query apart where one is dropped.
impl Drop for QueryMaker {
    fn drop(self) {
        let QueryMaker { query } = self;
        drop(query);
    }
}

impl QueryMaker {
    /// The query for all records of the type of this name, in any order.
    pub fn of(alloc: Global, record_type: &str) -> Result<QueryMaker, AllocError>
        ensures { IfOk result (λ made. query_of made.query ≡ record {
          record_type = record_type.now;
          filter = all_of no_filters;
          sort = [];
          reverse = false;
        }) }
    {
        let query = Query {
            record_type: Text::from_str(alloc, record_type)?,
            filter: Filter::And(Vec::new(alloc)),
            sort: Names::new(Vec::new(alloc)),
            reverse: false,
        };
        Ok(QueryMaker { query })
    }

    /// Of these the records at which this is true.
    pub fn with_filter(self, filter: Filter) -> QueryMaker
        ensures { result.query ≡ record self.query { filter = filter } }
    {
        let mut made = self;
        made.query.filter = filter;
        made
    }

    /// In the order of these fields, null first.
    pub fn sorted_by(self, alloc: Global, fields: &[&str]) -> Result<QueryMaker, AllocError>
        ensures { IfOk result (λ made.
            made.query ≡ record self.query { sort = names_of fields.now }) }
    {
        let mut made = self;
        made.query.sort = names(alloc, fields)?;
        Ok(made)
    }

    /// In the opposite order.
    pub fn reversed(self) -> QueryMaker
        ensures { result.query ≡ record self.query { reverse = true } }
    {
        let mut made = self;
        made.query.reverse = true;
        made
    }

    /// The query, which may be asked under this schema. Refused as `Query::check` refuses.
    pub fn checked(self, schema: &Schema) -> Result<Query, QueryError>
        ensures { MatchResult result
            (λ made. (made ≡ self.query) × (query_refusal schema.now (query_of made) ≡ None))
            (λ error. query_refusal schema.now (query_of self.query) ≡ Some error) }
    {
        let QueryMaker { query: made } = self;
        made.check(schema)?;
        Ok(made)
    }
}
