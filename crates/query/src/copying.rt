// Copies of filters and queries. Called by `planner`, whose plans keep them.
ghost use Rattle.std.specs.Prelude.{◌≡◌, ◌++◌, map, IfOk, OnOk};
ghost use Rattle.query.specs.View.{filter_of, query_of};

use crate::filter::{Filter, Query};
use std::alloc::{AllocError, Global};

// An equal filter.
#[cycle(copying)]
fn copy_filter(alloc: Global, filter: &Filter) -> Result<Filter, AllocError>
    ensures { IfOk result (λ copy. filter_of copy ≡ filter_of filter.now) }
{
    match filter {
        Filter::Compare {
            field,
            operator,
            value,
        } => {
            let field = field.copy()?;
            Ok(Filter::Compare {
                field,
                operator: *operator,
                value: value.copy()?,
            })
        }
        Filter::IsNull { field } => {
            let field = field.copy()?;
            Ok(Filter::IsNull { field })
        }
        Filter::StartsWith { field, value } => {
            let field = field.copy()?;
            let value = value.copy()?;
            Ok(Filter::StartsWith { field, value })
        }
        Filter::And(parts) => {
            let mut copies = Vec::new(alloc);
            copy_parts(alloc, parts.as_slice(), &mut copies)?;
            Ok(Filter::And(copies))
        }
        Filter::Or(parts) => {
            let mut copies = Vec::new(alloc);
            copy_parts(alloc, parts.as_slice(), &mut copies)?;
            Ok(Filter::Or(copies))
        }
        Filter::Not(part) => {
            let copy = copy_filter(alloc, part)?;
            Ok(Filter::Not(Box::new(alloc, copy)?))
        }
    }
}

// Adds equal filters.
#[cycle(copying)]
fn copy_parts(alloc: Global, parts: &[Filter], into: &mut Vec<Filter>) -> Result<(), AllocError>
    ensures { OnOk result (map filter_of into.new.items
        ≡ map filter_of into.old.items ++ map filter_of parts.now) }
{
    match parts {
        [] => Ok(()),
        [first, rest @ ..] => {
            let copy = copy_filter(alloc, first)?;
            into.push(copy)?;
            copy_parts(alloc, rest, into)
        }
    }
}

impl Filter {
    /// An equal filter.
    pub fn copy(&self, alloc: Global) -> Result<Filter, AllocError>
        ensures { IfOk result (λ copy. filter_of copy ≡ filter_of self.now) }
    {
        copy_filter(alloc, self)
    }
}

impl Query {
    /// An equal query.
    pub fn copy(&self, alloc: Global) -> Result<Query, AllocError>
        ensures { IfOk result (λ copy. query_of copy ≡ query_of self.now) }
    {
        let record_type = self.record_type.copy()?;
        let filter = self.filter.copy(alloc)?;
        let sort = self.sort.copy()?;
        Ok(Query {
            record_type,
            filter,
            sort,
            reverse: self.reverse,
        })
    }
}
