//! The conjuncts of a filter. Called by `unions`.
ghost use Rattle.std.specs.Prelude.{◌≡◌, ◌++◌, map, length, OnOk, IfOk};
ghost use Rattle.std.specs.List.{enumerate_from};
ghost use Rattle.query.specs.Filter.{conjuncts, conjuncts_of, filters_of};
ghost use Rattle.query.specs.View.{filter_of};
ghost use Rattle.planner.specs.Match.{numbered_filters};
ghost use Rattle.planner.specs.View.{conjunct_of};

use crate::matching::Conjunct;
use query::Filter;
use std::alloc::{AllocError, Global};

/// The conjuncts of a filter, numbered.
pub(crate) fn conjuncts<'a>(
    alloc: Global,
    filter: &'a Filter,
) -> Result<Vec<Conjunct<'a>>, AllocError>
    ensures { IfOk result (λ cs. map conjunct_of cs.items
        ≡ numbered_filters (conjuncts (filter_of filter.now))) }
{
    let mut into = Vec::new(alloc);
    add_conjuncts(filter, &mut into)?;
    Ok(into)
}

/// Adds the conjuncts of a filter, with the next places.
#[cycle(flatten)]
fn add_conjuncts<'a>(filter: &'a Filter, into: &mut Vec<Conjunct<'a>>) -> Result<(), AllocError>
    ensures { OnOk result (map conjunct_of into.new.items ≡ map conjunct_of into.old.items
        ++ enumerate_from (length into.old.items) (conjuncts (filter_of filter.now))) }
{
    match filter {
        Filter::And(parts) => add_all(parts.as_slice(), into),
        Filter::Compare { .. }
        | Filter::IsNull { .. }
        | Filter::StartsWith { .. }
        | Filter::Or(_)
        | Filter::Not(_) => {
            let place = into.len();
            into.push(Conjunct { place, filter })?;
            Ok(())
        }
    }
}

/// Adds the conjuncts of the parts of an `and`.
#[cycle(flatten)]
fn add_all<'a>(parts: &'a [Filter], into: &mut Vec<Conjunct<'a>>) -> Result<(), AllocError>
    ensures { OnOk result (map conjunct_of into.new.items ≡ map conjunct_of into.old.items
        ++ enumerate_from (length into.old.items)
        (conjuncts_of (filters_of (map filter_of parts.now)))) }
{
    match parts {
        [] => Ok(()),
        [first, rest @ ..] => {
            add_conjuncts(first, into)?;
            add_all(rest, into)
        }
    }
}
