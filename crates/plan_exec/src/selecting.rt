// Which records a filter selects. Called by `rows`.
ghost use Rattle.std.specs.Prelude.{◌≡◌};
ghost use Rattle.query.specs.Truth.{selects};
ghost use Rattle.query.specs.View.{filter_of};

use metadata::Record;
use query::{Filter, Truth, truth};

// Whether a filter is true at a record, which unknown isn't.
pub(crate) fn selects(condition: &Filter, row: &Record) -> bool
    ensures { result ≡ selects (filter_of condition.now) row.now }
{
    match truth(condition, row) {
        Truth::True => true,
        Truth::False => false,
        Truth::Unknown => false,
    }
}
