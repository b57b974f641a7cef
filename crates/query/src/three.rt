// The connectives of three-valued logic. Called by `walk`.
ghost use Rattle.std.specs.Prelude.{◌≡◌};
ghost use Rattle.query.specs.Truth.{opposite, both, either};

use crate::filter::Truth;

// What `not` makes of a truth.
pub(crate) fn opposite(p: Truth) -> Truth
    ensures { result ≡ opposite p }
{
    match p {
        Truth::True => Truth::False,
        Truth::False => Truth::True,
        Truth::Unknown => Truth::Unknown,
    }
}

// What `and` makes of two.
pub(crate) fn both(p: Truth, q: Truth) -> Truth
    ensures { result ≡ both p q }
{
    match (p, q) {
        (Truth::False, _) => Truth::False,
        (Truth::True, q) => q,
        (Truth::Unknown, Truth::False) => Truth::False,
        (Truth::Unknown, _) => Truth::Unknown,
    }
}

// What `or` makes of two.
pub(crate) fn either(p: Truth, q: Truth) -> Truth
    ensures { result ≡ either p q }
{
    match (p, q) {
        (Truth::True, _) => Truth::True,
        (Truth::False, q) => q,
        (Truth::Unknown, Truth::True) => Truth::True,
        (Truth::Unknown, _) => Truth::Unknown,
    }
}
