// The words with which filters begin. Called by `checking`.
use crate::finder::Finder;
use crate::names::tell_unknown;
use std::alloc::AllocError;

// The words of filters.
static FILTER_WORDS: [&str; 11] = [
    "=", "!=", "<", "<=", ">", ">=", "null", "starts", "and", "or", "not",
];

/// What stands after the word of a filter.
#[derive(Clone, Copy, Debug, PartialEq, Eq, Drop)]
pub(crate) enum Operands {
    /// A field and a cell.
    FieldAndCell,
    /// A field.
    Field,
    /// A filter.
    Filter,
    /// Any number of filters.
    Filters,
}

/// What stands after a word, none where no filter begins with it.
pub(crate) fn operands_of(word: &str) -> Option<Operands> {
    match word {
        "=" | "!=" | "<" | "<=" | ">" | ">=" | "starts" => Some(Operands::FieldAndCell),
        "null" => Some(Operands::Field),
        "not" => Some(Operands::Filter),
        "and" | "or" => Some(Operands::Filters),
        _ => None,
    }
}

/// Tells that no filter begins with a word.
pub(crate) fn tell_word(finder: &mut Finder, at: usize, word: &str) -> Result<(), AllocError> {
    tell_unknown(finder, at, "filter", word, &FILTER_WORDS)
}

/// Tells what a filter takes after its word.
pub(crate) fn tell_operands(
    finder: &mut Finder,
    at: usize,
    word: &str,
    operands: Operands,
) -> Result<(), AllocError> {
    let wanted = match operands {
        Operands::FieldAndCell => "a field's name and a cell",
        Operands::Field => "a field's name",
        Operands::Filter => "one filter",
        Operands::Filters => "filters",
    };
    let reason = format!(in finder.alloc; "{word:?} takes {wanted}")?;
    finder.tell(at, reason)
}
