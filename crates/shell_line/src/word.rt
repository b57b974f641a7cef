// Words of a line. Used by every module here.
use crate::flaw::LineError;
use std::alloc::Global;

/// What a word is.
#[derive(Clone, Copy, Debug, PartialEq, Eq, Drop)]
pub(crate) enum WordKind {
    /// Letters, digits and `_`, with no digit first.
    Name,
    /// A whole number.
    Number,
    /// A text in quotes, as in JSON.
    Text,
    /// An object of JSON.
    Object,
    /// A sign that compares.
    Sign,
}

/// A word as it is written, and its place in the line.
#[derive(Clone, Copy, Debug, Drop)]
pub(crate) struct Word<'a> {
    pub kind: WordKind,
    pub text: &'a str,
    pub at: usize,
}

/// Words, and where the line ends after them.
#[derive(Clone, Copy, Drop)]
pub(crate) struct Words<'w, 'a> {
    pub list: &'w [Word<'a>],
    pub end: usize,
}

impl<'w, 'a> Words<'w, 'a> {
    /// Those from a place on.
    pub(crate) fn from(self, place: usize) -> Words<'w, 'a> {
        let first = place.min(self.list.len());
        Words {
            list: &self.list[first..],
            end: self.end,
        }
    }
}

impl<'a> Word<'a> {
    /// Whether it is this name.
    pub(crate) fn is(&self, name: &str) -> bool {
        self.kind == WordKind::Name && self.text == name
    }

    /// Whether it may stand for a cell: a number, a text, bytes, or null.
    pub(crate) fn is_cell(&self) -> bool {
        match self.kind {
            WordKind::Number | WordKind::Text | WordKind::Object => true,
            WordKind::Name => self.text == "null",
            WordKind::Sign => false,
        }
    }
}

/// Tells that something else is wanted at the place of a word, or at the line's end.
pub(crate) fn wanted(alloc: Global, words: Words<'_, '_>, place: usize, what: &str) -> LineError {
    match words.list.get(place) {
        Some(word) => {
            let text = word.text;
            LineError::told(
                word.at,
                format!(in alloc; "{what} is wanted here, not {text}"),
            )
        }
        None => LineError::told(words.end, format!(in alloc; "{what} is wanted here")),
    }
}

/// The object that is the only word, where it is one.
pub(crate) fn only_object<'a>(words: &[Word<'a>]) -> Option<&'a str> {
    match words {
        [word] if word.kind == WordKind::Object => Some(word.text),
        _ => None,
    }
}

/// The name at a place.
pub(crate) fn name_at<'a>(
    alloc: Global,
    words: Words<'_, 'a>,
    place: usize,
    what: &str,
) -> Result<&'a str, LineError> {
    match words.list.get(place) {
        Some(word) if word.kind == WordKind::Name => Ok(word.text),
        _ => Err(wanted(alloc, words, place, what)),
    }
}

/// Tells which of some words isn't a name, and that there are none.
pub(crate) fn check_names(
    alloc: Global,
    words: Words<'_, '_>,
    what: &str,
) -> Result<(), LineError> {
    for place in 0..words.list.len().max(1) {
        name_at(alloc, words, place, what)?;
    }
    Ok(())
}

/// The words before the first of this name, and those after it where there is one.
pub(crate) fn cut<'w, 'a>(
    words: Words<'w, 'a>,
    name: &str,
) -> (Words<'w, 'a>, Option<Words<'w, 'a>>) {
    let Some(place) = words.list.iter().position(|word| word.is(name)) else {
        return (words, None);
    };
    let before = Words {
        list: &words.list[..place],
        end: words.list[place].at,
    };
    (before, Some(words.from(place.saturating_add(1))))
}
