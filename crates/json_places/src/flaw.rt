// What is wrong where a text is no JSON. Told by `read`, `looking` and `mending`; `script_check`
// prints it.
use thiserror::Error;

/// What is wrong at a place of a text.
#[derive(Clone, Copy, Debug, PartialEq, Eq, Drop, Error)]
pub enum FlawKind {
    /// Nothing but blanks.
    #[error("there is nothing here")]
    Empty,
    /// Bytes that aren't UTF-8.
    #[error("this isn't UTF-8")]
    NotUtf8,
    /// The text ends where a value or a key is to stand.
    #[error("the text ends here")]
    CutShort,
    /// A list without its end.
    #[error("this list isn't closed")]
    OpenList,
    /// An object without its end.
    #[error("this object isn't closed")]
    OpenObject,
    /// Lists and objects in one another.
    #[error("lists and objects nest deeper than 127")]
    TooDeep,
    /// A value after another one.
    #[error("a comma is missing before this")]
    CommaMissing,
    /// A comma after which nothing stands.
    #[error("nothing stands after this comma")]
    CommaTooMany,
    /// A key where none may be.
    #[error("a key stands in an object alone")]
    KeyOutside,
    /// A key without its colon.
    #[error("a colon is missing after this key")]
    ColonMissing,
    /// No text where a key is to stand.
    #[error("a key is a text in double quotes")]
    KeyWanted,
    /// A key after which nothing stands.
    #[error("a value is missing here")]
    ValueMissing,
    /// A bracket that closes nothing that is open.
    #[error("this bracket closes nothing that is open here")]
    WrongBracket,
    /// Something after the value.
    #[error("nothing may stand after the end of the text's value")]
    Trailing,
    /// A text that isn't one.
    #[error("this text has no end on its line, or what no text of JSON may have")]
    BadText,
    /// Digits that are no number.
    #[error("this is no number of JSON")]
    BadNumber,
    /// A word that isn't one of JSON.
    #[error("this is no word of JSON: true, false and null are, and texts stand in double quotes")]
    BadWord,
    /// Single quotes.
    #[error("texts stand in double quotes")]
    SingleQuotes,
    /// A comment.
    #[error("JSON has no comments")]
    Comment,
    /// Another byte.
    #[error("this can't stand here")]
    OtherByte,
}

/// A place where a text is no JSON.
#[derive(Clone, Copy, Debug, PartialEq, Eq, Drop)]
pub struct Flaw {
    /// The place, from 0.
    pub at: usize,
    /// What is wrong there.
    pub kind: FlawKind,
}
