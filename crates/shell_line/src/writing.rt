// Parts of JSON, written from words. Called by `forms`, `defining` and `querying`.
ghost use Rattle.std.specs.Prelude.{◌≡◌, ◌++◌, OnOk, map, string_bytes};
ghost use Rattle.std.specs.List.{join_with_byte};
ghost use Rattle.shell_line.specs.Said.{comma_at, in_quotes, step_begin, word_text};

use crate::word::Word;
use std::alloc::AllocError;

/// Writes a name in quotes.
pub(crate) fn push_quoted(out: &mut String, name: &str) -> Result<(), AllocError>
    ensures { OnOk result (string_bytes out.new ≡ string_bytes out.old ++ in_quotes name.now) }
{
    out.push_str("\"")?;
    out.push_str(name)?;
    out.push_str("\"")
}

/// Writes a comma before each part but the first.
pub(crate) fn push_comma(out: &mut String, index: usize) -> Result<(), AllocError>
    ensures { OnOk result (string_bytes out.new ≡ string_bytes out.old ++ comma_at index) }
{
    if index > 0 {
        out.push_str(",")?;
    }
    Ok(())
}

// Writes a word as it is.
fn push_written(out: &mut String, word: &Word<'_>) -> Result<(), AllocError>
    ensures { OnOk result (string_bytes out.new ≡ string_bytes out.old ++ word_text word.now) }
{
    out.push_str(word.text)
}

/// Writes words as they are, with a comma between each two.
pub(crate) fn push_joined(out: &mut String, words: &[Word<'_>]) -> Result<(), AllocError>
    ensures { OnOk result (string_bytes out.new
        ≡ string_bytes out.old ++ join_with_byte 44 (map word_text words.now)) }
{
    for (index, word) in words.iter().enumerate() {
        push_comma(out, index)?;
        push_written(out, word)?;
    }
    Ok(())
}

/// Writes words in quotes, with a comma between each two.
pub(crate) fn push_names(out: &mut String, words: &[Word<'_>]) -> Result<(), AllocError> {
    for (index, word) in words.iter().enumerate() {
        push_comma(out, index)?;
        push_quoted(out, word.text)?;
    }
    Ok(())
}

/// Writes what a step of a client begins with.
pub(crate) fn push_opened(out: &mut String, verb: &str, client: &str) -> Result<(), AllocError>
    ensures { OnOk result (string_bytes out.new
        ≡ string_bytes out.old ++ step_begin verb.now client.now) }
{
    out.push_str("[")?;
    push_quoted(out, verb)?;
    out.push_str(",")?;
    out.push_str(client)
}

/// Writes an object as it is written.
pub(crate) fn push_object(out: &mut String, object: &str) -> Result<(), AllocError> {
    out.push_str(",")?;
    out.push_str(object)
}
