// Texts of XML. Called by `tree` and `boxes`.
use std::alloc::AllocError;

// Whether a character may stand in a text of XML.
fn is_allowed(letter: char) -> bool {
    match letter {
        '\t' | '\n' | '\r' => true,
        '\u{fffe}' | '\u{ffff}' => false,
        _ => letter >= ' ',
    }
}

/// Writes a text as one of XML. In the place of a character that XML hasn't stands that for one
/// that can't be shown.
pub(crate) fn push_escaped(line: &mut String, text: &str) -> Result<(), AllocError> {
    for letter in text.chars() {
        match letter {
            '&' => line.push_str("&amp;")?,
            '<' => line.push_str("&lt;")?,
            '>' => line.push_str("&gt;")?,
            '"' => line.push_str("&quot;")?,
            _ if is_allowed(letter) => line.push(letter)?,
            _ => line.push('\u{fffd}')?,
        }
    }
    Ok(())
}
