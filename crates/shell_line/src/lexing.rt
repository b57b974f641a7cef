// The words of a line, one after another. Called by `line`.
use crate::flaw::LineError;
use crate::word::{Word, WordKind};
use std::alloc::Global;

/// Whether a byte may stand in a name.
fn is_letter(byte: u8) -> bool {
    byte.is_ascii_alphanumeric() || byte == b'_'
}

/// Whether a byte only parts words. A comma does, too.
pub(crate) fn is_blank(byte: u8) -> bool {
    matches!(byte, b' ' | b'\t' | b',' | b'\r' | b'\n')
}

/// How many bytes of a text are before the first one that is no blank.
pub(crate) fn blanks(bytes: &[u8]) -> usize {
    bytes
        .iter()
        .position(|byte| !is_blank(*byte))
        .unwrap_or(bytes.len())
}

// How many of the first bytes may stand in a name.
fn letters(bytes: &[u8]) -> usize {
    bytes
        .iter()
        .position(|byte| !is_letter(*byte))
        .unwrap_or(bytes.len())
}

// Whether a byte is within a text in quotes, and after a backslash in it.
#[derive(Clone, Copy, Debug, PartialEq, Eq, Drop)]
enum Quoting {
    Outside,
    Inside,
    Escaped,
}

// The same after a byte.
fn quoting_after(quoting: Quoting, byte: u8) -> Quoting {
    match (quoting, byte) {
        (Quoting::Outside, b'"') => Quoting::Inside,
        (Quoting::Outside, _) => Quoting::Outside,
        (Quoting::Inside, b'"') => Quoting::Outside,
        (Quoting::Inside, b'\\') => Quoting::Escaped,
        (Quoting::Inside | Quoting::Escaped, _) => Quoting::Inside,
    }
}

// How many bytes the text in quotes has with which bytes begin, none where it isn't closed.
fn text_length(bytes: &[u8]) -> Option<usize> {
    let mut quoting = Quoting::Outside;
    for (index, byte) in bytes.iter().enumerate() {
        quoting = quoting_after(quoting, *byte);
        if quoting == Quoting::Outside {
            return Some(index + 1);
        }
    }
    None
}

// How deep brackets nest after a byte that is in no text.
fn depth_after(depth: usize, byte: u8) -> usize {
    match byte {
        b'{' | b'[' => depth.saturating_add(1),
        b'}' | b']' => depth.saturating_sub(1),
        _ => depth,
    }
}

// How many bytes the object has with which bytes begin, none where it isn't closed.
fn object_length(bytes: &[u8]) -> Option<usize> {
    let mut quoting = Quoting::Outside;
    let mut depth = 0;
    for (index, byte) in bytes.iter().enumerate() {
        quoting = quoting_after(quoting, *byte);
        if quoting == Quoting::Outside {
            depth = depth_after(depth, *byte);
            if depth == 0 {
                return Some(index + 1);
            }
        }
    }
    None
}

// How many bytes the sign has with which bytes begin.
fn sign_length(bytes: &[u8]) -> Option<usize> {
    match bytes {
        [b'!' | b'<' | b'>', b'=', ..] => Some(2),
        [b'=' | b'<' | b'>', ..] => Some(1),
        _ => None,
    }
}

// What a word is that begins with this byte.
fn kind_of(byte: u8) -> Option<WordKind> {
    match byte {
        b'"' => Some(WordKind::Text),
        b'{' => Some(WordKind::Object),
        b'-' | b'0'..=b'9' => Some(WordKind::Number),
        b'=' | b'!' | b'<' | b'>' => Some(WordKind::Sign),
        _ if is_letter(byte) => Some(WordKind::Name),
        _ => None,
    }
}

// How many bytes the word of this kind has with which bytes begin.
fn length_of(kind: WordKind, bytes: &[u8]) -> Option<usize> {
    match kind {
        WordKind::Name => Some(letters(bytes)),
        WordKind::Number => Some(letters(bytes.get(1..).unwrap_or(&[])).saturating_add(1)),
        WordKind::Text => text_length(bytes),
        WordKind::Object => object_length(bytes),
        WordKind::Sign => sign_length(bytes),
    }
}

// What is told where no word is read that begins with this byte.
fn reason_of(byte: u8) -> &'static str {
    match byte {
        b'"' => "this text isn't closed by a quote",
        b'{' => "this object isn't closed",
        b'!' => "a sign is one of = != < <= > >=",
        b'\'' => "texts stand in double quotes",
        b'(' | b')' => "there are no brackets here: write such a query in the form of a script",
        b'[' => "a list stands alone on a line, as a step of a script",
        _ => "no word begins so: help tells what can be typed",
    }
}

// Whether a text is a whole number of 64 bits with sign, as JSON writes it.
fn is_number(text: &str) -> bool {
    let digits = text.strip_prefix("-").unwrap_or(text);
    let has_zeros = digits.len() > 1 && digits.starts_with("0");
    !has_zeros && text != "-0" && text.parse::<i64>().is_ok()
}

// What is wrong with a word, if something is.
fn flaw_of(kind: WordKind, text: &str) -> Option<&'static str> {
    if kind == WordKind::Number && !is_number(text) {
        Some("a number is a whole one of 64 bits with sign, without zeros before it")
    } else {
        None
    }
}

/// The next word after so many bytes of a line, none at its end.
pub(crate) fn next_word<'a>(
    alloc: Global,
    line: &'a str,
    from: usize,
) -> Result<Option<Word<'a>>, LineError> {
    let rest = line.as_bytes().get(from..).unwrap_or(&[]);
    let at = from.saturating_add(blanks(rest));
    let bytes = line.as_bytes().get(at..).unwrap_or(&[]);
    let Some(first) = bytes.first() else {
        return Ok(None);
    };
    let kind = kind_of(*first);
    let length = kind.and_then(|kind| length_of(kind, bytes));
    let (Some(kind), Some(length)) = (kind, length) else {
        return Err(LineError::said(alloc, at, reason_of(*first)));
    };
    let text = line.get(at..at.saturating_add(length)).unwrap_or("");
    match flaw_of(kind, text) {
        Some(reason) => Err(LineError::said(alloc, at, reason)),
        None => Ok(Some(Word { kind, text, at })),
    }
}

// How many words a line mostly has at most.
const MOSTLY: usize = 8;

/// The words of a line after so many bytes.
pub(crate) fn words_of<'a>(
    alloc: Global,
    line: &'a str,
    from: usize,
) -> Result<Vec<Word<'a>>, LineError> {
    let mut words = Vec::with_capacity(alloc, MOSTLY)?;
    let mut at = from;
    for _ in 0..line.len() {
        let Some(word) = next_word(alloc, line, at)? else {
            break;
        };
        at = word.at.saturating_add(word.text.len().max(1));
        words.push(word)?;
    }
    Ok(words)
}
