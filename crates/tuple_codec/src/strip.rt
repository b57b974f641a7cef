// Taking packs off the front of bytes, where they stand there.
ghost use Rattle.std.specs.Prelude.{◌≡◌, ◌≤◌, ◌++◌, ◌∷◌, [], MatchOption};
ghost use Rattle.std.specs.Int.{bytes_high_first};
ghost use Rattle.tuple_codec.specs.Item.{bytes, int, null, text};
ghost use Rattle.tuple_codec.specs.Spelling.{closed, escape, item_spelling, outer};
ghost use Rattle.tuple_codec.specs.Subspace.{BeginsWith};

use crate::TupleInt;
use crate::codes::{BYTE_STRING_CODE, ESCAPE_CODE, NULL_CODE, TERMINATOR, UNICODE_STRING_CODE};
use crate::number::NumberForm;

// What stands behind a byte.
#[inline(always)]
fn behind_byte(byte: u8, key: &[u8]) -> Option<&[u8]>
    ensures { MatchOption result (BeginsWith (byte ∷ []) key.now → ⊥)
        (λ rest. key.now ≡ byte ∷ rest.now) }
{
    match key.split_first() {
        Some((first, rest)) => { if *first == byte { Some(rest) } else { None } }
        None => None,
    }
}

// What stands behind a byte of a string, and behind its escape.
fn behind_escaped(byte: u8, key: &[u8]) -> Option<&[u8]>
    ensures { MatchOption result
        (BeginsWith (escape byte) key.now → ⊥)
        (λ rest. key.now ≡ escape byte ++ rest.now) }
{
    match behind_byte(byte, key) {
        Some(rest) => {
            if byte == TERMINATOR {
                behind_byte(ESCAPE_CODE, rest)
            } else {
                Some(rest)
            }
        }
        None => None,
    }
}

// What stands behind a string that is closed by 00, behind its code.
fn behind_closed<'a>(code: u8, string: &[u8], key: &'a [u8]) -> Option<&'a [u8]>
    ensures { MatchOption result
        (BeginsWith (code ∷ closed string.now) key.now → ⊥)
        (λ rest. key.now ≡ code ∷ closed string.now ++ rest.now) }
{
    let Some(mut rest) = behind_byte(code, key) else {
        return None;
    };
    for byte in string {
        match behind_escaped(*byte, rest) {
            Some(more) => rest = more,
            None => return None,
        }
    }
    behind_byte(TERMINATOR, rest)
}

// What stands behind the lowest count bytes of a word, high first, behind their code.
#[inline(always)]
fn behind_number(code: u8, count: usize, word: u64, key: &[u8]) -> Option<&[u8]>
    requires { count ≤ 8 }
    ensures { MatchOption result
        (BeginsWith (code ∷ bytes_high_first count word) key.now → ⊥)
        (λ rest. key.now ≡ code ∷ bytes_high_first count word ++ rest.now) }
{
    match behind_byte(code, key) {
        Some(rest) => rest.strip_prefix(&word.to_be_bytes()[8 - count..]),
        None => None,
    }
}

/// What stands behind the pack of nothing, where the bytes begin with it.
pub fn strip_null(key: &[u8]) -> Option<&[u8]>
    ensures { MatchOption result
        (BeginsWith (item_spelling outer null) key.now → ⊥)
        (λ rest. key.now ≡ item_spelling outer null ++ rest.now) }
{
    behind_byte(NULL_CODE, key)
}

/// What stands behind the pack of a whole number, where the bytes begin with it.
#[inline(always)]
pub fn strip_int(value: TupleInt, key: &[u8]) -> Option<&[u8]>
    ensures { MatchOption result
        (BeginsWith (item_spelling outer (int value)) key.now → ⊥)
        (λ rest. key.now ≡ item_spelling outer (int value) ++ rest.now) }
{
    let form = NumberForm::of(value);
    behind_number(form.code, form.count, form.word, key)
}

/// What stands behind the pack of the text of this string, where the bytes begin with it.
pub fn strip_text<'a>(value: &str, key: &'a [u8]) -> Option<&'a [u8]>
    ensures { MatchOption result
        (BeginsWith (item_spelling outer (text value.now)) key.now → ⊥)
        (λ rest. key.now ≡ item_spelling outer (text value.now) ++ rest.now) }
{
    behind_closed(UNICODE_STRING_CODE, value.as_bytes(), key)
}

/// What stands behind the pack of the byte string of these bytes, where the bytes begin with it.
pub fn strip_bytes<'a>(value: &[u8], key: &'a [u8]) -> Option<&'a [u8]>
    ensures { MatchOption result
        (BeginsWith (item_spelling outer (bytes value.now)) key.now → ⊥)
        (λ rest. key.now ≡ item_spelling outer (bytes value.now) ++ rest.now) }
{
    behind_closed(BYTE_STRING_CODE, value, key)
}
