// What stands in a text, on one line. Called by `recordctl`.
ghost use Rattle.std.specs.Prelude.{◌≡◌, ◌≤◌, false, IfOk, OnOk, length};
ghost use Rattle.json_places.specs.OneLine.{IsOneLine, ends_line};

use crate::looking::is_blank;
use crate::written::Written;
use std::alloc::{AllocError, Global};

// The bytes before the blanks that these end with.
fn trimmed(bytes: &[u8]) -> &[u8]
    ensures { length result.now ≤ length bytes.now }
{
    let mut end = bytes.len();
    'trim: while end > 0 && is_blank(bytes[end - 1]) {
        end -= 1;
    }
    &bytes[..end]
}

// The bytes of a value, after which blanks and a comma may stand.
fn bytes_of(bytes: &[u8]) -> &[u8] {
    let bytes = trimmed(bytes);
    match bytes {
        [value @ .., b','] => trimmed(value),
        _ => bytes,
    }
}

// Whether a byte ends a line.
fn breaks_line(byte: u8) -> bool
    ensures { result ≡ ends_line byte }
{
    matches!(byte, b'\n' | b'\r')
}

// Writes a byte that ends no line.
#[tactic(auto, using(crate::proofs::OneLines::one_byte_more))]
fn push_byte(line: &mut Vec<u8>, byte: u8) -> Result<(), AllocError>
    requires { ends_line byte ≡ false }
    ensures { IsOneLine line.old.items → OnOk result (IsOneLine line.new.items) }
{
    line.push(byte)?;
    Ok(())
}

// Takes away the blanks at the end of a line.
#[tactic(auto, using(crate::proofs::OneLines::first_bytes))]
fn trim_end(line: &mut Vec<u8>)
    ensures { IsOneLine line.old.items → IsOneLine line.new.items }
{
    let kept = trimmed(line.as_slice()).len();
    line.truncate(kept);
}

// Writes a byte, where a line break may have come before it: answers whether one has come then, and
// nothing but blanks after it.
fn push_after(line: &mut Vec<u8>, is_broken: bool, byte: u8) -> Result<bool, AllocError>
    ensures { IsOneLine line.old.items → OnOk result (IsOneLine line.new.items) }
{
    if breaks_line(byte) {
        trim_end(line);
        return Ok(true);
    }
    if is_broken && is_blank(byte) {
        return Ok(true);
    }
    if is_broken {
        push_byte(line, b' ')?;
    }
    push_byte(line, byte)?;
    Ok(false)
}

/// What a value of a text is written as, on one line: in the place of blanks with a line break
/// stands one blank.
#[tactic(auto, using(crate::proofs::OneLines::no_bytes))]
pub fn on_one_line(alloc: Global, text: &[u8], value: &Written) -> Result<Vec<u8>, AllocError>
    ensures { IfOk result (λ line. IsOneLine line.items) }
{
    let mut line = Vec::new(alloc);
    let mut is_broken = false;
    for byte in bytes_of(text.get(value.begin..value.end).unwrap_or(&[])) {
        is_broken = push_after(&mut line, is_broken, *byte)?;
    }
    Ok(line)
}
