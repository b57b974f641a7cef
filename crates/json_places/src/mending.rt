// Texts read with the place of each value, also after commas that are missing or too many. Called
// by `script_check` and `recordctl`.
ghost use Rattle.std.specs.Prelude.{◌≡◌, [], IfOk, IsNone, IsSome};

use crate::flaw::{Flaw, FlawKind};
use crate::looking::{flaw_at, is_blank};
use crate::values::{ReadError, next_written};
use crate::written::Written;
use json::{Reader, Scratch};
use std::alloc::{AllocError, Global};
use std::str;

// How deep lists and objects may nest.
const MOST_DEPTH: usize = 127;

// How often a text is mended at most.
const MOST_MENDED: usize = 100;

/// What is read of a text.
#[derive(Drop)]
pub struct Reading {
    /// Its value, where it is one, or is one once it is mended.
    pub value: Option<Written>,
    /// Each place where it is none, in their order.
    pub flaws: Vec<Flaw>,
}

// Takes the end of a text.
fn take_end(reader: &mut Reader<'_>) -> Result<(), ReadError> {
    let at = reader.offset();
    match reader.next() {
        None => Ok(()),
        Some(_) => Err(ReadError::Flawed(Flaw {
            at,
            kind: FlawKind::Trailing,
        })),
    }
}

// The value of a text.
fn value_in(alloc: Global, text: &str) -> Result<Written, ReadError> {
    let mut scratch = Scratch::new(alloc);
    let mut reader = Reader::new(text, &mut scratch)?;
    let empty = Flaw {
        at: 0,
        kind: FlawKind::Empty,
    };
    let value = next_written(alloc, &mut reader, MOST_DEPTH, empty)?;
    take_end(&mut reader)?;
    Ok(value)
}

// What is wrong where no value is read, or that memory runs out.
fn flaw_of(text: &[u8], error: ReadError) -> Result<Flaw, AllocError> {
    match error {
        ReadError::Flawed(flaw) => Ok(flaw),
        ReadError::Stopped(at) => Ok(flaw_at(text, at)),
        ReadError::OutOfMemory => Err(AllocError),
    }
}

// Mends a text that has a flaw, where a byte of it can be put in another one's place.
fn is_mended(text: &mut [u8], flaw: Flaw) -> bool {
    let (at, byte) = match flaw.kind {
        FlawKind::CommaMissing if flaw.at > 0 => (flaw.at - 1, b','),
        FlawKind::CommaTooMany => (flaw.at, b' '),
        _ => return false,
    };
    match text.get_mut(at) {
        Some(place) if is_blank(*place) || *place == b',' => {
            *place = byte;
            true
        }
        _ => false,
    }
}

// What is wrong first in a text, none where its value is read.
fn first_flaw(
    alloc: Global,
    text: &[u8],
    value: &mut Option<Written>,
) -> Result<Option<Flaw>, AllocError>
    ensures { IfOk result (λ flaw. IsNone flaw → IsSome value.new) }
{
    let characters = match str::from_utf8(text) {
        Ok(characters) => characters,
        Err(error) => {
            let at = error.valid_up_to();
            return Ok(Some(Flaw {
                at,
                kind: FlawKind::NotUtf8,
            }));
        }
    };
    match value_in(alloc, characters) {
        Ok(written) => {
            *value = Some(written);
            Ok(None)
        }
        Err(error) => Ok(Some(flaw_of(text, error)?)),
    }
}

/// What a text says, and each place where it is no JSON: a missing comma and one too many are told
/// and mended, up to a hundred of them, and another place is the last that is told.
pub fn read(alloc: Global, text: &[u8]) -> Result<Reading, AllocError>
    ensures { IfOk result (λ reading. reading.flaws.items ≡ [] → IsSome reading.value) }
{
    let mut flaws = Vec::new(alloc);
    let mut value = None;
    let mut mended = Vec::from_slice(alloc, text)?;
    for _ in 0..MOST_MENDED {
        let Some(flaw) = first_flaw(alloc, mended.as_slice(), &mut value)? else {
            break;
        };
        flaws.push(flaw)?;
        if !is_mended(mended.as_mut_slice(), flaw) {
            break;
        }
    }
    Ok(Reading { value, flaws })
}
