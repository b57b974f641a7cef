// The commands `pack` and `unpack`. Called by `main`.
ghost use Rattle.std.specs.Prelude.{◌≡◌, ◌≤◌, List, ℕ, Some, Ok, IfOk, IfErr};
ghost use Rattle.std.specs.Prelude.{MatchOption, string_bytes};
ghost use Rattle.std.specs.Io.KnownBytes.{Appends};
ghost use Rattle.std.specs.Process.{exit_status};
ghost use Rattle.hex.specs.Hex.{decode_of};
ghost use Rattle.json_forms.specs.TupleJson.{tuple_of_text};
ghost use Rattle.recordctl.specs.TupleLines.{packed_line, IsUnpackedLine, explains_pack, explains_unpack};

use crate::fault::Fault;
use crate::printing::print_line;
use hex::FromHexError;
use json_forms::{PartError, tuple_of, tuple_text};
use serde_json::Value;
use std::alloc::Global;
use std::io::Write;
use std::process::ExitCode;
use tuple_codec::{Tuple, UnpackFailure, pack as pack_tuple, unpack as unpack_tuple};

// The tuple that a text of JSON stands for.
fn read_tuple(alloc: Global, word: &str) -> Result<Tuple, Fault>
    ensures ok { IfOk result (λ tuple. tuple_of_text word.now ≡ Some tuple) }
    ensures err { IfErr result (explains_pack word.now) }
{
    let value = match Value::from_str(alloc, word) {
        Ok(value) => value,
        Err(error) if error.is_memory() => return Err(Fault::OutOfMemory),
        Err(_) => return Err(Fault::BadArgument),
    };
    match tuple_of(alloc, &value) {
        Ok(tuple) => Ok(tuple),
        Err(PartError::BadForm) => Err(Fault::BadArgument),
        Err(PartError::OutOfMemory) => Err(Fault::OutOfMemory),
    }
}

// The line that `pack` prints for a word of the command line.
fn line_of_pack(alloc: Global, word: &str) -> Result<String, Fault>
    ensures ok { IfOk result (λ line. MatchOption (tuple_of_text word.now) ⊥ (λ tuple.
        string_bytes line ≡ packed_line tuple)) }
    ensures err { IfErr result (explains_pack word.now) }
{
    let tuple = read_tuple(alloc, word)?;
    let bytes = pack_tuple(alloc, &tuple)?;
    let mut line = hex::encode(alloc, bytes.as_slice())?;
    line.push_str("\n")?;
    Ok(line)
}

// The bytes that a word writes in hexadecimal digits.
fn bytes_of(alloc: Global, word: &str) -> Result<Vec<u8>, Fault>
    ensures ok { IfOk result (λ bytes. decode_of word.now ≡ Ok bytes.items) }
    ensures err { IfErr result (explains_unpack word.now) }
{
    match hex::decode(alloc, word) {
        Ok(bytes) => Ok(bytes),
        Err(FromHexError::OutOfMemory) => Err(Fault::OutOfMemory),
        Err(_) => Err(Fault::BadArgument),
    }
}

// The line that `unpack` prints for a word of the command line.
fn line_of_unpack(alloc: Global, word: &str) -> Result<String, Fault>
    ensures ok { IfOk result (λ line. IsUnpackedLine word.now (string_bytes line)) }
    ensures err { IfErr result (explains_unpack word.now) }
{
    let bytes = bytes_of(alloc, word)?;
    let tuple = match unpack_tuple(alloc, bytes.as_slice()) {
        Ok(tuple) => tuple,
        Err(UnpackFailure::Memory) => return Err(Fault::OutOfMemory),
        Err(UnpackFailure::Refused(error)) => return Err(Fault::Refused(error.kind, error.at)),
    };
    let mut line = tuple_text(alloc, &tuple)?;
    line.push_str("\n")?;
    Ok(line)
}

/// Prints the pack of the tuple that a JSON text stands for, in lower-case hexadecimal digits and a
/// line of its own. Answers the exit status: 0, or 1 with a line on `errors` where the text stands
/// for no tuple (`bad argument`) or memory is wanting, and 1 without one where `output` can't be
/// written.
pub fn pack<W: Write, E: Write>(
    alloc: Global,
    word: &str,
    output: &mut W,
    errors: &mut E,
) -> ExitCode
    ensures status { exit_status result ≤ 1 }
    ensures printed { exit_status result ≡ 0 →
        MatchOption (tuple_of_text word.now) ⊥ (λ tuple.
        Appends (W.contents output.old) (W.contents output.new) (packed_line tuple)) }
    ensures quiet { exit_status result ≡ 0 → E.contents errors.new ≡ E.contents errors.old }
{
    print_line(output, errors, line_of_pack(alloc, word))
}

/// Prints the tuple that bytes spell, which the word writes in hexadecimal digits, as JSON on a
/// line of its own. Answers the exit status: 0, or 1 with a line on `errors` where the word isn't
/// of such digits (`bad argument`), the bytes are refused (`refused NAME at N`) or memory is
/// wanting, and 1 without one where `output` can't be written.
pub fn unpack<W: Write, E: Write>(
    alloc: Global,
    word: &str,
    output: &mut W,
    errors: &mut E,
) -> ExitCode
    ensures status { exit_status result ≤ 1 }
    ensures printed { exit_status result ≡ 0 →
        (line : List ℕ) × IsUnpackedLine word.now line × Appends (W.contents output.old) (W.contents output.new) line }
    ensures quiet { exit_status result ≡ 0 → E.contents errors.new ≡ E.contents errors.old }
{
    print_line(output, errors, line_of_unpack(alloc, word))
}
