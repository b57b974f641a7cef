// The bytes of an entry, written and read. Called by who keeps a log, and by who reads one.
ghost use Rattle.std.specs.Prelude.{◌≡◌, ◌++◌, IfOk, IfErr, OnOk, OnErr};
ghost use Rattle.command_log.specs.declared.entry.Entry.{Entry as EntryValue};
ghost use Rattle.command_log.specs.Answers.{AnswersEntry, IsNoWrittenEntry, IsWrittenAs};
ghost use Rattle.command_log.specs.Form.{IsEntry, bytes_of_entry};
ghost use Rattle.command_log.specs.Laws.{BytesSpell, BytesTell};

use crate::changing::{entry_in, entry_tuple};
use crate::entry::Entry;
use crate::error::EntryError;
use std::alloc::{AllocError, Global};
use tuple_codec::{pack_into, unpack};

/// Appends the bytes of an entry, or nothing where memory runs out.
pub fn push_entry(alloc: Global, entry: &Entry, out: &mut Vec<u8>) -> Result<(), AllocError>
    ensures ok { OnOk result (out.new.items ≡ out.old.items ++ bytes_of_entry entry.now) }
    ensures known { OnOk result (IsEntry entry.now) }
    ensures err { OnErr result (out.new.items ≡ out.old.items) }
{
    let tuple = entry_tuple(alloc, entry)?;
    pack_into(&tuple, out)?;
    Ok(())
}

/// The bytes of an entry.
pub fn bytes_of(alloc: Global, entry: &Entry) -> Result<Vec<u8>, AllocError>
    ensures { IfOk result (λ bytes. IsWrittenAs bytes.items entry.now) }
{
    let mut bytes = Vec::new(alloc);
    push_entry(alloc, entry, &mut bytes)?;
    Ok(bytes)
}

/// The entry whose bytes these are. What is no entry's is refused.
pub fn entry_of(alloc: Global, bytes: &[u8]) -> Result<Entry, EntryError>
    ensures read { IfOk result (IsWrittenAs bytes.now) }
    ensures refused { IfErr result (IsNoWrittenEntry bytes.now) }
    ensures given_back { (entry : EntryValue) → IsWrittenAs bytes.now entry
        → AnswersEntry entry result }
{
    let tuple = unpack(alloc, bytes)?;
    let Some(entry) = entry_in(alloc, &tuple)? else {
        return Err(EntryError::NotAnEntry);
    };
    let written = bytes_of(alloc, &entry)?;
    if written.as_slice() == bytes {
        Ok(entry)
    } else {
        Err(EntryError::NotAnEntry)
    }
}

/// The bytes of an entry spell its tuple, and are those of no other entry.
pub fn entries_are_written_once()
    ensures spelled { BytesSpell }
    ensures once { BytesTell }
{}
