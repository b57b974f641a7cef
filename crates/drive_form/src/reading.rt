// Numbers, byte strings and ranges, read from the front of bytes. Called by `given_bytes`.
ghost use Rattle.std.specs.Prelude.{◌≡◌, ◌<◌, ◌^◌, [], ◌∷◌, ◌++◌, ℕ, get_or, IfOk, IfErr};
ghost use Rattle.std.specs.Int.{w32, w64, to_le_bytes};
ghost use Rattle.drive_form.specs.declared.error.FormError.TheVariants.{BadForm};
ghost use Rattle.drive_form.specs.Form.{FitsRange, IsShort, range_bytes, sized};
ghost use Rattle.drive_form.specs.Refused.{ExplainsNone};

use crate::error::FormError;
use kv_core::{Bytes, KeyRange};
use std::alloc::Global;

/// Does nothing: its clause tells what the type knows of the numbers.
fn bytes_known(bytes: &[u8])
    ensures { (i : ℕ) → get_or bytes.now i 0 < 256 }
{}

/// Bytes that are read from their front on.
#[derive(Drop)]
pub(crate) struct Reader<'a> {
    rest: &'a [u8],
}

impl<'a> Reader<'a> {
    pub(crate) fn new(rest: &'a [u8]) -> Reader<'a>
        ensures { result.rest.now ≡ rest.now }
    {
        Reader { rest }
    }

    /// The bytes that are left.
    pub(crate) fn rest(self) -> &'a [u8]
        ensures { result.now ≡ self.entry.rest.now }
    {
        self.rest
    }

    /// The next byte.
    pub(crate) fn byte(&mut self) -> Result<u8, FormError>
        ensures ok { IfOk result (λ byte. self.old.rest.now ≡ byte ∷ self.new.rest.now) }
        ensures err { IfErr result (λ error. (error ≡ BadForm) × (self.old.rest.now ≡ [])) }
    {
        let Some((first, rest)) = self.rest.split_first() else {
            return Err(FormError::BadForm);
        };
        self.rest = rest;
        Ok(*first)
    }

    /// The next number of 64 bits.
    pub(crate) fn number(&mut self) -> Result<u64, FormError>
        ensures ok { IfOk result (λ number. self.old.rest.now
            ≡ to_le_bytes w64 number ++ self.new.rest.now) }
        ensures fits { IfOk result (λ number. number < 2 ^ 64) }
        ensures err { IfErr result
            (ExplainsNone (to_le_bytes w64) (λ number. number < 2 ^ 64) self.old.rest.now) }
    {
        let Some((first, rest)) = self.rest.split_first_chunk::<8>() else {
            return Err(FormError::BadForm);
        };
        bytes_known(first);
        self.rest = rest;
        Ok(u64::from_le_bytes(*first))
    }

    /// The next number of 32 bits, a length or a count.
    pub(crate) fn count(&mut self) -> Result<usize, FormError>
        ensures ok { IfOk result (λ number. self.old.rest.now
            ≡ to_le_bytes w32 number ++ self.new.rest.now) }
        ensures fits { IfOk result (λ number. number < 2 ^ 32) }
        ensures err { IfErr result
            (ExplainsNone (to_le_bytes w32) (λ number. number < 2 ^ 32) self.old.rest.now) }
    {
        let Some((first, rest)) = self.rest.split_first_chunk::<4>() else {
            return Err(FormError::BadForm);
        };
        bytes_known(first);
        self.rest = rest;
        Ok(u32::from_le_bytes(*first) as usize)
    }

    /// The next byte string, after its length.
    pub(crate) fn bytes(&mut self, alloc: Global) -> Result<Bytes, FormError>
        ensures ok { IfOk result (λ bytes. self.old.rest.now ≡ sized bytes ++ self.new.rest.now) }
        ensures fits { IfOk result IsShort }
        ensures err { IfErr result (ExplainsNone sized IsShort self.old.rest.now) }
    {
        let count = self.count()?;
        let Some((first, rest)) = self.rest.split_at_checked(count) else {
            return Err(FormError::BadForm);
        };
        self.rest = rest;
        Ok(Bytes::from_slice(alloc, first)?)
    }

    /// The next range: its begin and its end.
    pub(crate) fn range(&mut self, alloc: Global) -> Result<KeyRange, FormError>
        ensures ok { IfOk result (λ range. self.old.rest.now
            ≡ range_bytes range ++ self.new.rest.now) }
        ensures fits { IfOk result FitsRange }
        ensures err { IfErr result (ExplainsNone range_bytes FitsRange self.old.rest.now) }
    {
        let begin = self.bytes(alloc)?;
        let end = self.bytes(alloc)?;
        let Some(range) = KeyRange::new(begin, end) else {
            return Err(FormError::BadForm);
        };
        Ok(range)
    }
}
