// Texts that lie in their value. Used by `lib`, whose `Text` is one or has memory of its own.
ghost use Rattle.std.specs.Prelude.{◌≡◌, ◌≤◌, length};
ghost use Rattle.tuple_codec.specs.declared.short_text.TheConstants.{SHORT_TEXT};

use std::marker::Model;
use std::str;

/// How many bytes a text may have that lies in its value.
pub(crate) const SHORT_TEXT: usize = 30;

/// A short text: the first bytes of an array.
#[derive(Drop)]
pub(crate) struct ShortText {
    count: u8,
    bytes: [u8; SHORT_TEXT],
}

impl Model for ShortText {
    ghost use Rattle.std.specs.Prelude.{◌≡◌, ◌≤◌, ℕ, List, take, true};
    ghost use Rattle.std.specs.Str.{is_utf8};
    ghost use Rattle.tuple_codec.specs.declared.short_text.TheConstants.{SHORT_TEXT};

    ghost Value = { List ℕ };

    ghost view = { λ a. take a.count a.bytes };

    ghost invariant = { λ a. (a.count ≤ SHORT_TEXT) × (is_utf8 (take a.count a.bytes) ≡ true) };
}

/// Where a text lies: in the value itself, or in memory of its own.
#[derive(Drop)]
pub(crate) enum KeptText {
    Short(ShortText),
    Long(String),
}

impl ShortText {
    /// A copy of this text.
    pub(crate) fn new(text: &str) -> ShortText
        requires { length text.now ≤ SHORT_TEXT }
        ensures { result ≡ text.now }
    {
        let own = text.as_bytes();
        let mut bytes = [0; SHORT_TEXT];
        bytes[..own.len()].copy_from_slice(own);
        ShortText {
            count: own.len() as u8,
            bytes,
        }
    }

    /// The text.
    pub(crate) fn as_str(&self) -> &str
        ensures { result.now ≡ self.now }
    {
        let own = &self.bytes[..self.count as usize];
        // They are those of a text, as the type says, so that nothing need be looked at.
        unsafe { str::from_utf8_unchecked(own) }
    }

    /// An equal text.
    pub(crate) fn copy(&self) -> ShortText
        ensures { result ≡ self.now }
    {
        ShortText {
            count: self.count,
            bytes: self.bytes,
        }
    }
}
