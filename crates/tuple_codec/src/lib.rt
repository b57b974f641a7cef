//! The tuple encoding of FoundationDB's `design/tuple.md`: the packed form of a tuple of typed
//! elements, whose byte order is the order of tuples, and the keys under a prefix.
#![tactic(auto)]

ghost use Rattle.std.specs.Prelude.{◌≡◌, ◌<◌, ◌≤◌, ◌^◌, ◌↔◌, ℤ, pos, List, [], ◌∷◌, ◌++◌, map};
ghost use Rattle.std.specs.Prelude.{length, IsSome, IfOk, IfErr, SomeIff, IsTrue, string_bytes};
ghost use Rattle.tuple_codec.specs.Codes.{int_zero_code};
ghost use Rattle.tuple_codec.specs.Item.{magnitude};
ghost use Rattle.tuple_codec.specs.Writing.{IsSigned};
ghost use Rattle.tuple_codec.specs.Reading.{signed};

mod codes;
mod keys;
mod nest;
mod number;
mod order;
mod plain;
mod read;
mod room;
mod short_text;
mod strip;
mod unpacking;
mod write;

use codes::INT_ZERO_CODE;
pub use keys::{integers_do_not_begin_each_other, keys_are_tuples, prefixes_are_ranges, strinc};
pub use order::compare;
use short_text::{KeptText, SHORT_TEXT, ShortText};
use std::alloc::{AllocError, Global};
use std::marker::Model;
pub use strip::{strip_bytes, strip_int, strip_null, strip_text};
use thiserror::Error;
pub use unpacking::{
    bytes_are_spelled_or_refused, packs_are_ordered, spellings_are_unique, unpack, unpack_first,
    unpack_int,
};
use uuid::Uuid;
pub use write::{pack, pack_bytes, pack_element, pack_int, pack_into, pack_null, pack_text};

/// A whole number of magnitude at most `2^64 - 1`.
#[derive(Clone, Copy, PartialEq, Eq)]
pub struct TupleInt {
    value: i128,
}

impl Model for TupleInt {
    ghost use Rattle.std.specs.Prelude.{ℤ, ◌<◌, ◌^◌};

    ghost Value = { ℤ };

    ghost use Rattle.tuple_codec.specs.Item.{magnitude};

    ghost view = { λ a. a.value };

    ghost invariant = { λ a. magnitude a.value < 2 ^ 64 };

    ghost inverse = { λ z. record { value = z } };
}

impl TupleInt {
    /// The number, where its magnitude is at most `2^64 - 1`, and else None. It takes no memory.
    pub fn new(value: i128) -> Option<TupleInt>
        ensures { SomeIff result (magnitude value < 2 ^ 64) value }
    {
        if value.unsigned_abs() < 1 << 64 {
            Some(TupleInt { value })
        } else {
            None
        }
    }

    /// The number, whose magnitude is at most `2^64 - 1`.
    pub fn get(self) -> i128
        ensures value { result ≡ self }
        ensures fits { magnitude result < 2 ^ 64 }
    {
        self.value
    }

    // The number of this magnitude, below 0 where the code says so.
    fn of_code(code: u8, n: u64) -> TupleInt
        requires { code < int_zero_code → 0 < n }
        ensures { result ≡ signed code n }
    {
        let value = i128::from(n);
        TupleInt {
            value: if code < INT_ZERO_CODE { -value } else { value },
        }
    }

    // The sign and the magnitude.
    fn signed(self) -> Signed
        ensures { IsSigned result self }
    {
        let value = self.value;
        if value < 0 {
            Signed::Below(value.unsigned_abs() as u64)
        } else if value > 0 {
            Signed::Above(value as u64)
        } else {
            Signed::Zero
        }
    }
}

impl From<i64> for TupleInt {
    ghost from_gives = { λ value number. number ≡ value };

    fn from(value: i64) -> TupleInt {
        TupleInt {
            value: i128::from(value),
        }
    }
}

impl From<u64> for TupleInt {
    ghost from_gives = { λ value number. number ≡ pos value };

    fn from(value: u64) -> TupleInt {
        TupleInt {
            value: i128::from(value),
        }
    }
}

// A number by its sign and its magnitude, which is not 0 beside a sign.
enum Signed {
    Zero,
    Above(u64),
    Below(u64),
}

/// A byte string of an element.
#[derive(Drop)]
pub struct ByteString {
    bytes: Vec<u8>,
}

impl Model for ByteString {
    ghost use Rattle.std.specs.Prelude.{ℕ, List};

    ghost Value = { List ℕ };

    ghost view = { λ a. a.bytes.items };
}

impl ByteString {
    /// These bytes, which may be any.
    pub fn new(bytes: Vec<u8>) -> ByteString
        ensures { result ≡ bytes.items }
    {
        ByteString { bytes }
    }

    /// The bytes.
    pub fn as_slice(&self) -> &[u8]
        ensures { result.now ≡ self.now }
    {
        self.bytes.as_slice()
    }

    /// The bytes, handed back.
    pub fn into_vec(self) -> Vec<u8>
        ensures { result.items ≡ self }
    {
        self.bytes
    }

    /// An equal byte string, unless memory is wanting.
    pub fn copy(&self) -> Result<ByteString, AllocError>
        ensures { IfOk result (λ copy. copy ≡ self.now) }
    {
        let bytes = self.bytes.clone()?;
        Ok(ByteString { bytes })
    }
}

/// A text of an element. Short ones, as most are, lie in the value itself, so that to make or copy
/// one takes no memory.
pub struct Text {
    kept: KeptText,
}

// Written out, so that no proof has to tell short from long ones where a text is dropped.
impl Drop for Text {
    fn drop(self) {
        let Text { kept } = self;
        drop(kept);
    }
}

impl Model for Text {
    ghost use Rattle.std.specs.Prelude.{ℕ, List};
    ghost use Rattle.tuple_codec.specs.KeptText.{kept_text};

    ghost Value = { List ℕ };

    ghost view = { λ a. kept_text a.kept };
}

impl Text {
    /// This text.
    pub fn new(text: String) -> Text
        ensures { result ≡ string_bytes text }
    {
        if text.len() <= SHORT_TEXT {
            // The copy in the value itself gives the memory back.
            let short = ShortText::new(text.as_str());
            return Text {
                kept: KeptText::Short(short),
            };
        }
        Text {
            kept: KeptText::Long(text),
        }
    }

    /// The text of this string, copied.
    pub fn from_str(alloc: Global, text: &str) -> Result<Text, AllocError>
        ensures { IfOk result (λ made. made ≡ text.now) }
    {
        let kept = if text.len() <= SHORT_TEXT {
            KeptText::Short(ShortText::new(text))
        } else {
            KeptText::Long(String::from_str(alloc, text)?)
        };
        Ok(Text { kept })
    }

    /// The text.
    pub fn as_str(&self) -> &str
        ensures { result.now ≡ self.now }
    {
        match &self.kept {
            KeptText::Short(short) => short.as_str(),
            KeptText::Long(text) => text.as_str(),
        }
    }

    /// An equal text, unless memory is wanting.
    pub fn copy(&self) -> Result<Text, AllocError>
        ensures { IfOk result (λ copy. copy ≡ self.now) }
    {
        let kept = match &self.kept {
            KeptText::Short(short) => KeptText::Short(short.copy()),
            KeptText::Long(text) => KeptText::Long(text.clone()?),
        };
        Ok(Text { kept })
    }
}

/// What is wrong with an element.
#[derive(Clone, Copy, Debug, PartialEq, Eq, Drop)]
pub enum UnpackErrorKind {
    /// No element begins with this byte.
    UnknownCode,
    /// The bytes end inside the element.
    Truncated,
    /// A whole number is written in more bytes than it needs.
    NotMinimal,
    /// A text isn't UTF-8.
    NotUtf8,
    /// A nested tuple would be the 17th level.
    TooDeep,
}

/// An element of a tuple.
#[cycle(tuple)]
#[derive(Drop)]
pub enum Element {
    /// Nothing.
    Null,
    /// A byte string.
    Bytes(ByteString),
    /// A text.
    Text(Text),
    /// A tuple within the tuple.
    Nested(Tuple),
    /// A whole number.
    Int(TupleInt),
    /// False or true.
    Bool(bool),
    /// A UUID.
    Uuid(Uuid),
    /// A versionstamp of 96 bits.
    Stamp([u8; 12]),
}

/// A tuple: a list of elements, in which tuples nest at most 16 deep.
#[cycle(tuple)]
#[derive(Drop)]
pub struct Tuple {
    elements: Vec<Element>,
    nesting: u8,
}

impl Model for Tuple {
    ghost use Rattle.std.specs.Prelude.{◌≡◌, List};
    ghost use Rattle.tuple_codec.specs.Item.{Item};
    ghost use Rattle.tuple_codec.specs.ItemCode.{tuple_code};

    ghost Value = { List Item };

    ghost coded = { tuple_code };

    ghost use Rattle.tuple_codec.specs.Item.{IsTuple, nesting, tuple_size};
    ghost use Rattle.tuple_codec.specs.Elements.{items_in, IsTupleInside};

    ghost view = { λ a. items_in a.elements.items };

    ghost invariant = { IsTupleInside };

    ghost size = { tuple_size };

    ghost use Rattle.tuple_codec.specs.Falls.{falls};

    ghost size_decreases = { λ a h. falls a.elements.items };
}

/// Why a list of elements is no tuple.
#[derive(Drop)]
pub enum TupleError {
    /// Tuples nest above 16 deep in the list.
    TooDeep(Vec<Element>),
}

/// The first element of the bytes that a reader refuses.
#[derive(Clone, Copy, Debug, PartialEq, Eq, Drop, Error)]
#[error("{kind:?} at {at}")]
pub struct UnpackError {
    /// Where its first byte stands.
    pub at: usize,
    /// What is wrong with it.
    pub kind: UnpackErrorKind,
}

/// Why bytes were not unpacked.
#[derive(Clone, Copy, Debug, PartialEq, Eq, Drop, Error)]
pub enum UnpackFailure {
    /// Memory is wanting.
    #[error("out of memory")]
    Memory,
    /// The bytes spell no tuple.
    #[error("refused: {0}")]
    Refused(UnpackError),
}

/// The keys that begin with a prefix.
#[derive(Drop)]
pub struct Subspace {
    prefix: Vec<u8>,
}

impl Model for Subspace {
    ghost use Rattle.std.specs.Prelude.{ℕ, List};

    ghost Value = { List ℕ };

    ghost view = { λ a. a.prefix.items };
}

/// The ends of a subspace's range: the first is in it, the second is not.
#[derive(Drop)]
pub struct SubspaceRange {
    pub begin: Vec<u8>,
    pub end: Vec<u8>,
}

/// Why a key has no tuple in a subspace.
#[derive(Clone, Copy, Debug, PartialEq, Eq, Drop, Error)]
pub enum StripError {
    /// Memory is wanting.
    #[error("out of memory")]
    Memory,
    /// The key does not begin with the prefix.
    #[error("outside the subspace")]
    Outside,
    /// What stands behind the prefix is refused, at a place counted from there.
    #[error("refused behind the prefix: {0}")]
    Bad(UnpackError),
}
