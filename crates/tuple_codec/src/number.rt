// The bytes of whole numbers.
ghost use Rattle.std.specs.Prelude.{◌≡◌, ◌<◌, ◌≤◌, ◌-◌, ◌∷◌, pos, negsuc};
ghost use Rattle.std.specs.Int.{bytes_high_first};
ghost use Rattle.tuple_codec.specs.Spelling.{int_spelling};
ghost use Rattle.tuple_codec.specs.Writing.{form_bytes};

use crate::codes::INT_ZERO_CODE;
use crate::{Signed, TupleInt};

// The pack of a whole number: a code, and behind it so many of the lowest bytes of a word, high
// first.
#[derive(Drop)]
pub(crate) struct NumberForm {
    pub(crate) code: u8,
    pub(crate) count: usize,
    pub(crate) word: u64,
}

// These bytes.
#[inline(always)]
fn form(code: u8, count: usize, word: u64) -> NumberForm
    requires { count ≤ 8 }
    ensures bytes { form_bytes result ≡ code ∷ bytes_high_first count word }
    ensures count { result.count ≤ 8 }
{
    NumberForm { code, count, word }
}

// A number in as few bytes as hold n, by the table of codes and of the numbers that need more bytes.
macro_rules! form_by_size {
    ($n:expr, $word:expr; $($count:literal $code:literal $limit:literal),*;
        $most:literal $last:literal) => {{
        $(
            if $n < $limit {
                return form($code, $count, $word);
            }
        )*
        form($last, $most, $word)
    }};
}

// A number above 0.
#[tactic(auto, using(crate::proofs::Sizes::sizes))]
#[inline(always)]
fn form_above(n: u64) -> NumberForm
    requires { 0 < n }
    ensures bytes { form_bytes result ≡ int_spelling (pos n) }
    ensures count { result.count ≤ 8 }
{
    form_by_size!(n, n;
        1 0x15 0x100, 2 0x16 0x1_0000, 3 0x17 0x100_0000, 4 0x18 0x1_0000_0000,
        5 0x19 0x100_0000_0000, 6 0x1a 0x1_0000_0000_0000, 7 0x1b 0x100_0000_0000_0000;
        8 0x1c)
}

// A number below 0, by its magnitude.
#[tactic(auto, using(crate::proofs::Sizes::sizes))]
fn form_below(n: u64) -> NumberForm
    requires { 0 < n }
    ensures bytes { form_bytes result ≡ int_spelling (negsuc (n - 1)) }
    ensures count { result.count ≤ 8 }
{
    form_by_size!(n, u64::MAX - n;
        1 0x13 0x100, 2 0x12 0x1_0000, 3 0x11 0x100_0000, 4 0x10 0x1_0000_0000,
        5 0x0f 0x100_0000_0000, 6 0x0e 0x1_0000_0000_0000, 7 0x0d 0x100_0000_0000_0000;
        8 0x0c)
}

impl NumberForm {
    // Those of this number.
    #[inline(always)]
    pub(crate) fn of(value: TupleInt) -> NumberForm
        ensures bytes { form_bytes result ≡ int_spelling value }
        ensures count { result.count ≤ 8 }
    {
        match value.signed() {
            Signed::Zero => form(INT_ZERO_CODE, 0, 0),
            Signed::Above(n) => form_above(n),
            Signed::Below(n) => form_below(n),
        }
    }
}
