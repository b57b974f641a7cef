// The order of runs of bytes, eight at a time. Called by `bytes` and `short_bytes`.
ghost use Rattle.std.specs.Prelude.{◌≡◌, ◌+◌, ◌≤◌, length, take, drop};
ghost use Rattle.std.specs.Slice.Scan.{big_endian};
ghost use Rattle.kv_core.specs.Bytes.{key_cmp};

use std::cmp::Ordering;

/// The number that the eight bytes from a place on spell, the first one the most significant.
#[inline(always)]
pub(crate) fn word_at(bytes: &[u8], place: usize) -> u64
    requires { place + 8 ≤ length bytes.now }
    ensures { result ≡ big_endian 0 (take 8 (drop place bytes.now)) }
{
    u64::from_be_bytes([
        bytes[place],
        bytes[place + 1],
        bytes[place + 2],
        bytes[place + 3],
        bytes[place + 4],
        bytes[place + 5],
        bytes[place + 6],
        bytes[place + 7],
    ])
}

/// The number that the four bytes from a place on spell, the first one the most significant.
#[inline(always)]
pub(crate) fn half_at(bytes: &[u8], place: usize) -> u32
    requires { place + 4 ≤ length bytes.now }
    ensures { result ≡ big_endian 0 (take 4 (drop place bytes.now)) }
{
    u32::from_be_bytes([
        bytes[place],
        bytes[place + 1],
        bytes[place + 2],
        bytes[place + 3],
    ])
}

/// The number that the two bytes from a place on spell, the first one the most significant.
#[inline(always)]
pub(crate) fn quarter_at(bytes: &[u8], place: usize) -> u16
    requires { place + 2 ≤ length bytes.now }
    ensures { result ≡ big_endian 0 (take 2 (drop place bytes.now)) }
{
    u16::from_be_bytes([bytes[place], bytes[place + 1]])
}

/// How two runs of bytes compare: by their first byte that differs, and a prefix comes first.
///
/// They are compared eight bytes at a time, as numbers, and the last few one by one.
#[inline(never)]
pub(crate) fn order_of(bytes: &[u8], others: &[u8]) -> Ordering
    ensures { result ≡ key_cmp bytes.now others.now }
{
    let both = bytes.len().min(others.len());
    let mut place = 0;
    while both - place >= 8 {
        let order = word_at(bytes, place).cmp(&word_at(others, place));
        if order.is_ne() {
            return order;
        }
        place += 8;
    }
    bytes[place..].cmp(&others[place..])
}
