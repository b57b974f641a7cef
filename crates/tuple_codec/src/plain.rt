// The bytes of a string that stand in its pack as they are.
ghost use Rattle.std.specs.Prelude.{◌≡◌, ◌≤◌, All, length, take};
ghost use Rattle.tuple_codec.specs.Codes.{terminator};

use crate::codes::TERMINATOR;

// How many bytes stand before the first 00.
pub(crate) fn plain_count(bytes: &[u8]) -> usize
    ensures within { result ≤ length bytes.now }
    ensures plain { All (λ b. b ≡ terminator → ⊥) (take result bytes.now) }
{
    let mut count = 0usize;
    for byte in bytes {
        if *byte == TERMINATOR {
            return count;
        }
        count += 1;
    }
    count
}
