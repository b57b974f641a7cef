// The answer of a step. Used by `builder` and `schedule`.
use kv_core::KeyRange;

/// What a step of a builder came to.
#[derive(Debug, Drop)]
pub enum Progress {
    /// So many records of the index's type were built, all those at positions of this range, and with
    /// them the range.
    Built { records: usize, range: KeyRange },
    /// Every position was built already: nothing was written.
    Finished,
}
