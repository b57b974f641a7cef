//! What the tests of the libraries' public calls are written with: values of words, how answers are
//! compared, a snapshot, and clients of a cluster with what they do there.
#![tactic(auto)]

mod asking;
mod parts;
mod session;
mod snapshots;
mod words;
mod worked;

pub use asking::{cells_asked, request_asked, schema_asked};
pub use parts::{
    alike, are_mutations, are_pairs, are_ranges, has_digits, holds, mutation_of, mutations_of,
    pair_of, pairs_of, range_of, ranges_of, report_text, request_of, same, shown, tells,
};
pub use session::Session;
pub use snapshots::Watched;
pub use words::{bytes_of, digits_of, text_of};
pub use worked::{Action, WORKED, Worked};
