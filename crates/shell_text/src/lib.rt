//! What the shell tells of a store, and reads of a file, whatever was done before: its schema, its
//! plans, what stands at its keys, rows as a table; the cells of a file's lines.
#![tactic(auto)]

mod built;
mod described;
mod helping;
mod import_rows;
mod keys;
mod listing;
mod opened;
mod planned;
mod progress;
mod ranges;
mod table;

pub use built::range_words;
pub use described::{push_index_lines, push_schema, push_type_lines};
pub use helping::{help_of, help_of_all};
pub use import_rows::{RowError, cells_of_line, cells_of_row, places_of};
pub use listing::step_lines;
pub use opened::{Opened, fields_of, open};
pub use planned::plan_lines;
pub use progress::Progress;
pub use ranges::range_named;
pub use table::push_table;
