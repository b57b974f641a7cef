//! What values of JSON stand for, cells, schemas, queries, configurations and tuples, and the text
//! of cells, filters and tuples.
//!
//! A call that reads a value answers `PartError::BadForm` where the value has another form than is
//! wanted of it. `AllocError` and `PartError::OutOfMemory` are answered only by a call that takes
//! an allocator, and only where memory is wanting.
#![tactic(auto)]

mod cell_json;
mod config_json;
mod error;
mod filter_json;
mod form;
mod in_turn;
mod query_json;
mod reading;
mod row_text;
mod schema_json;
mod tuple_json;

pub use cell_json::cells_of;
pub use config_json::config_of;
pub use error::PartError;
pub use filter_json::{cell_text, filter_text};
pub use form::{has_only, list_of, member, number_of, only_member, str_of, text_of};
pub use in_turn::{next_cells, next_token, next_value, text_from, whole_of};
pub use query_json::{filter_of, query_of};
pub use reading::{MAX_TEXT_BYTES, value_of};
pub use row_text::{cells_text, rows_text};
pub use schema_json::{field_of, index_of, schema_of, type_of};
pub use tuple_json::{tuple_of, tuple_text};
