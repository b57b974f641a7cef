//! Types, their fields, and the records of a store.
//!
//! A call answers `AllocError`, or `MetadataError::Memory`, only where memory is wanting. A call
//! that fails changes nothing.
#![tactic(auto)]

mod cells;
mod definition;
mod group;
mod index;
mod index_change;
mod index_reading;
mod lawful;
mod layout;
mod names;
mod order;
mod reading;
mod record;
mod record_ref;
mod refusal;
mod same;
mod same_form;
mod schema;
mod stored;
mod unpacking;
mod writing;
mod written;

pub use cells::{Cell, Cells, Kind};
pub use definition::{Field, Fields, Names, Places, SchemaRequest, TypeDefinition, TypeRequest};
pub use index::{IndexDefinition, IndexKind, IndexRequest, State, States};
pub use index_change::{MAX_COLUMNS, MAX_INDEX_NUMBER, MAX_INDEXES};
pub use layout::{
    PLACE_OF_BUILT_RANGES, PLACE_OF_ENTRIES, PLACE_OF_RECORDS, PLACE_OF_SCHEMA, PLACE_OF_STATES,
};
pub use names::MAX_NAME_BYTES;
pub use order::cells_are_ordered_as_their_packs;
pub use record::{Record, key_of};
pub use record_ref::RecordRef;
pub use refusal::{MetadataError, Refusal};
pub use schema::{MAX_FIELDS, MAX_KEY_FIELDS, MAX_TYPES, Schema};
pub use stored::records_are_stored_once;
pub use unpacking::unpack_cell;
pub use written::{schemas_are_written_once, schemas_stay_lawful};
