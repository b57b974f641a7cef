//! The record layer under one name: what an application needs of schemas, records, queries,
//! transactions and databases, with makers that read well and one type of error.
#![tactic(auto)]

mod asking;
mod cells;
mod database;
mod error;
mod finishing;
mod making;
mod not_done;
mod opening;
mod places;
mod session;
mod shown;
mod working;

pub use asking::{QueryMaker, compare, is_null, starts_with};
pub use cells::{CellRef, cell_named, cells_of, int_named, text_named};
pub use cluster_core::{Cluster, Config, ConfigError, ReadError, SubmitError};
pub use commit_log::{DeviceLog, NotOpened, open_kept_on};
pub use database::{Database, NotCommitted};
pub use error::Error;
pub use explain::explain;
pub use journal_file::{FileDevice, FolderError};
pub use kv_core::{Bytes, KeyRange};
pub use making::{IndexOf, SchemaMaker, fields, name, names, record_with};
pub use metadata::{Cell, Cells, Fields, IndexKind, Kind, MetadataError, Names, Record, Schema};
pub use not_done::NotDone;
pub use opening::{FolderLog, OpenAtError, open_at};
pub use packed_rows::Rows;
pub use places::{Place, place_of};
pub use plan_exec::{ExecError, execute, execute_each, plan_for_store};
pub use planner::{Plan, PlanError};
pub use query::{Filter, Operator, Query, QueryError};
pub use record_store::{KnownSchema, Records, Store, StoreError, StoreNumber};
pub use runtime::{
    Base, Body, Built, Client, CommandError, CommitError, Done, End, EnterError, Gate, GatePoint,
    NotKept, OpenError, RunError, Seen, Txn, Waits, begin, begin_in, build_worker, build_worker_in,
    open, open_kept, open_kept_over,
};
pub use schedule::{AskedQuery, Command, Reply, SharedPlan};
pub use session::Session;
pub use shown::Span;
pub use tuple_codec::{ByteString, Text};
pub use txn::{Ended, Next, Retry, Snapshot, Transaction};
