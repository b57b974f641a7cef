//! The roles of the cluster: which requests are committed, and the map at each version.
#![tactic(auto)]

mod answers;
mod base;
mod chain;
mod chains;
mod cluster;
mod config;
mod kept;
mod laws;
mod log;
mod part;
mod past;
mod pipeline;
mod points;
mod requests;
mod resolver;
mod segments;
mod server;
mod snapshots;
mod tier;
mod tree;

pub use answers::{Config, ConfigError, Reported, Splits, SubmitError, Work};
pub use cluster::Cluster;
pub use kv_core::ReadError;
pub use laws::{
    agreement_by_versions, cause_is_exact, history_is_legal, history_only_grows,
    keys_have_one_owner, servers_follow_logs,
};
pub use pipeline::{Pipeline, Ticket};
pub use tier::Tier;
