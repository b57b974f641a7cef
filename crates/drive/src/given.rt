// What a host tells. Read by `answering` and `ahead`; made by the crate `drive_form` from bytes.
use kv_core::{Coverage, KvMap, Mutation};
use schedule::Command;

/// What a host has read of its database at one version, and the commands of a transaction that are
/// to be performed there.
#[derive(Drop)]
pub struct Given {
    /// The version that the host reads.
    pub version: u64,
    /// The keys of which the host has read all pairs.
    pub covered: Coverage,
    /// The pairs at these keys. What stands at other keys counts for nothing.
    pub pairs: KvMap,
    /// What the transaction has written before these commands.
    pub written: Vec<Mutation>,
    /// The commands, in order.
    pub commands: Vec<Command>,
}
