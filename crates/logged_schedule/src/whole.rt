// What a checkpoint is made of. Called by `twofold`.
ghost use Rattle.std.specs.Prelude.{◌≡◌, IfErr, IfOk};
ghost use Rattle.cluster_core.specs.Cluster.{database_at};
ghost use Rattle.replay.specs.Pairs.{all_pairs};
ghost use Rattle.logged_schedule.specs.Twofold.{IsNotRead};

use crate::error::Unmade;
use cluster_core::Cluster;
use kv_core::{Bytes, KeyRange, Pair, ReadError};
use std::alloc::Global;

/// All pairs of a database at its last reported version, as its servers have them.
pub(crate) fn pairs_of(alloc: Global, cluster: &Cluster) -> Result<Vec<Pair>, Unmade>
    ensures read { IfOk result (λ pairs. pairs.items
        ≡ all_pairs (database_at cluster.now cluster.now.pipeline.reported)) }
    ensures unread { IfErr result (IsNotRead cluster.now) }
{
    let end = Bytes::from_slice(alloc, &[0xff])?;
    let Some(range) = KeyRange::new(Bytes::new(Vec::new(alloc)), end) else {
        unreachable!();
    };
    match cluster.read(&range, cluster.read_version(), usize::MAX, false) {
        Ok(pairs) => {
            if pairs.len() < usize::MAX {
                Ok(pairs)
            } else {
                Err(Unmade::Memory)
            }
        }
        Err(ReadError::Memory) => Err(Unmade::Memory),
        Err(ReadError::TooOld | ReadError::FutureVersion) => Err(Unmade::Behind),
    }
}
