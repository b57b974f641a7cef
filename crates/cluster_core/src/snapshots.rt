// The servers and the database as snapshots, which a transaction reads from.
ghost use Rattle.cluster_core.specs.Cluster.{database_at, tier_of};
ghost use Rattle.cluster_core.specs.Narrowing.{cluster-narrows, tier-narrows};
ghost use Rattle.cluster_core.specs.Refusing.{MayRefuse, MustRefuse};
ghost use Rattle.cluster_core.specs.Tier.{whole_map};

use crate::cluster::Cluster;
use crate::tier::Tier;
use kv_core::{Bytes, KeyRange, Pair, ReadError, Snapshot};

/// The servers, each as far as it has pulled.
impl Snapshot for Tier {
    ghost map_at = { whole_map };

    ghost may_refuse = { MayRefuse };

    ghost must_refuse = { MustRefuse };

    ghost narrows = { tier-narrows };

    fn read(
        &self,
        range: &KeyRange,
        version: u64,
        limit: usize,
        reverse: bool,
    ) -> Result<Vec<Pair>, ReadError> {
        Tier::read(self, range, version, limit, reverse)
    }

    fn value(&self, key: &Bytes, version: u64) -> Result<Option<Bytes>, ReadError> {
        Tier::value(self, key, version)
    }

    fn check(&self, range: &KeyRange, version: u64) -> Result<(), ReadError> {
        Tier::check(self, range, version)
    }
}

/// The database, read from its servers.
impl Snapshot for Cluster {
    ghost map_at = { database_at };

    ghost may_refuse = { λ cluster. MayRefuse (tier_of cluster) };

    ghost must_refuse = { λ cluster. MustRefuse (tier_of cluster) };

    ghost narrows = { cluster-narrows };

    fn read(
        &self,
        range: &KeyRange,
        version: u64,
        limit: usize,
        reverse: bool,
    ) -> Result<Vec<Pair>, ReadError> {
        Cluster::read(self, range, version, limit, reverse)
    }

    fn value(&self, key: &Bytes, version: u64) -> Result<Option<Bytes>, ReadError> {
        Cluster::value(self, key, version)
    }

    fn check(&self, range: &KeyRange, version: u64) -> Result<(), ReadError> {
        Cluster::check(self, range, version)
    }
}
