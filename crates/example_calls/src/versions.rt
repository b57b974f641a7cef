// Versions and transactions: `cluster_core`, `txn` and `range_set`. Called by `main`.
ghost use Rattle.std.specs.Prelude.{◌≡◌, IfSome, IsTrue};
ghost use Rattle.cluster_core.specs.Roles.{is_caught_up};
ghost use Rattle.kv_core.specs.Range.{has_keys};

use crate::bytes::key;
use cluster_core::{Cluster, Config};
use commits::Commit;
use kv_core::{Bytes, KeyRange, KvMap};
use range_set::{first_gap, read_ranges};
use std::alloc::Global;
use txn::Transaction;

/// What each key of the set begins with: the pack of (1).
const PLACE: [u8; 2] = [0x15, 0x01];

/// A transaction at this version that adds a number to a sum.
fn adding(alloc: Global, version: u64, number: u8) -> Option<Transaction>
    ensures { IfSome result (λ tx. tx.read_version ≡ version) }
{
    let name = key(alloc, "sum")?;
    let operand = Bytes::from_slice(alloc, &[number]).ok()?;
    let mut tx = Transaction::begin(alloc, version);
    tx.add(name, operand).ok()?;
    Some(tx)
}

/// Commits so many transactions, each of which adds its number to a sum.
fn add_up(alloc: Global, cluster: &mut Cluster, times: u8) -> Option<()>
    requires { is_caught_up cluster.old.pipeline }
{
    for number in 0..times {
        let tx = adding(alloc, cluster.read_version(), number)?;
        cluster.commit(tx.into_request()).ok()?;
    }
    Some(())
}

/// What the servers have at the newest version.
fn sum_line(alloc: Global, cluster: &Cluster) -> Option<String> {
    let version = cluster.read_version();
    let sum = cluster.value(&key(alloc, "sum")?, version).ok()??;
    format!(in alloc; "cluster_core, txn: version {version} has {sum}").ok()
}

/// A database of one of each role, and what is in it in the end.
pub(crate) fn added(alloc: Global) -> Option<String> {
    let mut cluster = Cluster::new(alloc, &Config::single(alloc)).ok()?;
    add_up(alloc, &mut cluster, 4)?;
    sum_line(alloc, &cluster)
}

/// A range with keys, up to "m".
fn first_part(alloc: Global) -> Option<KeyRange>
    ensures { IfSome result (λ part. IsTrue (has_keys part)) }
{
    let part = KeyRange::new(key(alloc, "")?, key(alloc, "m")?)?;
    if part.is_empty() { None } else { Some(part) }
}

/// Puts a range into a set of positions.
fn insert(alloc: Global, tx: &mut Transaction, db: &KvMap) -> Option<()> {
    let part = first_part(alloc)?;
    let set = read_ranges(alloc, &PLACE, tx, db).ok()?;
    set.insert(alloc, &PLACE, tx, &part).ok()
}

/// The first gap of the set.
fn gap_line(alloc: Global, tx: &mut Transaction, db: &KvMap) -> Option<String> {
    let gap = first_gap(alloc, &PLACE, tx, db).ok()??;
    format!(in alloc; "range_set: the first gap begins at {}", gap.begin()).ok()
}

/// A set of positions with one range, and its first gap.
pub(crate) fn built(alloc: Global) -> Option<String> {
    let (db, mut tx) = (KvMap::new(alloc), Transaction::begin(alloc, 0));
    insert(alloc, &mut tx, &db)?;
    gap_line(alloc, &mut tx, &db)
}
