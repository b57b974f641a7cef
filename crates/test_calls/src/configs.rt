// Configurations: which are refused, and why; and the last version of servers. Run as tests;
// `clusters` and `committing` make their configurations by it.
use cluster_core::{Cluster, Config, ConfigError, Pipeline, Splits, Tier};
use std::alloc::Global;
use std::test::Fail;
use test_parts::{are_pairs, bytes_of, holds, mutations_of, range_of, tells};
use txn::Snapshot;

/// The splits of a text, in which `empty` stands for the empty key.
fn splits_of(alloc: Global, text: &str) -> Result<Splits, Fail> {
    let mut splits = Vec::new(alloc);
    for word in text.split_whitespace() {
        splits.push(bytes_of(alloc, if word == "empty" { "" } else { word })?)?;
    }
    Ok(Splits::new(splits))
}

/// A configuration with one place, with splits between resolvers and between servers.
pub(crate) fn config_of(
    alloc: Global,
    (resolvers, servers): (&str, &str),
    logs: u64,
    window: u64,
    start: u64,
) -> Result<Config, Fail> {
    Ok(Config {
        resolver_splits: splits_of(alloc, resolvers)?,
        storage_splits: splits_of(alloc, servers)?,
        logs,
        window,
        start,
        places: 1,
    })
}

/// The number of logs and the window, of a text.
pub(crate) fn logs_and_window(text: &str) -> Result<(u64, u64), Fail> {
    let (logs, window) = text.split_once(' ').ok_or("no window")?;
    Ok((logs.parse::<u64>()?, window.parse::<u64>()?))
}

type Row = (&'static str, u64, u64, u64, Option<ConfigError>);

const FIFTEEN: &str = "1500 1501 1502 1503 1504 1505 1506 1507 1508 1509 150a 150b 150c 150d 150e";

const SIXTEEN: &str =
    "1500 1501 1502 1503 1504 1505 1506 1507 1508 1509 150a 150b 150c 150d 150e 150f";

/// Splits, the numbers of logs and of places, the window, and the refusal.
static CONFIGS: [Row; 17] = [
    (FIFTEEN, 16, 16, 1_000_000, None),
    ("", 1, 1, 1, None),
    (SIXTEEN, 1, 1, 1, Some(ConfigError::BadCount)),
    ("", 0, 1, 1, Some(ConfigError::BadCount)),
    ("", 17, 1, 1, Some(ConfigError::BadCount)),
    ("", 1, 0, 1, Some(ConfigError::BadCount)),
    ("", 1, 17, 1, Some(ConfigError::BadCount)),
    ("", 1, 1, 0, Some(ConfigError::BadCount)),
    ("", 1, 1, 1_000_001, Some(ConfigError::BadCount)),
    ("15 1500 16", 1, 1, 1, None),
    ("62", 1, 1, 1, None),
    ("16 15", 1, 1, 1, Some(ConfigError::BadSplits)),
    ("15 15", 1, 1, 1, Some(ConfigError::BadSplits)),
    ("62 62", 1, 1, 1, Some(ConfigError::BadSplits)),
    ("empty", 1, 1, 1, Some(ConfigError::BadSplits)),
    ("ff", 1, 1, 1, Some(ConfigError::BadSplits)),
    ("fe ff00", 1, 1, 1, Some(ConfigError::BadSplits)),
];

/// Whether each of the three refuses a configuration with this error, or for None takes it.
fn refuse(alloc: Global, config: &Config, error: Option<ConfigError>) -> bool {
    Pipeline::new(alloc, config).err() == error
        && Tier::new(alloc, config).err() == error
        && Cluster::new(alloc, config).err() == error
}

/// Refused so, or taken, is a configuration with the splits between resolvers, and between servers.
fn is_refused(alloc: Global, row: &Row) -> Result<(), Fail> {
    let (splits, logs, places, window, error) = row;
    for both in [(*splits, ""), ("", *splits)] {
        let mut config = config_of(alloc, both, *logs, *window, 0)?;
        config.places = *places;
        holds(refuse(alloc, &config, *error), splits)?;
    }
    Ok(())
}

#[test]
fn configurations_are_refused(rt: HostRuntime) -> Result<(), Fail> {
    for row in &CONFIGS {
        is_refused(rt.alloc(), row)?;
    }
    Ok(())
}

/// The versions at which servers begin, whether there is one left before they pull a version, and then, and the pairs
/// that a snapshot's read finds at that version.
static STARTS: [(u64, u64, &str, &str); 2] = [
    (10, 11, "(true, true)", "61=01 63=03"),
    (u64::MAX - 1, u64::MAX, "(true, false)", "61=01 63=03"),
];

/// Servers that meet at the key 62 and have pulled one version, if there was one left.
fn pulled(alloc: Global, config: &Config, told: &str) -> Result<Tier, Fail> {
    let mut tier = Tier::new(alloc, config)?;
    let before = tier.has_next();
    if before {
        tier.pull_entry(mutations_of(alloc, "63=03 61=01")?.as_slice())?;
    }
    tells(alloc, &(before, tier.has_next()), told)?;
    Ok(tier)
}

fn read(alloc: Global, tier: &Tier, version: u64, told: &str) -> Result<(), Fail> {
    let range = range_of(alloc, "61-64")?;
    let pairs = Snapshot::read(tier, &range, version, 9, false)?;
    are_pairs(alloc, &pairs, told)
}

#[test]
fn versions_are_pulled(rt: HostRuntime) -> Result<(), Fail> {
    let mut config = config_of(rt.alloc(), ("", "62"), 1, 1, 0)?;
    for (start, version, told, pairs) in &STARTS {
        config.start = *start;
        let tier = pulled(rt.alloc(), &config, told)?;
        read(rt.alloc(), &tier, *version, pairs)?;
    }
    Ok(())
}
