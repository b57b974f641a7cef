// The check of a configuration. Called by `pipeline` and `tier` as they are made.
ghost use Rattle.std.specs.Prelude.{◌≡◌, ◌+◌, ◌≤◌, ◌&&◌, [], length, nat_le};
ghost use Rattle.std.specs.List.{list_all};
ghost use Rattle.kv_core.specs.Bytes.{key_lt, end_of_keys};
ghost use Rattle.cluster_core.specs.Configuration.{are_splits, config_refusal};
ghost use Rattle.cluster_core.specs.Configuration.{has_good_counts, is_count, is_rising_above};

use crate::answers::{Config, ConfigError, Splits};
use kv_core::{Bytes, MAX_KEY_BYTES};

/// The most of a role that there may be.
const MAX_ROLES: u64 = 16;

/// The longest window.
const MAX_WINDOW: u64 = 1_000_000;

/// Whether there may be so many of a role.
fn is_count(count: u64) -> bool
    ensures { result ≡ is_count count }
{
    (1..=MAX_ROLES).contains(&count)
}

/// Whether each number of the configuration is within its bounds.
fn has_good_counts(config: &Config) -> bool
    ensures { result ≡ has_good_counts config.now }
{
    is_count(config.resolver_splits.as_slice().len() as u64 + 1)
        && is_count(config.storage_splits.as_slice().len() as u64 + 1)
        && is_count(config.logs)
        && is_count(config.places)
        && (1..=MAX_WINDOW).contains(&config.window)
}

/// Whether the keys strictly rise, the first of them above the empty key.
fn are_rising(splits: &[Bytes]) -> bool
    ensures { result ≡ is_rising_above [] splits.now }
{
    let mut last: &[u8] = &[];
    for split in splits {
        if !last.cmp(split.as_slice()).is_lt() {
            return false;
        }
        last = split.as_slice();
    }
    true
}

/// Whether each of the byte strings is a key that isn't too long.
fn are_keys(splits: &[Bytes]) -> bool
    ensures { result ≡ list_all (λ split. key_lt split end_of_keys && nat_le (length split) 10_000) splits.now }
{
    splits.iter().all(|split| split.is_key() && split.as_slice().len() <= MAX_KEY_BYTES)
}

/// Whether the keys may be splits.
fn are_splits(splits: &Splits) -> bool
    ensures { result ≡ are_splits splits.now }
{
    are_rising(splits.as_slice()) && are_keys(splits.as_slice())
}

/// Why a configuration is refused, or None where it isn't, which takes no memory.
pub(crate) fn refusal_of(config: &Config) -> Option<ConfigError>
    ensures { result ≡ config_refusal config.now }
{
    if !has_good_counts(config) {
        return Some(ConfigError::BadCount);
    }
    if are_splits(&config.resolver_splits) && are_splits(&config.storage_splits) {
        None
    } else {
        Some(ConfigError::BadSplits)
    }
}
