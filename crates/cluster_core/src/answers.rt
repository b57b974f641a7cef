// The configuration of a cluster, and the answers and refusals of its calls. Used by `config`,
// `server`, `pipeline`, `tier` and `cluster`, and by whoever calls the last three.
ghost use Rattle.std.specs.Prelude.{◌≡◌, IfOk, IsNone};
ghost use Rattle.cluster_core.specs.Configuration.{config_refusal, single};
ghost use Rattle.cluster_core.specs.declared.answers.ConfigError.TheVariants.{Memory as ConfigMemory};
ghost use Rattle.cluster_core.specs.declared.answers.SubmitError.TheVariants.{Memory as SubmitMemory};

use kv_core::{Bytes, KeyRange};
use std::alloc::{AllocError, Global};
use std::marker::Model;
use thiserror::Error;

/// The number of each role, the window and the first version.
#[derive(Debug, Drop)]
pub struct Config {
    pub resolver_splits: Splits,
    pub storage_splits: Splits,
    pub logs: u64,
    pub window: u64,
    pub start: u64,
    pub places: u64,
}

impl Config {
    /// A resolver, a log and a storage server, a window of 1000 versions, the first version 0.
    pub fn single(alloc: Global) -> Config
        ensures value { result ≡ single }
        ensures accepted { IsNone (config_refusal result) }
    {
        Config {
            resolver_splits: Splits::new(Vec::new(alloc)),
            storage_splits: Splits::new(Vec::new(alloc)),
            logs: 1,
            window: 1000,
            start: 0,
            places: 4,
        }
    }
}

/// Keys between which roles own the keys.
#[derive(Debug)]
pub struct Splits {
    splits: Vec<Bytes>,
}

// Written out, so that no proof of a caller has to take its parts apart where one is dropped.
impl Drop for Splits {
    fn drop(self) {
        let Splits { splits } = self;
        drop(splits);
    }
}

impl Model for Splits {
    ghost use Rattle.std.specs.Prelude.{List, ℕ};

    ghost Value = { List (List ℕ) };

    ghost view = { λ a. a.splits.items };
}

impl Splits {
    /// The list of these keys, as they stand.
    pub fn new(splits: Vec<Bytes>) -> Splits
        ensures { result ≡ splits.items }
    {
        Splits { splits }
    }

    /// The keys, in order.
    pub fn as_slice(&self) -> &[Bytes]
        ensures { result.now ≡ self.now }
    {
        self.splits.as_slice()
    }

    /// Equal splits, unless memory runs out.
    pub(crate) fn copy(&self) -> Result<Splits, AllocError>
        ensures { IfOk result (λ copy. copy ≡ self.now) }
    {
        let splits = self.splits.clone()?;
        Ok(Splits { splits })
    }
}

/// Why a configuration is refused.
#[derive(Clone, Copy, Debug, PartialEq, Eq, Error)]
pub enum ConfigError {
    /// A number of roles, or the window, is out of its bounds.
    #[error("the number of a role or the window is out of its bounds")]
    BadCount,
    /// The splits don't strictly rise, or one is empty, too long or beyond the keys.
    #[error("the splits don't rise, or one of them is empty, too long or beyond the keys")]
    BadSplits,
    /// Memory ran out.
    #[error("out of memory")]
    Memory,
}

/// What a report tells.
#[derive(Debug, Drop)]
pub enum Reported {
    /// The request is committed at this version.
    Committed(u64),
    /// The request is refused: the newest version `seen` wrote in `range`, which the request read.
    Conflict { seen: u64, range: KeyRange },
    /// No version waits for its report.
    NothingToDo,
}

/// Why a request isn't given a version.
#[derive(Clone, Copy, Debug, PartialEq, Eq, Error)]
pub enum SubmitError {
    /// The last version has been given.
    #[error("there is no version left")]
    VersionsExhausted,
    /// The request read longer ago than the window allows.
    #[error("the request read too long ago")]
    TooOld,
    /// Memory ran out.
    #[error("out of memory")]
    Memory,
}

impl From<AllocError> for ConfigError {
    ghost from_gives = { λ _ e. e ≡ ConfigMemory };

    fn from(_e: AllocError) -> ConfigError {
        ConfigError::Memory
    }
}

impl From<AllocError> for SubmitError {
    ghost from_gives = { λ _ e. e ≡ SubmitMemory };

    fn from(_e: AllocError) -> SubmitError {
        SubmitError::Memory
    }
}

/// Whether a role had something to do.
#[derive(Clone, Copy, Debug, PartialEq, Eq)]
pub enum Work {
    /// It handled the next version.
    Done,
    /// There was nothing to do.
    NothingToDo,
}
