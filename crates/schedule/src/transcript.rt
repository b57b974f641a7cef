// The result of a schedule. Made by `run_schedule` in `lib`, with the commits that `clients` and
// `reporting` list; read by `recordctl`.
ghost use Rattle.std.specs.Prelude.{◌≡◌};

use crate::reply::Reply;
use crate::step::Command;
use cluster_core::{Cluster, ConfigError};
use record_store::StoreNumber;
use std::marker::Model;
use thiserror::Error;

/// Replies, one for each step, in order.
#[derive(Drop)]
pub struct Replies {
    replies: Vec<Reply>,
}

impl Model for Replies {
    ghost use Rattle.std.specs.Prelude.{List};
    ghost use Rattle.schedule.specs.declared.reply.Reply.{Reply};
    ghost use Rattle.schedule.specs.contracts.reply.Reply as one;
    ghost use Rattle.std.specs.Coded.{codes};

    ghost Value = { List Reply };

    ghost coded = { Prim.hlevel (codes, one.the_row.coded) };

    ghost view = { λ r. r.replies.items };
}

impl Replies {
    /// The list of these replies.
    pub fn new(replies: Vec<Reply>) -> Replies
        ensures { result ≡ replies.items }
    {
        Replies { replies }
    }

    /// The replies.
    pub fn as_slice(&self) -> &[Reply]
        ensures { result.now ≡ self.now }
    {
        self.replies.as_slice()
    }
}

/// Commands, in order.
#[derive(Drop)]
pub struct Commands {
    commands: Vec<Command>,
}

impl Model for Commands {
    ghost use Rattle.std.specs.Prelude.{List};
    ghost use Rattle.schedule.specs.declared.step.Command.{Command};
    ghost use Rattle.schedule.specs.contracts.step.Command as one;
    ghost use Rattle.std.specs.Coded.{codes};

    ghost Value = { List Command };

    ghost coded = { Prim.hlevel (codes, one.the_row.coded) };

    ghost view = { λ c. c.commands.items };
}

impl Commands {
    /// The list of these commands.
    pub fn new(commands: Vec<Command>) -> Commands
        ensures { result ≡ commands.items }
    {
        Commands { commands }
    }

    /// The commands.
    pub fn as_slice(&self) -> &[Command]
        ensures { result.now ≡ self.now }
    {
        self.commands.as_slice()
    }
}

/// A committed transaction, with the commands that it accepted.
#[derive(Drop)]
pub struct CommitEntry {
    /// The version at which it is committed.
    pub version: u64,
    /// Whose transaction it was.
    pub client: u64,
    /// The store that it worked in.
    pub store: StoreNumber,
    /// The version that it read.
    pub read_version: u64,
    /// Its accepted commands.
    pub commands: Commands,
}

/// Committed transactions, in version order.
#[derive(Drop)]
pub struct Commits {
    commits: Vec<CommitEntry>,
}

impl Model for Commits {
    ghost use Rattle.std.specs.Prelude.{List};
    ghost use Rattle.schedule.specs.declared.transcript.CommitEntry.{CommitEntry};
    ghost use Rattle.schedule.specs.contracts.transcript.CommitEntry as one;
    ghost use Rattle.std.specs.Coded.{codes};

    ghost Value = { List CommitEntry };

    ghost coded = { Prim.hlevel (codes, one.the_row.coded) };

    ghost view = { λ c. c.commits.items };
}

impl Commits {
    /// The list of these transactions.
    pub fn new(commits: Vec<CommitEntry>) -> Commits
        ensures { result ≡ commits.items }
    {
        Commits { commits }
    }

    /// The transactions.
    pub fn as_slice(&self) -> &[CommitEntry]
        ensures { result.now ≡ self.now }
    {
        self.commits.as_slice()
    }
}

/// What a schedule did.
#[derive(Drop)]
pub struct Transcript {
    /// What each step replied.
    pub replies: Replies,
    /// The transactions that are committed, of those that were reported.
    pub commits: Commits,
    /// The cluster after the last step.
    pub cluster: Cluster,
}

/// Why a schedule isn't run to its end.
#[derive(Debug, Drop, Error)]
pub enum ScheduleError {
    /// There is no cluster of this configuration.
    #[error("{0}")]
    Config(ConfigError),
    /// Memory runs out.
    #[error("out of memory")]
    Memory,
}
