// What goes with a history and never changes, as logs of `logbook`: the configuration, and the
// entries of the log that the database goes on from. Used by `log_prefix`.
ghost use Rattle.std.specs.Prelude.{◌≡◌};
ghost use Rattle.runtime.specs.Origins.{origin_of};

use cluster_core::Config;
use command_log::Entry;
use logbook::{Opening, Rule, Seen, Start};
use std::marker::Model;

/// The rule of a log that is never changed, whatever it has.
pub struct Still;

impl<T> Rule<T, u64> for Still {
    ghost use Rattle.std.specs.Prelude.{[]};
    ghost use base.Fml.{ftrue};

    ghost holds = { λ cells log. Unit {0} };

    ghost first = { [] };

    ghost hinted = { λ n log. Unit {0} };

    ghost shows = { λ log. [] };

    ghost keeps = { λ names log. ftrue };

    ghost moves = { λ ask before after answer. Unit {0} };
}

/// A log of one configuration.
pub struct Kept;

impl Opening<Config, Config> for Kept {
    ghost use Rattle.std.specs.Prelude.{[], ◌∷◌};

    ghost log = { λ count config. config ∷ [] };
}

/// A log of entries that were there.
pub struct Found;

impl Opening<Vec<Entry>, Entry> for Found {
    ghost log = { λ count entries. entries.items };
}

/// What a database began with, as clauses see it, which can be copied: only the start and the
/// window of its configuration are kept as bytes.
#[derive(Drop)]
pub struct LogOrigin {
    start: u64,
    window: u64,
    config: Seen<Config, u64, Still>,
    before: Seen<Entry, u64, Still>,
}

impl Model for LogOrigin {
    ghost use Rattle.std.specs.Prelude.{◌≡◌};
    ghost use Rattle.std.specs.Coded.{codes};
    ghost use Rattle.command_log.specs.contracts.entry.Entry as kept_entries;
    ghost use Rattle.runtime.specs.Origins.{Origin, first_config, origin_of};

    ghost Value = { Origin };

    ghost coded = { Prim.hlevel (codes, kept_entries.the_row.coded) };

    ghost view = { λ f. origin_of (first_config f.config.log) f.before.log };

    ghost invariant = { λ f.
        (f.start ≡ (first_config f.config.log).start)
        × (f.window ≡ (first_config f.config.log).window) };
}

impl LogOrigin {
    /// A configuration, and the entries of a log, copied.
    pub fn of(config: &Config, before: &Vec<Entry>) -> LogOrigin
        ensures { result ≡ origin_of config.now before.now.items }
    {
        let (seen, _pens) = Seen::open_row::<Config, Kept>(config, Start::alone(), 0);
        let (found, _others) = Seen::open_row::<Vec<Entry>, Found>(before, Start::alone(), 0);
        LogOrigin {
            start: config.start,
            window: config.window,
            config: seen,
            before: found,
        }
    }

    /// An equal one.
    pub fn again(&self) -> LogOrigin
        ensures { result ≡ self.now }
    {
        LogOrigin {
            start: self.start,
            window: self.window,
            config: self.config.again(),
            before: self.before.again(),
        }
    }

    /// The first version.
    pub fn start(&self) -> u64
        ensures { result ≡ self.now.config.start }
    {
        self.start
    }

    /// How many versions longer ago than the last one a read may be.
    pub fn window(&self) -> u64
        ensures { result ≡ self.now.config.window }
    {
        self.window
    }
}
