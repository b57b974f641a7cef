// The history of a database, and tokens of what was seen of it, by `logbook`. Used by most modules
// here.
ghost use Rattle.std.specs.Prelude.{◌≡◌, ◌↔◌, IsTrue, ◌-◌, ◌<◌, ◌≤◌, ◌^◌, ◌++◌, ◌∷◌, [], true, length};
ghost use Rattle.std.specs.Prelude.{MatchBool};
ghost use Rattle.std.specs.Bool.{OnTrue, OnFalse};
ghost use mathlib.Core.List.{IsPrefix};
ghost use Rattle.runtime.specs.Logs.{HoldsEach, IsHeadlineOf, IsSerialLog, IsServedLog};
ghost use Rattle.runtime.specs.Logs.{IsWellFormedLog, are_in_turn, history_of, is_once};
ghost use Rattle.runtime.specs.Logs.{version_of};
ghost use Rattle.cluster_core.specs.History.{IsLegalOver};
ghost use Rattle.runtime.specs.History.{log_prefix, submitted_entry};
ghost use Rattle.replay.specs.Replaying.{IsLogged};
ghost use Rattle.runtime.specs.Origins.{MayBegin, base_of, origin_of};

use crate::base::Base;
use crate::log_entry::{Entry, Submitted};
use crate::log_origin::LogOrigin;
use cluster_core::Config;
use logbook::{Gain, Offer, Plain, Play, Rule, Seen, Start, Word};
use std::marker::Model;

/// The rule of a history: its first word is its length. It exists in proofs alone, but for that word.
pub struct LogRule;

impl Rule<Entry, u64> for LogRule {
    ghost use Rattle.std.specs.Prelude.{[]};
    ghost use base.Fml.{ftrue};
    ghost use Rattle.runtime.specs.History.{IsBook};

    ghost holds = { λ cells log. IsBook cells log };

    ghost first = { [] };

    ghost hinted = { λ n log. Unit {0} };

    ghost shows = { λ log. [] };

    ghost keeps = { λ names log. ftrue };

    ghost moves = { λ ask before after answer. Unit {0} };
}

/// Callers trade nothing.
pub struct Nothing;

impl Gain<Entry, u64> for Nothing {
    ghost use base.Fml.{ftrue};

    ghost after = { λ names about answer. ftrue };
}

/// The step that adds an entry.
pub struct Add;

impl Play<Entry, u64> for Add {
    ghost use Rattle.runtime.specs.History.{Adds};

    ghost then = { Adds };
}

impl Plain<Submitted, Entry, u64> for Add {
    ghost use Rattle.std.specs.Prelude.{None};
    ghost use Rattle.runtime.specs.History.{submitted_entry};

    ghost ask = { λ submitted. submitted_entry submitted };

    ghost state = { λ submitted. None };
}

/// The word that has the length of a history. Contracts see it as its book.
#[derive(Drop)]
pub struct LogHead {
    word: Word<Entry, u64, LogRule>,
}

impl Model for LogHead {
    ghost use Rattle.std.specs.Prelude.{◌≡◌};
    ghost use Rattle.logbook.specs.Pages.{Book};
    ghost use Rattle.runtime.specs.History.{head_of};

    ghost Value = { Book };

    ghost view = { λ h. h.word.book };

    ghost invariant = { λ h. h.word ≡ head_of h.word.book };
}

/// A beginning of the history of a database that was seen, which is well-formed for its configuration.
///
/// Of the entries no bytes are kept, so it can be copied.
#[derive(Drop)]
pub struct LogPrefix {
    count: u64,
    log_origin: LogOrigin,
    kept: bool,
    seen: Seen<Entry, u64, LogRule>,
}

impl Model for LogPrefix {
    ghost use Rattle.std.specs.Prelude.{◌≡◌, length};
    ghost use Rattle.runtime.specs.Logs.{IsWellFormedLog};
    ghost use Rattle.runtime.specs.History.{Prefix, database_name, log_prefix};
    ghost use Rattle.std.specs.Coded.{codes};
    ghost use Rattle.command_log.specs.contracts.entry.Entry as kept_entries;
    ghost use Rattle.runtime.specs.contracts.log_entry.Entry as entries;

    ghost Value = { Prefix };

    ghost coded = { Prim.hlevel (codes, entries.the_row.coded, kept_entries.the_row.coded) };

    ghost view = { λ f. log_prefix (database_name f.seen.book f.log_origin f.kept) f.seen.log };

    ghost invariant = { λ f. (f.count ≡ length f.seen.log) × IsWellFormedLog f.log_origin f.seen.log };
}

/// A new history, which is empty, of a database of this configuration that goes on from this, in
/// which what is committed is kept, or isn't.
#[tactic(auto, using(crate::proofs::WellFormed::lawful_first, crate::proofs::Bases::may_begin))]
pub fn opened(config: &Config, base: &Base, kept: bool) -> (LogHead, LogPrefix)
    requires logged { IsLogged base.now.entries.items base.now.image }
    requires above { base.now.image.version ≤ config.now.start }
    ensures empty { result.1.log ≡ [] }
    ensures name { (result.1.name.origin ≡ origin_of config.now base.now.entries.items)
        × (result.1.name.book ≡ result.0) × (result.1.name.kept ≡ kept) }
{
    let log_origin = LogOrigin::of(config, &base.entries);
    prove!(log_origin.start() <= u64::MAX);
    let (seen, mut first, _second) = Seen::open(Start::alone(), 0, 0);
    let head = LogHead {
        word: Word::tracked(0, &mut first),
    };
    (
        head,
        LogPrefix {
            count: 0,
            log_origin,
            kept,
            seen,
        },
    )
}

impl LogPrefix {
    /// The number of entries.
    pub fn len(&self) -> u64
        ensures length { result ≡ length self.now.log }
        ensures well_formed { IsWellFormedLog self.now.name.origin self.now.log }
    {
        self.count
    }

    /// The version of the last entry.
    #[tactic(auto, using(crate::proofs::Entries::requests_length))]
    pub fn version(&self) -> u64
        ensures value { result ≡ version_of self.now.name.origin self.now.log }
        ensures well_formed { IsWellFormedLog self.now.name.origin self.now.log }
    {
        self.log_origin.start() + self.count
    }

    /// Whether what is committed in its database is kept.
    pub fn is_kept(&self) -> bool
        ensures { result ≡ self.now.name.kept }
    {
        self.kept
    }

    /// Whether servers that have pulled another log still tell the version of this one: it lies no
    /// longer ago than the window.
    pub fn is_near(&self, other: &LogPrefix) -> bool
        requires { other.now.name ≡ self.now.name }
        ensures { IsTrue result ↔ (version_of other.now.name.origin other.now.log
            - version_of self.now.name.origin self.now.log ≤ self.now.name.origin.config.window) }
    {
        let last = other.version();
        let own = self.version();
        last <= own || last - own <= self.log_origin.window()
    }

    /// What is promised of each log: its history is legal, the map at each version holds what
    /// the accepted commands of the committed entries up to there give, version order is a serial
    /// order, each accepted command has its reply at its transaction's read version, no submission
    /// stands twice, and each client's submissions are numbered 1, 2, 3 and so on. So the headline
    /// holds: its planned queries are answered rightly, and its readable indexes are exact at each
    /// version.
    #[tactic(auto, using(crate::proofs::Serving::legal_of))]
    pub fn promises(&self)
        ensures begun { MayBegin self.now.name.origin }
        ensures legal { IsLegalOver (base_of self.now.name.origin)
            (history_of self.now.name.origin self.now.log) }
        ensures holds { HoldsEach self.now.name.origin self.now.log }
        ensures serial { IsSerialLog self.now.name.origin self.now.log }
        ensures served { IsServedLog self.now.name.origin self.now.log }
        ensures once { is_once self.now.log ≡ true }
        ensures in_turn { are_in_turn [] self.now.log ≡ true }
        ensures headline { IsHeadlineOf self.now.name.origin self.now.log }
    {
        self.len();
    }

    /// An equal log.
    pub fn again(&self) -> LogPrefix
        ensures { result ≡ self.now }
    {
        LogPrefix {
            count: self.count,
            log_origin: self.log_origin.again(),
            kept: self.kept,
            seen: self.seen.again(),
        }
    }

    /// Whether the other log begins with this one, as the longer of two does.
    pub fn begins(&self, other: &LogPrefix) -> bool
        requires { other.now.name ≡ self.now.name }
        ensures { MatchBool result (IsPrefix self.now.log other.now.log)
            (IsPrefix other.now.log self.now.log) }
    {
        let mut both = self.seen.again();
        both.learn(&other.seen);
        self.count <= other.count
    }

    /// The longer of two logs, which begins with the other.
    pub fn longer(&self, other: &LogPrefix) -> LogPrefix
        requires { other.now.name ≡ self.now.name }
        ensures name { result.name ≡ self.now.name }
        ensures this { IsPrefix self.now.log result.log }
        ensures that { IsPrefix other.now.log result.log }
    {
        if self.begins(other) {
            other.again()
        } else {
            self.again()
        }
    }

    /// Adds the entry of a submission after this log, and says whether it did: not where the history
    /// is longer than the log.
    pub(crate) fn add(&mut self, head: &LogHead, submitted: &Submitted) -> bool
        requires book { head.now ≡ self.old.name.book }
        requires room { length self.old.log < 2 ^ 62 }
        requires well_formed { IsWellFormedLog self.old.name.origin
            (self.old.log ++ submitted_entry submitted.now ∷ []) }
        ensures added { OnTrue result (self.new ≡ log_prefix self.old.name
            (self.old.log ++ submitted_entry submitted.now ∷ [])) }
        ensures not { OnFalse result (self.new ≡ self.old) }
    {
        let mut seen = self.seen.again();
        let mut offer: Offer<Entry, u64, LogRule, Nothing> = seen.plain::<Nothing, Submitted, Add>(
            submitted,
        );
        let mut pen = seen.no_pen();
        let count = self.count;
        let found = head
            .word
            .compare_exchange::<Add, Nothing>(count, count + 1, &mut seen, &mut offer, &mut pen);
        if found == count {
            self.seen = seen;
            self.count = count + 1;
        }
        found == count
    }
}

/// An equal log, where there is one.
pub(crate) fn again(prefix: &Option<LogPrefix>) -> Option<LogPrefix>
    ensures { result ≡ prefix.now }
{
    match prefix {
        Some(prefix) => Some(prefix.again()),
        None => None,
    }
}
