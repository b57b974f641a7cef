// The invariant of the published state under `left_right`, and the types of its reader and writer.
// Used by `publisher`, `commit_state`, `db`, `client` and `published_reads`.
use crate::log_prefix::LogPrefix;
use crate::published::{Published, Step, View};
use crate::recent_outcomes::RecentOutcomes;
use atomic_table::{Join, Split};
use cluster_core::Tier;
use crossbeam_utils::rule::{Outcome, Protocol};
use left_right::Absorb;
use left_right::reader::{Reader, Reading};
use left_right::writer::Writer;
use std::alloc::AllocError;

/// The rule: the servers have pulled just the log, the outcomes are those of its entries, and it
/// begins with each log that a thread has seen.
pub struct PublishedRule;

impl Protocol<Published, View> for PublishedRule {
    ghost use Rattle.runtime.specs.Publication.{Kept, newcomer};

    ghost holds = { Kept };

    ghost first = { newcomer };
}

/// What an entry and a publish tell: the log is seen.
pub struct See;

impl Outcome<Published, View> for See {
    ghost use Rattle.runtime.specs.Publication.{Sees};

    ghost then = { Sees };
}

/// Of which database the state is, told by the writer to a new reader.
pub struct Tell;

impl Split<View> for Tell {
    ghost use Rattle.runtime.specs.Publication.{newly_given};

    ghost left = { λ v. v };

    ghost right = { newly_given };
}

impl Join<View> for Tell {
    ghost use Rattle.runtime.specs.Publication.{newcomer};

    ghost both = { λ v w. w };

    ghost spent = { newcomer };
}

impl Absorb<Step> for Published {
    ghost use Rattle.runtime.specs.Publication.{applied};

    type State = (Tier, RecentOutcomes, LogPrefix);

    ghost state = { λ s. (s.tier, s.recent, s.prefix) };

    ghost applied = { applied };

    fn absorb_first(&mut self, operation: &Step, _other: &Published) -> Result<(), AllocError> {
        let client = operation.submitted.client;
        if !self.tier.has_next() || !self.recent.has_next(client) {
            return Err(AllocError);
        }
        self.tier.pull_entry(operation.mutations.as_slice())?;
        self.recent.add(client, operation.version);
        self.prefix = operation.prefix.again();
        Ok(())
    }
}

/// A reader of the published state.
pub type StateReader = Reader<Published, View, PublishedRule>;

/// The published state, which a reader has entered.
pub type StateReading = Reading<Published, View, PublishedRule>;

/// The writer of the published state.
pub type StateWriter = Writer<Published, Step, View, PublishedRule>;
