// The outcomes of each client's last submissions. Part of what `published` has, read by
// `published_reads`.
ghost use Rattle.std.specs.Prelude.{◌≡◌, ◌+◌, ◌*◌, ◌%◌, ◌<◌, ◌≤◌, ◌^◌, length, slice_index, IfOk};
ghost use Rattle.std.specs.Bool.{OnTrue};
ghost use Rattle.runtime.specs.Submissions.{nothing_kept, read_status, slot_of, with_outcome};

use crate::submission_status::SubmissionStatus;
use std::alloc::{AllocError, Global};
use std::marker::Model;

/// So many outcomes of each client are kept: those of its last submissions.
pub const KEPT_OUTCOMES: u64 = 128;

/// What became of the last submissions of each client. It takes no memory once it is made.
pub struct RecentOutcomes {
    counts: Vec<u64>,
    versions: Vec<u64>,
}

// Written out, so that no proof of a caller has to take its parts apart where one is dropped.
impl Drop for RecentOutcomes {
    fn drop(self) {
        let RecentOutcomes { counts, versions } = self;
        drop(counts);
        drop(versions);
    }
}

impl Model for RecentOutcomes {
    ghost use Rattle.std.specs.Prelude.{◌≡◌, ◌*◌, ◌<◌, ◌^◌, length};
    ghost use Rattle.runtime.specs.Submissions.{Recent, recent};
    ghost use Rattle.runtime.specs.declared.recent_outcomes.TheConstants.{KEPT_OUTCOMES};

    ghost Value = { Recent };

    ghost view = { λ r. recent r.counts.items r.versions.items };

    ghost invariant = { λ r.
        (length r.versions.items ≡ length r.counts.items * KEPT_OUTCOMES)
        × (length r.counts.items < 2 ^ 32) };
}

/// Where the version of a client's submission is kept, before which it had so many.
fn slot(client: u64, before: u64) -> usize
    requires { client < 2 ^ 32 }
    ensures { result ≡ slot_of client before }
{
    (client * KEPT_OUTCOMES + before % KEPT_OUTCOMES) as usize
}

impl RecentOutcomes {
    /// Nothing of so many clients.
    pub fn new(alloc: Global, clients: usize) -> Result<RecentOutcomes, AllocError>
        requires { clients < 2 ^ 32 }
        ensures { IfOk result (λ made. made ≡ nothing_kept clients) }
    {
        let counts = Vec::from_elem(alloc, 0u64, clients)?;
        let versions = Vec::from_elem(alloc, 0u64, clients * KEPT_OUTCOMES as usize)?;
        Ok(RecentOutcomes { counts, versions })
    }

    /// Whether there is such a client, with a submission left.
    pub fn has_next(&self, client: u64) -> bool
        ensures { OnTrue result ((client < length self.now.counts)
            × (slice_index self.now.counts client + 1 < 2 ^ 64)) }
    {
        match self.counts.get(client as usize) {
            Some(count) => *count < u64::MAX,
            None => false,
        }
    }

    /// Adds the outcome of a client's next submission: its version, or 0 where it is refused.
    pub fn add(&mut self, client: u64, version: u64)
        requires { (client < length self.old.counts)
            × (slice_index self.old.counts client + 1 < 2 ^ 64) }
        ensures { self.new ≡ with_outcome self.old client version }
    {
        let before = self.counts[client as usize];
        self.versions[slot(client, before)] = version;
        self.counts[client as usize] = before + 1;
    }

    /// What became of a client's submission of this number.
    pub fn status(&self, client: u64, number: u64) -> SubmissionStatus
        requires { (client < length self.now.counts) × (1 ≤ number) }
        ensures { result ≡ read_status self.now client number }
    {
        let count = self.counts[client as usize];
        if count < number {
            return SubmissionStatus::Pending;
        }
        if KEPT_OUTCOMES <= count - number {
            return SubmissionStatus::Forgotten;
        }
        match self.versions[slot(client, number - 1)] {
            0 => SubmissionStatus::Refused,
            version => SubmissionStatus::Committed { version },
        }
    }
}
