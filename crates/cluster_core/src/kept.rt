// The conflict check of a resolver, over what it keeps of earlier requests. Used by `resolver`; a
// cause also by `pipeline`, which reports it.
ghost use Rattle.std.specs.Prelude.{◌≡◌, ◌+◌, ◌-◌, ◌<◌, ◌≤◌, ◌^◌, List, ℕ, IsTrue, IfOk};
ghost use Rattle.std.specs.Prelude.{OnOk, OnErr, false, length, slice_get, Some};
ghost use Rattle.kv_core.specs.declared.change.CommitRequest.{CommitRequest};
ghost use Rattle.cluster_core.specs.History.{Entry};
ghost use Rattle.cluster_core.specs.Decision.{numbered, Owned};
ghost use Rattle.cluster_core.specs.Kept.{FindsNewest, KeepsRecent, KnowsWriters};
ghost use Rattle.cluster_core.specs.Kept.{least_of, MayAsk, no_writers, ReadsWithin, rise_between};
ghost use Rattle.cluster_core.specs.Kept.{since, StandsAsBefore, waits_too};
ghost use Rattle.cluster_core.specs.Laws.{ReadsBelow};
ghost use Rattle.cluster_core.specs.Progress.{answer_of};

use crate::part::Part;
use crate::points::Points;
use crate::requests::Requests;
use crate::segments::{Segments, put_each};
use kv_core::KeyRange;
use std::alloc::{AllocError, Global};
use std::marker::Model;

/// Why a request is refused: a range that it read, and the greatest version that wrote there since.
#[derive(Debug, Drop)]
pub(crate) struct Cause {
    pub seen: u64,
    pub range: KeyRange,
}

impl Model for Cause {
    ghost use Rattle.cluster_core.specs.Decision.{Cause as Reason};

    ghost Value = { Reason };

    ghost view = { λ a. record { seen = a.seen; range = a.range } };
}

/// The newest place, where it isn't before the least one.
fn since(newest: Option<usize>, least: usize) -> Option<usize>
    ensures { result ≡ since least newest }
{
    match newest {
        Some(place) => if place < least { None } else { Some(place) },
        None => None,
    }
}

/// What an owner keeps of the requests to which it agreed, as far back as the window.
///
/// It is kept twice: by hash what requests wrote by single keys, and in order all that they wrote.
/// A request is noted by hash when a later one asks that has read before it, and put in order when
/// that one reads a range of which points don't tell. Until then its place waits.
#[derive(Debug, Drop)]
pub(crate) struct Writers {
    points: Points,
    noted: usize,
    unnoted: Vec<usize>,
    segments: Segments,
    ordered: usize,
    pending: Vec<usize>,
    dropped: usize,
}

impl Model for Writers {
    ghost use Rattle.cluster_core.specs.Kept.{WritersState};

    ghost Value = { WritersState };

    ghost view = { λ a. record {
      ranges = record { segments = a.segments; ordered = a.ordered; pending = a.pending.items };
      points = record {
        segments = a.points.segments;
        ordered = a.noted;
        pending = a.unnoted.items;
      };
      whole_from = a.points.whole_from;
      dropped = a.dropped;
    } };
}

impl Writers {
    /// Nothing kept, which takes no memory.
    pub fn new(alloc: Global) -> Writers
        ensures { result ≡ no_writers }
    {
        Writers {
            points: Points::new(alloc),
            noted: 0,
            unnoted: Vec::new(alloc),
            segments: Segments::new(alloc),
            ordered: 0,
            pending: Vec::new(alloc),
            dropped: 0,
        }
    }

    /// The place from which on it keeps what was written.
    pub(crate) fn dropped(&self) -> usize
        ensures { result ≡ self.now.dropped }
    {
        self.dropped
    }

    /// Drops what stands under a place before this one, if a window has passed since the last time.
    /// So each entry is looked at no more than twice, and is gone after two windows.
    fn forget(&mut self, least: usize, window: usize)
        ensures kept { (owner : Owned) (start : ℕ) (requests : List CommitRequest) (upto : ℕ) →
            KnowsWriters owner start requests least upto self.old →
            KnowsWriters owner start requests least upto self.new }
        ensures recent { (upto next : ℕ) → least ≡ upto - window → upto ≤ next → next ≤ upto + 1 →
            KeepsRecent window upto self.old → KeepsRecent window next self.new }
    {
        if least.saturating_sub(self.dropped) < window {
            return;
        }
        self.points.drop_before(least);
        self.unnoted.retain(|place| *place >= least);
        self.segments.drop_before(least);
        self.pending.retain(|place| *place >= least);
        self.dropped = least;
    }

    /// Notes by hash what waits, of the requests before a place, from the floor on: nothing where
    /// points can't be all that was written from the least place on.
    fn note(
        &mut self,
        part: &Part,
        requests: &Requests,
        floor: usize,
        upto: usize,
        least: usize,
    ) -> Result<(), AllocError>
        requires asks { MayAsk requests.now floor upto }
        requires in_order { let points = self.old.points in
            IsTrue (rise_between points.ordered upto points.pending) }
        ensures noted { OnOk result (self.new.whole_from ≤ least → self.new.points.ordered ≡ upto) }
        ensures kept { StandsAsBefore part.now requests.now.all floor upto self.old self.new }
    {
        if least < self.points.whole_from() {
            return Ok(());
        }
        self.points
            .note_each(part, requests, floor, self.unnoted.as_slice())?;
        self.unnoted.clear();
        self.noted = upto;
        Ok(())
    }

    /// Puts in order what waits, of the requests before a place, from the least one on of which
    /// anybody asks.
    fn put_in_order(
        &mut self,
        part: &Part,
        requests: &Requests,
        least: usize,
        upto: usize,
    ) -> Result<(), AllocError>
        requires asks { MayAsk requests.now least upto }
        requires in_order { let ranges = self.old.ranges in
            IsTrue (rise_between ranges.ordered upto ranges.pending) }
        ensures ordered { OnOk result (self.new.ranges.ordered ≡ upto) }
        ensures kept { StandsAsBefore part.now requests.now.all least upto self.old self.new }
        ensures points { self.new.points ≡ self.old.points }
        ensures whole { self.new.whole_from ≡ self.old.whole_from }
    {
        put_each(
            &mut self.segments,
            part,
            requests,
            least,
            self.pending.as_slice(),
        )?;
        self.pending.clear();
        self.ordered = upto;
        Ok(())
    }

    /// Whether a request that is kept may stand at the least place or after it.
    fn may_meet(&self, least: usize) -> bool
        requires { (upto : ℕ) ×
            IsTrue (rise_between self.now.ranges.ordered upto self.now.ranges.pending) }
        ensures { result ≡ false →
            IsTrue (rise_between self.now.ranges.ordered least self.now.ranges.pending) }
    {
        match self.pending.last() {
            Some(place) => least <= *place,
            None => least < self.ordered,
        }
    }

    /// The newest place over the owner's keys of a range, of what was written from the least place
    /// on: by hash where points tell it, and else in order.
    fn newest_in(
        &mut self,
        part: &Part,
        requests: &Requests,
        floor: usize,
        upto: usize,
        range: &KeyRange,
        least: usize,
    ) -> Result<Option<usize>, AllocError>
        requires from { floor ≤ least }
        requires asks { MayAsk requests.now floor upto }
        requires knows { (start : ℕ) ×
            KnowsWriters part.now start requests.now.all least upto self.old }
        requires noted { self.old.whole_from ≤ least → self.old.points.ordered ≡ upto }
        ensures newest { IfOk result (λ newest. (start : ℕ) →
            KnowsWriters part.now start requests.now.all least upto self.old →
            FindsNewest part.now start requests.now.all least upto range.now newest) }
        ensures kept { StandsAsBefore part.now requests.now.all floor upto self.old self.new }
        ensures points { self.new.points ≡ self.old.points }
        ensures whole { self.new.whole_from ≡ self.old.whole_from }
    {
        if self.points.whole_from() <= least
            && let Some(newest) = self.points.newest_in(part, range)
        {
            return Ok(newest);
        }
        self.put_in_order(part, requests, floor, upto)?;
        Ok(
            self.segments
                .newest_between(part.begin_in(range), part.end_in(range)),
        )
    }

    /// The cause against the request at a place by an owner, from what the requests before it wrote
    /// to which the owner agreed; None where the owner agrees to it. Nobody asks of what stands
    /// before the floor.
    fn decide(
        &mut self,
        part: &Part,
        start: u64,
        requests: &Requests,
        floor: usize,
        place: usize,
    ) -> Result<Option<Cause>, AllocError>
        requires kept { requests.now.forgotten ≤ floor }
        requires asks { floor ≤ least_of start requests.now.all place }
        requires before { floor ≤ place }
        requires inside { place < length requests.now.all }
        requires fits { start + length requests.now.all < 2 ^ 64 }
        requires below { ReadsBelow (numbered start requests.now.all) }
        requires knows { let least = least_of start requests.now.all place in
            KnowsWriters part.now start requests.now.all least place self.old }
        ensures cause { let entries = numbered start requests.now.all in
            IfOk result (λ cause. (entry : Entry) → slice_get entries place ≡ Some entry →
            cause ≡ answer_of part.now entries entry) }
        ensures kept { StandsAsBefore part.now requests.now.all floor place self.old self.new }
    {
        let request = requests.at(place);
        let least = request.read_version.saturating_sub(start) as usize;
        if !self.may_meet(least) {
            return Ok(None);
        }
        self.note(part, requests, floor, place, least)?;
        for range in request.reads.as_slice() {
            let newest = self.newest_in(part, requests, floor, place, range, least)?;
            if let Some(newest) = since(newest, least) {
                let seen = start + newest as u64 + 1;
                let range = range.copy()?;
                return Ok(Some(Cause { seen, range }));
            }
        }
        Ok(None)
    }

    /// Has the request at a place wait, to which the owner agrees. Where memory runs out all is as
    /// it was.
    fn wait(&mut self, place: usize) -> Result<(), AllocError>
        ensures ok { OnOk result (self.new ≡ waits_too place self.old) }
        ensures err { OnErr result (self.new ≡ self.old) }
    {
        self.unnoted.reserve(1)?;
        self.pending.push(place)?;
        self.unnoted.push_reserved(place);
        Ok(())
    }

    /// Has an owner answer for the request at a place: the cause against it, or else it is kept.
    /// Where memory runs out, what is kept stands for the same requests as before.
    pub fn answer(
        &mut self,
        part: &Part,
        start: u64,
        window: u64,
        requests: &Requests,
        place: usize,
    ) -> Result<Option<Cause>, AllocError>
        requires kept { requests.now.forgotten ≤ place - window }
        requires inside { place < length requests.now.all }
        requires fits { start + length requests.now.all < 2 ^ 64 }
        requires below { ReadsBelow (numbered start requests.now.all) }
        requires recent { ReadsWithin window (numbered start requests.now.all) }
        requires knows { let least = place - window in
            KnowsWriters part.now start requests.now.all least place self.old }
        ensures cause { let entries = numbered start requests.now.all in
            IfOk result (λ cause. (entry : Entry) → slice_get entries place ≡ Some entry →
            cause ≡ answer_of part.now entries entry) }
        ensures grown { OnOk result
            (KnowsWriters part.now start requests.now.all (place - window) (place + 1) self.new) }
        ensures kept { OnErr result
            (KnowsWriters part.now start requests.now.all (place - window) place self.new) }
        ensures recent_grown { KeepsRecent window place self.old →
            OnOk result (KeepsRecent window (place + 1) self.new) }
        ensures recent_kept { KeepsRecent window place self.old →
            OnErr result (KeepsRecent window place self.new) }
    {
        let floor = place.saturating_sub(window as usize);
        self.forget(floor, window as usize);
        let cause = self.decide(part, start, requests, floor, place)?;
        if cause.is_none() {
            self.wait(place)?;
        }
        Ok(cause)
    }
}
