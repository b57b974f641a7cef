// The resolver role, for a share of the keys, and what all resolvers together do. Used by `pipeline`.
ghost use Rattle.std.specs.Prelude.{◌≡◌, ℕ, ◌+◌, ◌-◌, ◌<◌, ◌≤◌, ◌^◌, length, slice_index_or};
ghost use Rattle.std.specs.Prelude.{None, IfOk, OnOk, OnErr, All, map, nat_lt};
ghost use Rattle.std.specs.List.{list_all};
ghost use Rattle.cluster_core.specs.Decision.{numbered};
ghost use Rattle.cluster_core.specs.Kept.{ReadsWithin};
ghost use Rattle.cluster_core.specs.Laws.{ReadsBelow};
ghost use Rattle.cluster_core.specs.Progress.{IsResolver, Knows, first_kept, fresh, has_agreed, tells};

use crate::kept::{Cause, Writers};
use crate::part::Part;
use crate::requests::Requests;
use std::alloc::{AllocError, Global};
use std::collections::VecDeque;
use std::marker::Model;

/// A resolver: it answers for each request in version order whether another request to which it
/// agreed wrote what the request read, of the keys that are its own. An answer that was told isn't
/// kept.
#[derive(Debug, Drop)]
pub(crate) struct Resolver {
    part: Part,
    writers: Writers,
    answered: usize,
    causes: VecDeque<Option<Cause>>,
}

impl Model for Resolver {
    ghost use Rattle.std.specs.Prelude.{◌-◌, ◌++◌, ◌≤◌, None, length, replicate};
    ghost use Rattle.cluster_core.specs.Progress.{ResolverState};

    ghost Value = { ResolverState };

    ghost view = { λ a. record {
      owner = a.part;
      writers = a.writers;
      told = a.answered - length a.causes.items;
      causes = replicate (a.answered - length a.causes.items) None ++ a.causes.items;
    } };

    ghost invariant = { λ a. length a.causes.items ≤ a.answered };
}

impl Resolver {
    /// A resolver of these keys that has answered for no request.
    pub(crate) fn new(alloc: Global, part: Part) -> Resolver
        ensures { result ≡ fresh part }
    {
        Resolver {
            part,
            writers: Writers::new(alloc),
            answered: 0,
            causes: VecDeque::new(alloc),
        }
    }

    /// The number of requests for which it has answered.
    pub(crate) fn answered(&self) -> usize
        ensures { result ≡ length self.now.causes }
    {
        self.answered
    }

    /// Of how many of these requests, the last ones, it may keep ranges.
    pub(crate) fn depth(&self) -> usize
        ensures { result ≡ length self.now.causes - self.now.writers.dropped }
    {
        self.answered.saturating_sub(self.writers.dropped())
    }

    /// Whether it has agreed to the request at a place.
    pub(crate) fn has_agreed(&self, place: usize) -> bool
        ensures { result ≡ has_agreed place self.now }
    {
        let told = self.answered - self.causes.len();
        if place < told {
            return true;
        }
        match self.causes.get(place - told) {
            Some(cause) => cause.is_none(),
            None => false,
        }
    }

    /// Answers for the next request, unless memory runs out, which leaves the answers as they were
    /// and what is kept of the requests standing for the same.
    pub(crate) fn answer_next(
        &mut self,
        start: u64,
        window: u64,
        requests: &Requests,
    ) -> Result<(), AllocError>
        requires inside { length self.old.causes < length requests.now.all }
        requires kept { requests.now.forgotten ≤ length self.old.causes - window }
        requires fits { start + length requests.now.all < 2 ^ 64 }
        requires below { ReadsBelow (numbered start requests.now.all) }
        requires recent { ReadsWithin window (numbered start requests.now.all) }
        requires knows { Knows window start requests.now.all self.old }
        ensures owner { self.new.owner ≡ self.old.owner }
        ensures counted { OnOk result (length self.new.causes ≡ length self.old.causes + 1) }
        ensures unchanged { OnErr result (self.new.causes ≡ self.old.causes) }
        ensures kept { (reported : ℕ) → IsResolver window start requests.now.all reported self.old →
            IsResolver window start requests.now.all reported self.new }
    {
        self.causes.reserve(1)?;
        let place = self.answered;
        let cause = self
            .writers
            .answer(&self.part, start, window, requests, place)?;
        self.causes.push_back_reserved(cause);
        self.answered = place + 1;
        Ok(())
    }

    /// Gives away the next answer that wasn't told, the cause against a request if there is one,
    /// and keeps it no longer.
    pub(crate) fn take_cause(&mut self) -> Option<Cause>
        requires { self.old.told < length self.old.causes }
        ensures cause { result ≡ slice_index_or self.old.causes self.old.told None }
        ensures taken { self.new ≡ tells self.old }
    {
        match self.causes.pop_front() {
            Some(cause) => cause,
            None => None,
        }
    }
}

/// A resolver for each part of the keys.
pub(crate) fn resolvers_of(alloc: Global, parts: Vec<Part>) -> Result<Vec<Resolver>, AllocError>
    ensures { IfOk result (λ resolvers. resolvers.items ≡ map fresh parts.items) }
{
    parts
        .into_iter()
        .map(|part| Resolver::new(alloc, part))
        .collect(alloc)
}

/// Whether every resolver has answered for the request at a place.
pub(crate) fn all_answered(resolvers: &[Resolver], place: usize) -> bool
    ensures { result ≡ list_all (λ resolver. nat_lt place (length resolver.causes)) resolvers.now }
{
    resolvers.iter().all(|resolver| place < resolver.answered())
}

/// Whether every resolver has agreed to the request at a place.
pub(crate) fn all_agree(resolvers: &[Resolver], place: usize) -> bool
    ensures { result ≡ list_all (has_agreed place) resolvers.now }
{
    resolvers.iter().all(|resolver| resolver.has_agreed(place))
}

/// Takes the answers for the next request from the resolvers, which have told those before it, and
/// gives the first cause among them.
pub(crate) fn take_cause(resolvers: &mut [Resolver]) -> Option<Cause>
    requires { All (λ resolver. resolver.told < length resolver.causes) resolvers.old }
    ensures cause { (place : ℕ) → All (λ resolver. resolver.told ≡ place) resolvers.old →
        result ≡ first_kept place resolvers.old }
    ensures taken { resolvers.new ≡ map tells resolvers.old }
{
    let Some((resolver, others)) = resolvers.split_first_mut() else {
        return None;
    };
    let first = resolver.take_cause();
    let later = take_cause(others);
    if first.is_some() { first } else { later }
}
