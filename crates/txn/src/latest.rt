// The last mutation of each key that a transaction writes, for read-your-writes. Used by
// `transaction`.
ghost use Rattle.std.specs.Prelude.{◌≡◌, ◌+◌, ◌<◌, ◌^◌, List, [], ◌++◌, ◌∷◌};
ghost use Rattle.std.specs.Prelude.{OnOk, OnErr, IfOk, IfSome};
ghost use Rattle.kv_core.specs.declared.change.Mutation.{Mutation as Change};
ghost use Rattle.txn.specs.Latest.{IsLast, Notes, NotesFirst, WritesJust};

use kv_core::{Bytes, Mutation};
use std::alloc::{AllocError, Global};
use std::collections::HashMap;

/// How many mutations are gone through one by one before they are noted.
const FEW: usize = 24;

/// What is found of the last mutation of a key.
#[derive(Clone, Copy)]
pub(crate) enum Last<'a> {
    /// It is this one, which writes no other key.
    Is(&'a Mutation),
    /// No mutation writes the key.
    Missing,
    /// A range that isn't a key's point is cleared, so the key isn't looked for any further.
    Unknown,
}

/// Where in a transaction's list of mutations the last one of each key stands, by the key's hash.
///
/// Mutations are noted when a read needs them, and not before there are many. Once a range is
/// cleared that isn't a key's point the places say nothing any more.
#[derive(Debug, Drop)]
pub(crate) struct Latest {
    places: HashMap<Bytes, usize>,
    noted: usize,
    is_cut: bool,
}

/// The key that a mutation writes, unless it clears a range that isn't a key's point.
fn own_key(mutation: &Mutation) -> Option<&Bytes>
    ensures { IfSome result (λ key. WritesJust mutation.now key.now) }
{
    match mutation {
        Mutation::Set { key, .. } => Some(key),
        Mutation::Add { key, .. } => Some(key),
        Mutation::CompareAndClear { key, .. } => Some(key),
        Mutation::ClearRange(range) => {
            if range.is_point() {
                Some(range.begin())
            } else {
                None
            }
        }
    }
}

/// The last mutation of a key, looked for from the end of the list.
fn last_among<'a>(mutations: &'a [Mutation], key: &Bytes) -> Last<'a>
    ensures { IsLast result mutations.now key.now }
{
    let mut rest = mutations;
    while let Some((last, front)) = rest.split_last() {
        let Some(own) = own_key(last) else {
            return Last::Unknown;
        };
        if own.compare(key).is_eq() {
            return Last::Is(last);
        }
        rest = front;
    }
    Last::Missing
}

impl Latest {
    /// What is noted of no mutation, which takes no memory.
    pub(crate) fn new(alloc: Global) -> Latest
        ensures { Notes result [] }
    {
        Latest {
            places: HashMap::new(alloc),
            noted: 0,
            is_cut: false,
        }
    }

    /// Notes one more mutation, at the end of those that are noted. Where memory runs out all is as
    /// it was.
    fn note(&mut self, mutation: &Mutation) -> Result<(), AllocError>
        requires { self.old.noted + 1 < 2 ^ 64 }
        ensures ok { OnOk result ((mutations : List Change) → Notes self.old mutations →
            Notes self.new (mutations ++ mutation.now ∷ [])) }
        ensures err { OnErr result ((mutations : List Change) → Notes self.old mutations →
            Notes self.new mutations) }
    {
        let Some(key) = own_key(mutation) else {
            self.is_cut = true;
            self.noted += 1;
            return Ok(());
        };
        self.places.insert(key.copy()?, self.noted)?;
        self.noted += 1;
        Ok(())
    }

    /// Notes the mutations that aren't noted yet. Where memory runs out some of them are.
    fn catch_up(&mut self, mutations: &[Mutation]) -> Result<(), AllocError>
        requires { NotesFirst self.old mutations.now }
        ensures ok { OnOk result (Notes self.new mutations.now) }
        ensures noted { NotesFirst self.new mutations.now }
    {
        while self.noted < mutations.len() {
            self.note(&mutations[self.noted])?;
        }
        Ok(())
    }

    /// The last mutation of a key, where all of these are noted.
    fn last<'a>(&self, mutations: &'a [Mutation], key: &Bytes) -> Last<'a>
        requires { Notes self.now mutations.now }
        ensures { IsLast result mutations.now key.now }
    {
        if self.is_cut {
            return Last::Unknown;
        }
        match self.places.get(key) {
            Some(place) => Last::Is(&mutations[*place]),
            None => Last::Missing,
        }
    }

    /// The last mutation of a key. Where the mutations are many, all of them are noted first.
    pub(crate) fn of<'a>(
        &mut self,
        mutations: &'a [Mutation],
        key: &Bytes,
    ) -> Result<Last<'a>, AllocError>
        requires { NotesFirst self.old mutations.now }
        ensures last { IfOk result (λ last. IsLast last mutations.now key.now) }
        ensures noted { NotesFirst self.new mutations.now }
    {
        if mutations.len() <= FEW {
            return Ok(last_among(mutations, key));
        }
        self.catch_up(mutations)?;
        Ok(self.last(mutations, key))
    }
}
