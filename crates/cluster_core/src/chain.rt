// The version chain of one key, for multi-version reads. Used by `chains`.
ghost use Rattle.std.specs.Prelude.{◌≡◌, ◌∷◌, [], MatchOption, OnOk, OnErr, if◌then◌else◌};
ghost use Rattle.std.specs.Prelude.{length, slice_get, take};
ghost use Rattle.std.specs.Option.{option_copied};
ghost use Rattle.cluster_core.specs.Chains.{HasLinkRoom, IsFalling, later, links_of, needed};
ghost use Rattle.cluster_core.specs.Chains.{newest_in, older_in, put, value_at, without};

use kv_core::Bytes;
use std::alloc::{AllocError, Global};
use std::collections::VecDeque;
use std::mem;

/// The value that a key has from a version on, or that it has none.
#[derive(Debug, Drop)]
pub(crate) struct Link {
    version: u64,
    value: Option<Bytes>,
}

/// The newest value of a key, or that it has none, and the older links, the newest of them first.
///
/// Most keys have no older ones. Then the value stands in the chain itself, which has nothing
/// beside it.
#[derive(Debug, Drop)]
pub(crate) enum Newest {
    /// This value, and no older links.
    Value(Bytes),
    /// No value, and no older links.
    Absent,
    /// Older links too.
    Linked(Box<Linked>),
}

/// The newest value of a key that has room for older links.
#[derive(Debug, Drop)]
pub(crate) struct Linked {
    value: Option<Bytes>,
    older: VecDeque<Link>,
}

/// What a key has had, version by version, the newest first.
#[derive(Debug, Drop)]
pub(crate) struct Chain {
    version: u64,
    newest: Newest,
}

/// How many of the links are later than the version.
fn later_than(links: &VecDeque<Link>, version: u64) -> usize
    requires { IsFalling links.now.items }
    ensures { result ≡ later version links.now.items }
{
    links.partition_point(|link| version < link.version)
}

/// The newest of the links that isn't later than the version.
fn link_upto(links: &VecDeque<Link>, version: u64) -> Option<&Link>
    requires { IsFalling links.now.items }
    ensures { option_copied result ≡ slice_get links.now.items (later version links.now.items) }
{
    links.get(later_than(links, version))
}

/// The value of the links at a version, or None where there is none.
fn value_upto(links: &VecDeque<Link>, version: u64) -> Option<&Bytes>
    requires { IsFalling links.now.items }
    ensures { option_copied result ≡ value_at version links.now.items }
{
    match link_upto(links, version) {
        Some(link) => link.value.as_ref(),
        None => None,
    }
}

/// How many of the links tell the values from the floor on.
fn needed_count(links: &VecDeque<Link>, floor: u64) -> usize
    requires { IsFalling links.now.items }
    ensures { take result links.now.items ≡ needed floor links.now.items }
{
    let count = later_than(links, floor);
    match link_upto(links, floor) {
        Some(link) => {
            if link.value.is_some() {
                count + 1
            } else {
                count
            }
        }
        None => count,
    }
}

impl Newest {
    /// A value, or that there is none, without older links.
    fn alone(value: Option<Bytes>) -> Newest
        ensures value { newest_in result ≡ value }
        ensures older { older_in result ≡ [] }
    {
        match value {
            Some(value) => Newest::Value(value),
            None => Newest::Absent,
        }
    }

    /// The newest value.
    fn value(&self) -> Option<&Bytes>
        ensures { option_copied result ≡ newest_in self.now }
    {
        match self {
            Newest::Value(value) => Some(value),
            Newest::Absent => None,
            Newest::Linked(linked) => linked.value.as_ref(),
        }
    }

    /// The newest value, whose older links are dropped.
    fn into_value(self) -> Option<Bytes>
        ensures { result ≡ newest_in self }
    {
        match self {
            Newest::Value(value) => Some(value),
            Newest::Absent => None,
            Newest::Linked(linked) => {
                let Linked { value, older } = Box::into_inner(linked);
                drop(older);
                value
            }
        }
    }

    /// How many older links there are.
    fn older_count(&self) -> usize
        ensures { result ≡ length (older_in self.now) }
    {
        match self {
            Newest::Value(_) | Newest::Absent => 0,
            Newest::Linked(linked) => linked.older.len(),
        }
    }

    /// The value of the older links at a version, or None where there is none.
    fn older_value(&self, version: u64) -> Option<&Bytes>
        requires { IsFalling (older_in self.now) }
        ensures { option_copied result ≡ value_at version (older_in self.now) }
    {
        match self {
            Newest::Value(_) | Newest::Absent => None,
            Newest::Linked(linked) => value_upto(&linked.older, version),
        }
    }

    /// How many of the older links tell the values from the floor on.
    fn older_needed(&self, floor: u64) -> usize
        requires { IsFalling (older_in self.now) }
        ensures { take result (older_in self.now) ≡ needed floor (older_in self.now) }
    {
        match self {
            Newest::Value(_) | Newest::Absent => 0,
            Newest::Linked(linked) => needed_count(&linked.older, floor),
        }
    }

    /// Puts a value, or that there is none, in the place of the newest one.
    fn set(&mut self, value: Option<Bytes>)
        ensures value { newest_in self.new ≡ value }
        ensures older { older_in self.new ≡ older_in self.old }
    {
        match self {
            Newest::Linked(linked) => linked.value = value,
            Newest::Value(_) | Newest::Absent => *self = Newest::alone(value),
        }
    }

    /// Keeps so many of the older links, and no memory where it keeps none.
    fn shorten(&mut self, count: usize)
        ensures value { newest_in self.new ≡ newest_in self.old }
        ensures older { older_in self.new ≡ take count (older_in self.old) }
    {
        if count == 0 {
            let value = mem::replace(self, Newest::Absent).into_value();
            *self = Newest::alone(value);
        } else if let Newest::Linked(linked) = self {
            linked.older.truncate(count);
        }
    }

    /// Makes room for an older link. Where memory runs out nothing has changed.
    fn make_room(&mut self, alloc: Global) -> Result<(), AllocError>
        ensures value { newest_in self.new ≡ newest_in self.old }
        ensures older { older_in self.new ≡ older_in self.old }
        ensures room { OnOk result (HasLinkRoom self.new) }
    {
        if let Newest::Linked(linked) = self {
            return linked.older.reserve(1);
        }
        let older = VecDeque::with_capacity(alloc, 1)?;
        let mut linked = Box::new(alloc, Linked { value: None, older })?;
        linked.value = mem::replace(self, Newest::Absent).into_value();
        *self = Newest::Linked(linked);
        Ok(())
    }

    /// Puts a value, or that there is none, before the newest one, which is an older link of this
    /// version then.
    fn push(&mut self, version: u64, value: Option<Bytes>)
        requires { HasLinkRoom self.old }
        ensures value { newest_in self.new ≡ value }
        ensures older { older_in self.new
            ≡ record { version = version; value = newest_in self.old } ∷ older_in self.old }
    {
        if let Newest::Linked(linked) = self {
            let value = mem::replace(&mut linked.value, value);
            linked.older.push_front_reserved(Link { version, value });
        }
    }

    /// Puts the newest of the older links in the place of the newest value, and hands its version
    /// out.
    fn pop(&mut self) -> Option<u64>
        ensures { MatchOption result (older_in self.old ≡ []) (λ version. older_in self.old
            ≡ record { version = version; value = newest_in self.new } ∷ older_in self.new) }
    {
        let Newest::Linked(linked) = self else {
            return None;
        };
        match linked.older.pop_front() {
            Some(Link { version, value }) => {
                linked.value = value;
                Some(version)
            }
            None => None,
        }
    }
}

impl Chain {
    /// The chain of one link.
    pub(crate) fn new(version: u64, value: Option<Bytes>) -> Chain
        ensures { links_of result ≡ record { version = version; value = value } ∷ [] }
    {
        Chain {
            version,
            newest: Newest::alone(value),
        }
    }

    /// How many links there are.
    pub(crate) fn len(&self) -> usize
        ensures { result ≡ length (links_of self.now) }
    {
        self.newest.older_count() + 1
    }

    /// The value at a version, or None where there is none.
    pub(crate) fn value_at(&self, version: u64) -> Option<&Bytes>
        requires { IsFalling (links_of self.now) }
        ensures { option_copied result ≡ value_at version (links_of self.now) }
    {
        if self.version <= version {
            self.newest.value()
        } else {
            self.newest.older_value(version)
        }
    }

    /// Puts a value, or that there is none, from this version on, in the place of what the version
    /// had before. Where memory runs out the chain stays as it was.
    pub(crate) fn put(
        &mut self,
        alloc: Global,
        version: u64,
        value: Option<Bytes>,
    ) -> Result<(), AllocError>
        ensures ok { OnOk result (links_of self.new ≡ put version value (links_of self.old)) }
        ensures err { OnErr result (links_of self.new ≡ links_of self.old) }
    {
        if self.version == version {
            self.newest.set(value);
            return Ok(());
        }
        self.newest.make_room(alloc)?;
        self.newest.push(self.version, value);
        self.version = version;
        Ok(())
    }

    /// Takes back what was put at this version, if it is the newest, and tells whether a link is
    /// left. Without one the chain is of no more use.
    pub(crate) fn take_back(&mut self, version: u64) -> bool
        ensures { without version (links_of self.old) ≡ (if result then links_of self.new else []) }
    {
        if self.version != version {
            return true;
        }
        match self.newest.pop() {
            Some(older) => {
                self.version = older;
                true
            }
            None => false,
        }
    }

    /// Drops the links that no version from the floor on needs, and tells whether one is left.
    /// Without one the chain is of no more use.
    pub(crate) fn settle(&mut self, floor: u64) -> bool
        requires { IsFalling (links_of self.old) }
        ensures { needed floor (links_of self.old) ≡ (if result then links_of self.new else []) }
    {
        if self.version <= floor {
            self.newest.shorten(0);
            return self.newest.value().is_some();
        }
        let count = self.newest.older_needed(floor);
        self.newest.shorten(count);
        true
    }
}
