// Index maintenance by kind, behind one trait. Called by `kept`.
ghost use Rattle.std.specs.Prelude.{◌≡◌, ◌++◌, [], IfOk, IsTrue, OnOk, Some};
ghost use Rattle.std.specs.Option.{option_copied};
ghost use Rattle.kv_core.specs.Bytes.{end_of_keys, key_lt};
ghost use Rattle.kv_core.specs.Range.{point};
ghost use Rattle.kv_core.specs.declared.change.Mutation.TheVariants.{ClearRange, Set};
ghost use Rattle.index_maint.specs.Changes.{HasEntries, value_changes};
ghost use Rattle.index_maint.specs.Entries.{HasItems, entry_of};
ghost use Rattle.index_maint.specs.Layout.{entry_key};
ghost use Rattle.index_maint.specs.Laws.{Follows, HasWithin, IgnoresOthers, Keeping};
ghost use Rattle.index_maint.specs.Laws.{OnlyChanges, WritesWithin, Writing};
ghost use Rattle.index_maint.specs.Totals.{HasCounts, HasSums, count_changes, sum_changes};

use crate::layout::entries_prefix;
use crate::total::{count_part, push_parts, sum_part};
use kv_core::{Bytes, KeyRange, Mutation};
use metadata::{IndexDefinition, RecordRef};
use std::alloc::{AllocError, Global};

/// How an index of one kind is kept, under a store's prefix.
pub trait Maintainer {
    /// What it is that a map has the index over these records.
    ghost Has: { Keeping };

    /// What is written where a record of the index's type gives way to another one with its
    /// primary key, comes, or goes.
    ghost writes: { Writing };

    /// Does nothing: its clauses are what holds of what is had and written.
    ///
    /// Where the index was had over the records, it is had over those with the new record once
    /// that is written, and only what changes is written. A record of another type needs no writes.
    /// The writes leave each key that doesn't begin with the index's prefix as it was, and what a
    /// map has at such keys doesn't matter.
    fn laws()
        ensures follows { Follows Has writes }
        ensures only_changes { OnlyChanges Has writes }
        ensures ignores_others { IgnoresOthers Has }
        ensures writes_within { WritesWithin writes }
        ensures has_within { HasWithin Has };

    /// Puts what is to be written behind these mutations. The prefix is a key, as `Bytes::is_key`
    /// tells.
    fn push_changes(
        alloc: Global,
        prefix: &[u8],
        index: &IndexDefinition,
        old: Option<&RecordRef<'_>>,
        new: Option<&RecordRef<'_>>,
        mutations: &mut Vec<Mutation>,
    ) -> Result<(), AllocError>
        requires { IsTrue (key_lt prefix.now end_of_keys) }
        ensures { OnOk result (mutations.new.items
            ≡ mutations.old.items ++ writes prefix.now index.now (option_copied old.entry) (option_copied new.entry)) };

    /// What is to be written, as a list of its own.
    final fn changes(
        alloc: Global,
        prefix: &[u8],
        index: &IndexDefinition,
        old: Option<&RecordRef<'_>>,
        new: Option<&RecordRef<'_>>,
    ) -> Result<Vec<Mutation>, AllocError>
        requires { IsTrue (key_lt prefix.now end_of_keys) }
        ensures { IfOk result (λ mutations.
            mutations.items ≡ writes prefix.now index.now (option_copied old.entry) (option_copied new.entry)) }
    {
        let mut mutations = Vec::new(alloc);
        Self::push_changes(alloc, prefix, index, old, new, &mut mutations)?;
        Ok(mutations)
    }
}

/// Keeps VALUE indexes: an entry for each record of the index's type.
#[derive(Drop)]
pub struct ValueIndex {}

// The key of the entry of a record.
fn entry_key(
    alloc: Global,
    prefix: &[u8],
    index: &IndexDefinition,
    one: &RecordRef<'_>,
) -> Result<Bytes, AllocError>
    requires { IsTrue (key_lt prefix.now end_of_keys) }
    ensures key { IfOk result (λ key.
        key ≡ entry_key prefix.now index.now.number (entry_of index.now one.now)) }
    ensures below { IfOk result (λ key. IsTrue (key_lt key end_of_keys)) }
    ensures items { OnOk result (HasItems (entry_of index.now one.now)) }
{
    let mut key = entries_prefix(alloc, prefix, index.number)?;
    one.cells().push_pack_at(&index.columns, &mut key)?;
    one.push_primary_key(&mut key)?;
    Ok(Bytes::new(key))
}

// What takes the entry with this key out.
fn clear(alloc: Global, key: &Bytes) -> Result<Mutation, AllocError>
    requires { IsTrue (key_lt key.now end_of_keys) }
    ensures { IfOk result (λ mutation. mutation ≡ ClearRange (point key.now)) }
{
    let range = KeyRange::point(alloc, key)?;
    Ok(Mutation::ClearRange(range))
}

// What puts the entry with this key in.
fn set(alloc: Global, key: Bytes) -> Mutation
    ensures { result ≡ Set key [] }
{
    Mutation::Set {
        key,
        value: Bytes::new(Vec::new(alloc)),
    }
}

// What is to be written where the entry of one record gives way to that of another one.
fn push_replacement(
    alloc: Global,
    prefix: &[u8],
    index: &IndexDefinition,
    old: &RecordRef<'_>,
    new: &RecordRef<'_>,
    mutations: &mut Vec<Mutation>,
) -> Result<(), AllocError>
    requires { IsTrue (key_lt prefix.now end_of_keys) }
    ensures { OnOk result (mutations.new.items
        ≡ mutations.old.items ++ value_changes prefix.now index.now (Some old.now) (Some new.now)) }
{
    let gone = entry_key(alloc, prefix, index, old)?;
    let come = entry_key(alloc, prefix, index, new)?;
    if gone.compare(&come).is_eq() {
        return Ok(());
    }
    mutations.push(clear(alloc, &gone)?)?;
    mutations.push(set(alloc, come))?;
    Ok(())
}

impl Maintainer for ValueIndex {
    ghost Has = { HasEntries };

    ghost writes = { value_changes };

    fn laws() {}

    fn push_changes(
        alloc: Global,
        prefix: &[u8],
        index: &IndexDefinition,
        old: Option<&RecordRef<'_>>,
        new: Option<&RecordRef<'_>>,
        mutations: &mut Vec<Mutation>,
    ) -> Result<(), AllocError> {
        match (old, new) {
            (Some(old), Some(new)) => push_replacement(alloc, prefix, index, old, new, mutations)?,
            (Some(old), None) => {
                let key = entry_key(alloc, prefix, index, old)?;
                mutations.push(clear(alloc, &key)?)?;
            }
            (None, Some(new)) => {
                let key = entry_key(alloc, prefix, index, new)?;
                mutations.push(set(alloc, key))?;
            }
            (None, None) => {}
        }
        Ok(())
    }
}

/// Keeps COUNT indexes: for each group the number of its records, which is taken out where it comes
/// back to 0, if the index is defined so.
#[derive(Drop)]
pub struct CountIndex {}

impl Maintainer for CountIndex {
    ghost Has = { HasCounts };

    ghost writes = { count_changes };

    fn laws() {}

    fn push_changes(
        alloc: Global,
        prefix: &[u8],
        index: &IndexDefinition,
        old: Option<&RecordRef<'_>>,
        new: Option<&RecordRef<'_>>,
        mutations: &mut Vec<Mutation>,
    ) -> Result<(), AllocError> {
        let old = count_part(alloc, index, old)?;
        let new = count_part(alloc, index, new)?;
        push_parts(
            alloc,
            prefix,
            index.number,
            index.clear_when_zero,
            old,
            new,
            mutations,
        )
    }
}

/// Keeps SUM indexes: for each group the sum of the summed field over its records, null as 0.
#[derive(Drop)]
pub struct SumIndex {}

impl Maintainer for SumIndex {
    ghost Has = { HasSums };

    ghost writes = { sum_changes };

    fn laws() {}

    fn push_changes(
        alloc: Global,
        prefix: &[u8],
        index: &IndexDefinition,
        old: Option<&RecordRef<'_>>,
        new: Option<&RecordRef<'_>>,
        mutations: &mut Vec<Mutation>,
    ) -> Result<(), AllocError> {
        let old = sum_part(alloc, index, old)?;
        let new = sum_part(alloc, index, new)?;
        push_parts(alloc, prefix, index.number, false, old, new, mutations)
    }
}
