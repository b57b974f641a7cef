// What is written for an index by its kind and its state, and to build it. Called by `record_store`
// where a record changes, and by `online_builder`.
ghost use Rattle.std.specs.Prelude.{◌≡◌, ◌++◌, All, IfOk, IsTrue, OnOk, ℕ};
ghost use Rattle.std.specs.Option.{option_copied};
ghost use Rattle.kv_core.specs.Bytes.{end_of_keys, key_lt};
ghost use Rattle.metadata.specs.Cell.{IsCell};
ghost use Rattle.metadata.specs.Record.{key_items};
ghost use Rattle.index_maint.specs.Built.{position_of};
ghost use Rattle.index_maint.specs.Kept.{build_writes, changes_by, kept_writes, part_changes_by};

use crate::maintainer::{CountIndex, Maintainer, SumIndex, ValueIndex};
use kv_core::Mutation;
use metadata::{Cells, IndexDefinition, IndexKind, Record, RecordRef, State};
use std::alloc::{AllocError, Global};
use tuple_codec::pack;

/// The position of the records with these key cells among those of their type.
pub fn position(alloc: Global, key: &Cells) -> Result<Vec<u8>, AllocError>
    ensures position { IfOk result (λ position. (number : ℕ) →
        position.items ≡ position_of (key_items number key.now)) }
    ensures cells { OnOk result (All IsCell key.now) }
{
    let tuple = key.tuple(alloc)?;
    let position = pack(alloc, &tuple)?;
    Ok(position)
}

// Puts what is written where one record of the index's type gives way to another, by the index's
// kind.
fn push_changes_by(
    alloc: Global,
    prefix: &[u8],
    index: &IndexDefinition,
    old: Option<&RecordRef<'_>>,
    new: Option<&RecordRef<'_>>,
    mutations: &mut Vec<Mutation>,
) -> Result<(), AllocError>
    requires { IsTrue (key_lt prefix.now end_of_keys) }
    ensures { OnOk result (mutations.new.items
        ≡ mutations.old.items ++ changes_by index.now.kind prefix.now index.now
        (option_copied old.entry) (option_copied new.entry)) }
{
    match index.kind {
        IndexKind::Value => ValueIndex::push_changes(alloc, prefix, index, old, new, mutations)?,
        IndexKind::Count => CountIndex::push_changes(alloc, prefix, index, old, new, mutations)?,
        IndexKind::Sum => SumIndex::push_changes(alloc, prefix, index, old, new, mutations)?,
    }
    Ok(())
}

// The same for a write-only index: an entry always, a total only where the records' position is built.
fn push_part_changes(
    alloc: Global,
    prefix: &[u8],
    index: &IndexDefinition,
    at_built: bool,
    old: Option<&RecordRef<'_>>,
    new: Option<&RecordRef<'_>>,
    mutations: &mut Vec<Mutation>,
) -> Result<(), AllocError>
    requires { IsTrue (key_lt prefix.now end_of_keys) }
    ensures { OnOk result (mutations.new.items
        ≡ mutations.old.items ++ part_changes_by index.now.kind prefix.now index.now at_built
        (option_copied old.entry) (option_copied new.entry)) }
{
    let is_written = match index.kind {
        IndexKind::Value => true,
        IndexKind::Count => at_built,
        IndexKind::Sum => at_built,
    };
    if is_written {
        push_changes_by(alloc, prefix, index, old, new, mutations)?;
    }
    Ok(())
}

/// Puts what is written for an index in this state where one record of its type gives way to
/// another one with its primary key, comes, or goes. The prefix is a key, as `Bytes::is_key` tells.
///
/// Whether the position of that primary key is built matters only where the index is a write-only
/// COUNT or SUM.
pub fn push_kept_changes(
    alloc: Global,
    prefix: &[u8],
    index: &IndexDefinition,
    state: State,
    at_built: bool,
    old: Option<&RecordRef<'_>>,
    new: Option<&RecordRef<'_>>,
    mutations: &mut Vec<Mutation>,
) -> Result<(), AllocError>
    requires { IsTrue (key_lt prefix.now end_of_keys) }
    ensures { OnOk result (mutations.new.items
        ≡ mutations.old.items ++ kept_writes state prefix.now index.now at_built
        (option_copied old.entry) (option_copied new.entry)) }
{
    match state {
        State::Readable => push_changes_by(alloc, prefix, index, old, new, mutations)?,
        State::WriteOnly => {
            push_part_changes(alloc, prefix, index, at_built, old, new, mutations)?
        }
        State::Disabled => {}
    }
    Ok(())
}

/// Puts what is written to build these records of a write-only index: what each of them defines.
/// The prefix is a key, as `Bytes::is_key` tells.
pub fn push_build(
    alloc: Global,
    prefix: &[u8],
    index: &IndexDefinition,
    records: &[Record],
    mutations: &mut Vec<Mutation>,
) -> Result<(), AllocError>
    requires { IsTrue (key_lt prefix.now end_of_keys) }
    ensures { OnOk result (mutations.new.items
        ≡ mutations.old.items ++ build_writes prefix.now index.now records.now) }
{
    for one in records {
        push_changes_by(alloc, prefix, index, None, Some(&one.lend()), mutations)?;
    }
    Ok(())
}
