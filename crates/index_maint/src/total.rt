// What records count in the totals of COUNT and SUM indexes, and what adds it there. Called by
// `maintainer`; the key of a group also by `record_store`, which reads totals.
ghost use Rattle.std.specs.Prelude.{◌≡◌, ◌++◌, All, IfOk, IsTrue, OnOk, Some};
ghost use Rattle.std.specs.Option.{option_copied, option_map};
ghost use Rattle.kv_core.specs.Addition.{bytes_of};
ghost use Rattle.kv_core.specs.Bytes.{end_of_keys, key_lt};
ghost use Rattle.metadata.specs.Cell.{IsCell};
ghost use Rattle.index_maint.specs.Totals.{add_amount, clear_zero, count_share, difference, group_key};
ghost use Rattle.index_maint.specs.Totals.{part_changes, part_of, same_group, sum_share, summed_share, take_amount};

use crate::layout::entries_prefix;
use kv_core::{Bytes, Mutation};
use metadata::{Cell, Cells, IndexDefinition, RecordRef};
use std::alloc::{AllocError, Global};
use std::marker::Model;
use tuple_codec::compare;

/// What a record counts in a total, modulo 2^64, and in which group: the cells of the index's columns.
#[derive(Drop)]
pub(crate) struct Part {
    group: Cells,
    amount: u64,
}

impl Model for Part {
    ghost use Rattle.std.specs.Coded.{codes};
    ghost use Rattle.tuple_codec.specs.ItemCode.{item_code};
    ghost use Rattle.index_maint.specs.Totals.{Part as PartValue};

    ghost Value = { PartValue };

    ghost coded = { Prim.hlevel (codes, item_code) };

    ghost view = { λ p. record { group = p.group; amount = p.amount } };
}

// What is to be added where one amount gives way to another, modulo 2^64.
fn difference(old: u64, new: u64) -> u64
    ensures { result ≡ difference old new }
{
    new.wrapping_sub(old)
}

// The eight bytes of an amount, the least significant one first.
fn operand(alloc: Global, amount: u64) -> Result<Bytes, AllocError>
    ensures { IfOk result (λ bytes. bytes ≡ bytes_of 8 amount) }
{
    let bytes = Vec::from_slice(alloc, amount.to_le_bytes().as_slice())?;
    Ok(Bytes::new(bytes))
}

/// The key of the total of a group of the COUNT or SUM index with this number, under a store's
/// prefix.
pub fn group_key(
    alloc: Global,
    prefix: &[u8],
    number: u64,
    group: &Cells,
) -> Result<Bytes, AllocError>
    ensures key { IfOk result (λ key. key ≡ group_key prefix.now number group.now) }
    ensures below { IfOk result (λ key.
        IsTrue (key_lt prefix.now end_of_keys) → IsTrue (key_lt key end_of_keys)) }
    ensures cells { OnOk result (All IsCell group.now) }
{
    let mut key = entries_prefix(alloc, prefix, number)?;
    group.push_pack(&mut key)?;
    Ok(Bytes::new(key))
}

// Puts what adds an amount to a group's total: nothing where it is 0.
fn push_amount(
    alloc: Global,
    prefix: &[u8],
    number: u64,
    group: &Cells,
    amount: u64,
    mutations: &mut Vec<Mutation>,
) -> Result<(), AllocError>
    ensures { OnOk result (mutations.new.items
        ≡ mutations.old.items ++ add_amount prefix.now number group.now amount) }
{
    if amount == 0 {
        return Ok(());
    }
    let key = group_key(alloc, prefix, number, group)?;
    let operand = operand(alloc, amount)?;
    mutations.push(Mutation::Add { key, operand })?;
    Ok(())
}

// Puts what takes a group's total out where it is 0.
fn push_clear(
    alloc: Global,
    prefix: &[u8],
    number: u64,
    group: &Cells,
    mutations: &mut Vec<Mutation>,
) -> Result<(), AllocError>
    ensures { OnOk result (mutations.new.items
        ≡ mutations.old.items ++ clear_zero prefix.now number group.now) }
{
    let key = group_key(alloc, prefix, number, group)?;
    let operand = operand(alloc, 0)?;
    mutations.push(Mutation::CompareAndClear { key, operand })?;
    Ok(())
}

impl Part {
    // Whether both parts are of one group.
    fn is_of_group(&self, alloc: Global, other: &Part) -> Result<bool, AllocError>
        ensures { IfOk result (λ same. same ≡ same_group self.now.group other.now.group) }
    {
        let own = self.group.tuple(alloc)?;
        let others = other.group.tuple(alloc)?;
        Ok(compare(&own, &others).is_eq())
    }

    // Puts what takes the part out of its group's total, and clears that where it is to be cleared
    // at 0.
    fn push_gone(
        &self,
        alloc: Global,
        prefix: &[u8],
        number: u64,
        clears: bool,
        mutations: &mut Vec<Mutation>,
    ) -> Result<(), AllocError>
        ensures { OnOk result (mutations.new.items
            ≡ mutations.old.items ++ take_amount clears prefix.now number self.now.group self.now.amount) }
    {
        let amount = difference(self.amount, 0);
        push_amount(alloc, prefix, number, &self.group, amount, mutations)?;
        if clears {
            push_clear(alloc, prefix, number, &self.group, mutations)?;
        }
        Ok(())
    }

    // Puts what adds the part to its group's total.
    fn push_come(
        &self,
        alloc: Global,
        prefix: &[u8],
        number: u64,
        mutations: &mut Vec<Mutation>,
    ) -> Result<(), AllocError>
        ensures { OnOk result (mutations.new.items
            ≡ mutations.old.items ++ add_amount prefix.now number self.now.group (difference 0 self.now.amount)) }
    {
        let amount = difference(0, self.amount);
        push_amount(alloc, prefix, number, &self.group, amount, mutations)
    }
}

// Puts what is to be written where one part of a total gives way to another.
fn push_replacement(
    alloc: Global,
    prefix: &[u8],
    number: u64,
    clears: bool,
    old: &Part,
    new: &Part,
    mutations: &mut Vec<Mutation>,
) -> Result<(), AllocError>
    ensures { OnOk result (mutations.new.items
        ≡ mutations.old.items ++ part_changes clears prefix.now number (Some old.now) (Some new.now)) }
{
    if old.is_of_group(alloc, new)? {
        let amount = difference(old.amount, new.amount);
        return push_amount(alloc, prefix, number, &new.group, amount, mutations);
    }
    old.push_gone(alloc, prefix, number, clears, mutations)?;
    new.push_come(alloc, prefix, number, mutations)
}

/// Puts what is to be written where one part of a total, if there is one, gives way to another, if
/// there is one, and whether totals are cleared at 0.
pub(crate) fn push_parts(
    alloc: Global,
    prefix: &[u8],
    number: u64,
    clears: bool,
    old: Option<Part>,
    new: Option<Part>,
    mutations: &mut Vec<Mutation>,
) -> Result<(), AllocError>
    ensures { OnOk result (mutations.new.items
        ≡ mutations.old.items ++ part_changes clears prefix.now number old new) }
{
    match (old, new) {
        (Some(old), Some(new)) => {
            push_replacement(alloc, prefix, number, clears, &old, &new, mutations)?
        }
        (Some(old), None) => old.push_gone(alloc, prefix, number, clears, mutations)?,
        (None, Some(new)) => new.push_come(alloc, prefix, number, mutations)?,
        (None, None) => {}
    }
    Ok(())
}

// What the field at this place counts in a sum.
fn amount_at(one: &RecordRef<'_>, place: Option<usize>) -> u64
    ensures { result ≡ summed_share place one.now }
{
    match place {
        Some(place) => match one.cells().as_slice().get(place) {
            Some(Cell::Int(value)) => value.cast_unsigned(),
            _ => 0,
        },
        None => 0,
    }
}

/// What a record, if there is one, counts in a COUNT: 1.
pub(crate) fn count_part(
    alloc: Global,
    index: &IndexDefinition,
    one: Option<&RecordRef<'_>>,
) -> Result<Option<Part>, AllocError>
    ensures { IfOk result (λ part.
        part ≡ option_map (part_of count_share index.now) (option_copied one.entry)) }
{
    match one {
        Some(one) => {
            let group = one.cells().at(alloc, &index.columns)?;
            Ok(Some(Part { group, amount: 1 }))
        }
        None => Ok(None),
    }
}

/// What a record, if there is one, counts in a SUM: its summed field, null as 0.
pub(crate) fn sum_part(
    alloc: Global,
    index: &IndexDefinition,
    one: Option<&RecordRef<'_>>,
) -> Result<Option<Part>, AllocError>
    ensures { IfOk result (λ part.
        part ≡ option_map (part_of sum_share index.now) (option_copied one.entry)) }
{
    match one {
        Some(one) => {
            let group = one.cells().at(alloc, &index.columns)?;
            let amount = amount_at(one, index.summed);
            Ok(Some(Part { group, amount }))
        }
        None => Ok(None),
    }
}
