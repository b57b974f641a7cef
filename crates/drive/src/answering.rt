// A call: the commands performed over what is given, and the test that it covers what they read.
ghost use Rattle.std.specs.Prelude.{◌≡◌, ◌⊎◌, [], IfOk, IfErr, IfSome, IfNone, IsNone};
ghost use Rattle.std.specs.Prelude.{MatchBool, OnOk};
ghost use Rattle.std.specs.List.{AllByRecursion};
ghost use Rattle.kv_core.specs.Limits.{write_all_refusal};
ghost use Rattle.drive.specs.declared.error.DriveError.TheVariants.{Memory};
ghost use Rattle.drive.specs.Driving.{ArePerformed, IsDriven};
ghost use Rattle.drive.specs.Errors.{IsWriteRefused};
ghost use Rattle.drive.specs.Wanted.{AreWithin, HasFrom, IsLeftOfOne, IsUncovered, ReadsFrom};

use crate::ahead::add_records;
use crate::error::DriveError;
use crate::given::Given;
use crate::partial::Partial;
use crate::wanted::{Want, rest_between, rest_of};
use kv_core::{CommitRequest, Coverage, KeyRange, Mutation};
use record_store::{KnownSchema, StoreNumber};
use schedule::{Command, Reply, perform_knowing};
use std::alloc::{AllocError, Global};
use txn::Transaction;

/// What commands come to that were performed over what is covered.
#[derive(Drop)]
pub struct Answer {
    /// The reply to each command, in order.
    pub replies: Vec<Reply>,
    /// What the transaction asks to have committed now: the ranges that these commands read, and
    /// all that it has written, also before them.
    pub request: CommitRequest,
}

/// What a call comes to.
#[derive(Drop)]
pub enum Driven {
    /// These ranges are to be read first, at the same version: one at least.
    Wants(Vec<Want>),
    /// The commands were performed.
    Done(Answer),
}

/// An equal list of mutations.
fn copy_of(written: &Vec<Mutation>) -> Result<Vec<Mutation>, AllocError>
    ensures { IfOk result (λ copy. copy.items ≡ written.now.items) }
{
    let copy = written.clone()?;
    Ok(copy)
}

/// Performs commands on the host's store, one after another.
fn perform_each(
    alloc: Global,
    commands: &[Command],
    tx: &mut Transaction,
    partial: &Partial<'_>,
) -> Result<Vec<Reply>, AllocError>
    ensures { IfOk result (λ replies. ArePerformed (λ version. partial.now.pairs.now) commands.now
        replies.items tx.old tx.new) }
{
    let store = StoreNumber::first();
    let mut known = KnownSchema::new();
    let mut replies = Vec::new(alloc);
    for command in commands {
        let reply = perform_knowing(alloc, command, store, tx, partial, &mut known)?;
        replies.push(reply)?;
    }
    Ok(replies)
}

/// What is left of the first of these ranges that isn't covered, or None where all of them are.
fn first_uncovered(covered: &Coverage, ranges: &[KeyRange]) -> Result<Option<Want>, AllocError>
    ensures wanted { IfOk result (λ found. IfSome found (IsUncovered covered.now)) }
    ensures left { IfOk result (λ found.
        IfSome found (λ want. IsLeftOfOne covered.now ranges.now want.range)) }
    ensures whole { IfOk result (λ found. IfNone found (AreWithin covered.now ranges.now)) }
{
    for range in ranges {
        if let Some(rest) = rest_between(covered, range)? {
            return Ok(Some(Want {
                range: rest,
                limit: usize::MAX,
                reverse: true,
            }));
        }
    }
    Ok(None)
}

/// Whether to read what is wanted is to read this range first.
fn reads_first(want: &Want, part: &KeyRange) -> bool
    ensures { MatchBool result (ReadsFrom want.now.reverse want.now.range part.now) (Unit {0}) }
{
    let range = &want.range;
    if want.reverse {
        range.end() == part.end() && range.begin().is_upto(part.begin())
    } else {
        range.begin() == part.begin() && part.end().is_upto(range.end())
    }
}

/// Whether to read one of these is to read this range first.
fn has_first(wants: &[Want], part: &KeyRange) -> bool
    ensures { MatchBool result (HasFrom wants.now part.now) (Unit {0}) }
{
    for want in wants {
        if reads_first(want, part) {
            return true;
        }
    }
    false
}

/// Of what was asked for all that isn't covered, with this one, unless another one begins with it.
fn next_wants(
    alloc: Global,
    covered: &Coverage,
    asked: &[Want],
    first: Want,
) -> Result<Vec<Want>, AllocError>
    requires { IsUncovered covered.now first }
    ensures wanted { IfOk result (λ wants. AllByRecursion (IsUncovered covered.now) wants.items) }
    ensures first { IfOk result (λ wants. HasFrom wants.items first.range) }
{
    let mut wants = Vec::new(alloc);
    for want in asked {
        if let Some(rest) = rest_of(covered, &want.range, want.reverse)? {
            wants.push(Want {
                range: rest,
                limit: if want.limit == 0 { 1 } else { want.limit },
                reverse: want.reverse,
            })?;
        }
    }
    if !has_first(wants.as_slice(), &first.range) {
        wants.push(first)?;
    }
    Ok(wants)
}

/// Performs the commands of a transaction over what a host has read, or tells what it is to read.
///
/// Where all that the commands read is covered, they are answered, and it is as if they were
/// performed over the host's database itself. Else there is no reply: the host reads a beginning of
/// each range that is wanted, and calls again with what it has read then. The only errors are want
/// of memory and what is refused of `written`.
pub fn drive(alloc: Global, given: &Given) -> Result<Driven, DriveError>
    ensures done { IfOk result (IsDriven given.now) }
    ensures allowed { OnOk result (IsNone (write_all_refusal [] given.now.written.items)) }
    ensures refused { IfErr result (λ error.
        (error ≡ Memory) ⊎ IsWriteRefused given.now.written.items error) }
{
    let partial = Partial::new(alloc, &given.covered, &given.pairs);
    let mut tx = Transaction::begin(alloc, given.version);
    let written = copy_of(&given.written)?;
    tx.write_all(written)?;
    let replies = perform_each(alloc, given.commands.as_slice(), &mut tx, &partial)?;
    let request = tx.into_request();
    let Some(first) = first_uncovered(&given.covered, request.reads.as_slice())? else {
        return Ok(Driven::Done(Answer { replies, request }));
    };
    let mut asked = partial.asked.into_inner();
    add_records(alloc, given, request.reads.as_slice(), &mut asked)?;
    let wants = next_wants(alloc, &given.covered, asked.wants.as_slice(), first)?;
    Ok(Driven::Wants(wants))
}
