// The answer to a host, as bytes. Called by `drive_bytes`.
ghost use Rattle.std.specs.Prelude.{◌≡◌, ◌<◌, ◌^◌, ◌∷◌, ◌++◌, ℕ, List, length, IfOk, OnOk};
ghost use Rattle.std.specs.Int.{w32, to_le_bytes};
ghost use Rattle.drive_form.specs.Form.{FitEach, FitsMutation, FitsRange, FitsWant, IsShort};
ghost use Rattle.drive_form.specs.Form.{counted, mutation_bytes, range_bytes, sized, want_bytes};
ghost use Rattle.drive_form.specs.Spelled.{IsDoneBytes, IsDrivenBytes};

use drive::{Answer, Driven, Want};
use kv_core::{KeyRange, Mutation};
use schedule::Reply;
use script::push_reply;
use std::alloc::{AllocError, Global};

/// What the bytes begin with where ranges are wanted, and where the commands were performed.
const WANTS: u8 = 0;

const DONE: u8 = 1;

fn push_number(out: &mut Vec<u8>, number: usize) -> Result<(), AllocError>
    ensures ok { OnOk result (out.new.items ≡ out.old.items ++ to_le_bytes w32 number) }
    ensures fits { OnOk result (number < 2 ^ 32) }
{
    let number = u32::try_from(number).map_err(|_| AllocError)?;
    out.extend_from_slice(number.to_le_bytes().as_slice())?;
    Ok(())
}

fn push_bytes(out: &mut Vec<u8>, bytes: &[u8]) -> Result<(), AllocError>
    ensures ok { OnOk result (out.new.items ≡ out.old.items ++ sized bytes.now) }
    ensures fits { OnOk result (IsShort bytes.now) }
{
    push_number(out, bytes.len())?;
    out.extend_from_slice(bytes)?;
    Ok(())
}

fn push_range(out: &mut Vec<u8>, range: &KeyRange) -> Result<(), AllocError>
    ensures ok { OnOk result (out.new.items ≡ out.old.items ++ range_bytes range.now) }
    ensures fits { OnOk result (FitsRange range.now) }
{
    push_bytes(out, range.begin().as_slice())?;
    push_bytes(out, range.end().as_slice())
}

fn push_want(out: &mut Vec<u8>, want: &Want) -> Result<(), AllocError>
    ensures ok { OnOk result (out.new.items ≡ out.old.items ++ want_bytes want.now) }
    ensures fits { OnOk result (FitsWant want.now) }
{
    push_range(out, &want.range)?;
    let limit = want.limit as u64;
    out.extend_from_slice(limit.to_le_bytes().as_slice())?;
    out.push(u8::from(want.reverse))?;
    Ok(())
}

/// Wants after their number.
fn push_wants(out: &mut Vec<u8>, wants: &[Want]) -> Result<(), AllocError>
    ensures ok { OnOk result (out.new.items ≡ out.old.items ++ counted want_bytes wants.now) }
    ensures fits { OnOk result (FitEach FitsWant wants.now) }
{
    push_number(out, wants.len())?;
    for want in wants {
        push_want(out, want)?;
    }
    Ok(())
}

/// Ranges after their number.
fn push_ranges(out: &mut Vec<u8>, ranges: &[KeyRange]) -> Result<(), AllocError>
    ensures ok { OnOk result (out.new.items ≡ out.old.items ++ counted range_bytes ranges.now) }
    ensures fits { OnOk result (FitEach FitsRange ranges.now) }
{
    push_number(out, ranges.len())?;
    for range in ranges {
        push_range(out, range)?;
    }
    Ok(())
}

fn push_mutation(out: &mut Vec<u8>, mutation: &Mutation) -> Result<(), AllocError>
    ensures ok { OnOk result (out.new.items ≡ out.old.items ++ mutation_bytes mutation.now) }
    ensures fits { OnOk result (FitsMutation mutation.now) }
{
    match mutation {
        Mutation::Set { key, value } => {
            out.push(0)?;
            push_bytes(out, key.as_slice())?;
            push_bytes(out, value.as_slice())
        }
        Mutation::ClearRange(range) => {
            out.push(1)?;
            push_range(out, range)
        }
        Mutation::Add { key, operand } => {
            out.push(2)?;
            push_bytes(out, key.as_slice())?;
            push_bytes(out, operand.as_slice())
        }
        Mutation::CompareAndClear { key, operand } => {
            out.push(3)?;
            push_bytes(out, key.as_slice())?;
            push_bytes(out, operand.as_slice())
        }
    }
}

/// Writes after their number.
fn push_mutations(out: &mut Vec<u8>, mutations: &[Mutation]) -> Result<(), AllocError>
    ensures ok { OnOk result
        (out.new.items ≡ out.old.items ++ counted mutation_bytes mutations.now) }
    ensures fits { OnOk result (FitEach FitsMutation mutations.now) }
{
    push_number(out, mutations.len())?;
    for mutation in mutations {
        push_mutation(out, mutation)?;
    }
    Ok(())
}

/// The text of each reply, after their number.
fn push_replies(alloc: Global, out: &mut Vec<u8>, replies: &[Reply]) -> Result<(), AllocError>
    ensures { OnOk result ((texts : List (List ℕ)) × (length texts ≡ length replies.now)
        × (out.new.items ≡ out.old.items ++ counted sized texts) × FitEach IsShort texts) }
{
    push_number(out, replies.len())?;
    for reply in replies {
        let mut line = String::new(alloc);
        push_reply(alloc, &mut line, reply)?;
        push_bytes(out, line.as_bytes())?;
    }
    Ok(())
}

/// The replies, what was read, and all that is written.
fn push_answer(alloc: Global, out: &mut Vec<u8>, answer: &Answer) -> Result<(), AllocError>
    ensures spelled { OnOk result ((texts : List (List ℕ))
        × (length texts ≡ length answer.now.replies.items)
        × (out.new.items ≡ out.old.items ++ (counted sized texts
        ++ (counted range_bytes answer.now.request.reads
        ++ counted mutation_bytes answer.now.request.mutations)))
        × FitEach IsShort texts) }
    ensures reads { OnOk result (FitEach FitsRange answer.now.request.reads) }
    ensures written { OnOk result (FitEach FitsMutation answer.now.request.mutations) }
{
    push_replies(alloc, out, answer.replies.as_slice())?;
    push_ranges(out, answer.request.reads.as_slice())?;
    push_mutations(out, answer.request.mutations.as_slice())
}

/// The bytes that tell a host what a call came to.
pub fn answer_of(alloc: Global, driven: &Driven) -> Result<Vec<u8>, AllocError>
    ensures { IfOk result (λ bytes. IsDrivenBytes driven.now bytes.items) }
{
    let mut out = Vec::new(alloc);
    match driven {
        Driven::Wants(wants) => {
            out.push(WANTS)?;
            push_wants(&mut out, wants.as_slice())?;
        }
        Driven::Done(answer) => {
            out.push(DONE)?;
            push_answer(alloc, &mut out, answer)?;
        }
    }
    Ok(out)
}
