// What a host tells, from bytes. Called by `drive_bytes`.
ghost use Rattle.std.specs.Prelude.{◌≡◌, ◌++◌, List, ℕ, IfErr, IfOk};
ghost use Rattle.kv_core.specs.Range.{covers};
ghost use Rattle.drive_form.specs.Form.{FitEach, FitsMutation, FitsPair, FitsRange};
ghost use Rattle.drive_form.specs.Form.{counted, mutation_bytes, pair_bytes, range_bytes};
ghost use Rattle.drive_form.specs.Refused.{ExplainsGiven, ExplainsNone, ExplainsSteps};
ghost use Rattle.drive_form.specs.Refused.{ExplainsText};
ghost use Rattle.drive_form.specs.Spelled.{AreCommands, AreCommandsOf, IsGiven};

use crate::error::FormError;
use crate::reading::Reader;
use drive::Given;
use kv_core::{Coverage, KeyRange, KvMap, Mutation, Pair};
use schedule::{Command, Step};
use script::script_of;
use std::alloc::{AllocError, Global};

/// The number of this form, which is its first byte.
const FORM: u8 = 1;

fn ranges_of(alloc: Global, reader: &mut Reader<'_>) -> Result<Vec<KeyRange>, FormError>
    ensures ok { IfOk result (λ ranges. reader.old.rest.now
        ≡ counted range_bytes ranges.items ++ reader.new.rest.now) }
    ensures fits { IfOk result (λ ranges. FitEach FitsRange ranges.items) }
    ensures err { IfErr result
        (ExplainsNone (counted range_bytes) (FitEach FitsRange) reader.old.rest.now) }
{
    let count = reader.count()?;
    let mut ranges = Vec::new(alloc);
    for _ in 0..count {
        ranges.push(reader.range(alloc)?)?;
    }
    Ok(ranges)
}

/// The keys of ranges.
fn coverage_of(alloc: Global, ranges: &[KeyRange]) -> Result<Coverage, AllocError>
    ensures { IfOk result (λ covered. (key : List ℕ) →
        covers covered key ≡ covers ranges.now key) }
{
    let mut covered = Coverage::new(alloc);
    for range in ranges {
        covered.add(range)?;
    }
    Ok(covered)
}

fn pair_of(alloc: Global, reader: &mut Reader<'_>) -> Result<Pair, FormError>
    ensures ok { IfOk result (λ pair. reader.old.rest.now
        ≡ pair_bytes pair ++ reader.new.rest.now) }
    ensures fits { IfOk result FitsPair }
    ensures err { IfErr result (ExplainsNone pair_bytes FitsPair reader.old.rest.now) }
{
    let key = reader.bytes(alloc)?;
    let value = reader.bytes(alloc)?;
    Ok((key, value))
}

fn pairs_of(alloc: Global, reader: &mut Reader<'_>) -> Result<Vec<Pair>, FormError>
    ensures ok { IfOk result (λ pairs. reader.old.rest.now
        ≡ counted pair_bytes pairs.items ++ reader.new.rest.now) }
    ensures fits { IfOk result (λ pairs. FitEach FitsPair pairs.items) }
    ensures err { IfErr result
        (ExplainsNone (counted pair_bytes) (FitEach FitsPair) reader.old.rest.now) }
{
    let count = reader.count()?;
    let mut pairs = Vec::new(alloc);
    for _ in 0..count {
        pairs.push(pair_of(alloc, reader)?)?;
    }
    Ok(pairs)
}

fn mutation_of(alloc: Global, reader: &mut Reader<'_>) -> Result<Mutation, FormError>
    ensures ok { IfOk result (λ one. reader.old.rest.now
        ≡ mutation_bytes one ++ reader.new.rest.now) }
    ensures fits { IfOk result FitsMutation }
    ensures err { IfErr result (ExplainsNone mutation_bytes FitsMutation reader.old.rest.now) }
{
    match reader.byte()? {
        0 => {
            let (key, value) = pair_of(alloc, reader)?;
            Ok(Mutation::Set { key, value })
        }
        1 => {
            let range = reader.range(alloc)?;
            Ok(Mutation::ClearRange(range))
        }
        2 => {
            let (key, operand) = pair_of(alloc, reader)?;
            Ok(Mutation::Add { key, operand })
        }
        3 => {
            let (key, operand) = pair_of(alloc, reader)?;
            Ok(Mutation::CompareAndClear { key, operand })
        }
        _ => Err(FormError::BadForm),
    }
}

fn written_of(alloc: Global, reader: &mut Reader<'_>) -> Result<Vec<Mutation>, FormError>
    ensures ok { IfOk result (λ all. reader.old.rest.now
        ≡ counted mutation_bytes all.items ++ reader.new.rest.now) }
    ensures fits { IfOk result (λ all. FitEach FitsMutation all.items) }
    ensures err { IfErr result
        (ExplainsNone (counted mutation_bytes) (FitEach FitsMutation) reader.old.rest.now) }
{
    let count = reader.count()?;
    let mut written = Vec::new(alloc);
    for _ in 0..count {
        written.push(mutation_of(alloc, reader)?)?;
    }
    Ok(written)
}

/// The commands of these steps, where all are commands.
fn commands_in(alloc: Global, steps: Vec<Step>) -> Result<Vec<Command>, FormError>
    ensures ok { IfOk result (λ commands. AreCommands steps.items commands.items) }
    ensures err { IfErr result (ExplainsSteps steps.items) }
{
    let mut commands = Vec::new(alloc);
    for step in steps {
        let Step::Perform(_, command) = step else {
            return Err(FormError::BadCommand);
        };
        commands.push(command)?;
    }
    Ok(commands)
}

/// The commands of a script, all whose steps are commands.
fn commands_of(alloc: Global, text: &[u8]) -> Result<Vec<Command>, FormError>
    ensures ok { IfOk result (λ commands. AreCommandsOf text.now commands.items) }
    ensures err { IfErr result (ExplainsText text.now) }
{
    let script = script_of(alloc, text)?;
    let commands = commands_in(alloc, script.steps)?;
    Ok(commands)
}

/// What a host tells.
pub fn given_of(alloc: Global, bytes: &[u8]) -> Result<Given, FormError>
    ensures ok { IfOk result (IsGiven bytes.now) }
    ensures err { IfErr result (ExplainsGiven bytes.now) }
{
    let mut reader = Reader::new(bytes);
    if reader.byte()? != FORM {
        return Err(FormError::BadForm);
    }
    let version = reader.number()?;
    let ranges = ranges_of(alloc, &mut reader)?;
    let pairs = pairs_of(alloc, &mut reader)?;
    let written = written_of(alloc, &mut reader)?;
    let commands = commands_of(alloc, reader.rest())?;
    let covered = coverage_of(alloc, ranges.as_slice())?;
    let pairs = KvMap::from_pairs(alloc, pairs)?;
    Ok(Given {
        version,
        covered,
        pairs,
        written,
        commands,
    })
}
