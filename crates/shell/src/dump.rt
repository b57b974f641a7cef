// A script that makes what is committed. Called by `session`.
use crate::error::ShellError;
use cluster_core::Cluster;
use json_forms::cells_text;
use metadata::{Record, State, TypeDefinition};
use record_store::{StoreError, StoreNumber};
use shell_text::{Opened, push_schema};
use std::alloc::{AllocError, Global};
use std::fmt::Write as _;
use std::io::Write;

// How many records a transaction saves.
const RECORDS: usize = 500;

// Writes the step that begins a transaction in a store, which isn't named where it is the first.
fn push_begin(out: &mut String, number: StoreNumber) -> Result<(), AllocError> {
    match number.get() {
        1 => out.push_str("[\"begin\",0]"),
        store => write!(out, "[\"begin\",0,{store}]"),
    }
}

// Writes the steps between two transactions.
fn push_next(out: &mut String, number: StoreNumber) -> Result<(), AllocError> {
    out.push_str(",\n[\"commit\",0],\n[\"settle\"],\n")?;
    push_begin(out, number)
}

// Writes the steps that make the store, and set the states of its indexes.
fn push_making(out: &mut String, number: StoreNumber, opened: &Opened) -> Result<(), AllocError> {
    out.push_str("{\"steps\":[\n")?;
    push_begin(out, number)?;
    out.push_str(",\n[\"create\",0,")?;
    push_schema(out, opened.schema())?;
    out.push_str("]")?;
    for index in opened.schema().indexes() {
        let name = index.name.as_str();
        match opened.store.state_of(index.number) {
            State::Readable => {}
            State::WriteOnly => write!(out, ",\n[\"write_only\",0,\"{name}\"]")?,
            State::Disabled => write!(out, ",\n[\"disable\",0,\"{name}\"]")?,
        }
    }
    Ok(())
}

// Writes the step that saves a record.
fn push_save(
    alloc: Global,
    out: &mut String,
    definition: &TypeDefinition,
    record: &Record,
) -> Result<(), AllocError> {
    let name = definition.name.as_str();
    let cells = cells_text(alloc, record.cells())?;
    write!(out, ",\n[\"save\",0,\"{name}\",{cells}]")
}

// Writes the steps that save the records of a type.
fn write_records<W: Write>(
    alloc: Global,
    cluster: &Cluster,
    number: StoreNumber,
    opened: &mut Opened,
    place: usize,
    output: &mut W,
) -> Result<(), ShellError> {
    let Some(definition) = opened.store.schema().types().get(place) else {
        return Ok(());
    };
    let found = opened
        .store
        .records(&mut opened.tx, cluster, &definition.name);
    let records = match found {
        Ok(records) => records,
        Err(StoreError::Memory) => return Err(ShellError::OutOfMemory),
        Err(_) => return Ok(()),
    };
    for (index, record) in records.as_slice().iter().enumerate() {
        let mut line = String::new(alloc);
        if index % RECORDS == 0 {
            push_next(&mut line, number)?;
        }
        push_save(alloc, &mut line, definition, record)?;
        output.write_all(line.as_bytes())?;
    }
    Ok(())
}

/// Writes a script that makes the types, the indexes and the records that are committed in the
/// store of a number.
pub(crate) fn write_dump<W: Write>(
    alloc: Global,
    cluster: &Cluster,
    number: StoreNumber,
    opened: &mut Opened,
    output: &mut W,
) -> Result<(), ShellError> {
    let mut line = String::new(alloc);
    push_making(&mut line, number, opened)?;
    output.write_all(line.as_bytes())?;
    for place in 0..opened.store.schema().types().len() {
        write_records(alloc, cluster, number, opened, place, output)?;
    }
    output.write_all(b",\n[\"commit\",0],\n[\"settle\"]\n]}\n")?;
    Ok(())
}
