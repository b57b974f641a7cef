// Packing and unpacking. Called by `main` for `bench tuples`.
use std::alloc::Global;
use std::io;
use std::io::ErrorKind;
use std::time::Instant;
use tuple_codec::{ByteString, Element, Text, Tuple, TupleInt, pack, unpack};

const TUPLES: u32 = 100_000;

const LONG_BYTES: usize = 10_000;

const LONG_TURNS: u32 = 1_000;

fn tuple_of(elements: Vec<Element>) -> io::Result<Tuple> {
    match Tuple::new(elements) {
        Ok(tuple) => Ok(tuple),
        Err(_) => Err(io::Error::from(ErrorKind::InvalidInput)),
    }
}

// A tuple of a number, a text of 16 bytes and a number.
fn short_tuple(alloc: Global, i: u32) -> io::Result<Tuple> {
    let text = String::from_str(alloc, "sixteen bytes 00")?;
    let mut elements = Vec::new(alloc);
    elements.push(Element::Int(TupleInt::from(u64::from(i))))?;
    elements.push(Element::Text(Text::new(text)))?;
    elements.push(Element::Int(TupleInt::from(-i64::from(i))))?;
    tuple_of(elements)
}

fn read(alloc: Global, bytes: &[u8]) -> io::Result<Tuple> {
    match unpack(alloc, bytes) {
        Ok(tuple) => Ok(tuple),
        Err(_) => Err(io::Error::from(ErrorKind::InvalidData)),
    }
}

fn short_tuples(alloc: Global) -> io::Result<Vec<Tuple>> {
    let mut tuples = Vec::new(alloc);
    for i in 0..TUPLES {
        tuples.push(short_tuple(alloc, i)?)?;
    }
    Ok(tuples)
}

fn pack_each(alloc: Global, tuples: &[Tuple]) -> io::Result<Vec<Vec<u8>>> {
    let mut packs = Vec::new(alloc);
    for tuple in tuples {
        packs.push(pack(alloc, tuple)?)?;
    }
    Ok(packs)
}

fn unpack_each(alloc: Global, packs: &[Vec<u8>]) -> io::Result<Vec<Tuple>> {
    let mut tuples = Vec::new(alloc);
    for bytes in packs {
        tuples.push(read(alloc, bytes.as_slice())?)?;
    }
    Ok(tuples)
}

// So many in a second, where this many took the time.
fn rate(count: u64, milliseconds: u128) -> u128 {
    u128::from(count) * 1000 / milliseconds.max(1)
}

fn measure_short(rt: &HostRuntime) -> io::Result<()> {
    let alloc = rt.alloc();
    let tuples = short_tuples(alloc)?;
    let start = Instant::now(rt)?;
    let packs = pack_each(alloc, tuples.as_slice())?;
    let packed = rate(u64::from(TUPLES), start.elapsed(rt)?.as_millis());
    println!(rt; "pack {packed} tuples a second")?;
    let start = Instant::now(rt)?;
    let again = unpack_each(alloc, packs.as_slice())?;
    let unpacked = rate(again.len() as u64, start.elapsed(rt)?.as_millis());
    println!(rt; "unpack {unpacked} tuples a second")
}

// A tuple of so many equal bytes is unpacked again and again.
fn measure_long(rt: &HostRuntime, byte: u8) -> io::Result<()> {
    let alloc = rt.alloc();
    let mut elements = Vec::new(alloc);
    let content = vec![in alloc; byte; LONG_BYTES]?;
    elements.push(Element::Bytes(ByteString::new(content)))?;
    let bytes = pack(alloc, &tuple_of(elements)?)?;
    let start = Instant::now(rt)?;
    for _ in 0..LONG_TURNS {
        read(alloc, bytes.as_slice())?;
    }
    let milliseconds = start.elapsed(rt)?.as_millis();
    println!(rt; "unpack {LONG_TURNS} times {LONG_BYTES} bytes {byte:02x}: {milliseconds} ms")
}

/// Prints how many tuples are packed and unpacked in a second, and how long byte strings with and without escapes take.
pub fn measure(rt: &HostRuntime) -> io::Result<()> {
    measure_short(rt)?;
    measure_long(rt, 0)?;
    measure_long(rt, 1)
}
