// The numbers of stores, and what their keys begin with. Run as a test.
use record_store::StoreNumber;
use std::alloc::Global;
use std::test::Fail;
use test_parts::{digits_of, same};

/// A number, and the prefix of its store, if there is one.
static NUMBERS: [(u64, &str); 11] = [
    (0, "none"),
    (1, "1501"),
    (2, "1502"),
    (255, "15ff"),
    (256, "160100"),
    (257, "160101"),
    (65_534, "16fffe"),
    (65_535, "16ffff"),
    (65_536, "none"),
    (65_537, "none"),
    (u64::MAX, "none"),
];

fn prefix_of(alloc: Global, number: u64) -> Result<String, Fail> {
    match StoreNumber::new(number) {
        Some(store) => digits_of(alloc, store.prefix(alloc)?.as_slice()),
        None => Ok(String::from_str(alloc, "none")?),
    }
}

#[test]
fn stores_have_prefixes(rt: HostRuntime) -> Result<(), Fail> {
    for (number, prefix) in &NUMBERS {
        same(prefix_of(rt.alloc(), *number)?.as_str(), prefix)?;
    }
    same(
        prefix_of(rt.alloc(), StoreNumber::first().get())?.as_str(),
        "1501",
    )?;
    Ok(())
}
