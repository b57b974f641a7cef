// Prints what a file has. Called by `kept_words` for `bench_threads kept list`.
use command_log::entry_of;
use journal::{Kept, recover};
use journal_file::FileDevice;
use std::alloc::Global;
use std::fs::{File, Files};
use std::io::{self, ErrorKind};

// Prints the client, the number and the version of the entry of these bytes.
fn print_entry<R: Print>(rt: &R, alloc: Global, bytes: &[u8]) -> io::Result<()> {
    let Ok(entry) = entry_of(alloc, bytes) else {
        return Err(io::Error::from(ErrorKind::InvalidData));
    };
    let client = entry.client;
    let number = entry.number;
    let version = entry.version;
    println!(rt; "{client} {number} {version}")
}

/// Prints the client, the number and the version of each entry.
pub fn list<R: Print + Files<File = File>>(rt: &R, alloc: Global, path: &str) -> io::Result<()> {
    let Ok(device) = FileDevice::open(rt, alloc, path) else {
        return Err(io::Error::from(ErrorKind::NotFound));
    };
    let mut kept = Kept::new(alloc);
    let Ok(journal) = recover(alloc, device, &mut kept) else {
        return Err(io::Error::from(ErrorKind::InvalidData));
    };
    drop(journal);
    for bytes in kept.entries() {
        print_entry(rt, alloc, bytes.as_slice())?;
    }
    Ok(())
}
