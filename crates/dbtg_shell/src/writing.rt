//! Writing a file in such a way that an error at closing it is reported.

use std::fs::{File, OpenFile};
use std::io::{self, ErrorKind, Write};

// The system writes out what it kept back of a file, and says if it cannot. A pipe or a device keeps nothing back, and says that it
// cannot be asked.
fn settle<F: OpenFile>(file: &F) -> io::Result<()> {
    match file.sync_all() {
        Err(error) if error.kind() == ErrorKind::InvalidInput => Ok(()),
        settled => settled,
    }
}

/// Writes a whole file; what it had before is lost.
pub fn write_file(rt: &HostRuntime, path: &str, bytes: &[u8]) -> io::Result<()> {
    let mut file = File::create(rt, path)?;
    file.write_all(bytes)?;
    settle(&file)
}
