//! The files of a case.

use std::rt::Files;
use std::{fs, io};

/// The octets of files, one after another; their names are words.
pub fn read_all<R: Files + AllocGlobal>(rt: &R, names: &str) -> io::Result<Vec<u8>> {
    let mut all = Vec::new(rt.alloc());
    for name in names.split_whitespace() {
        let octets = fs::read(rt, name)?;
        all.extend_from_slice(octets.as_slice())?;
    }
    Ok(all)
}
