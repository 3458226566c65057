use std::{fs, io};

/// A file of that part's folder. It fails where the file can't be read, or where memory is wanting.
pub fn case_file(rt: &HostRuntime, part: &str, name: &str) -> io::Result<Vec<u8>> {
    fs::read(rt, format!(in rt.alloc(); "{part}/{name}")?)
}
