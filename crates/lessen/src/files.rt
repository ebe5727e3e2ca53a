// Files: whether two are one, and one that is there whole or not at all.
use std::fs::{self, File, Metadata};
use std::io::{self, ErrorKind, Write};
use std::os::unix::fs::MetadataExt;

// Of a file that may be missing.
pub fn metadata(rt: &HostRuntime, path: &str) -> io::Result<Option<Metadata>> {
    match fs::metadata(rt, path) {
        Ok(file) => Ok(Some(file)),
        Err(error) if error.kind() == ErrorKind::NotFound => Ok(None),
        Err(error) => Err(error),
    }
}

// Whatever paths lead to them.
pub fn are_same(file: &Metadata, other: &Metadata) -> bool {
    file.dev() == other.dev() && file.ino() == other.ino()
}

// Takes away what a run that was stopped left there.
fn clear(rt: &HostRuntime, path: &str) -> io::Result<()> {
    match fs::remove_file(rt, path) {
        Err(error) if error.kind() != ErrorKind::NotFound => Err(error),
        _ => Ok(()),
    }
}

fn write_new(rt: &HostRuntime, path: &str, bytes: &[u8]) -> io::Result<()> {
    clear(rt, path)?;
    let mut file = File::create_new(rt, path)?;
    file.write_all(bytes)
}

// Writes under one name, and then gives it the other.
pub fn write_whole(rt: &HostRuntime, part: &str, path: &str, bytes: &[u8]) -> io::Result<()> {
    let written = write_new(rt, part, bytes).and_then(|()| fs::rename(rt, part, path));
    if written.is_err() {
        let _ = fs::remove_file(rt, part);
    }
    written
}
