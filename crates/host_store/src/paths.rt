//! Where paths lead.

use std::fs::read_link;
use std::io;
use std::path::{Path, PathBuf};

/// How many links the machine follows one after another.
const MOST_LINKS: u32 = 40;

/// Where the links of a path lead, also where nothing is there yet.
pub(crate) fn followed(rt: &HostRuntime, path: &PathBuf) -> io::Result<PathBuf> {
    let mut file = path.to_path_buf(rt.alloc())?;
    for _ in 0..MOST_LINKS {
        match read_link(rt, &file) {
            Ok(next) => file = folder_of(&file).join(rt.alloc(), &next)?,
            // It is no link.
            Err(_) => break,
        }
    }
    Ok(file)
}

/// The folder in which a path lies.
pub(crate) fn folder_of(file: &PathBuf) -> Path<'_> {
    match file.parent() {
        Some(folder) if !folder.as_str().is_empty() => folder,
        _ => Path::new("."),
    }
}
