//! Files that are the same, and files that are made anew.

use std::fs::{self, File};
use std::io;

/// Whether the file of the answers is the capture, by whatever path.
pub fn is_capture(rt: &HostRuntime, answers: Option<&str>, name: &str) -> bool {
    let Some(answers) = answers else {
        return false;
    };
    if answers == name {
        return true;
    }
    let Ok(one) = fs::canonicalize(rt, answers) else {
        return false;
    };
    let Ok(other) = fs::canonicalize(rt, name) else {
        return false;
    };
    one == other
}

/// A file of this name that is made anew: one that was there is taken away first, and not written over, since the capture may be the
/// same file under another name. What is no file of its own, as a terminal or a link, is opened.
pub fn create_anew(rt: &HostRuntime, name: &str) -> io::Result<File> {
    if is_own_file(rt, name) {
        fs::remove_file(rt, name)?;
    }
    File::create(rt, name)
}

/// Whether there is a file of this name, and no link to one.
fn is_own_file(rt: &HostRuntime, name: &str) -> bool {
    match fs::symlink_metadata(rt, name) {
        Ok(found) => found.is_file(),
        Err(_) => false,
    }
}
