// Folders of the tests' own, and what their files hold.
use std::test::Fail;
use std::{fs, process};

// A new folder.
pub(super) fn new_folder(rt: &HostRuntime, ending: &str) -> Result<String, Fail> {
    let id = process::id(rt.process());
    let folder = format!(in rt.alloc(); "/tmp/midi_edge_{id}_{ending}")?;
    let _ = fs::remove_dir_all(rt, folder.as_str());
    fs::create_dir(rt, folder.as_str())?;
    Ok(folder)
}

// Whether a file of the folder holds these bytes.
pub(super) fn holds(rt: &HostRuntime, folder: &str, name: &str, bytes: &[u8]) -> bool {
    let Ok(path) = format!(in rt.alloc(); "{folder}/{name}") else {
        return false;
    };
    match fs::read(rt, path.as_str()) {
        Ok(held) => held.as_slice() == bytes,
        Err(_) => false,
    }
}
