//! Files in the folder for temporary files.
use std::test::Fail;
use std::{env, fs, process};

/// A path for this process in the folder for temporary files.
pub fn path_of(rt: &HostRuntime, name: &str) -> Result<String, Fail> {
    let (folder, id) = (env::temp_dir(rt)?, process::id(rt.process()));
    let folder = folder.as_str();
    Ok(format!(in rt.alloc(); "{folder}/claxon_{name}_{id}")?)
}

/// The path of such a file with these bytes.
pub fn file_of(rt: &HostRuntime, name: &str, bytes: &[u8]) -> Result<String, Fail> {
    let path = path_of(rt, name)?;
    fs::write(rt, path.as_str(), bytes)?;
    Ok(path)
}
