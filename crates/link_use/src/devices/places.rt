//! Paths of a test's own, and the files there.

use std::fs::Files;
use std::process::Abort;
use std::test::Fail;
use std::time::Clock;
use std::{env, fs};

/// A path that begins so, at which nothing stands yet.
pub fn path_of(rt: &HostRuntime, stem: &str) -> Result<String, Fail> {
    let now = rt.since_1970()?.as_nanos();
    let base = env::temp_dir(rt)?;
    let base = base.as_str();
    Ok(format!(in rt.alloc(); "{base}/{stem}-{now}")?)
}

/// Makes a folder with these files.
pub fn fill(rt: &HostRuntime, folder: &str, files: &[(&str, &[u8])]) -> Result<(), Fail> {
    fs::create_dir_all(rt, folder)?;
    for (name, bytes) in files {
        fs::write(rt, &format!(in rt.alloc(); "{folder}/{name}")?, *bytes)?;
    }
    Ok(())
}

/// What a file of the folder holds, or none where it isn't there.
pub fn holds<R: Files + AllocGlobal + Abort>(
    rt: &R,
    folder: &str,
    name: &str,
    wanted: Option<&[u8]>,
) -> Result<(), Fail> {
    let path = format!(in rt.alloc(); "{folder}/{name}")?;
    let found = if fs::exists(rt, &path)? {
        Some(fs::read(rt, &path)?)
    } else {
        None
    };
    assert_eq!(rt; found.as_ref().map(Vec::as_slice), wanted, "{name}");
    Ok(())
}

/// Whether something stands at a path.
pub fn is_there<R: Files + Abort>(rt: &R, path: &str, wanted: bool) -> Result<(), Fail> {
    assert_eq!(rt; fs::exists(rt, path)?, wanted);
    Ok(())
}
