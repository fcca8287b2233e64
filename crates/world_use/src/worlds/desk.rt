//! A script's text is run.
ghost use Rattle.std.specs.Prelude.{◌<◌, ◌^◌, length};

use link_script::text::read_script;
use link_world::{World, WorldRefused};
use std::alloc::{AllocError, Global};
use std::process::Abort;

// No script here is longer.
const TEXT_LIMIT: usize = 1_048_576;

/// What is told of the run of a script's text.
pub fn told(alloc: Global, text: &str) -> Result<String, AllocError> {
    let text = text.as_bytes();
    if text.len() < TEXT_LIMIT {
        told_of(alloc, text)
    } else {
        String::from_str(alloc, "long text")
    }
}

fn told_of(alloc: Global, text: &[u8]) -> Result<String, AllocError>
    requires { length text.now < 2 ^ 20 }
{
    match read_script(alloc, text)? {
        Ok(script) => match World::new(alloc, script)?.run() {
            Ok(outcome) => Ok(outcome.text),
            Err(refused) => String::from_str(alloc, named(refused)),
        },
        Err(_) => String::from_str(alloc, "bad line"),
    }
}

// Why a script has no outcome.
fn named(refused: WorldRefused) -> &'static str {
    match refused {
        WorldRefused::Frames => "limit frames",
        WorldRefused::Journal => "limit journal",
        WorldRefused::Memory => "memory",
    }
}

/// The run of a script's text is told so.
pub fn tells(rt: &impl Abort, alloc: Global, text: &str, wanted: &str) -> Result<(), AllocError> {
    let told = told(alloc, text)?;
    assert_eq!(rt; told.as_str(), wanted);
    Ok(())
}

/// What is told of the run of a script's text begins so.
pub fn begins(rt: &impl Abort, text: &str, front: &str) {
    assert!(rt; text.starts_with(front), "{text}");
}

/// What is told of the run of a script's text ends so.
pub fn ends(rt: &impl Abort, text: &str, back: &str) {
    assert!(rt; text.ends_with(back), "{text}");
}
