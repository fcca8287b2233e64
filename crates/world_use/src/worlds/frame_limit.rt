//! Scripts of which a run meets the limit of frames, or comes near it.

use super::desk::{ends, tells, told};
use std::alloc::{AllocError, Global};
use std::test::Fail;

// This many lines `chat` of 8,000 bytes: each takes more than 16,000 frames.
fn long_chats(alloc: Global, count: u32) -> Result<String, AllocError> {
    let mut text = String::new(alloc);
    for _ in 0..count {
        push_long_chat(&mut text)?;
    }
    Ok(text)
}

fn push_long_chat(text: &mut String) -> Result<(), AllocError> {
    text.push_str("chat ")?;
    for _ in 0..8_000 {
        text.push_str("61")?;
    }
    text.push_str("\n")?;
    Ok(())
}

#[test]
fn twelve_long_chats_come_to_their_end(rt: HostRuntime) -> Result<(), Fail> {
    let text = told(rt.alloc(), long_chats(rt.alloc(), 12)?.as_str())?;
    ends(
        &rt,
        text.as_str(),
        "frames 192036 delivered 192036\nchunks 0\n",
    );
    Ok(())
}

#[test]
fn thirteen_long_chats_meet_the_limit_of_frames(rt: HostRuntime) -> Result<(), Fail> {
    let script = long_chats(rt.alloc(), 13)?;
    tells(&rt, rt.alloc(), script.as_str(), "limit frames")?;
    Ok(())
}
