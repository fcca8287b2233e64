//! Log messages, printed by `detoken`.

use super::{is_silent_at_a_fault, tells};
use std::alloc::AllocError;

// The text, the status, and what is written.
const MESSAGES: &[(&str, u8, &str)] = &[
    (
        "format a\nformat %d\ntext e0176100\ntext 8117633105\ntext 8117633180\ntext 00\ntext 00000000\n",
        0,
        "a\n-3\n? wrong 4\n? short\n? unknown 00000000\n",
    ),
    (
        "format %s\ntext 1000c638026869\ntext 1000c638826869",
        0,
        "hi\nhi[...]\n",
    ),
    ("", 0, ""),
    ("format %d\nformat %d\n", 7, "token line 2\n"),
    ("format %q\n", 7, "token line 1\n"),
    ("text 00\n\ntext 0", 7, "token line 2\n"),
];

#[test]
fn each_message_has_its_line(rt: HostRuntime) -> Result<(), AllocError> {
    for &(text, status, written) in MESSAGES {
        tells(&rt, rt.alloc(), "detoken", text, status, written)?;
    }
    Ok(())
}

#[test]
fn nothing_is_written_at_a_source_fault(rt: HostRuntime) -> Result<(), AllocError> {
    is_silent_at_a_fault(&rt, rt.alloc(), "detoken", "format a\ntext e0176100\n")
}
