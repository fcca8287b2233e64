use std::alloc::Global;
use std::process::Abort;
use std::test::Fail;
use token_text::lines::{LinesRefused, print_lines};

const PRINTED: &[(&[u8], &[u8])] = &[
    (
        b"format a\nformat %d\ntext e0176100\ntext 8117633105\ntext 8117633180\ntext 00\ntext 00000000\n",
        b"a\n-3\n? wrong 4\n? short\n? unknown 00000000\n",
    ),
    (
        b"format %s\ntext 1000c638026869\ntext 1000c638826869",
        b"hi\nhi[...]\n",
    ),
    (b"", b""),
    (b"format \ntext 00000000\ntext ", b"\n? short\n"),
    (b"text 78563412", b"? unknown 12345678\n"),
];

// What is printed stands behind what was there.
fn prints(rt: &impl Abort, alloc: Global, text: &[u8], printed: &[u8]) -> Result<(), Fail> {
    let mut out = vec![in alloc; b'>']?;
    print_lines(alloc, text, &mut out)?;
    assert_eq!(rt; out.as_slice().strip_prefix(b">"), Some(printed));
    Ok(())
}

#[test]
fn lines_are_printed(rt: HostRuntime) -> Result<(), Fail> {
    for (text, printed) in PRINTED {
        prints(&rt, rt.alloc(), text, printed)?;
    }
    Ok(())
}

const BAD: &[(&[u8], usize)] = &[
    (b"format %d\nformat %d\n", 2),
    (b"format %q", 1),
    (b"format", 1),
    (b"text", 1),
    (b"format a\n\ntext 00", 2),
    (b"text 00\nformat a\n", 2),
    (b"text 00\n\n", 2),
    (b"text 0", 1),
    (b"text 0A", 1),
    (b"text 00 ", 1),
    (b"Text 00", 1),
    (b"format a\r\ntext 00\r\n", 1),
    (b"\xFF", 1),
];

// Nothing is printed of a text with this bad line.
fn is_bad(rt: &impl Abort, alloc: Global, text: &[u8], number: usize) -> Result<(), Fail> {
    let mut out = vec![in alloc; b'>']?;
    let done = print_lines(alloc, text, &mut out);
    assert_eq!(rt; done, Err(LinesRefused::Line(number)));
    assert_eq!(rt; out.as_slice(), b">".as_slice());
    Ok(())
}

#[test]
fn bad_lines_are_told(rt: HostRuntime) -> Result<(), Fail> {
    for (text, number) in BAD {
        is_bad(&rt, rt.alloc(), text, *number)?;
    }
    Ok(())
}
