use std::alloc::{AllocError, Global};
use std::process::Abort;
use text_fields::{
    first_line, hex_bytes, number, small_number, split_at, split_at_blank, strip_word,
};

const NUMBERS: &[(&[u8], Option<u64>)] = &[
    (b"0", Some(0)),
    (b"7", Some(7)),
    (b"10", Some(10)),
    (b"4294967296", Some(4_294_967_296)),
    (b"18446744073709551615", Some(u64::MAX)),
    (b"18446744073709551616", None),
    (b"", None),
    (b"00", None),
    (b"07", None),
    (b"+7", None),
    (b"-7", None),
    (b" 7", None),
    (b"7a", None),
    (b"7\xFF", None),
];

fn is_number(rt: &impl Abort, text: &[u8], value: Option<u64>) {
    assert_eq!(rt; number(text), value, "{}", text.escape_ascii());
}

fn is_small(rt: &impl Abort, text: &[u8], value: Option<u32>) {
    assert_eq!(rt; small_number(text), value);
}

#[test]
fn numbers_have_one_spelling(rt: HostRuntime) {
    for (text, value) in NUMBERS {
        is_number(&rt, text, *value);
    }
    is_small(&rt, b"4294967295", Some(u32::MAX));
    is_small(&rt, b"4294967296", None);
    is_small(&rt, b"01", None);
}

const DIGITS: &[(&[u8], Option<&[u8]>)] = &[
    (b"", Some(&[])),
    (b"00", Some(&[0])),
    (b"616263", Some(b"abc")),
    (b"7eff", Some(&[0x7E, 0xFF])),
    (b"7", None),
    (b"7EFF", None),
    (b"7g", None),
    (b" 7e", None),
    (b"7\xFF", None),
];

fn are_digits(
    rt: &impl Abort,
    alloc: Global,
    text: &[u8],
    want: Option<&[u8]>,
) -> Result<(), AllocError> {
    let read = hex_bytes(alloc, text)?;
    let bytes = match &read {
        Some(read) => Some(read.as_slice()),
        None => None,
    };
    assert_eq!(rt; bytes, want);
    Ok(())
}

#[test]
fn hexadecimal_digits_are_lower_case_pairs(rt: HostRuntime) -> Result<(), AllocError> {
    for (text, bytes) in DIGITS {
        are_digits(&rt, rt.alloc(), text, *bytes)?;
    }
    Ok(())
}

// What stands in front of a separator and behind it.
type Halves<'a> = Option<(&'a [u8], &'a [u8])>;

const FINISH: Halves<'static> = Some((b"finish", b"0 -"));

const COLON: Halves<'static> = Some((b"0", b"61:62"));

const EMPTY: Halves<'static> = Some((b"", b""));

fn are_halves(rt: &impl Abort, found: Halves<'_>, want: Halves<'_>) {
    assert_eq!(rt; found, want);
}

fn is_behind(rt: &impl Abort, text: &[u8], want: Option<&[u8]>) {
    assert_eq!(rt; strip_word(text, b"say:"), want);
}

#[test]
fn fields_end_at_the_first_separator(rt: HostRuntime) {
    are_halves(&rt, split_at_blank(b"finish 0 -"), FINISH);
    are_halves(&rt, split_at(b"0:61:62", b':'), COLON);
    are_halves(&rt, split_at_blank(b" "), EMPTY);
    are_halves(&rt, split_at_blank(b"flush"), None);
    are_halves(&rt, split_at_blank(b""), None);
    is_behind(&rt, b"say:61", Some(b"61"));
    is_behind(&rt, b"say", None);
    is_behind(&rt, b"said:", None);
}

const LINES: &[(&[u8], &[u8], &[u8])] = &[
    (b"journal", b"journal", b""),
    (b"journal\n", b"journal", b""),
    (b"\n", b"", b""),
    (b"journal\n\n", b"journal", b"\n"),
    (b"journal\nflush", b"journal", b"flush"),
    (b"\r\nflush\n", b"\r", b"flush\n"),
];

#[test]
fn lines_end_at_newlines_or_at_the_end(rt: HostRuntime) {
    for (text, line, rest) in LINES {
        are_halves(&rt, first_line(text), Some((line, rest)));
    }
    are_halves(&rt, first_line(b""), None);
}
