use bytes::Bytes;
use std::alloc::Global;
use std::process::Abort;
use std::test::Fail;
use token_text::{Arg, FormRefused, MessageRefused, TextRefused, TokenBook};

fn added(alloc: Global, formats: &[&[u8]]) -> Result<TokenBook, FormRefused> {
    let mut book = TokenBook::new(alloc);
    for format in formats {
        book.add(format)?;
    }
    Ok(book)
}

fn printed(alloc: Global, book: &TokenBook, message: &[u8]) -> Result<Vec<u8>, TextRefused> {
    let mut text = Vec::new(alloc);
    book.text(message, &mut text)?;
    Ok(text)
}

const FAULTS: &[(&[u8], u32)] = &[
    (b"%", 0),
    (b"a%", 1),
    (b"ab%0d", 2),
    (b"%00d", 0),
    (b"%01", 0),
    (b"%21d", 0),
    (b"%020d%021d", 5),
    (b"%100d", 0),
    (b"%1s", 0),
    (b"%-1d", 0),
    (b"% d", 0),
    (b"%D", 0),
    (b"\x1F", 0),
    (b"ab\x7F", 2),
    (b"ab\xFF", 2),
    (b"\n", 0),
    (b"%d%d%d%d%d%d%d%d%d%d%d%d%d%d%d%d%%%d", 34),
];

fn adds(rt: &impl Abort, book: &mut TokenBook, format: &[u8], want: Result<u32, FormRefused>) {
    assert_eq!(rt; book.add(format), want);
}

const SIXTEEN: &[u8] = b"%d%d%d%d%d%d%d%d%d%d%d%d%d%d%d%s";

#[test]
fn formats_have_tokens(rt: HostRuntime) {
    let mut book = TokenBook::new(rt.alloc());
    adds(&rt, &mut book, b"%d", Ok(828_577_665));
    adds(&rt, &mut book, b"%d", Err(FormRefused::Clash));
    adds(&rt, &mut book, b"%q", Err(FormRefused::Form(0)));
    adds(&rt, &mut book, b"", Ok(0));
    adds(&rt, &mut book, b"a%%b %020x%s%1u~", Ok(786_823_427));
    for (format, at) in FAULTS {
        adds(&rt, &mut book, format, Err(FormRefused::Form(*at)));
    }
    adds(&rt, &mut book, SIXTEEN, Ok(255_638_559));
    let longest = [b'a'; 256];
    adds(&rt, &mut book, &longest, Ok(1_584_652_544));
    let longer = [b'a'; 257];
    adds(&rt, &mut book, &longer, Err(FormRefused::Form(256)));
    let mut wrong = [b'a'; 300];
    wrong[280] = b'\t';
    adds(&rt, &mut book, &wrong, Err(FormRefused::Form(280)));
}

fn are_bytes(rt: &impl Abort, bytes: &[u8], want: &[u8]) {
    assert_eq!(rt; bytes, want);
}

fn prints(
    rt: &impl Abort,
    alloc: Global,
    book: &TokenBook,
    message: &[u8],
    want: &[u8],
) -> Result<(), Fail> {
    are_bytes(rt, printed(alloc, book, message)?.as_slice(), want);
    Ok(())
}

fn refuses(rt: &impl Abort, alloc: Global, book: &TokenBook, message: &[u8], want: TextRefused) {
    assert_eq!(rt; printed(alloc, book, message).err(), Some(want));
}

// Two formats of which each has the token of the other.
#[test]
fn the_second_of_two_formats_with_one_token_clashes(rt: HostRuntime) -> Result<(), Fail> {
    let alloc = rt.alloc();
    let mut book = added(alloc, &[b"camera sent now"])?;
    adds(&rt, &mut book, b"frame was up %s", Err(FormRefused::Clash));
    prints(&rt, alloc, &book, b"\x06\x62\x17\xA8", b"camera sent now")?;
    let other = added(alloc, &[b"frame was up %s"])?;
    let message = b"\x06\x62\x17\xA8\x02hi";
    prints(&rt, alloc, &other, message, b"frame was up hi")
}

const TEXTS: &[(&[u8], &[u8])] = &[
    (b"\xe0\x17\x61\x00", b"a"),
    (b"\x81\x17\x63\x31\x05", b"-3"),
    (b"\x81\x17\x63\x31\x85\x00", b"-3"),
    (b"\x10\x00\xc6\x38\x02hi", b"hi"),
    (b"\x10\x00\xc6\x38\x82hi", b"hi[...]"),
];

const REFUSED: &[(&[u8], TextRefused)] = &[
    (b"\x81\x17\x63\x31\x80", TextRefused::Wrong(4)),
    (b"\x81\x17\x63\x31\x05\x05", TextRefused::Wrong(5)),
    (b"\xe0\x17\x61\x00\x00", TextRefused::Wrong(4)),
    (b"\x10\x00\xc6\x38\x02h\x7f", TextRefused::Wrong(4)),
    (b"\x00", TextRefused::Short),
    (b"\x00\x00\x00\x00", TextRefused::Unknown(0)),
];

#[test]
fn messages_have_texts(rt: HostRuntime) -> Result<(), Fail> {
    let alloc = rt.alloc();
    let book = added(alloc, &[b"a", b"%d", b"%s"])?;
    for (message, text) in TEXTS {
        prints(&rt, alloc, &book, message, text)?;
    }
    for (message, cause) in REFUSED {
        refuses(&rt, alloc, &book, message, *cause);
    }
    Ok(())
}

fn text_of_number(alloc: Global, format: &[u8], number: i64) -> Result<Vec<u8>, Fail> {
    let mut book = TokenBook::new(alloc);
    let token = book.add(format)?;
    let args = vec![in alloc; Arg::Number(number)]?;
    let mut message = Vec::new(alloc);
    book.message(token, &args, &mut message)?;
    Ok(printed(alloc, &book, &message)?)
}

const NUMBERS: &[(&[u8], i64, &[u8])] = &[
    (b"%d", 0, b"0"),
    (b"%d", -1, b"-1"),
    (b"%u", -1, b"18446744073709551615"),
    (b"%x", -1, b"ffffffffffffffff"),
    (b"%d", i64::MIN, b"-9223372036854775808"),
    (b"%u", i64::MIN, b"9223372036854775808"),
    (b"%x", i64::MIN, b"8000000000000000"),
    (b"%d", i64::MAX, b"9223372036854775807"),
    (b"%u", i64::MAX, b"9223372036854775807"),
    (b"%x", i64::MAX, b"7fffffffffffffff"),
    (b"%x", 0xBEEF, b"beef"),
    (b"%1d", 5, b"5"),
    (b"%1d", -5, b"-5"),
    (b"%1d", 55, b"55"),
    (b"%01d", 5, b"5"),
    (b"%2d", 5, b" 5"),
    (b"%3d", -5, b" -5"),
    (b"%03d", -5, b"-05"),
    (b"%02d", -5, b"-5"),
    (b"%20d", -5, b"                  -5"),
    (b"%020d", -5, b"-0000000000000000005"),
    (b"%20u", 5, b"                   5"),
    (b"%020x", -1, b"0000ffffffffffffffff"),
    (b"%020d", i64::MIN, b"-9223372036854775808"),
    (b"%19d", i64::MIN, b"-9223372036854775808"),
    (b"%10x", 255, b"        ff"),
    (b"[%04x]%%", 255, b"[00ff]%"),
    (b"~ %09u ~", 42, b"~ 000000042 ~"),
];

fn number_is_printed(
    rt: &impl Abort,
    alloc: Global,
    row: &(&[u8], i64, &[u8]),
) -> Result<(), Fail> {
    let (format, number, text) = *row;
    let printed = text_of_number(alloc, format, number)?;
    assert_eq!(rt; printed.as_slice(), text, "{}", format.escape_ascii());
    Ok(())
}

#[test]
fn numbers_are_printed(rt: HostRuntime) -> Result<(), Fail> {
    for row in NUMBERS {
        number_is_printed(&rt, rt.alloc(), row)?;
    }
    Ok(())
}

// Why a message that ends so early has no text: its token ends at byte 4, and its numbers at bytes 10 and 12.
fn cut_at(end: usize) -> TextRefused {
    if end < 5 {
        return TextRefused::Short;
    }
    let at = if end < 10 { 4 } else { 9 + u32::from(end > 10) };
    TextRefused::Wrong(at)
}

fn is_cut(rt: &impl Abort, alloc: Global, book: &TokenBook, message: &[u8], end: usize) {
    let (front, _) = message.split_at(end.min(message.len()));
    let cut = printed(alloc, book, front);
    assert_eq!(rt; cut.err(), Some(cut_at(end.saturating_add(1))), "{end}");
}

fn makes_none(
    rt: &impl Abort,
    book: &TokenBook,
    token: u32,
    args: &Vec<Arg>,
    message: &mut Vec<u8>,
    want: MessageRefused,
) {
    assert_eq!(rt; book.message(token, args, message), Err(want));
}

fn length_is(rt: &impl Abort, message: &[u8], want: usize) {
    assert_eq!(rt; message.len(), want);
}

#[test]
fn messages_are_made(rt: HostRuntime) -> Result<(), Fail> {
    let alloc = rt.alloc();
    let mut book = TokenBook::new(alloc);
    let token = book.add(b"%s: %d of %03x")?;
    let mut message = vec![in alloc; 7]?;
    let name = Bytes::copy_from_slice(alloc, b"disk")?;
    let args = vec![in alloc; Arg::Text(name), Arg::Number(-2), Arg::Number(300)]?;
    book.message(token, &args, &mut message)?;
    length_is(&rt, &message, 13);
    are_bytes(&rt, &message.as_slice()[5..], b"\x04disk\x03\xD8\x04");
    prints(&rt, alloc, &book, &message[1..], b"disk: -2 of 12c")?;
    for end in 0..12 {
        is_cut(&rt, alloc, &book, &message[1..], end);
    }
    let args = vec![in alloc; Arg::Number(1)]?;
    makes_none(&rt, &book, token, &args, &mut message, MessageRefused::Args);
    makes_none(&rt, &book, 1, &args, &mut message, MessageRefused::Unknown);
    length_is(&rt, &message, 13);
    Ok(())
}

// The text of so many `~` has at most 127 of them, and a mark behind them.
fn is_long(
    rt: &impl Abort,
    alloc: Global,
    book: &TokenBook,
    tokens: (u32, u32),
    length: usize,
) -> Result<(), Fail> {
    let bytes = vec![in alloc; b'~'; length]?;
    let args = vec![in alloc; Arg::Text(Bytes::copy_from_slice(alloc, &bytes)?)]?;
    let mut message = Vec::new(alloc);
    book.message(tokens.0, &args, &mut message)?;
    makes_none(
        rt,
        book,
        tokens.1,
        &args,
        &mut message,
        MessageRefused::Args,
    );
    let text = printed(alloc, book, &message)?;
    let cut = length > 127;
    length_is(rt, text.as_slice(), if cut { 132 } else { length });
    assert_eq!(rt; text.ends_with(b"~[...]"), cut);
    Ok(())
}

// No text and no format has this byte.
fn is_no_character(
    rt: &impl Abort,
    alloc: Global,
    book: &mut TokenBook,
    token: u32,
    byte: u8,
) -> Result<(), Fail> {
    let args = vec![in alloc; Arg::Text(Bytes::copy_from_slice(alloc, &[b'a', byte])?)]?;
    let mut message = Vec::new(alloc);
    makes_none(rt, book, token, &args, &mut message, MessageRefused::Args);
    adds(rt, book, &[b'a', byte, b'a'], Err(FormRefused::Form(1)));
    Ok(())
}

#[test]
fn long_texts_are_cut(rt: HostRuntime) -> Result<(), Fail> {
    let alloc = rt.alloc();
    let mut book = TokenBook::new(alloc);
    let token = book.add(b"%s")?;
    let number = book.add(b"%d")?;
    for length in 126..130 {
        is_long(&rt, alloc, &book, (token, number), length)?;
    }
    for byte in 0..0x20 {
        is_no_character(&rt, alloc, &mut book, token, byte)?;
    }
    for byte in 0x7F..=0xFF {
        is_no_character(&rt, alloc, &mut book, token, byte)?;
    }
    Ok(())
}
