//! What good lines say.
use link_script::text::read_script;
use link_script::{Command, Loss, Script, Stock};
use std::alloc::Global;
use std::process::Abort;
use std::test::Fail;

const HIGHEST: &[u8] = b"chunk 1024\nwindow 64\nserver 4294967295 65536 18446744073709551615\n\
    left client 4294967295 65536 18446744073709551615\nrepeat 4294967295\nflip 1 4294967295\n\
    read 4294967295 16777216\ncount 255\nclose 8";

const LOWEST: &[u8] = b"chunk 1\nwindow 1\nclient 0 0 0\nleft server 0 0 0\nswap 1\n\
    write 0 0\ncount 0\nclose 1\n";

fn script_of(alloc: Global, text: &[u8]) -> Result<Script, Fail> {
    match read_script(alloc, text)? {
        Ok(script) => Ok(script),
        Err(bad) => Err(Fail::new(format_args!("line {}", bad.line))),
    }
}

fn windows_are(rt: &impl Abort, script: &Script, chunk: Option<u32>, window: Option<u32>) {
    assert_eq!(rt; (script.chunk, script.window), (chunk, window));
}

fn are_stocks(rt: &impl Abort, stocks: &[Stock], want: &[Stock]) {
    assert_eq!(rt; stocks, want);
}

fn are_losses(rt: &impl Abort, losses: &[(u32, Loss)], want: &[(u32, Loss)]) {
    assert_eq!(rt; losses, want);
}

fn are_bytes(rt: &impl Abort, bytes: &[u8], want: &[u8]) {
    assert_eq!(rt; bytes, want);
}

#[test]
fn a_text_of_nothing_says_nothing(rt: HostRuntime) -> Result<(), Fail> {
    let script = script_of(rt.alloc(), b"")?;
    windows_are(&rt, &script, None, None);
    are_stocks(&rt, script.server.as_slice(), &[]);
    assert_eq!(rt; script.commands.as_slice().len(), 0);
    Ok(())
}

const HIGH: &[Stock] = &[Stock {
    id: 4_294_967_295,
    len: 65_536,
    seed: 18_446_744_073_709_551_615,
}];

const HIGH_LOSSES: &[(u32, Loss)] = &[
    (4_294_967_295, Loss::Repeat),
    (1, Loss::Flip(4_294_967_295)),
];

#[test]
fn the_highest_numbers(rt: HostRuntime) -> Result<(), Fail> {
    let script = script_of(rt.alloc(), HIGHEST)?;
    windows_are(&rt, &script, Some(1_024), Some(64));
    are_stocks(&rt, script.server.as_slice(), HIGH);
    are_stocks(&rt, script.left_client.as_slice(), HIGH);
    are_losses(&rt, script.losses.as_slice(), HIGH_LOSSES);
    assert!(rt;
        matches!(
            script.commands.as_slice(),
            [
                Command::Read(4_294_967_295, 16_777_216),
                Command::Count(255),
                Command::Close(8)
            ]
        )
    );
    Ok(())
}

const LOW: &[Stock] = &[Stock {
    id: 0,
    len: 0,
    seed: 0,
}];

const LOW_LOSSES: &[(u32, Loss)] = &[(1, Loss::Swap)];

#[test]
fn the_lowest_numbers(rt: HostRuntime) -> Result<(), Fail> {
    let script = script_of(rt.alloc(), LOWEST)?;
    windows_are(&rt, &script, Some(1), Some(1));
    are_stocks(&rt, script.client.as_slice(), LOW);
    are_stocks(&rt, script.left_server.as_slice(), LOW);
    are_losses(&rt, script.losses.as_slice(), LOW_LOSSES);
    assert!(rt;
        matches!(
            script.commands.as_slice(),
            [Command::Write(0, 0), Command::Count(0), Command::Close(1)]
        )
    );
    Ok(())
}

const ONE_LOST: &[(u32, Loss)] = &[(8, Loss::Lose)];

#[test]
fn messages_are_in_digits(rt: HostRuntime) -> Result<(), Fail> {
    let script = script_of(rt.alloc(), b"drop 8\necho 616263\nsum 00ff\nchat 7e")?;
    are_losses(&rt, script.losses.as_slice(), ONE_LOST);
    let [Command::Echo(echo), Command::Sum(sum), Command::Chat(chat)] = script.commands.as_slice()
    else {
        return Err(Fail::new(format_args!("other commands")));
    };
    are_bytes(&rt, echo.as_slice(), b"abc");
    are_bytes(&rt, sum.as_slice(), b"\x00\xFF");
    are_bytes(&rt, chat.as_slice(), b"\x7E");
    Ok(())
}
